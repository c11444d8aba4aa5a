// A session packed, sealed, opened and unpacked again.
use crate::names::{KEY, Names};
use sd_base::{Bytes, LEAST_BODY, MOST_BLOCK, MOST_BODY, Rec};
use sd_block::{open_block, seal};
use sd_label::Totals;
use sd_pack::{Body, Packer};
use sd_unpack::{AddFault, Unpacker};
use std::alloc::Global;
use std::io;

/// Records of which the second goes on over several bodies.
static SIZES: [usize; 3] = [863, 3000, 0];

/// Packs the records at the least block limit, and takes them back.
pub fn run(rt: HostRuntime, names: &Names) -> io::Result<()> {
    let mut packer = match Packer::new(rt.alloc(), 1024) {
        Ok(packer) => packer,
        Err(_) => Packer::new(rt.alloc(), 1024)?,
    };
    pack(rt.alloc(), names, &mut packer)?;
    unpack(rt, &mut packer)
}

fn pack(alloc: Global, names: &Names, packer: &mut Packer) -> io::Result<()> {
    put_label(names, packer, None)?;
    let mut index = 0u32;
    for size in &SIZES {
        index = index.wrapping_add(1);
        put(alloc, packer, index, *size)?;
    }
    let totals = Totals {
        records: 3,
        bytes: 3863,
    };
    put_label(names, packer, Some(totals))?;
    packer.finish();
    Ok(())
}

fn put_label(names: &Names, packer: &mut Packer, totals: Option<Totals>) -> io::Result<()> {
    let label = names.session_label(totals);
    if packer.put_label(&label).is_err() {
        packer.put_label(&label)?;
    }
    Ok(())
}

fn put(alloc: Global, packer: &mut Packer, index: u32, size: usize) -> io::Result<()> {
    let bytes = Bytes::from_vec(vec![in alloc; 0x78u8; size]?);
    let Some(rec) = Rec::new(index, 2, bytes) else {
        return Err(io::Error::other("a record"));
    };
    if packer.put(&rec).is_err() {
        packer.put(&rec)?;
    }
    Ok(())
}

// Takes the bodies that wait, and unpacks each by way of its block.
fn unpack(rt: HostRuntime, packer: &mut Packer) -> io::Result<()> {
    let mut unpacker = Unpacker::new(rt.alloc());
    for _ in 0..packer.waiting() {
        if let Some(body) = packer.take_body() {
            pass(rt, &mut unpacker, &body)?;
        }
    }
    let ended = unpacker.ended();
    println!(rt; "session ended: {ended}")
}

// Seals a body, opens the block and unpacks it.
fn pass(rt: HostRuntime, unpacker: &mut Unpacker, body: &Body) -> io::Result<()> {
    let size = seal_and_add(rt.alloc(), unpacker, body.bytes.as_slice())?;
    let first = body.first;
    let last = body.last;
    println!(rt; "block of {size} bytes, records {first} to {last}")?;
    for _ in 0..SIZES.len() {
        if let Some(rec) = unpacker.take_record() {
            print_record(rt, &rec)?;
        }
    }
    Ok(())
}

// How many bytes the block has.
fn seal_and_add(alloc: Global, unpacker: &mut Unpacker, body: &[u8]) -> io::Result<usize> {
    if body.len() < LEAST_BODY || body.len() > MOST_BODY {
        return Err(io::Error::other("a body"));
    }
    let block = match seal(alloc, KEY, 1, body) {
        Ok(block) => block,
        Err(_) => seal(alloc, KEY, 1, body)?,
    };
    add(unpacker, &block)
}

fn add(unpacker: &mut Unpacker, block: &[u8]) -> io::Result<usize> {
    let Ok(opened) = open_block(block, MOST_BLOCK) else {
        return Err(io::Error::other("a block"));
    };
    if let Err(AddFault::Memory) = unpacker.add(opened.body) {
        if unpacker.add(opened.body).is_err() {
            return Err(io::Error::other("a body is refused"));
        }
    }
    Ok(block.len())
}

fn print_record(rt: HostRuntime, rec: &Rec) -> io::Result<()> {
    let index = rec.index;
    let length = rec.bytes.len();
    println!(rt; "record {index} of {length} bytes")
}
