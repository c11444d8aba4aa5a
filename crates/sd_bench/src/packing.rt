// Packing records into bodies, each with its checksum, and unpacking them again, beside a copy of as many bytes.
use crate::rate::{Length, print_copies, print_rate, tell};
use sd_base::{Bytes, JobId, MediaName, PoolName, Rec};
use sd_label::SessionLabel;
use sd_pack::{Body, Packer};
use sd_unpack::Unpacker;
use std::alloc::Global;
use std::time::Instant;

/// The records of a timed run are some 400 MB; at any time 16 MB of them are packed.
const AT_ONCE: usize = 16_000_000;

/// The block limit that the daemon has if nothing else is said.
const BLOCK: usize = 64_512;

/// What becomes of the bodies that a packer closes.
#[derive(Clone, Copy)]
pub enum Bodies {
    /// Each is let go, as a session does.
    PassedOn,
    Kept,
}

/// Packs and unpacks records of a small and of a large file's size.
pub fn run(rt: HostRuntime, length: Length) -> bool {
    pack_and_unpack(rt, length, "4,000 bytes", 4_000)
        && pack_and_unpack(rt, length, "1,000,000 bytes", 1_000_000)
}

fn pack_and_unpack(rt: HostRuntime, length: Length, label: &str, size: usize) -> bool {
    let (count, rounds) = match length {
        Length::Once => (2, 1),
        Length::Timed => (AT_ONCE / size.max(1), 25),
    };
    let Some(rec) = record(rt.alloc(), size) else {
        return false;
    };
    let bytes = rec.bytes.as_slice();
    let mut all = print_copies(
        rt,
        length,
        "copy of the records",
        bytes,
        count.saturating_mul(rounds),
    );
    let mut bodies = Vec::new(rt.alloc());
    let whole = size.wrapping_mul(count);
    let start = Instant::now(&rt);
    for _ in 0..rounds {
        all &= pack(rt.alloc(), &rec, count, Bodies::PassedOn, &mut bodies) > whole;
    }
    print_rate(rt, length, "pack", start, whole, rounds);
    all &= pack(rt.alloc(), &rec, count, Bodies::Kept, &mut bodies) > whole;
    all && print_unpacks(rt, length, label, &bodies, whole, count, rounds)
}

/// A record of so many bytes.
pub fn record(alloc: Global, size: usize) -> Option<Rec> {
    let bytes = vec![in alloc; 0x5au8; size].ok()?;
    Rec::new(1, 2, Bytes::from_vec(bytes))
}

/// Packs a session of so many of this record, without its end label. How many bytes its bodies have; 0 without
/// memory.
pub fn pack(alloc: Global, rec: &Rec, count: usize, fate: Bodies, bodies: &mut Vec<Body>) -> usize {
    let Ok(mut packer) = Packer::new(alloc, BLOCK) else {
        return 0;
    };
    let mut all = put_label(&mut packer);
    let mut bytes = 0usize;
    for _ in 0..count {
        all &= packer.put(rec).is_ok();
        bytes = bytes.wrapping_add(take_all(&mut packer, fate, bodies));
    }
    packer.finish();
    bytes = bytes.wrapping_add(take_all(&mut packer, fate, bodies));
    if all { bytes } else { 0 }
}

// Takes the bodies that wait. How many bytes they had.
fn take_all(packer: &mut Packer, fate: Bodies, bodies: &mut Vec<Body>) -> usize {
    let mut bytes = 0usize;
    for _ in 0..packer.waiting() {
        if let Some(body) = packer.take_body() {
            bytes = bytes.wrapping_add(body.bytes.len());
            if let Bodies::Kept = fate {
                // One that finds no room is missed when they are unpacked.
                let _ = bodies.push(body);
            }
        }
    }
    bytes
}

// Unpacks so many times, and tells whether all records came out each time.
fn print_unpacks(
    rt: HostRuntime,
    length: Length,
    label: &str,
    bodies: &[Body],
    whole: usize,
    count: usize,
    rounds: usize,
) -> bool {
    let start = Instant::now(&rt);
    let mut all = true;
    for _ in 0..rounds {
        all &= unpacked(rt.alloc(), bodies) == count;
    }
    print_rate(rt, length, "unpack", start, whole, rounds);
    tell(rt, "records of", label, "come back", all)
}

// How many records the bodies give; 0 if one is damaged.
fn unpacked(alloc: Global, bodies: &[Body]) -> usize {
    let mut unpacker = Unpacker::new(alloc);
    let mut all = true;
    let mut records = 0usize;
    for body in bodies {
        all &= unpacker.add(body.bytes.as_slice()).is_ok();
        records = records.wrapping_add(take_records(&mut unpacker, body.bytes.len()));
    }
    if all { records } else { 0 }
}

// How many records were whole, of at most so many.
fn take_records(unpacker: &mut Unpacker, most: usize) -> usize {
    let mut records = 0usize;
    for _ in 0..most {
        let Some(_rec) = unpacker.take_record() else {
            break;
        };
        records = records.wrapping_add(1);
    }
    records
}

fn put_label(packer: &mut Packer) -> bool {
    let (Some(job), Ok(pool), Ok(media)) = (
        JobId::new(7),
        PoolName::parse("Default"),
        MediaName::parse("File"),
    ) else {
        return false;
    };
    let label = SessionLabel {
        job,
        pool,
        media,
        moment: 0,
        totals: None,
    };
    packer.put_label(&label).is_ok()
}
