// A volume labelled, written, purged and adopted, on a drive in memory.
ghost use Rattle.std.specs.Prelude.{◌≡◌, None, Some, OnOk, OnErr};

use crate::names::KEY;
use sd_base::{LEAST_BODY, MOST_BODY, MOST_VOLUME, VolName};
use sd_block::FramedBody;
use sd_driver::{Driver, DriverFault};
use sd_label::VolumeLabel;
use sd_memdrive::MemDrive;
use sd_volume::{
    AdoptFault, Appended, Volume, VolumeReader, VolumeStatus, adopt, append_block, label_new,
    next_block, purge,
};
use std::alloc::{AllocError, Global};
use std::io;

/// The greatest length of the volume while blocks are added: it is full after two of them.
const LIMIT: u64 = 3000;

/// Labels a volume, fills it, purges it and fills it again, adopts it and goes over its blocks.
pub fn run(rt: HostRuntime, label: &VolumeLabel) -> io::Result<()> {
    // A label that was out of memory after its create leaves the name on the shelf: the second try has a drive
    // of its own.
    if write(rt, label)? || write(rt, label)? {
        return Ok(());
    }
    Err(io::Error::other("the volume isn't labelled"))
}

// Whether the volume was labelled, on a new drive; if so, all the rest is done too.
fn write(rt: HostRuntime, label: &VolumeLabel) -> io::Result<bool> {
    let mut drive = MemDrive::new(rt.alloc(), 10_000, &[])?;
    let Ok(mut volume) = label_new(rt.alloc(), &mut drive, label) else {
        return Ok(false);
    };
    print_added(rt, &mut drive, &mut volume)?;
    print_purged(rt, &mut drive, &mut volume)?;
    print_added(rt, &mut drive, &mut volume)?;
    print_adopted(rt, &mut drive, label)?;
    Ok(true)
}

fn print_added<D: Driver>(rt: HostRuntime, drive: &mut D, volume: &mut Volume) -> io::Result<()>
    requires { (D.meaning drive.old).loaded ≡ None }
    ensures { (D.meaning drive.new).loaded ≡ None }
{
    let added = fill(rt.alloc(), drive, volume);
    let end = volume.end();
    println!(rt; "two blocks are added: {added}; volume of {end} bytes")
}

fn print_purged<D: Driver>(rt: HostRuntime, drive: &mut D, volume: &mut Volume) -> io::Result<()>
    requires { (D.meaning drive.old).loaded ≡ None }
    ensures { (D.meaning drive.new).loaded ≡ None }
{
    let full = volume.status() == VolumeStatus::Full;
    let purged = use_anew(drive, volume).is_ok();
    let end = volume.end();
    let next = volume.next_number();
    println!(rt; "full: {full}; purged: {purged}; volume of {end} bytes, next block {next}")
}

fn print_adopted<D: Driver>(rt: HostRuntime, drive: &mut D, label: &VolumeLabel) -> io::Result<()>
    requires { (D.meaning drive.old).loaded ≡ None }
{
    let adopted = match take_over(rt.alloc(), drive, label) {
        Err(AdoptFault::Memory) => take_over(rt.alloc(), drive, label),
        adopted => adopted,
    };
    match &adopted {
        Ok(volume) => print_blocks(rt, drive, volume),
        Err(_) => Err(io::Error::other("the volume isn't adopted")),
    }
}

// Whether two blocks were added, and none more.
fn fill<D: Driver>(alloc: Global, drive: &mut D, volume: &mut Volume) -> bool
    requires { (D.meaning drive.old).loaded ≡ None }
    ensures { (D.meaning drive.new).loaded ≡ None }
{
    if load(drive, volume.name()).is_err() {
        return false;
    }
    let filled = match make_body(alloc) {
        Ok(mut body) => fill_with(drive, volume, &mut body),
        Err(_) => false,
    };
    drive.unload();
    filled
}

fn make_body(alloc: Global) -> Result<FramedBody, AllocError> {
    match FramedBody::from_slice(alloc, &[7; 1000]) {
        Err(AllocError) => FramedBody::from_slice(alloc, &[7; 1000]),
        body => body,
    }
}

fn fill_with<D: Driver>(drive: &mut D, volume: &mut Volume, body: &mut FramedBody) -> bool
    requires { (D.meaning drive.old).loaded ≡ Some volume.old.name }
{
    let first = add(drive, volume, body);
    let second = add(drive, volume, body);
    let third = add(drive, volume, body);
    first && second && !third
}

fn load<D: Driver>(drive: &mut D, name: &VolName) -> Result<(), DriverFault>
    requires { (D.meaning drive.old).loaded ≡ None }
    ensures ok { OnOk result ((D.meaning drive.new).loaded ≡ Some name.now) }
    ensures err { OnErr result ((D.meaning drive.new).loaded ≡ None) }
{
    match drive.load(name) {
        Err(DriverFault::Memory) => drive.load(name),
        answer => answer,
    }
}

// Whether one block more was added.
fn add<D: Driver>(drive: &mut D, volume: &mut Volume, body: &mut FramedBody) -> bool
    requires { (D.meaning drive.old).loaded ≡ Some volume.old.name }
    ensures loaded { (D.meaning drive.new).loaded ≡ (D.meaning drive.old).loaded }
    ensures name { volume.new.name ≡ volume.old.name }
{
    let appended = match append(drive, volume, body) {
        Appended::Memory => append(drive, volume, body),
        appended => appended,
    };
    matches!(appended, Appended::At { .. })
}

fn append<D: Driver>(drive: &mut D, volume: &mut Volume, body: &mut FramedBody) -> Appended
    requires { (D.meaning drive.old).loaded ≡ Some volume.old.name }
    ensures loaded { (D.meaning drive.new).loaded ≡ (D.meaning drive.old).loaded }
    ensures name { volume.new.name ≡ volume.old.name }
{
    let VolumeStatus::Append = volume.status() else {
        return Appended::Fault;
    };
    if body.len() < LEAST_BODY || body.len() > MOST_BODY {
        return Appended::Fault;
    }
    append_block(drive, volume, KEY, body, LIMIT)
}

fn use_anew<D: Driver>(drive: &mut D, volume: &mut Volume) -> Result<(), AdoptFault>
    requires { (D.meaning drive.old).loaded ≡ None }
    ensures { (D.meaning drive.new).loaded ≡ None }
{
    match purge(drive, volume) {
        Err(AdoptFault::Memory) => purge(drive, volume),
        answer => answer,
    }
}

// Adopts the volume in a run after the one that wrote it.
fn take_over<D: Driver>(
    alloc: Global,
    drive: &mut D,
    label: &VolumeLabel,
) -> Result<Volume, AdoptFault>
    requires { (D.meaning drive.old).loaded ≡ None }
    ensures { (D.meaning drive.new).loaded ≡ None }
{
    adopt(alloc, drive, &label.name, &label.media, 2000, MOST_VOLUME)
}

// Prints each block of the volume.
fn print_blocks<D: Driver>(rt: HostRuntime, drive: &mut D, volume: &Volume) -> io::Result<()> {
    let mut reader = match VolumeReader::new(rt.alloc(), volume.name()) {
        Ok(reader) => reader,
        Err(_) => VolumeReader::new(rt.alloc(), volume.name())?,
    };
    let mut at = 0;
    for _ in 0..volume.next_number() {
        at = print_block(rt, drive, &mut reader, at)?;
    }
    Ok(())
}

// Prints the block that begins there. Where it ends.
fn print_block<D: Driver>(
    rt: HostRuntime,
    drive: &mut D,
    reader: &mut VolumeReader,
    at: u64,
) -> io::Result<u64> {
    let Ok(Some(head)) = next_block(drive, reader, at) else {
        return Err(io::Error::other("no block stands there"));
    };
    let number = head.number;
    let size = head.size;
    println!(rt; "block {number} at {at}, {size} bytes")?;
    Ok(at.wrapping_add(size as u64))
}
