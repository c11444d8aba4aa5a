// A drive in memory: its calls, and a stop after each of those that changed it.
ghost use Rattle.std.specs.Prelude.{◌≡◌, None, IsSome, OnOk};

use sd_base::VolName;
use sd_driver::{Driver, DriverFault};
use sd_memdrive::MemDrive;
use std::io;

/// Writes a volume, syncs and cuts it, and stops the device after each call that changed its shelf.
pub fn run(rt: HostRuntime, name: &VolName) -> io::Result<()> {
    let mut drive = match MemDrive::new(rt.alloc(), 1000, &[]) {
        Ok(drive) => drive,
        Err(_) => MemDrive::new(rt.alloc(), 1000, &[])?,
    };
    if write(&mut drive, name).is_err() {
        return Err(io::Error::other("a device fault"));
    }
    print_stops(rt, &drive, name)
}

fn print_stops(rt: HostRuntime, drive: &MemDrive, name: &VolName) -> io::Result<()> {
    let calls = drive.calls();
    println!(rt; "calls that changed the shelf: {calls}")?;
    for call in 0..=calls {
        let mut left = match drive.after_stop(rt.alloc(), call, b"tail") {
            Ok(left) => left,
            Err(_) => drive.after_stop(rt.alloc(), call, b"tail")?,
        };
        print_left(rt, &mut left, name, call)?;
    }
    Ok(())
}

fn print_left<D: Driver>(
    rt: HostRuntime,
    left: &mut D,
    name: &VolName,
    call: u64,
) -> io::Result<()> {
    match left.len(name) {
        Ok(length) => println!(rt; "after {call}: {length} bytes"),
        Err(_) => println!(rt; "after {call}: no volume"),
    }
}

fn write<D: Driver>(drive: &mut D, name: &VolName) -> Result<(), DriverFault>
    requires { (D.meaning drive.old).loaded ≡ None }
{
    create(drive, name)?;
    append(drive, &[1; 300])?;
    drive.sync()?;
    append(drive, &[2; 500])?;
    cut(drive, 200)?;
    append(drive, &[3; 100])
}

// The three calls that take memory, each made once more if it was out of memory.

fn create<D: Driver>(drive: &mut D, name: &VolName) -> Result<(), DriverFault>
    requires { (D.meaning drive.old).loaded ≡ None }
    ensures { OnOk result (IsSome (D.meaning drive.new).loaded) }
{
    match drive.create(name) {
        Err(DriverFault::Memory) => drive.create(name),
        answer => answer,
    }
}

fn append<D: Driver>(drive: &mut D, bytes: &[u8]) -> Result<(), DriverFault>
    requires { IsSome (D.meaning drive.old).loaded }
    ensures { (D.meaning drive.new).loaded ≡ (D.meaning drive.old).loaded }
{
    match drive.append(bytes) {
        Err(DriverFault::Memory) => drive.append(bytes),
        answer => answer,
    }
}

fn cut<D: Driver>(drive: &mut D, to: u64) -> Result<(), DriverFault>
    requires { IsSome (D.meaning drive.old).loaded }
    ensures { (D.meaning drive.new).loaded ≡ (D.meaning drive.old).loaded }
{
    match drive.cut(to) {
        Err(DriverFault::Memory) => drive.cut(to),
        answer => answer,
    }
}
