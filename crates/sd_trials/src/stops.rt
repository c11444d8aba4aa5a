// An example whose device stops after each of its changes, with bytes behind what lasted.
ghost use Rattle.std.specs.Prelude.{◌≤◌, ◌∷◌, [], codes};
ghost use Rattle.sd_core.specs.Conf.{AreStores};
ghost use Rattle.sd_memdrive.specs.Drive.{meaning_of};

use crate::events::{are_records_of, deeds_of, drive, events_of};
use crate::listed::{Closed, TIME, closed_in};
use crate::rows::{Deed, Row};
use crate::worlds::{CAPACITY, WorldOver, stores, world_over};
use sd_base::Rec;
use sd_core::Reply;
use sd_driver::Driver;
use sd_machine::Event;
use sd_memdrive::MemDrive;
use sd_spool::SpoolStore;
use sd_theorem::{leave, read_again};
use std::alloc::Global;
use std::io;

/// What lies behind what lasted of each volume.
pub static TAIL: [u8; 500] = [0; 500];

/// The time of the run after a stop.
pub const LATER: u32 = 2000;

/// A session, and after how many changes of the device it was told to be closed.
#[derive(Drop)]
pub struct Told {
    pub closed: Closed,
    pub calls: u64,
}

/// Stops the example's device after each change. Each session that was told to be closed by then is read in a later run, which
/// took over the volumes.
pub fn run(rt: HostRuntime, row: &Row) -> io::Result<()> {
    let alloc = rt.alloc();
    let told = told_by(alloc, row)?;
    let (device, _) = play_in_memory(alloc, row, row.closes.len())?;
    let (mut due, mut read) = (0u32, 0u32);
    for calls in 0..=device.calls() {
        for one in told.iter().filter(|one| one.calls <= calls) {
            due = due.saturating_add(1);
            if is_read_after(alloc, row, &device, calls, &one.closed)? {
                read = read.saturating_add(1);
            }
        }
    }
    let (name, stops) = (row.name, device.calls().saturating_add(1));
    println!(rt;
        "{name}: {stops} stops, after which {read} of {due} sessions told to be closed read to their records"
    )
}

// Plays it in memory.
fn play_in_memory(alloc: Global, row: &Row, closes: usize) -> io::Result<(MemDrive, Vec<Closed>)> {
    let device = MemDrive::new(alloc, CAPACITY, &[])?;
    let stores = stores(alloc, Vec::new(alloc))?;
    play(alloc, row, device, stores, closes)
}

/// Plays an example of which so many sessions are closed. Gives its device, and what these closes told.
pub fn play<D: Driver + Drop, S: SpoolStore + Drop>(
    alloc: Global,
    row: &Row,
    device: D,
    stores: Vec<Vec<S>>,
    closes: usize,
) -> io::Result<(D, Vec<Closed>)>
    requires { AreStores ((codes "File", 4) ∷ []) stores.items }
{
    let mut deeds = deeds_of(alloc, row)?;
    let left = row.closes.len().saturating_sub(closes);
    for _ in 0..left {
        let _: Option<Deed> = deeds.pop();
    }
    let mut world = world_over(alloc, row, TIME, device, stores)?;
    let replies = world.run(events_of(alloc, &deeds)?)?;
    let closed = if left == 0 {
        closed_in(alloc, row, replies)?
    } else {
        Vec::new(alloc)
    };
    Ok((device_of(world)?, closed))
}

/// The device of a world that has one drive.
pub fn device_of<D: Driver + Drop, S: SpoolStore + Drop>(world: WorldOver<D, S>) -> io::Result<D> {
    match world.into_drivers() {
        Ok(mut devices) => match devices.pop() {
            Some(device) => Ok(device),
            None => Err(io::Error::other("no device")),
        },
        Err(_) => Err(io::ErrorKind::OutOfMemory.into()),
    }
}

// The sessions, each with how many changes the device had made when it was told to be closed.
fn told_by(alloc: Global, row: &Row) -> io::Result<Vec<Told>> {
    let (_, closed) = play_in_memory(alloc, row, row.closes.len())?;
    let mut told = Vec::with_capacity(alloc, closed.len())?;
    let mut closes = closed.len();
    for one in closed {
        let (device, _) = play_in_memory(alloc, row, closes)?;
        let calls = device.calls();
        told.push(Told { closed: one, calls })?;
        closes = closes.saturating_sub(1);
    }
    Ok(told)
}

// Whether a session reads to its records in a run after a stop.
fn is_read_after(
    alloc: Global,
    row: &Row,
    device: &MemDrive,
    calls: u64,
    closed: &Closed,
) -> io::Result<bool>
    requires { calls ≤ (meaning_of device.now).shelf.moment }
{
    let left = leave(alloc, device, calls, &TAIL)?;
    let mut world = world_over(alloc, row, LATER, left, stores(alloc, Vec::new(alloc))?)?;
    if !adopts(&mut world, closed)? {
        return Ok(false);
    }
    let mut recs: Vec<Rec> = Vec::new(alloc);
    match read_again(&mut world, closed.key, closed.spans.as_slice(), &mut recs) {
        Ok(end) => Ok(end.ended && are_records_of(row, closed.ticket, &recs)),
        Err(_) => Ok(false),
    }
}

/// Whether a world takes over the volumes of a closed session.
pub fn adopts<D: Driver + Drop, S: SpoolStore + Drop>(
    world: &mut WorldOver<D, S>,
    closed: &Closed,
) -> io::Result<bool> {
    for span in closed.spans.as_slice() {
        let name = span.volume.copy();
        let drive = drive()?;
        let Reply::Adopted { .. } = world.step(Event::Adopt { drive, name }) else {
            return Ok(false);
        };
    }
    Ok(true)
}
