// An example, each event of which is given once more if it was refused for want of memory; and a later run over its devices.

use crate::events::{are_records_of, deeds_of, drive, event_of};
use crate::listed::TIME;
use crate::rows::{Deed, Row};
use crate::worlds::{CAPACITY, MemWorld, stores, world_over};
use sd_base::{Items, Rec, Refusal, SessionKey};
use sd_core::{ReadEnd, Reply, Span};
use sd_machine::Event;
use sd_memdrive::MemDrive;
use std::alloc::{AllocError, Global};
use std::io;

/// The time of the later run.
const LATER: u32 = 2000;

/// Plays an example by lists of one event each, reads its sessions, and reads them again in a later run that took over the
/// volumes. A label that is refused ends the run, since its name may be on the shelf.
pub fn run(rt: HostRuntime, row: &Row) -> io::Result<()> {
    let alloc = rt.alloc();
    let device = MemDrive::new(alloc, CAPACITY, &[])?;
    let mut world = world_over(alloc, row, TIME, device, stores(alloc, Vec::new(alloc))?)?;
    let mut closed = Vec::with_capacity(alloc, row.closes.len())?;
    for deed in &deeds_of(alloc, row)? {
        let reply = give(alloc, &mut world, *deed)?;
        if let (Deed::Close(of), Reply::Closed { key, spans }) = (*deed, reply) {
            closed.push((of, key, spans))?;
        }
    }
    let now = read_all(alloc, row, &mut world, &closed)?;
    let mut later = later_world(alloc, row, world)?;
    for (_, _, spans) in &closed {
        adopt_all(&mut later, spans.as_slice())?;
    }
    let again = read_all(alloc, row, &mut later, &closed)?;
    let (name, count) = (row.name, closed.len());
    println!(rt; "{name}: {count} closed, {now} read to their records, {again} in a later run")
}

// Gives the world one event as a list, once more if it was refused for want of memory.
fn give(alloc: Global, world: &mut MemWorld, deed: Deed) -> io::Result<Reply> {
    match step(alloc, world, deed)? {
        Reply::Refused(Refusal::Memory) => match deed {
            Deed::Label(_) => Err(AllocError.into()),
            _ => step(alloc, world, deed),
        },
        reply => Ok(reply),
    }
}

// The reply to one event, which is given as a list.
fn step(alloc: Global, world: &mut MemWorld, deed: Deed) -> io::Result<Reply> {
    let one = vec![in alloc; event_of(alloc, deed)?]?;
    let mut replies = match world.run(one) {
        Ok(replies) => replies,
        Err(_) => world.run(vec![in alloc; event_of(alloc, deed)?]?)?,
    };
    match replies.pop() {
        Some(reply) => Ok(reply),
        None => Err(io::Error::other("no reply")),
    }
}

// A world for a later run, over the devices of this one.
fn later_world(alloc: Global, row: &Row, world: MemWorld) -> io::Result<MemWorld> {
    let devices = match world.into_drivers() {
        Ok(devices) => Ok(devices),
        Err(world) => world.into_drivers(),
    };
    let Ok(mut devices) = devices else {
        return Err(AllocError.into());
    };
    match devices.pop() {
        Some(device) => Ok(world_over(alloc, row, LATER, device, stores(alloc, Vec::new(alloc))?)?),
        None => Err(io::Error::other("no device")),
    }
}

// Takes over the volumes of these spans.
fn adopt_all(world: &mut MemWorld, spans: &[Span]) -> io::Result<()> {
    for span in spans {
        if let Reply::Refused(Refusal::Memory) = adopt(world, span)? {
            adopt(world, span)?;
        }
    }
    Ok(())
}

fn adopt(world: &mut MemWorld, span: &Span) -> io::Result<Reply> {
    let (drive, name) = (drive()?, span.volume.copy());
    Ok(world.step(Event::Adopt { drive, name }))
}

// How many of the sessions read to their records.
fn read_all(
    alloc: Global,
    row: &Row,
    world: &mut MemWorld,
    closed: &[(u32, SessionKey, Items<Span>)],
) -> io::Result<u32> {
    let mut count = 0u32;
    for (of, key, spans) in closed {
        let read = match read(alloc, row, world, *of, *key, spans.as_slice()) {
            Err(Refusal::Memory) => read(alloc, row, world, *of, *key, spans.as_slice()),
            read => read,
        };
        if let Ok(true) = read {
            count = count.saturating_add(1);
        }
    }
    Ok(count)
}

// Whether a session reads to its records.
fn read(
    alloc: Global,
    row: &Row,
    world: &mut MemWorld,
    of: u32,
    key: SessionKey,
    spans: &[Span],
) -> Result<bool, Refusal> {
    let mut recs: Vec<Rec> = Vec::new(alloc);
    let end: ReadEnd = world.read(key, spans, &mut recs)?;
    Ok(end.ended && are_records_of(row, of, &recs))
}
