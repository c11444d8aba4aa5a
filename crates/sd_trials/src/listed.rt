// An example as one list of events that a world is given, and what is read of its sessions.

use crate::events::{are_records_of, deeds_of, events_of};
use crate::rows::Row;
use crate::worlds::{CAPACITY, drives, queues, settings, stores, world_over};
use sd_base::{Items, Rec, SessionKey};
use sd_core::{Reply, Span};
use sd_memdrive::MemDrive;
use sd_theorem::run_and_read;
use std::alloc::Global;
use std::io;

/// The time of the run.
pub const TIME: u32 = 1000;

/// A session that was closed: its ticket, and what the close told.
#[derive(Drop)]
pub struct Closed {
    pub ticket: u32,
    pub key: SessionKey,
    pub spans: Items<Span>,
}

/// Gives a world all events of an example at once. Then each closed session is read by `run_and_read`, in a world of its own
/// that is given the same list.
pub fn run(rt: HostRuntime, row: &Row) -> io::Result<()> {
    let alloc = rt.alloc();
    let deeds = deeds_of(alloc, row)?;
    let device = MemDrive::new(alloc, CAPACITY, &[])?;
    let mut world = world_over(alloc, row, TIME, device, stores(alloc, Vec::new(alloc))?)?;
    let replies = world.run(events_of(alloc, &deeds)?)?;
    let closed = closed_in(alloc, row, replies)?;
    let mut read = 0u32;
    for one in &closed {
        if reads_alone(alloc, row, one)? {
            read = read.saturating_add(1);
        }
    }
    let (name, count) = (row.name, closed.len());
    println!(rt;
        "{name}: a list of events closes {count} sessions, of which {read} read to their records"
    )
}

/// The sessions that the last replies tell to be closed.
pub fn closed_in(alloc: Global, row: &Row, replies: Vec<Reply>) -> io::Result<Vec<Closed>> {
    let mut closed = Vec::with_capacity(alloc, row.closes.len())?;
    let mut replies = replies;
    for ticket in row.closes.iter().rev() {
        if let Some(Reply::Closed { key, spans }) = replies.pop() {
            closed.push(Closed {
                ticket: *ticket,
                key,
                spans,
            })?;
        }
    }
    Ok(closed)
}

// Whether the session reads to its records in another world that is given the same events.
fn reads_alone(alloc: Global, row: &Row, closed: &Closed) -> io::Result<bool> {
    let deeds = deeds_of(alloc, row)?;
    let events = events_of(alloc, &deeds)?;
    let conf = settings(row, drives(alloc)?);
    let devices = vec![in alloc; MemDrive::new(alloc, CAPACITY, &[])?]?;
    let stores = stores(alloc, Vec::new(alloc))?;
    let mut recs: Vec<Rec> = Vec::new(alloc);
    let told = run_and_read(
        alloc,
        conf,
        TIME,
        devices,
        queues(alloc)?,
        stores,
        events,
        closed.key,
        closed.spans.as_slice(),
        &mut recs,
    );
    let Some(told) = told else {
        return Err(io::ErrorKind::OutOfMemory.into());
    };
    match told.end {
        Ok(end) => Ok(end.ended && are_records_of(row, closed.ticket, &recs)),
        Err(_) => Ok(false),
    }
}
