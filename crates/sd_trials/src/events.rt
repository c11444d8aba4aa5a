// The events of an example, and what its sessions are to read to.

use crate::rows::{Deed, ROUND, ROUNDS, Row, letter_of};
use sd_base::{Bytes, DriveNo, JobId, MediaName, Name, PoolName, Rec, Ticket, VolName};
use sd_machine::Event;
use std::alloc::{AllocError, Global};
use std::io;

/// The deeds of an example one by one, its rounds and its closes among them.
pub fn deeds_of(alloc: Global, row: &Row) -> Result<Vec<Deed>, AllocError> {
    let mut deeds = row.deeds.to_vec(alloc)?;
    for _round in 0..ROUNDS {
        add(&mut deeds, &ROUND)?;
    }
    for ticket in row.closes {
        deeds.push(Deed::Close(*ticket))?;
    }
    Ok(deeds)
}

fn add(deeds: &mut Vec<Deed>, more: &[Deed]) -> Result<(), AllocError> {
    for deed in more {
        deeds.push(*deed)?;
    }
    Ok(())
}

/// The events of these deeds.
pub fn events_of(alloc: Global, deeds: &[Deed]) -> io::Result<Vec<Event>> {
    let mut events = Vec::with_capacity(alloc, deeds.len())?;
    for deed in deeds {
        events.push(event_of(alloc, *deed)?)?;
    }
    Ok(events)
}

/// The event of a deed.
pub fn event_of(alloc: Global, deed: Deed) -> io::Result<Event> {
    let drive = drive()?;
    match deed {
        Deed::Label(number) => Ok(label(drive, number)),
        Deed::Open(job) => open(job),
        Deed::Record(of, index, size) => append(alloc, of, index, size),
        Deed::Take => Ok(Event::Take { drive }),
        Deed::Place => Ok(Event::Place { drive }),
        Deed::Seek => Ok(Event::Seek { drive }),
        Deed::Sync => Ok(Event::Sync { drive }),
        Deed::Spool(of) | Deed::Despool(of) | Deed::End(of) | Deed::Close(of) => {
            Ok(event_of_session(deed, ticket(of)?))
        }
    }
}

// What a session alone does.
fn event_of_session(deed: Deed, ticket: Ticket) -> Event {
    match deed {
        Deed::Spool(_) => Event::Spool { ticket },
        Deed::Despool(_) => Event::Despool { ticket },
        Deed::End(_) => Event::End { ticket, moment: 0 },
        _ => Event::Close { ticket },
    }
}

/// The drive of all examples.
pub fn drive() -> io::Result<DriveNo> {
    match DriveNo::new(1) {
        Some(drive) => Ok(drive),
        None => Err(io::Error::other("no drive")),
    }
}

/// The ticket of this number.
pub fn ticket(number: u32) -> io::Result<Ticket> {
    match Ticket::new(number) {
        Some(ticket) => Ok(ticket),
        None => Err(io::Error::other("no ticket")),
    }
}

/// The first or the second volume.
pub fn volume(number: u32) -> VolName {
    if number == 1 {
        Name::parse("Vol-0001").unwrap()
    } else {
        Name::parse("Vol-0002").unwrap()
    }
}

fn pool() -> PoolName {
    Name::parse("Default").unwrap()
}

fn media() -> MediaName {
    Name::parse("File").unwrap()
}

fn label(drive: DriveNo, number: u32) -> Event {
    Event::Label {
        drive,
        name: volume(number),
        pool: pool(),
        media: media(),
        moment: 0,
    }
}

fn open(job: u32) -> io::Result<Event> {
    match JobId::new(job) {
        Some(job) => Ok(Event::Open {
            job,
            pool: pool(),
            media: media(),
            moment: 0,
        }),
        None => Err(io::Error::other("no job")),
    }
}

fn append(alloc: Global, of: u32, index: u32, size: usize) -> io::Result<Event> {
    let bytes = Bytes::from_vec(vec![in alloc; letter_of(of); size]?);
    let Some(rec) = Rec::new(index, 2, bytes) else {
        return Err(io::Error::other("no record"));
    };
    Ok(Event::Append {
        ticket: ticket(of)?,
        rec,
    })
}

/// Whether these are the records of a ticket, all of them, in their order.
pub fn are_records_of(row: &Row, of: u32, recs: &[Rec]) -> bool {
    let mut at = 0usize;
    for deed in row.deeds {
        if let Some((index, size)) = record_of(*deed, of) {
            if !is_record_at(recs, at, of, index, size) {
                return false;
            }
            at = at.saturating_add(1);
        }
    }
    recs.len() == at
}

// The index and the size of the record that a deed gives a ticket, if it does.
fn record_of(deed: Deed, of: u32) -> Option<(u32, usize)> {
    match deed {
        Deed::Record(ticket, index, size) if ticket == of => Some((index, size)),
        _ => None,
    }
}

// Whether the record at this place has this index, and so many bytes, each the ticket's.
fn is_record_at(recs: &[Rec], at: usize, of: u32, index: u32, size: usize) -> bool {
    match recs.get(at) {
        Some(rec) => rec.index == index && is_all(rec.bytes.as_slice(), letter_of(of), size),
        None => false,
    }
}

fn is_all(bytes: &[u8], letter: u8, size: usize) -> bool {
    bytes.len() == size && bytes.iter().all(|byte| *byte == letter)
}
