// The line of a job is settled, whatever the job came to. In its world the job's session is brought to its end.
use crate::names::{KEY, Names};
use crate::records::{are_all, make_again};
use sd_base::{Items, Rec, Refusal, SessionKey, Ticket};
use sd_core::{ReadEnd, Span, Status, World, drain, round};
use sd_drive::Receipt;
use sd_hub::{NotSettled, SettleFault, settle};
use sd_jobs::{JobEnd, Stop};
use sd_line::{LaneEnd, Line, Naming};
use sd_machine::{Event, Reply};
use sd_memdrive::MemDrive;
use sd_ruled::RuledLanes;
use sd_spool::MemSpool;
use std::alloc::Global;
use std::sync::Wait;

/// How often a call is made, which is refused as out of memory once at the most.
const TRIES: u32 = 2;

/// How many rounds an append waits for, at the most.
const ROUNDS: u32 = 50;

/// The world of a settled line.
type Settled<R> = World<MemDrive, RuledLanes<R>, MemSpool>;

/// What a job came to, whether its line was settled only at the second try, and what reading its session back tells.
#[derive(Clone, Copy)]
pub struct Told {
    pub stop: Stop,
    pub again: bool,
    pub read: ReadEnd,
}

/// What of a job isn't as it is to be.
#[derive(Clone, Copy)]
pub enum Wrong {
    NoDrive,
    NotRun,
    OtherRecords,
    NotSettled,
    OtherWorld,
    NotRead,
}

impl Wrong {
    /// What it is, in words.
    pub fn text(self) -> &'static str {
        match self {
            Wrong::NoDrive => "there is no drive",
            Wrong::NotRun => "a job isn't run",
            Wrong::OtherRecords => "a session has other records than its job was told",
            Wrong::NotSettled => "a line isn't settled",
            Wrong::OtherWorld => "a world has other records than a job was told",
            Wrong::NotRead => "the records of a job don't come back",
        }
    }
}

// A line whose job has ended, with what is handed in beside it, and the job's receipt once more.
#[derive(Drop)]
struct Left<N: Naming, R: Wait + Drop> {
    line: Line<MemDrive, N, R>,
    ends: Vec<LaneEnd<N, MemSpool>>,
    receipts: Vec<Receipt>,
    kept: Option<Receipt>,
}

/// Settles the line, brings the session to its end, and reads it back by its receipt, or by the spans of its close.
pub fn play<N: Naming, R: Wait + Copy + Drop>(
    alloc: Global,
    names: &Names,
    line: Line<MemDrive, N, R>,
    end: JobEnd<N, MemSpool>,
) -> Result<Told, Wrong> {
    let (taken, stop) = (end.taken, end.stop);
    let Some(left) = leave(alloc, line, end) else {
        return Err(Wrong::OtherRecords);
    };
    let Left {
        line,
        ends,
        receipts,
        kept,
    } = left;
    let Some((mut world, again)) = settle_again(alloc, line, ends, receipts) else {
        return Err(Wrong::NotSettled);
    };
    if records_shown(&world) != Some(taken) {
        return Err(Wrong::OtherWorld);
    }
    match read_all(alloc, names, &mut world, &kept, taken, stop) {
        Some(read) => Ok(Told { stop, again, read }),
        None => Err(Wrong::NotRead),
    }
}

// What is handed in of a job that has ended, whose session has as many records as the job was told.
fn leave<N: Naming, R: Wait + Drop>(
    alloc: Global,
    line: Line<MemDrive, N, R>,
    end: JobEnd<N, MemSpool>,
) -> Option<Left<N, R>> {
    let JobEnd {
        lane_end,
        taken,
        receipt,
        stop: _,
    } = end;
    if lane_end.sessions().last()?.session.records() != taken {
        return None;
    }
    let mut left = Left {
        line,
        ends: list_of(alloc, lane_end)?,
        receipts: Vec::new(alloc),
        kept: None,
    };
    if let Some(receipt) = receipt {
        left.kept = receipt_again(&left.line, &receipt);
        left.receipts = list_of(alloc, receipt)?;
    }
    Some(left)
}

/// A list of one.
pub fn list_of<T: Drop>(alloc: Global, one: T) -> Option<Vec<T>> {
    let mut list = match Vec::with_capacity(alloc, 1) {
        Ok(list) => list,
        Err(_) => Vec::with_capacity(alloc, 1).ok()?,
    };
    list.push(one).ok()?;
    Some(list)
}

// This receipt once more, from the line's drive.
fn receipt_again<N: Naming, R: Wait + Drop>(
    line: &Line<MemDrive, N, R>,
    receipt: &Receipt,
) -> Option<Receipt> {
    let side = line.lock();
    let drive = side.drive();
    match drive.receipt(receipt.key(), receipt.blocks()) {
        Ok(same) => same,
        Err(_) => drive.receipt(receipt.key(), receipt.blocks()).ok()?,
    }
}

// Settles a line, once more if it was out of memory; and whether it was.
fn settle_again<N: Naming, R: Wait + Copy + Drop>(
    alloc: Global,
    line: Line<MemDrive, N, R>,
    ends: Vec<LaneEnd<N, MemSpool>>,
    receipts: Vec<Receipt>,
) -> Option<(Settled<R>, bool)> {
    let back = match settle(alloc, line, ends, receipts) {
        Ok(world) => return Some((world, false)),
        Err(back) => back,
    };
    let NotSettled {
        parts,
        ends,
        receipts,
        fault,
    } = back;
    let SettleFault::Memory = fault else {
        return None;
    };
    let line = Line::of_parts(parts);
    let world = settle(alloc, line, ends, receipts).ok()?;
    Some((world, true))
}

// How many records the one session of a world has, as a status shows it.
fn records_shown<R: Wait + Copy + Drop>(world: &Settled<R>) -> Option<u64> {
    let view = match world.view() {
        Ok(view) => view,
        Err(_) => world.view().ok()?,
    };
    let sessions = view.sessions.as_slice();
    if sessions.len() != 1 {
        return None;
    }
    Some(sessions.first()?.records)
}

// Reads the session back: by its receipt, which only a job that is done has, or else once it is closed here.
fn read_all<R: Wait + Copy + Drop>(
    alloc: Global,
    names: &Names,
    world: &mut Settled<R>,
    kept: &Option<Receipt>,
    taken: u64,
    stop: Stop,
) -> Option<ReadEnd> {
    if let Some(receipt) = kept {
        return read(alloc, world, receipt.key(), receipt.spans());
    }
    let ticket = ticket_of(names, world, stop)?;
    let (key, spans) = bring_to_end(alloc, world, ticket, taken)?;
    read(alloc, world, key, spans.as_slice())
}

// The session that goes on. In the place of one that was given up, since there was no thread for it, another is opened.
fn ticket_of<R: Wait + Copy + Drop>(
    names: &Names,
    world: &mut Settled<R>,
    stop: Stop,
) -> Option<Ticket> {
    let ticket = Ticket::new(KEY.id)?;
    match (world.status(ticket)?, stop) {
        (Status::Cancelled, Stop::NoThread) => match open(names, world) {
            None => open(names, world),
            opened => opened,
        },
        (Status::Active | Status::Ended, Stop::OutOfTurns | Stop::Refused(Refusal::Memory)) => {
            Some(ticket)
        }
        _ => None,
    }
}

fn open<R: Wait + Copy + Drop>(names: &Names, world: &mut Settled<R>) -> Option<Ticket> {
    let open = Event::Open {
        job: names.job,
        pool: names.pool.copy(),
        media: names.media.copy(),
        moment: 0,
    };
    match world.step(open) {
        Reply::Opened { ticket, .. } => Some(ticket),
        _ => None,
    }
}

// Appends the records that a session has not taken yet, ends it and closes it: the spans of its close.
fn bring_to_end<R: Wait + Copy + Drop>(
    alloc: Global,
    world: &mut Settled<R>,
    ticket: Ticket,
    taken: u64,
) -> Option<(SessionKey, Items<Span>)> {
    if world.status(ticket)? == Status::Active {
        let recs = make_again(alloc)?;
        append_rest(world, ticket, &recs, taken)?;
        end(world, ticket)?;
    }
    close(world, ticket)
}

// Appends the records after the first ones, which the session took.
fn append_rest<R: Wait + Copy + Drop>(
    world: &mut Settled<R>,
    ticket: Ticket,
    recs: &[Rec],
    taken: u64,
) -> Option<()> {
    let mut number = 0u64;
    for rec in recs {
        number = number.checked_add(1)?;
        if number > taken {
            append(world, ticket, rec, number)?;
        }
    }
    Some(())
}

// Appends a record, of which the session has so many then. While a closed body of it waits, that is sent on.
fn append<R: Wait + Copy + Drop>(
    world: &mut Settled<R>,
    ticket: Ticket,
    rec: &Rec,
    number: u64,
) -> Option<()> {
    for _ in 0..ROUNDS {
        match world.append(ticket, rec) {
            Reply::Taken { count } if count == number => return Some(()),
            Reply::Refused(Refusal::Busy) => {
                let _ = round(world);
            }
            Reply::Refused(Refusal::Memory) => {}
            _ => return None,
        }
    }
    None
}

fn end<R: Wait + Copy + Drop>(world: &mut Settled<R>, ticket: Ticket) -> Option<()> {
    for _ in 0..TRIES {
        match world.step(Event::End { ticket, moment: 0 }) {
            Reply::Ended => return Some(()),
            Reply::Refused(Refusal::Memory) => {}
            _ => return None,
        }
    }
    None
}

// Closes the session once all of it is synced. A drain may end at a round that was out of memory.
fn close<R: Wait + Copy + Drop>(
    world: &mut Settled<R>,
    ticket: Ticket,
) -> Option<(SessionKey, Items<Span>)> {
    for _ in 0..TRIES {
        let _ = drain(world);
        match world.step(Event::Close { ticket }) {
            Reply::Closed { key, spans } => return Some((key, spans)),
            Reply::Refused(Refusal::Memory | Refusal::NotYet) => {}
            _ => return None,
        }
    }
    None
}

// Reads a session back, which has just the records of the job, and its end.
fn read<R: Wait + Copy + Drop>(
    alloc: Global,
    world: &mut Settled<R>,
    key: SessionKey,
    spans: &[Span],
) -> Option<ReadEnd> {
    for _ in 0..TRIES {
        let mut recs: Vec<Rec> = Vec::new(alloc);
        match world.read(key, spans, &mut recs) {
            Ok(read) if read.ended && are_all(&recs) => return Some(read),
            Err(Refusal::Memory) => {}
            _ => return None,
        }
    }
    None
}
