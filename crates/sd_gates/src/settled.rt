// Lines are settled once their jobs have ended, and what their sessions took comes back from the worlds.
ghost use Rattle.sd_gates.specs.Names.{AreNamed};

use crate::gates::FOUR;
use crate::holding::Open;
use crate::jobs::{Begun, Case, Ran, begin_all, make_all, run};
use crate::making::Made;
use crate::own::are_drawn;
use crate::settling::{Fault, Left, Settled, next_left, try_settle};
use sd_base::{JobId, Name, Rec, Ticket};
use sd_core::drain;
use sd_drive::Receipt;
use sd_jobs::Job;
use sd_line::Naming;
use sd_machine::{Event, Reply};
use sd_session::Status;
use std::alloc::Global;
use std::marker::Brand;
use std::sync::Wait;
use std::test::*;
use std::thread::Threads;
use std::time::Clock;

// How many receipts of settled lines read to just the records of their jobs, whose sessions are closed there.
fn count_read<N: Naming + Send + Sync, R: Threads + Wait + Clock + Sync + Copy + Drop>(
    rt: R,
    alloc: Global,
    case: &Case,
    all: Vec<Made<R>>,
) -> Option<u32>
    requires { AreNamed N.table N.time all.items }
{
    let mut ran = run::<N, R, Open>(rt, alloc, case, all, &Open)?;
    let mut many: u32 = 0;
    for _line in 0..case.lines {
        let left = next_left(alloc, case, &mut ran)?;
        many = many.wrapping_add(count_of_line(alloc, case, left)?);
    }
    Some(many)
}

// How many receipts of this line, once settled, read to just the records of their jobs, whose sessions are closed
// there.
fn count_of_line<N: Naming, R: Wait + Copy + Drop>(
    alloc: Global,
    case: &Case,
    mut left: Left<N, R>,
) -> Option<u32> {
    let mut kept = Vec::new(alloc);
    std::mem::swap(&mut kept, &mut left.kept);
    let Ok(mut world) = try_settle(alloc, left) else {
        return None;
    };
    let mut many: u32 = 0;
    for receipt in &kept {
        if reads(alloc, case, &mut world, receipt)? {
            many = many.wrapping_add(1);
        }
    }
    Some(many)
}

fn reads<R: Wait + Copy + Drop>(
    alloc: Global,
    case: &Case,
    world: &mut Settled<R>,
    receipt: &Receipt,
) -> Option<bool> {
    let id = receipt.key().id;
    let mut recs: Vec<Rec> = Vec::new(alloc);
    let read = world.read(receipt.key(), receipt.spans(), &mut recs).ok()?;
    let closed = world.status(Ticket::new(id)?) == Some(Status::Closed);
    Some(closed && read.ended && are_drawn(&recs, id, case.most, case.records))
}

fn play_all<R: Threads + Wait + Clock + Sync + Copy + Drop>(rt: R, alloc: Global) -> Option<u32> {
    let all = make_all(rt, alloc, &FOUR)?;
    count_read::<Brand, R>(rt, alloc, &FOUR, all)
}

#[test]
fn settles(rt: HostRuntime) {
    assert_eq!(rt; play_all(rt, rt.alloc()), Some(4));
}

// What is done wrong.
#[derive(Clone, Copy, Debug)]
enum Mistake {
    Nothing,
    // The end of lane 2 is left out.
    NoSecondLane,
    // A receipt of the other line is handed in.
    OtherReceipt,
    // Both sessions have one number; their jobs have no turn.
    OneKey,
}

// What comes of it, and what once it is made good.
static MISTAKES: [(Mistake, Option<Fault>, Option<Fault>); 4] = [
    (Mistake::Nothing, None, None),
    (Mistake::NoSecondLane, Some(Fault::MissingLane(2)), None),
    (Mistake::OtherReceipt, Some(Fault::Foreign(4)), None),
    (
        Mistake::OneKey,
        Some(Fault::DoubleKey(1)),
        Some(Fault::DoubleKey(1)),
    ),
];

fn err_twice<N: Naming + Send + Sync, R: Threads + Wait + Clock + Sync + Copy + Drop>(
    rt: R,
    alloc: Global,
    case: &Case,
    all: Vec<Made<R>>,
    mistake: Mistake,
) -> Option<(Option<Fault>, Option<Fault>)>
    requires { AreNamed N.table N.time all.items }
{
    let mut ran: Ran<N, R> = run::<N, R, Open>(rt, alloc, case, all, &Open)?;
    let mut left = next_left(alloc, case, &mut ran)?;
    let mut other = next_left(alloc, case, &mut ran)?;
    let mut lane = None;
    match mistake {
        Mistake::Nothing | Mistake::OneKey => {}
        // The lane that was the last is the first here.
        Mistake::NoSecondLane => {
            left.ends.reverse();
            lane = left.ends.pop();
        }
        Mistake::OtherReceipt => {
            other.kept.reverse();
            left.receipts.push(other.kept.pop()?).ok()?;
        }
    }
    let (fault, mut left) = match try_settle(alloc, left) {
        Ok(_) => return Some((None, None)),
        Err(back) => back,
    };
    if let Some(end) = lane {
        left.ends.push(end).ok()?;
    }
    match try_settle(alloc, left) {
        Ok(_) => Some((Some(fault), None)),
        Err((again, _)) => Some((Some(fault), Some(again))),
    }
}

fn play_mistake<R: Threads + Wait + Clock + Sync + Copy + Drop>(
    rt: R,
    alloc: Global,
    mistake: Mistake,
) -> Option<(Option<Fault>, Option<Fault>)> {
    let case = match mistake {
        Mistake::OneKey => Case {
            next: 0,
            turns: 0,
            ..FOUR
        },
        _ => FOUR,
    };
    let all = make_all(rt, alloc, &case)?;
    err_twice::<Brand, R>(rt, alloc, &case, all, mistake)
}

#[test]
fn settle_faults(rt: HostRuntime) {
    for (mistake, first, second) in &MISTAKES {
        let came = play_mistake(rt, rt.alloc(), *mistake);
        assert_eq!(rt; came, Some((*first, *second)), "{mistake:?}");
    }
}

// The world of a line whose session took its record and was left active.
fn settle_active<N: Naming, R: Wait + Copy + Drop>(
    rt: R,
    alloc: Global,
    case: &Case,
    all: Vec<Made<R>>,
) -> Option<Settled<R>>
    requires { AreNamed N.table N.time all.items }
{
    let Begun {
        mut lines,
        mut jobs,
    } = begin_all::<N, R>(rt, alloc, case, all)?;
    let Job {
        line: _,
        mut part,
        recs,
        moment: _,
    } = jobs.pop()?;
    part.append(recs.first()?).ok()?;
    let mut left = Left {
        line: lines.pop()?,
        ends: Vec::new(alloc),
        receipts: Vec::new(alloc),
        kept: Vec::new(alloc),
    };
    left.ends.push(part.leave()).ok()?;
    try_settle(alloc, left).ok()
}

// The world of a line of one lane, whose only session, of this number, took its record and was left active.
fn play_active<R: Wait + Copy + Drop>(rt: R, alloc: Global, first: u32) -> Option<Settled<R>> {
    let case = Case {
        lines: 1,
        lanes: 1,
        first,
        records: 1,
        ..FOUR
    };
    let all = make_all(rt, alloc, &case)?;
    settle_active::<Brand, R>(rt, alloc, &case, all)
}

// What a session that goes on in a settled world comes to: whether it reads to its record once it is closed.
fn goes_on<R: Wait + Copy + Drop>(
    alloc: Global,
    first: u32,
    world: &mut Settled<R>,
) -> Option<bool> {
    let ticket = Ticket::new(first)?;
    if world.status(ticket) != Some(Status::Active) {
        return None;
    }
    let Reply::Ended = world.step(Event::End { ticket, moment: 0 }) else {
        return None;
    };
    drain(world).ok()?;
    let Reply::Closed { key, spans } = world.step(Event::Close { ticket }) else {
        return None;
    };
    let mut recs: Vec<Rec> = Vec::new(alloc);
    let read = world.read(key, spans.as_slice(), &mut recs).ok()?;
    Some(read.ended && are_drawn(&recs, first, FOUR.most, 1))
}

// What an open comes to in a settled world: the number of its session, or of the refusal.
fn open<R: Wait + Copy + Drop>(world: &mut Settled<R>) -> Option<Result<u32, u16>> {
    let open = Event::Open {
        job: JobId::new(8)?,
        pool: Name::parse("Default").ok()?,
        media: Name::parse("File").ok()?,
        moment: 0,
    };
    match world.step(open) {
        Reply::Opened { ticket, .. } => Some(Ok(ticket.get())),
        Reply::Refused(why) => Some(Err(why.number())),
        _ => None,
    }
}

// The number of the session that was left, and what an open comes to once it is closed.
static LEFT: [(u32, Result<u32, u16>); 3] = [(1, Ok(2)), (41, Ok(42)), (2_147_483_647, Err(3909))];

fn play_open<R: Wait + Copy + Drop>(
    rt: R,
    alloc: Global,
    first: u32,
) -> Option<(bool, Result<u32, u16>)> {
    let mut world = play_active(rt, alloc, first)?;
    let read = goes_on(alloc, first, &mut world)?;
    Some((read, open(&mut world)?))
}

#[test]
fn settle_open(rt: HostRuntime) {
    for (first, wanted) in &LEFT {
        assert_eq!(rt;
            play_open(rt, rt.alloc(), *first),
            Some((true, *wanted)),
            "{first}"
        );
    }
}
