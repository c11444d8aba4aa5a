// The life of a session's part, step by step.
ghost use Rattle.sd_line.specs.Named.{AreNamedFor};
ghost use Rattle.std.specs.Prelude.{◌≡◌, ◌⊎◌, ◌≤◌};

use crate::making::{Made, begin_line, make, open_first};
use crate::player::{Came, Step, make_step};
use sd_base::{DriveNo, Refusal, Ticket};
use sd_line::{Line, Naming, SessionPart};
use sd_memdrive::{Call, Fail, MemDrive, When};
use sd_session::{Despooled, Spooling};
use sd_span::Progress;
use sd_spool::MemSpool;
use std::alloc::Global;
use std::marker::Brand;
use std::sync::Wait;
use std::test::*;

type Row = (Step, Came);

// Without a spool, through a queue with room for one piece.
static SENDS: [Row; 28] = [
    (Step::Append(1, 5), Came::Taken(1)),
    (Step::Append(3, 1), Came::Refused(Refusal::BadFileIndex)),
    (Step::Spool, Came::Spooled(Spooling::NoSpool)),
    (Step::Push, Came::Pushed(Despooled::Nothing)),
    (Step::Append(2, 2000), Came::Taken(2)),
    (Step::Append(3, 1), Came::Refused(Refusal::Busy)),
    (Step::Close, Came::Refused(Refusal::SessionNotOpen)),
    (Step::Push, Came::Pushed(Despooled::Sent)),
    (Step::Push, Came::Pushed(Despooled::LaneFull)),
    (Step::Append(3, 1), Came::Taken(3)),
    (Step::Turn, Came::Turned(true, true, None)),
    (Step::Push, Came::Pushed(Despooled::Sent)),
    (Step::Push, Came::Pushed(Despooled::Nothing)),
    (Step::End, Came::Ended),
    (Step::Append(4, 1), Came::Refused(Refusal::SessionNotOpen)),
    (Step::End, Came::Refused(Refusal::SessionNotOpen)),
    (Step::Push, Came::Pushed(Despooled::LaneFull)),
    (Step::Close, Came::NotYet),
    (Step::Turn, Came::Turned(true, true, None)),
    (Step::Push, Came::Pushed(Despooled::Sent)),
    (Step::Turn, Came::Turned(true, true, None)),
    (Step::Close, Came::NotYet),
    (Step::Turn, Came::Turned(false, false, Some(true))),
    (Step::Close, Came::Closed(3)),
    (Step::Close, Came::Refused(Refusal::SessionNotOpen)),
    (Step::Push, Came::Refused(Refusal::SessionNotOpen)),
    (Step::Spool, Came::Refused(Refusal::SessionNotOpen)),
    (Step::Cancel, Came::Refused(Refusal::SessionNotOpen)),
];

// With a spool for two bodies.
static SPOOLS: [Row; 22] = [
    (Step::Append(1, 2000), Came::Taken(1)),
    (Step::Append(2, 1), Came::Refused(Refusal::Busy)),
    (Step::Push, Came::Pushed(Despooled::NotDue)),
    (Step::Spool, Came::Spooled(Spooling::Spooled)),
    (Step::Spool, Came::Spooled(Spooling::Spooled)),
    (Step::Spool, Came::Spooled(Spooling::Nothing)),
    (Step::Append(2, 1), Came::Taken(2)),
    (Step::End, Came::Ended),
    (Step::Push, Came::Pushed(Despooled::NotDue)),
    (Step::Spool, Came::Spooled(Spooling::SpoolFull)),
    (Step::Push, Came::Pushed(Despooled::Sent)),
    (Step::Push, Came::Pushed(Despooled::LaneFull)),
    (Step::Spool, Came::Spooled(Spooling::SpoolFull)),
    (Step::Turn, Came::Turned(true, true, None)),
    (Step::Push, Came::Pushed(Despooled::Sent)),
    (Step::Spool, Came::Spooled(Spooling::Spooled)),
    (Step::Push, Came::Pushed(Despooled::LaneFull)),
    (Step::Turn, Came::Turned(true, true, None)),
    (Step::Push, Came::Pushed(Despooled::Sent)),
    (Step::Turn, Came::Turned(true, true, None)),
    (Step::Turn, Came::Turned(false, false, Some(true))),
    (Step::Close, Came::Closed(3)),
];

// Its only block is placed, and not synced yet.
const PLACED: Progress = Progress {
    placed: 1,
    synced: 0,
    failed: false,
};

// It is synced.
const SYNCED: Progress = Progress {
    placed: 1,
    synced: 1,
    failed: false,
};

// Its only body is placed by one turn and synced by the next, and only then is it closed.
static CLOSES: [Row; 8] = [
    (Step::End, Came::Ended),
    (Step::Push, Came::Pushed(Despooled::Sent)),
    (Step::Turn, Came::Turned(true, true, None)),
    (Step::Look, Came::Stands(PLACED, false)),
    (Step::Close, Came::NotYet),
    (Step::Turn, Came::Turned(false, false, Some(true))),
    (Step::Look, Came::Stands(SYNCED, true)),
    (Step::Close, Came::Closed(1)),
];

// A session that is given up: what was sent of it is placed.
static CANCELS: [Row; 9] = [
    (Step::Append(1, 2000), Came::Taken(1)),
    (Step::Push, Came::Pushed(Despooled::Sent)),
    (Step::Cancel, Came::Cancelled),
    (Step::Cancel, Came::Refused(Refusal::SessionCancelled)),
    (Step::Append(2, 1), Came::Refused(Refusal::SessionCancelled)),
    (Step::Push, Came::Refused(Refusal::SessionCancelled)),
    (Step::End, Came::Refused(Refusal::SessionCancelled)),
    (Step::Close, Came::Refused(Refusal::SessionCancelled)),
    (Step::Turn, Came::Turned(true, true, None)),
];

// The sync of its block fails.
static LOSES: [Row; 10] = [
    (Step::Append(1, 5), Came::Taken(1)),
    (Step::End, Came::Ended),
    (Step::Push, Came::Pushed(Despooled::Sent)),
    (Step::Turn, Came::Turned(true, true, None)),
    (Step::Turn, Came::Turned(false, false, Some(false))),
    (Step::Close, Came::Refused(Refusal::SessionFailed)),
    (Step::Close, Came::Refused(Refusal::SessionFailed)),
    (Step::Append(2, 1), Came::Refused(Refusal::SessionFailed)),
    (Step::Push, Came::Refused(Refusal::SessionFailed)),
    (Step::Cancel, Came::Refused(Refusal::SessionFailed)),
];

// Each label syncs once before it.
static THIRD_SYNC: [Fail; 1] = [Fail {
    call: Call::Sync,
    nth: 3,
    when: When::Before,
}];

// The first row that comes to something else, in a session's life at its line.
fn first_other<N: Naming, R: Wait + Drop>(
    alloc: Global,
    line: &Line<MemDrive, N, R>,
    part: SessionPart<N, MemSpool>,
    rows: &[Row],
) -> Option<usize>
    requires { part.seat.no ≡ line.now.no }
{
    let mut part = part;
    for at in 0..rows.len() {
        let (what, wanted) = rows[at];
        if make_step(alloc, line, &mut part, what) != wanted {
            return Some(at);
        }
    }
    None
}

// The first row that comes to something else, in a session's life at a line that is made for it.
fn live<N: Naming, R: Wait + Drop>(
    rt: R,
    alloc: Global,
    made: Made<R>,
    rows: &[Row],
) -> Option<Option<usize>>
    requires { AreNamedFor N.table 1 made × (N.time 1 ≡ 1000) }
{
    let (line, mut seats) = begin_line::<N, R>(rt, alloc, DriveNo::new(1)?, made)?;
    let part = open_first(
        alloc,
        &line,
        seats.pop()?,
        MemSpool::new(alloc),
        Ticket::new(1)?,
    )?;
    Some(first_other(alloc, &line, part, rows))
}

fn play<R: Wait + Drop + Copy>(
    rt: R,
    alloc: Global,
    spool: u64,
    device: &[Fail],
    rows: &[Row],
) -> Option<Option<usize>>
    requires { (spool ≡ 0) ⊎ ((1024 ≤ spool) × (spool ≤ 1000000)) }
{
    let made = make(rt, alloc, device, spool, 1, 1)?;
    live::<Brand, R>(rt, alloc, made, rows)
}

#[test]
fn close_line(rt: HostRuntime) {
    assert_eq!(rt; play(rt, rt.alloc(), 0, &[], &CLOSES), Some(None));
}

#[test]
fn sends(rt: HostRuntime) {
    assert_eq!(rt; play(rt, rt.alloc(), 0, &[], &SENDS), Some(None));
}

#[test]
fn spools(rt: HostRuntime) {
    assert_eq!(rt; play(rt, rt.alloc(), 2048, &[], &SPOOLS), Some(None));
}

#[test]
fn cancels(rt: HostRuntime) {
    assert_eq!(rt; play(rt, rt.alloc(), 0, &[], &CANCELS), Some(None));
}

#[test]
fn loses_block(rt: HostRuntime) {
    assert_eq!(rt; play(rt, rt.alloc(), 0, &THIRD_SYNC, &LOSES), Some(None));
}
