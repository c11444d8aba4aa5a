// The seats of a queue, in threads of their own.
ghost use Rattle.std.specs.Prelude.{◌≡◌, ℕ, ◌∷◌, ◌++◌, [], false, length, IsTrue};
ghost use Rattle.sd_lane.specs.Queue.{queued, Sends, SendsNone};
ghost use Rattle.sd_lane.specs.declared.piece.Piece.{Piece as SpecPiece};
ghost use Rattle.sd_ruled.specs.Seats.{AreSeats};

use crate::pieces::{Came, Counts, make_piece};
use sd_base::{LaneNo, MOST_QUEUE};
use sd_lane::{Lane, Piece};
use sd_ruled::{DriveSeat, LaneQueue, LaneRef, LaneSeat, Split};
use std::alloc::Global;
use std::sync::Wait;
use std::thread;
use std::thread::Threads;
use std::time::{Clock, Duration};

// How often a full or an empty queue is asked again: at first the thread only lets others run, then it sleeps for a
// millisecond each time.
const TURNS: u32 = 20_000;

const YIELDS: u32 = 10_000;

fn pause(rt: &impl Clock, turn: u32) {
    if turn < YIELDS {
        thread::yield_now();
    } else {
        thread::sleep(rt, Duration::from_millis(1));
    }
}

// Pushes a piece as soon as there is room. Whether there was.
fn push_one<R: Wait + Clock + Drop>(
    rt: &R,
    queue: &LaneQueue<R>,
    seat: &mut LaneSeat,
    piece: Piece,
) -> bool
    requires { seat.old.table ≡ queue.now.table }
    ensures { (seat.new.table ≡ seat.old.table) × (seat.new.lane ≡ seat.old.lane) }
{
    let mut piece = piece;
    for turn in 0..TURNS {
        match seat.push(queue, piece) {
            Ok(()) => return true,
            Err(back) => piece = back,
        }
        pause(rt, turn);
    }
    false
}

// Pushes so many pieces of a lane, after those that it sent before.
fn push_each<R: Wait + Clock + Drop>(
    rt: &R,
    alloc: Global,
    queue: &LaneQueue<R>,
    seat: &mut LaneSeat,
    sent: &Counts,
    each: u64,
)
    requires { seat.old.table ≡ queue.now.table }
    ensures { (seat.new.table ≡ seat.old.table) × (seat.new.lane ≡ seat.old.lane) }
{
    let lane = seat.lane();
    let first = sent.of(lane).wrapping_add(1);
    for number in 0..each {
        if let Some(piece) = make_piece(alloc, lane, first.wrapping_add(number)) {
            push_one(rt, queue, seat, piece);
        }
    }
}

// Each lane's seat pushes so many pieces, in a thread of its own.
fn push_all<R: Threads + Wait + Clock + Sync + Drop>(
    rt: &R,
    alloc: Global,
    queue: &LaneQueue<R>,
    mut seats: Vec<LaneSeat>,
    sent: &Counts,
    each: u64,
) -> Vec<LaneSeat>
    requires { AreSeats queue.now.table seats.items }
    ensures count { length result.items ≡ length seats.items }
    ensures seats { AreSeats queue.now.table result.items }
{
    thread::for_each_mut(
        rt,
        seats.as_mut_slice(),
        32,
        &|_, seat: &mut LaneSeat|
            requires { seat.now.table ≡ queue.now.table }
            ensures { (seat.exit.now.table ≡ seat.entry.now.table) × (seat.exit.now.lane ≡ seat.entry.now.lane) }
        { push_each(rt, alloc, queue, seat, sent, each) },
    );
    seats
}

// Takes the next piece as soon as there is one.
fn take_one<R: Wait + Clock + Drop>(
    rt: &R,
    queue: &LaneQueue<R>,
    seat: &mut DriveSeat,
) -> Option<Piece>
    requires { seat.old.table ≡ queue.now.table }
    ensures { (seat.new.table ≡ seat.old.table) × (seat.new.lanes ≡ seat.old.lanes) }
{
    for turn in 0..TURNS {
        if let Some(piece) = seat.take(queue) {
            return Some(piece);
        }
        pause(rt, turn);
    }
    None
}

// Takes so many pieces.
fn take_all<R: Wait + Clock + Drop>(
    rt: &R,
    queue: &LaneQueue<R>,
    mut seat: DriveSeat,
    takes: u64,
    mut came: Came,
) -> (DriveSeat, Came)
    requires { seat.table ≡ queue.now.table }
    ensures { (result.0.table ≡ seat.table) × (result.0.lanes ≡ seat.lanes) }
{
    for _ in 0..takes {
        match take_one(rt, queue, &mut seat) {
            Some(piece) => came.note(&piece),
            None => break,
        }
    }
    (seat, came)
}

/// What pushes and takes came to: the queue with its seats, and what came.
#[derive(Drop)]
pub struct Ran<R: Wait + Drop> {
    pub split: Split<R>,
    pub came: Came,
}

/// Each lane's seat pushes so many pieces, in a thread of its own, while the drive's takes so many in another.
pub fn run<R: Threads + Wait + Clock + Sync + Drop>(
    rt: &R,
    alloc: Global,
    split: Split<R>,
    sent: &Counts,
    each: u64,
    came: Came,
    takes: u64,
) -> Ran<R>
    requires drive { split.drive.table ≡ split.queue.table }
    requires count { length split.lanes.items ≡ split.drive.lanes }
    requires seats { AreSeats split.queue.table split.lanes.items }
    ensures drive { result.split.drive.table ≡ result.split.queue.table }
    ensures count { length result.split.lanes.items ≡ result.split.drive.lanes }
    ensures seats { AreSeats result.split.queue.table result.split.lanes.items }
    ensures lanes { result.split.drive.lanes ≡ split.drive.lanes }
{
    let Split {
        queue,
        lanes,
        drive,
    } = split;
    let (lanes, (drive, came)) = thread::join(
        rt,
        || -> Vec<LaneSeat>
            requires { AreSeats queue.table lanes.items }
            ensures count { length result.items ≡ length lanes.items }
            ensures seats { AreSeats queue.table result.items }
        { push_all(rt, alloc, &queue, lanes, sent, each) },
        || -> (DriveSeat, Came)
            requires { drive.table ≡ queue.table }
            ensures { (result.0.table ≡ drive.table) × (result.0.lanes ≡ drive.lanes) }
        { take_all(rt, &queue, drive, takes, came) },
    );
    Ran {
        split: Split {
            queue,
            lanes,
            drive,
        },
        came,
    }
}

// Pushes a piece by what may push for its lane. Whether it went in.
fn push_by<L: Lane>(end: &mut L, alloc: Global, lane: LaneNo, seq: u64) -> bool
    requires { L.opens end.old lane }
    ensures place { L.place end.new ≡ L.place end.old }
    ensures opens { (other : ℕ) → L.opens end.old other → L.opens end.new other }
    ensures sent { IsTrue result → (piece : SpecPiece) × Sends (λ other. L.sent end.old other)
        (λ other. L.sent end.new other) (queued lane piece) }
    ensures not_sent { result ≡ false → SendsNone (λ other. L.sent end.old other)
        (λ other. L.sent end.new other) }
{
    match make_piece(alloc, lane, seq) {
        Some(piece) => end.try_push(lane, piece).is_ok(),
        None => false,
    }
}

// Pushes a piece by a seat as a `Lane`. What was lent is at that seat afterwards, so it is known what the seat sent.
fn push_by_seat<'a, R: Wait + Drop>(
    queue: &'a LaneQueue<R>,
    seat: &'a mut LaneSeat,
    alloc: Global,
    sent: &Counts,
) -> bool
    requires { seat.old.table ≡ queue.now.table }
    ensures sent { IsTrue result → (piece : SpecPiece) × (seat.new.sent ≡ seat.old.sent ++ piece ∷ []) }
    ensures not_sent { result ≡ false → seat.new.sent ≡ seat.old.sent }
{
    let lane = seat.lane();
    let mut end = LaneRef { queue, seat };
    push_by(&mut end, alloc, lane, sent.of(lane).wrapping_add(1))
}

/// Pushes a piece by the last lane's seat as a `Lane`, and takes all that the queue holds. What came.
pub fn push_by_last<R: Wait + Drop>(
    alloc: Global,
    split: Split<R>,
    sent: &Counts,
    mut came: Came,
) -> Came
    requires drive { split.drive.table ≡ split.queue.table }
    requires seats { AreSeats split.queue.table split.lanes.items }
{
    let Split {
        queue,
        mut lanes,
        mut drive,
    } = split;
    if let Some(mut seat) = lanes.pop() {
        push_by_seat(&queue, &mut seat, alloc, sent);
    }
    take_what_is_there(&queue, &mut drive, &mut came);
    came
}

fn take_what_is_there<R: Wait + Drop>(queue: &LaneQueue<R>, drive: &mut DriveSeat, came: &mut Came)
    requires { drive.old.table ≡ queue.now.table }
{
    for _ in 0..MOST_QUEUE {
        match drive.take(queue) {
            Some(piece) => came.note(&piece),
            None => return,
        }
    }
}
