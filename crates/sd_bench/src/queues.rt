// Thirty-two lanes that push and a drive that takes, each in a thread of its own: by the seats of a queue that
// threads share without a lock, beside a list under a lock.
ghost use Rattle.std.specs.Prelude.{◌≡◌};
ghost use Rattle.sd_ruled.specs.Seats.{AreSeats};

use crate::rate::{Length, tell};
use sd_base::{LEAST_BODY, LaneNo, MOST_LANES, SessionKey};
use sd_block::FramedBody;
use sd_lane::Piece;
use sd_pack::Body;
use sd_ruled::{DriveSeat, LaneQueue, LaneSeat, RuledLanes, Split};
use std::alloc::Global;
use std::collections::VecDeque;
use std::sync::{Mutex, Wait};
use std::thread;
use std::thread::Threads;
use std::time::{Clock, Duration, Instant};

/// How much room the queues have.
static CAPACITIES: [usize; 4] = [1, 2, 8, 1024];

/// How often a thread asks a queue again before it gives up.
const TURNS: u64 = 10_000_000;

/// Something by which one thread pushes.
trait Pushes {
    fn push(&mut self, piece: Piece) -> Result<(), Piece>;
}

/// Something by which one thread takes.
trait Takes {
    fn take(&mut self) -> Option<Piece>;
}

// A lane's seat beside its queue.
#[derive(Drop)]
struct SeatAt<'a, R: Wait + Drop> {
    queue: &'a LaneQueue<R>,
    seat: LaneSeat,
    ghost here: { seat.table ≡ queue.now.table },
}

impl<'a, R: Wait + Drop> Pushes for SeatAt<'a, R> {
    fn push(&mut self, piece: Piece) -> Result<(), Piece> {
        self.seat.push(self.queue, piece)
    }
}

// The drive's seat beside its queue.
#[derive(Drop)]
struct DriveAt<'a, R: Wait + Drop> {
    queue: &'a LaneQueue<R>,
    seat: DriveSeat,
    ghost here: { seat.table ≡ queue.now.table },
}

impl<'a, R: Wait + Drop> Takes for DriveAt<'a, R> {
    fn take(&mut self) -> Option<Piece> {
        self.seat.take(self.queue)
    }
}

// A list under a lock, which any thread may use.
#[derive(Clone, Copy)]
struct Locked<'a, R: Wait> {
    rt: &'a R,
    pieces: &'a Mutex<VecDeque<Piece>>,
    capacity: usize,
}

impl<'a, R: Wait> Pushes for Locked<'a, R> {
    fn push(&mut self, piece: Piece) -> Result<(), Piece> {
        let mut pieces = self.pieces.lock(self.rt);
        if pieces.len() >= self.capacity {
            return Err(piece);
        }
        match pieces.push_back(piece) {
            Ok(()) => Ok(()),
            Err(refused) => Err(refused.value),
        }
    }
}

impl<'a, R: Wait> Takes for Locked<'a, R> {
    fn take(&mut self) -> Option<Piece> {
        self.pieces.lock(self.rt).pop_front()
    }
}

// What one thread does: push these pieces, in order.
#[derive(Drop)]
struct Job<P: Pushes + Drop> {
    end: P,
    pieces: Vec<Piece>,
}

// How many pieces didn't go in.
fn push_all<P: Pushes + Drop>(job: Job<P>) -> u64 {
    let Job { mut end, pieces } = job;
    let mut refused = 0u64;
    for piece in pieces {
        if !push_one(&mut end, piece) {
            refused = refused.wrapping_add(1);
        }
    }
    refused
}

// Whether a piece went in.
fn push_one<P: Pushes>(end: &mut P, piece: Piece) -> bool {
    let mut piece = piece;
    for _ in 0..TURNS {
        match end.push(piece) {
            Ok(()) => return true,
            Err(back) => piece = back,
        }
        thread::yield_now();
    }
    false
}

// Whether so many pieces came, each the next of its lane.
fn take_all<T: Takes>(end: &mut T, count: u64) -> bool {
    let mut last = [0u64; 32];
    let mut all = true;
    for _ in 0..count {
        match take_one(end) {
            Some(piece) => all &= is_next(&mut last, &piece),
            None => return false,
        }
    }
    all
}

fn take_one<T: Takes>(end: &mut T) -> Option<Piece> {
    for _ in 0..TURNS {
        if let Some(piece) = end.take() {
            return Some(piece);
        }
        thread::yield_now();
    }
    None
}

// Whether a piece comes after the last one of its lane, which it is then.
fn is_next(last: &mut [u64; 32], piece: &Piece) -> bool {
    let Some(lane) = LaneNo::new(piece.key.id) else {
        return false;
    };
    let at = (lane.get() - 1) as usize;
    last[at] = last[at].wrapping_add(1);
    last[at] == piece.seq
}

// The pieces of a lane, in order. Those for which there is no memory are missing, and are then missed.
fn make_pieces(alloc: Global, lane: LaneNo, count: u64) -> Vec<Piece> {
    let mut pieces = Vec::new(alloc);
    for number in 0..count {
        if let Some(piece) = make_piece(alloc, lane, number.wrapping_add(1)) {
            let _ = pieces.push(piece);
        }
    }
    pieces
}

fn make_piece(alloc: Global, lane: LaneNo, seq: u64) -> Option<Piece> {
    let body = Body {
        bytes: FramedBody::from_slice(alloc, &[0; LEAST_BODY]).ok()?,
        first: 0,
        last: 0,
    };
    let key = SessionKey {
        time: 1,
        id: lane.get(),
    };
    Some(Piece { key, seq, body })
}

// What a run came to: whether each piece came once, in its lane's order, and how long that took.
#[derive(Clone, Copy)]
struct Ran {
    all: bool,
    time: Duration,
}

// Each job in a thread of its own, while so many pieces are taken.
fn run_jobs<R: Threads + Clock + Sync, P: Pushes + Send + Drop, T: Takes + Drop>(
    rt: &R,
    jobs: Vec<Job<P>>,
    mut end: T,
    count: u64,
) -> Ran {
    let start = Instant::now(rt);
    let (pushed, taken) = thread::join(rt, || went_in(rt, jobs), || take_all(&mut end, count));
    let time = match start {
        Ok(start) => start.elapsed(rt).unwrap_or(Duration::ZERO),
        Err(_) => Duration::ZERO,
    };
    let all = pushed && taken && end.take().is_none();
    Ran { all, time }
}

// Whether all pieces of the jobs went in.
fn went_in<R: Threads + Sync, P: Pushes + Send + Drop>(rt: &R, jobs: Vec<Job<P>>) -> bool {
    match thread::map_vec(rt, jobs, &|job| push_all(job)) {
        Ok(refused) => refused.iter().all(|count| *count == 0),
        Err(_) => false,
    }
}

// So many pieces of each lane, by the seats of a queue.
fn run_by_seats<R: Threads + Wait + Clock + Sync + Copy + Drop>(
    rt: &R,
    alloc: Global,
    capacity: usize,
    each: u64,
) -> Option<Ran> {
    if capacity == 0 {
        return None;
    }
    let queue = RuledLanes::new(*rt, alloc, MOST_LANES, capacity).ok()?;
    let Split {
        queue,
        lanes,
        drive,
    } = queue.split(alloc).ok()?;
    let jobs = seat_jobs(alloc, &queue, lanes, each)?;
    let end = DriveAt {
        queue: &queue,
        seat: drive,
    };
    Some(run_jobs(rt, jobs, end, each.wrapping_mul(u64::from(MOST_LANES))))
}

fn seat_jobs<'a, R: Wait + Drop>(
    alloc: Global,
    queue: &'a LaneQueue<R>,
    mut seats: Vec<LaneSeat>,
    each: u64,
) -> Option<Vec<Job<SeatAt<'a, R>>>>
    requires { AreSeats queue.now.table seats.items }
{
    let mut jobs = Vec::new(alloc);
    for _ in 0..MOST_LANES {
        if let Some(seat) = seats.pop() {
            let pieces = make_pieces(alloc, seat.lane(), each);
            let end = SeatAt { queue, seat };
            jobs.push(Job { end, pieces }).ok()?;
        }
    }
    Some(jobs)
}

// So many pieces of each lane, by a list under a lock.
fn run_by_lock<R: Threads + Wait + Clock + Sync + Copy>(
    rt: &R,
    alloc: Global,
    capacity: usize,
    each: u64,
) -> Option<Ran> {
    let pieces = Mutex::new(VecDeque::with_capacity(alloc, capacity).ok()?);
    let end = Locked {
        rt,
        pieces: &pieces,
        capacity,
    };
    let jobs = lock_jobs(alloc, end, each)?;
    Some(run_jobs(rt, jobs, end, each.wrapping_mul(u64::from(MOST_LANES))))
}

fn lock_jobs<'a, R: Wait + Copy>(
    alloc: Global,
    end: Locked<'a, R>,
    each: u64,
) -> Option<Vec<Job<Locked<'a, R>>>> {
    let mut jobs = Vec::new(alloc);
    for number in 1..=MOST_LANES {
        let pieces = make_pieces(alloc, LaneNo::new(number)?, each);
        jobs.push(Job { end, pieces }).ok()?;
    }
    Some(jobs)
}

/// Runs each capacity both ways, and prints whether all pieces came in order, and the times if they are wanted.
pub fn run<R: Threads + Wait + Clock + Print + Sync + Copy + Drop>(
    rt: &R,
    alloc: Global,
    length: Length,
) -> bool {
    let each = match length {
        Length::Once => 30,
        Length::Timed => 31_250,
    };
    let mut all = true;
    for capacity in &CAPACITIES {
        all &= run_both(rt, alloc, length, *capacity, each);
    }
    all
}

fn run_both<R: Threads + Wait + Clock + Print + Sync + Copy + Drop>(
    rt: &R,
    alloc: Global,
    length: Length,
    capacity: usize,
    each: u64,
) -> bool {
    let (Some(seats), Some(lock)) = (
        run_by_seats(rt, alloc, capacity, each),
        run_by_lock(rt, alloc, capacity, each),
    ) else {
        return false;
    };
    let all = seats.all && lock.all;
    if let Length::Timed = length {
        let (ours, theirs) = (seats.time.as_secs_f64(), lock.time.as_secs_f64());
        let _ = println!(rt;
            "room for {capacity:>4}: {ours:>6.2} s by seats, {theirs:>6.2} s under a lock, {:>5.2} of it",
            ours / theirs
        );
    }
    all && println!(rt;
        "pieces of 32 lanes through room for {capacity} come in order: {all}"
    ).is_ok()
}
