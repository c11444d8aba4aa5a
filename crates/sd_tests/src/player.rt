// Plays a case: a queue that one owner fills, whose seats then push and take in threads, and which is joined again.
ghost use Rattle.std.specs.Prelude.{◌≡◌, ◌≤◌, IfSome};
ghost use Rattle.sd_base.specs.Limits.{most_lanes};

use crate::owner::{fill, take};
use crate::pieces::{Came, Counts};
use crate::seats::{Ran, push_by_last, run};
use sd_base::{LaneNo, MOST_LANES};
use sd_lane::Lanes;
use sd_ruled::{RuledLanes, Split};
use std::alloc::Global;
use std::sync::Wait;
use std::thread::Threads;
use std::time::Clock;

/// A queue, how many pieces each lane's thread pushes, and how many pieces the drive's seat leaves in the queue.
#[derive(Clone, Copy, Debug)]
pub struct Case {
    pub lanes: u32,
    pub capacity: usize,
    pub each: u64,
    pub left: u64,
}

/// What a case came to.
#[derive(Clone, Copy, Debug, PartialEq)]
pub struct Told {
    /// How many pieces went in before one was refused, at first and after the join.
    pub room: Option<usize>,
    pub room_behind: Option<usize>,
    /// How many pieces came that weren't the next of their lane.
    pub wrong: u64,
    /// Whether all came that went in, and the queue was empty then.
    pub is_over: bool,
    /// How many came of a last one, pushed by a seat as a lane.
    pub last: u64,
}

// What went by, and what is told of it.
#[derive(Clone, Copy)]
struct Book {
    sent: Counts,
    came: Came,
    told: Told,
}

impl Book {
    fn new() -> Self {
        Book {
            sent: Counts::none(),
            came: Came::nothing(),
            told: Told {
                room: None,
                room_behind: None,
                wrong: 0,
                is_over: false,
                last: 0,
            },
        }
    }
}

/// Plays a case on a queue of its own.
pub fn play<R: Threads + Wait + Clock + Sync + Copy + Drop>(
    rt: &R,
    alloc: Global,
    case: &Case,
) -> Told {
    let mut book = Book::new();
    if 1 <= case.lanes && case.lanes <= MOST_LANES && 1 <= case.capacity {
        if let Ok(queue) = RuledLanes::new(*rt, alloc, case.lanes, case.capacity) {
            play_on(rt, alloc, queue, case, &mut book);
        }
    }
    book.told
}

fn play_on<R: Threads + Wait + Clock + Sync + Copy + Drop>(
    rt: &R,
    alloc: Global,
    mut queue: RuledLanes<R>,
    case: &Case,
    book: &mut Book,
)
    requires { (1 ≤ case.now.lanes) × (case.now.lanes ≤ most_lanes) × (queue.lanes ≡ case.now.lanes) }
{
    begin(alloc, &mut queue, case, book);
    let Some(mut queue) = spread(rt, alloc, queue, case, book) else {
        return;
    };
    finish(alloc, &mut queue, case, book);
    push_last(alloc, queue, book);
}

// Fills the queue, and takes half of what it holds.
fn begin<R: Wait + Copy + Drop>(
    alloc: Global,
    queue: &mut RuledLanes<R>,
    case: &Case,
    book: &mut Book,
)
    requires { (1 ≤ case.now.lanes) × (case.now.lanes ≤ most_lanes) × (queue.old.lanes ≡ case.now.lanes) }
    ensures { queue.new.lanes ≡ queue.old.lanes }
{
    book.told.room = fill(alloc, queue, case.lanes, case.capacity, &mut book.sent);
    take(queue, case.capacity / 2, &mut book.came);
}

// Splits the queue, lets its seats push and take in threads, and joins it.
fn spread<R: Threads + Wait + Clock + Sync + Drop>(
    rt: &R,
    alloc: Global,
    queue: RuledLanes<R>,
    case: &Case,
    book: &mut Book,
) -> Option<RuledLanes<R>>
    requires { (1 ≤ case.now.lanes) × (case.now.lanes ≤ most_lanes) }
    ensures { IfSome result (λ joined. joined.lanes ≡ queue.lanes) }
{
    let split = queue.split(alloc).ok()?;
    let held = case.capacity - case.capacity / 2;
    let pushed = case.each.saturating_mul(case.lanes as u64);
    let takes = (held as u64)
        .saturating_add(pushed)
        .saturating_sub(case.left);
    let Ran { split, came } = run(rt, alloc, split, &book.sent, case.each, book.came, takes);
    book.came = came;
    add_each(&mut book.sent, case.lanes, case.each);
    Some(RuledLanes::join(split))
}

fn add_each(sent: &mut Counts, lanes: u32, each: u64) {
    for number in 1..=lanes {
        if let Some(lane) = LaneNo::new(number) {
            sent.add(lane, each);
        }
    }
}

// Fills the queue again, and takes all that it holds.
fn finish<R: Wait + Copy + Drop>(
    alloc: Global,
    queue: &mut RuledLanes<R>,
    case: &Case,
    book: &mut Book,
)
    requires { (1 ≤ case.now.lanes) × (case.now.lanes ≤ most_lanes) × (queue.old.lanes ≡ case.now.lanes) }
    ensures { queue.new.lanes ≡ queue.old.lanes }
{
    book.told.room_behind = fill(alloc, queue, case.lanes, case.capacity, &mut book.sent);
    let held = !queue.is_empty();
    take(queue, case.capacity.saturating_add(1), &mut book.came);
    book.told.is_over = held && queue.is_empty() && book.came.counts == book.sent;
}

// Splits the queue once more, for one push by a seat as a lane.
fn push_last<R: Wait + Drop>(alloc: Global, queue: RuledLanes<R>, book: &mut Book) {
    let before = book.came;
    if let Ok(split) = queue.split(alloc) {
        book.came = push_by_last(alloc, split, &book.sent, before);
    }
    book.told.wrong = book.came.wrong;
    book.told.last = book.came.counts.all().wrapping_sub(before.counts.all());
}
