// A queue whose seats are split among threads, and joined again.
ghost use Rattle.std.specs.Prelude.{◌≡◌, ◌<◌, ◌≤◌, ℕ, suc, true, [], ◌∷◌, ◌++◌, map, take, drop, length, slice_get, Some, IfOk, IfErr};
ghost use Rattle.std.specs.Vec.{vec_capacity};
ghost use Rattle.crossbeam_queue.specs.Passes.{view, IsPassOf};
ghost use Rattle.sd_base.specs.Limits.{most_lanes};
ghost use Rattle.sd_lane.specs.Queue.{queued, pieces_of, LanesFollow, AreOfLanes};
ghost use Rattle.sd_ruled.specs.Passes.{of_owner, of_others, without_lane};
ghost use Rattle.sd_ruled.specs.Seats.{LaneSeatIs, AreSeats, seats_of, seat_of, sent_by};

use crate::rule::{Cuts, Lifts, Meets, Pass, Puts, Rests, Ring};
use crate::ruled::RuledLanes;
use crate::seats::{DriveSeat, LaneQueue, LaneSeat};
use sd_base::LaneNo;
use sd_lane::Queued;
use std::alloc::Global;
use std::sync::Wait;

/// A queue and its seats, each for itself: those of the lanes 1, 2 and on, and the drive's.
#[derive(Drop)]
pub struct Split<R: Wait + Drop> {
    pub queue: LaneQueue<R>,
    pub lanes: Vec<LaneSeat>,
    pub drive: DriveSeat,
}

/// A queue that was not split, because there was no memory.
#[derive(Drop)]
pub struct NotSplit<R: Wait + Drop> {
    pub lanes: RuledLanes<R>,
}

impl<R: Wait + Drop> RuledLanes<R> {
    /// The queue and its seats, each for itself. If out of memory, the queue comes back as it was.
    pub fn split(self, alloc: Global) -> Result<Split<R>, NotSplit<R>>
        ensures queue { IfOk result (λ split. split.queue
            ≡ record { table = self.table; capacity = self.capacity }) }
        ensures drive { IfOk result (λ split. split.drive ≡ record {
          table = self.table;
          lanes = self.lanes;
          before = self.taken ++ self.held;
          taken = self.taken;
        }) }
        ensures seats { IfOk result (λ split. split.lanes.items
            ≡ seats_of self.table self.lanes (self.taken ++ self.held) self.lanes) }
        ensures count { IfOk result (λ split. length split.lanes.items ≡ self.lanes) }
        ensures are_seats { IfOk result (λ split. AreSeats self.table split.lanes.items) }
        ensures err { IfErr result (λ back. back.lanes ≡ self) }
    {
        let Ok(mut seats) = Vec::with_capacity(alloc, self.lanes as usize) else {
            return Err(NotSplit { lanes: self });
        };
        let RuledLanes {
            rt,
            lanes,
            count: _,
            ring,
            mut pass,
        } = self;
        cut_seats(&ring, &mut pass, lanes, &mut seats);
        Ok(Split {
            queue: LaneQueue { rt, ring },
            lanes: seats,
            drive: DriveSeat { lanes, pass },
        })
    }

    /// Queue and seats with one owner again, who knows what the queue holds. Takes no memory: each piece that is held
    /// is taken out and put back once.
    pub fn join(split: Split<R>) -> Self
        requires drive { split.drive.table ≡ split.queue.table }
        requires count { length split.lanes.items ≡ split.drive.lanes }
        requires seats { AreSeats split.queue.table split.lanes.items }
        ensures queue { (result.table ≡ split.queue.table) × (result.capacity ≡ split.queue.capacity) }
        ensures lanes { result.lanes ≡ split.drive.lanes }
        ensures taken { result.taken ≡ split.drive.taken }
        ensures follows { LanesFollow (λ lane. sent_by split.lanes.items lane) result.taken result.held }
        ensures of_lanes { AreOfLanes result.lanes (result.taken ++ result.held) }
    {
        let Split {
            queue,
            lanes: seats,
            drive,
        } = split;
        let LaneQueue { rt, ring } = queue;
        let DriveSeat { lanes, mut pass } = drive;
        gather(&ring, &mut pass, seats);
        let count = count_held(&rt, &ring, &mut pass);
        RuledLanes {
            rt,
            lanes,
            count,
            ring,
            pass,
        }
    }
}

// Makes a seat for each lane.
fn cut_seats(ring: &Ring, pass: &mut Pass, lanes: u32, seats: &mut Vec<LaneSeat>)
    requires pass { IsPassOf ring.now pass.old × ((view pass.old).takes ≡ true) × ((view pass.old).away ≡ 0) }
    requires lanes { ((view pass.old).lanes ≡ lanes) × (lanes ≤ most_lanes) }
    requires seats { (seats.old.items ≡ []) × (lanes ≤ vec_capacity seats.old) }
    ensures pass { IsPassOf ring.now pass.new × ((view pass.new).takes ≡ true) × ((view pass.new).away ≡ lanes) }
    ensures view { ((view pass.new).lanes ≡ lanes) × ((view pass.new).taken ≡ (view pass.old).taken)
        × ((view pass.new).before ≡ (view pass.old).before) }
    ensures seats { seats.new.items ≡ seats_of pass.old.table_id lanes (view pass.old).before lanes }
{
    for at in 0..lanes {
        let seat = cut_seat(ring, pass, at);
        seats.push_reserved(seat);
    }
}

// Makes the seat of the lane after the first `at`.
fn cut_seat(ring: &Ring, pass: &mut Pass, at: u32) -> LaneSeat
    requires pass { IsPassOf ring.now pass.old × ((view pass.old).takes ≡ true) × ((view pass.old).away ≡ at) }
    requires lanes { (at < (view pass.old).lanes) × ((view pass.old).lanes ≤ most_lanes) }
    ensures pass { IsPassOf ring.now pass.new × (pass.new.table_id ≡ pass.old.table_id) }
    ensures view { view pass.new ≡ without_lane (view pass.old) }
    ensures seat { result ≡ seat_of pass.old.table_id (view pass.old).lanes (suc at)
        (pieces_of (suc at) (view pass.old).before) }
{
    let Some(lane) = LaneNo::new(at + 1) else {
        unreachable!()
    };
    LaneSeat {
        lane,
        pass: ring.another::<Cuts>(pass),
    }
}

// Takes the lanes' seats in, the last one first.
fn gather(ring: &Ring, pass: &mut Pass, mut seats: Vec<LaneSeat>)
    requires pass { IsPassOf ring.now pass.old × ((view pass.old).takes ≡ true)
        × ((view pass.old).away ≡ length seats.items) }
    requires seats { AreSeats ring.now.table.shared.table_id seats.items }
    ensures pass { IsPassOf ring.now pass.new × ((view pass.new).takes ≡ true) × ((view pass.new).away ≡ 0) }
    ensures view { ((view pass.new).lanes ≡ (view pass.old).lanes)
        × ((view pass.new).taken ≡ (view pass.old).taken) }
    ensures theirs { (k : ℕ) (seat : LaneSeatIs) → slice_get seats.items k ≡ Some seat
        → pieces_of (suc k) (view pass.new).before ≡ seat.sent }
    ensures behind { (lane : ℕ) → length seats.items < lane
        → pieces_of lane (view pass.new).before ≡ pieces_of lane (view pass.old).before }
{
    if let Some(seat) = seats.pop() {
        take_in(ring, pass, seat);
        gather(ring, pass, seats);
    }
}

// Takes the seat of the last lane that is away in.
fn take_in(ring: &Ring, pass: &mut Pass, seat: LaneSeat)
    requires pass { IsPassOf ring.now pass.old × ((view pass.old).takes ≡ true)
        × ((view pass.old).away ≡ seat.lane) }
    requires seat { seat.table ≡ ring.now.table.shared.table_id }
    ensures pass { IsPassOf ring.now pass.new × ((view pass.new).takes ≡ true) }
    ensures view { ((view pass.new).lanes ≡ (view pass.old).lanes)
        × ((view pass.new).taken ≡ (view pass.old).taken) × (suc (view pass.new).away ≡ seat.lane) }
    ensures before { (view pass.new).before
        ≡ of_others seat.lane (view pass.old).before ++ map (queued seat.lane) seat.sent }
{
    let LaneSeat {
        lane: _,
        pass: other,
    } = seat;
    ring.absorb::<Meets>(pass, other);
}

// How many pieces the queue holds; the only pass knows which, from here on.
fn count_held<R: Wait>(rt: &R, ring: &Ring, pass: &mut Pass) -> usize
    requires { IsPassOf ring.now pass.old × ((view pass.old).takes ≡ true) × ((view pass.old).away ≡ 0) }
    ensures pass { IsPassOf ring.now pass.new × (view pass.new
        ≡ of_owner (view pass.old).lanes (view pass.old).taken (view pass.new).held) }
    ensures count { (result ≡ length (view pass.new).held) × (result ≤ ring.now.cap) }
    ensures total { (j : ℕ) → pieces_of (suc j) ((view pass.old).taken ++ (view pass.new).held)
        ≡ pieces_of (suc j) (view pass.old).before }
    ensures of_lanes { AreOfLanes (view pass.old).lanes ((view pass.old).taken ++ (view pass.new).held) }
{
    let count = ring.len_as::<Lifts, R>(rt, pass);
    match ring.pop_as::<Lifts, R>(rt, pass) {
        None => {
            ring.another::<Rests>(pass);
            0
        }
        Some(first) => {
            put_back(rt, ring, pass, first);
            turn_round(rt, ring, pass, count - 1);
            count
        }
    }
}

// Takes so many pieces out in front, each of which goes back after the others.
fn turn_round<R: Wait>(rt: &R, ring: &Ring, pass: &mut Pass, times: usize)
    requires pass { IsPassOf ring.now pass.old × (view pass.old
        ≡ of_owner (view pass.old).lanes (view pass.old).taken (view pass.old).held) }
    requires room { (times ≤ length (view pass.old).held) × (length (view pass.old).held ≤ ring.now.cap) }
    ensures { IsPassOf ring.now pass.new × (view pass.new ≡ of_owner (view pass.old).lanes (view pass.old).taken
        (drop times (view pass.old).held ++ take times (view pass.old).held)) }
{
    for _turned in 0..times {
        turn_one(rt, ring, pass);
    }
}

// Takes the piece in front out and puts it back after the others.
fn turn_one<R: Wait>(rt: &R, ring: &Ring, pass: &mut Pass)
    requires pass { IsPassOf ring.now pass.old × (view pass.old
        ≡ of_owner (view pass.old).lanes (view pass.old).taken (view pass.old).held) }
    requires room { (0 < length (view pass.old).held) × (length (view pass.old).held ≤ ring.now.cap) }
    ensures { IsPassOf ring.now pass.new × (view pass.new ≡ of_owner (view pass.old).lanes (view pass.old).taken
        (drop 1 (view pass.old).held ++ take 1 (view pass.old).held)) }
{
    match ring.pop_as::<Lifts, R>(rt, pass) {
        None => unreachable!(),
        Some(first) => put_back(rt, ring, pass, first),
    }
}

// Puts a piece that was taken out back after the others.
fn put_back<R: Wait>(rt: &R, ring: &Ring, pass: &mut Pass, piece: Queued)
    requires pass { IsPassOf ring.now pass.old × (view pass.old
        ≡ of_owner (view pass.old).lanes (view pass.old).taken (view pass.old).held) }
    requires room { length (view pass.old).held < ring.now.cap }
    requires lane { (1 ≤ piece.lane) × (piece.lane ≤ (view pass.old).lanes) }
    ensures { IsPassOf ring.now pass.new × (view pass.new ≡ of_owner (view pass.old).lanes (view pass.old).taken
        ((view pass.old).held ++ piece ∷ [])) }
{
    match ring.push_as::<Puts, R>(rt, pass, piece) {
        Ok(()) => {}
        Err(_) => unreachable!(),
    }
}
