// A queue whose seats are split, and the seats: one for each lane, and the drive's.
ghost use Rattle.std.specs.Prelude.{◌≡◌, ◌≤◌, ℕ, [], ◌∷◌, ◌++◌, length, OnOk, OnErr, IfErr, IfSome, IfNone};
ghost use Rattle.sd_lane.specs.Queue.{queued, pieces_of, WasFull};
ghost use Rattle.sd_ruled.specs.Seats.{WasEmpty};

use crate::rule::{Blanks, Goes, Pass, Ring, Sends, Takes, Visits};
use sd_base::LaneNo;
use sd_lane::{Piece, Queued};
use std::marker::Model;
use std::mem;
use std::sync::Wait;

/// The queue itself, which threads share. In a contract it is a `QueueIs`.
#[derive(Drop)]
pub struct LaneQueue<R: Wait + Drop> {
    pub(crate) rt: R,
    pub(crate) ring: Ring,
}

impl<R: Wait + Drop> Model for LaneQueue<R> {
    ghost use Rattle.sd_ruled.specs.Seats.{QueueIs};

    ghost Value = { QueueIs };

    ghost view = { λ q. record { table = q.ring.table.shared.table_id; capacity = q.ring.cap } };
}

/// The seat of a lane, which alone pushes for it. In a contract it is a `LaneSeatIs`; what it sent isn't held.
#[derive(Drop)]
pub struct LaneSeat {
    pub(crate) lane: LaneNo,
    pub(crate) pass: Pass,
}

impl Model for LaneSeat {
    ghost use Rattle.std.specs.Prelude.{◌≡◌, []};
    ghost use Rattle.sd_ruled.specs.Passes.{of_lane};
    ghost use Rattle.sd_ruled.specs.Seats.{LaneSeatIs};

    ghost Value = { LaneSeatIs };

    ghost view = { λ s. record {
      table = s.pass.table_id;
      lanes = s.pass.me.0.client.lanes;
      lane = s.lane;
      sent = s.pass.me.0.client.sent;
    } };

    ghost invariant = { λ s. (s.pass.me.1 ≡ [])
        × (s.pass.me.0.client ≡ of_lane s.pass.me.0.client.lanes s.lane s.pass.me.0.client.sent) };
}

/// The seat of the drive, which alone takes. In a contract it is a `DriveSeatIs`; what it took isn't held.
#[derive(Drop)]
pub struct DriveSeat {
    pub(crate) lanes: u32,
    pub(crate) pass: Pass,
}

impl Model for DriveSeat {
    ghost use Rattle.std.specs.Prelude.{◌≡◌, ◌≤◌, [], true};
    ghost use Rattle.sd_base.specs.Limits.{most_lanes};
    ghost use Rattle.sd_ruled.specs.Seats.{DriveSeatIs};

    ghost Value = { DriveSeatIs };

    ghost view = { λ s. record {
      table = s.pass.table_id;
      lanes = s.lanes;
      before = s.pass.me.0.client.before;
      taken = s.pass.me.0.client.taken;
    } };

    ghost invariant = { λ s. record {
      idle : s.pass.me.1 ≡ [];
      takes : s.pass.me.0.client.takes ≡ true;
      lanes : s.pass.me.0.client.lanes ≡ s.lanes;
      away : s.pass.me.0.client.away ≡ s.lanes;
      most : s.lanes ≤ most_lanes;
    } };
}

impl LaneSeat {
    /// The lane's number.
    pub fn lane(&self) -> LaneNo
        ensures { result ≡ self.now.lane }
    {
        self.lane
    }

    /// Pushes a piece after the others, or gives it back because the queue was full at a moment of the call. Takes no
    /// memory.
    pub fn push<R: Wait + Drop>(&mut self, queue: &LaneQueue<R>, piece: Piece) -> Result<(), Piece>
        requires { self.old.table ≡ queue.now.table }
        ensures ok { OnOk result (self.new ≡ record self.old { sent = self.old.sent ++ piece ∷ [] }) }
        ensures given_back { IfErr result (λ back. back ≡ piece) }
        ensures err { OnErr result (self.new ≡ self.old) }
        ensures was_full { OnErr result
            (WasFull self.old.lanes queue.now.capacity self.old.lane self.old.sent) }
    {
        let lane = self.lane;
        match queue
            .ring
            .push_as::<Sends, R>(&queue.rt, &mut self.pass, Queued { lane, piece })
        {
            Ok(()) => Ok(()),
            Err(Queued { lane: _, piece }) => Err(piece),
        }
    }
}

impl DriveSeat {
    /// How many lanes the queue has.
    pub fn lanes(&self) -> u32
        ensures { result ≡ self.now.lanes }
    {
        self.lanes
    }

    /// Takes the piece that came first, or none because the queue was empty at a moment of the call. Takes no memory.
    pub fn take<R: Wait + Drop>(&mut self, queue: &LaneQueue<R>) -> Option<Piece>
        requires { self.old.table ≡ queue.now.table }
        ensures first { IfSome result (λ piece. (lane : ℕ) × (1 ≤ lane) × (lane ≤ self.old.lanes)
            × (self.new ≡ record self.old { taken = self.old.taken ++ queued lane piece ∷ [] })) }
        ensures none { IfNone result (self.new ≡ self.old) }
        ensures was_empty { IfNone result (WasEmpty self.old.before self.old.taken) }
    {
        let Queued { lane: _, piece } = self.take_queued(queue)?;
        Some(piece)
    }

    /// Takes the piece that came first, with the lane that it came by; or none, as `take`. Takes no memory.
    pub fn take_queued<R: Wait + Drop>(&mut self, queue: &LaneQueue<R>) -> Option<Queued>
        requires { self.old.table ≡ queue.now.table }
        ensures first { IfSome result (λ q. (1 ≤ q.lane) × (q.lane ≤ self.old.lanes)
            × (self.new ≡ record self.old { taken = self.old.taken ++ q ∷ [] })) }
        ensures none { IfNone result (self.new ≡ self.old) }
        ensures was_empty { IfNone result (WasEmpty self.old.before self.old.taken) }
    {
        queue.ring.pop_as::<Takes, R>(&queue.rt, &mut self.pass)
    }

    /// Compares what was taken of a lane with what its seat sent: if they are as many, they are the same. Takes no
    /// memory.
    pub fn compare<R: Wait + Drop>(&mut self, queue: &LaneQueue<R>, seat: &mut LaneSeat)
        requires drive { self.old.table ≡ queue.now.table }
        requires lane { seat.old.table ≡ queue.now.table }
        ensures same { (self.new ≡ self.old) × (seat.new ≡ seat.old) }
        ensures all { length (pieces_of seat.old.lane self.old.taken) ≡ length seat.old.sent
            → pieces_of seat.old.lane self.old.taken ≡ seat.old.sent }
    {
        // For a moment the lane's pass is in the drive's, which learns what the queue holds of that lane.
        let blank = queue.ring.another::<Blanks>(&mut seat.pass);
        let guest = mem::replace(&mut seat.pass, blank);
        queue.ring.absorb::<Visits>(&mut self.pass, guest);
        let _held = queue.ring.len_as::<Takes, R>(&queue.rt, &mut self.pass);
        seat.pass = queue.ring.another::<Goes>(&mut self.pass);
    }
}
