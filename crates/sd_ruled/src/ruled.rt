// The queue and all its seats with one owner.
ghost use Rattle.std.specs.Prelude.{◌≡◌, ◌<◌, ◌≤◌, ◌↔◌, ℕ, true, [], ◌∷◌, ◌++◌, length, IfOk, IsOk, IfErr, OnOk, OnErr, IfSome, IfNone};
ghost use Rattle.crossbeam_queue.specs.Passes.{view, IsPassOf};
ghost use Rattle.sd_base.specs.Limits.{most_lanes};
ghost use Rattle.sd_lane.specs.Queue.{queued, pieces_of, Sends, SendsNone, WasFull};
ghost use Rattle.sd_ruled.specs.Passes.{of_owner};

use crate::rule::{Gets, Opens, Pass, Puts, Ring};
use sd_base::LaneNo;
use sd_lane::{Lane, Lanes, Piece, Queued};
use std::alloc::{AllocError, Global};
use std::marker::Model;
use std::sync::Wait;

/// A queue and all its seats with one owner, first in, first out, with all its memory from the start. In a contract it
/// is a `RuledView`, which has all that was taken from it; but nothing of that is held.
#[derive(Drop)]
pub struct RuledLanes<R: Wait + Drop> {
    pub(crate) rt: R,
    pub(crate) lanes: u32,
    pub(crate) count: usize,
    pub(crate) ring: Ring,
    pub(crate) pass: Pass,
}

impl<R: Wait + Drop> Model for RuledLanes<R> {
    ghost use Rattle.std.specs.Prelude.{◌≡◌, ◌≤◌, [], ◌++◌, length};
    ghost use Rattle.sd_base.specs.Limits.{most_lanes};
    ghost use Rattle.sd_lane.specs.Queue.{AreOfLanes};
    ghost use Rattle.sd_ruled.specs.Passes.{of_owner};
    ghost use Rattle.sd_ruled.specs.Seats.{RuledView};

    ghost Value = { RuledView };

    ghost view = { λ s. record {
      table = s.ring.table.shared.table_id;
      lanes = s.lanes;
      capacity = s.ring.cap;
      taken = s.pass.me.0.client.taken;
      held = s.pass.me.0.client.held;
    } };

    ghost invariant = { λ s. record {
      here : s.pass.table_id ≡ s.ring.table.shared.table_id;
      idle : s.pass.me.1 ≡ [];
      alone : s.pass.me.0.client ≡ of_owner s.lanes s.pass.me.0.client.taken s.pass.me.0.client.held;
      count : s.count ≡ length s.pass.me.0.client.held;
      room : s.count ≤ s.ring.cap;
      most : s.lanes ≤ most_lanes;
      of_lanes : AreOfLanes s.lanes (s.pass.me.0.client.taken ++ s.pass.me.0.client.held);
    } };
}

impl<R: Wait + Drop> RuledLanes<R> {
    /// An empty queue for the lanes 1 to `lanes`, with room for `capacity` pieces.
    pub fn new(rt: R, alloc: Global, lanes: u32, capacity: usize) -> Result<Self, AllocError>
        requires most { lanes ≤ most_lanes }
        requires room { 0 < capacity }
        ensures lanes { IfOk result (λ queue. queue.lanes ≡ lanes) }
        ensures capacity { IfOk result (λ queue. queue.capacity ≡ capacity) }
        ensures empty { IfOk result (λ queue. (queue.taken ≡ []) × (queue.held ≡ [])) }
    {
        let (ring, mut pass) = Ring::ruled(alloc, capacity)?;
        open_lanes(&ring, &mut pass, lanes);
        Ok(RuledLanes {
            rt,
            lanes,
            count: 0,
            ring,
            pass,
        })
    }

    /// For how many pieces it has room.
    pub fn capacity(&self) -> usize
        ensures { result ≡ self.now.capacity }
    {
        self.ring.capacity()
    }

    // Adds a piece after the others, if there is room.
    fn push(&mut self, lane: LaneNo, piece: Piece) -> Result<(), Piece>
        requires least { 1 ≤ lane }
        requires most { lane ≤ self.old.lanes }
        ensures room { IsOk result ↔ (length self.old.held < self.old.capacity) }
        ensures ok { OnOk result (self.new ≡ record self.old {
          held = self.old.held ++ queued lane piece ∷ [];
        }) }
        ensures sent { OnOk result (Sends
            (λ other. pieces_of other (self.old.taken ++ self.old.held))
            (λ other. pieces_of other (self.new.taken ++ self.new.held)) (queued lane piece)) }
        ensures given_back { IfErr result (λ back. back ≡ piece) }
        ensures err { OnErr result (self.new ≡ self.old) }
        ensures was_full { OnErr result (WasFull self.old.lanes self.old.capacity lane
            (pieces_of lane (self.old.taken ++ self.old.held))) }
    {
        if self.count >= self.ring.capacity() {
            return Err(piece);
        }
        match self
            .ring
            .push_as::<Puts, R>(&self.rt, &mut self.pass, Queued { lane, piece })
        {
            Ok(()) => {
                self.count += 1;
                Ok(())
            }
            Err(_) => unreachable!(),
        }
    }

    // Takes the piece that came first.
    fn take(&mut self) -> Option<Piece>
        ensures first { IfSome result (λ piece. (lane : ℕ)
            × (self.old.held ≡ queued lane piece ∷ self.new.held)
            × (self.new ≡ record self.old {
              taken = self.old.taken ++ queued lane piece ∷ [];
              held = self.new.held;
            })) }
        ensures not_sent { SendsNone
            (λ other. pieces_of other (self.old.taken ++ self.old.held))
            (λ other. pieces_of other (self.new.taken ++ self.new.held)) }
        ensures empty { IfNone result ((self.old.held ≡ []) × (self.new ≡ self.old)) }
    {
        match self.ring.pop_as::<Gets, R>(&self.rt, &mut self.pass) {
            None => None,
            Some(Queued { lane: _, piece }) => {
                self.count -= 1;
                Some(piece)
            }
        }
    }
}

// Opens so many lanes.
fn open_lanes(ring: &Ring, pass: &mut Pass, lanes: u32)
    requires { IsPassOf ring.now pass.old × (view pass.old ≡ of_owner 0 [] []) }
    ensures { IsPassOf ring.now pass.new × (view pass.new ≡ of_owner lanes [] []) }
{
    for _opened in 0..lanes {
        ring.another::<Opens>(pass);
    }
}

impl<R: Wait + Drop> Lane for RuledLanes<R> {
    ghost use Rattle.std.specs.Prelude.{true, refl, ◌≤◌, ◌++◌};
    ghost use Rattle.sd_lane.specs.Queue.{pieces_of};

    ghost lanes = { λ q. q.lanes };

    ghost opens = { λ q lane. (1 ≤ lane) × (lane ≤ q.lanes) };

    ghost sent = { λ q lane. pieces_of lane (q.taken ++ q.held) };

    ghost taken = { λ q. q.taken };

    ghost alone = { λ q. true };

    ghost held = { λ q. q.held };

    ghost capacity = { λ q. q.capacity };

    ghost place = { λ q. 0 };

    fn try_push(&mut self, lane: LaneNo, piece: Piece) -> Result<(), Piece> {
        self.push(lane, piece)
    }

    ghost follows = { λ q alone lane. refl };
}

impl<R: Wait + Copy + Drop> Lanes for RuledLanes<R> {
    ghost use Rattle.std.specs.Prelude.{refl};

    fn try_take(&mut self) -> Option<Piece> {
        self.take()
    }

    fn is_empty(&self) -> bool {
        self.count == 0
    }

    fn like(&self, alloc: Global, lanes: u32, capacity: usize) -> Result<Self, AllocError> {
        RuledLanes::new(self.rt, alloc, lanes, capacity)
    }

    ghost single = { λ q. refl };

    ghost open = { λ q lane least most. (least, most) };
}
