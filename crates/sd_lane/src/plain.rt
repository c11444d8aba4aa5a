// A queue for one thread.
ghost use Rattle.std.specs.Prelude.{◌≡◌, ◌<◌, ◌≤◌, ◌↔◌, ℕ, ◌++◌, ◌∷◌, [], length, IfOk, IfErr, IsOk, OnOk, OnErr, IfSome, IfNone};
ghost use Rattle.sd_lane.specs.Queue.{queued, pieces_of, Sends, SendsNone, WasFull};

use crate::lane::{Lane, Lanes};
use crate::piece::{Piece, Queued};
use sd_base::{LaneNo, Seen};
use std::alloc::{AllocError, Global};
use std::collections::VecDeque;
use std::marker::Model;

/// A queue for one thread, first in, first out, with all its memory from the start. In a contract it is a
/// `PlainView`, which has all that was taken from it; but nothing of that is held.
#[derive(Drop)]
pub struct PlainLanes {
    lanes: u32,
    capacity: usize,
    pieces: VecDeque<Queued>,
    taken: Option<Seen<Queued>>,
}

impl Model for PlainLanes {
    ghost use Rattle.std.specs.Prelude.{◌≤◌};
    ghost use Rattle.std.specs.VecDeque.{deque_len, deque_capacity};
    ghost use Rattle.sd_base.specs.Seen.{seen_of};
    ghost use Rattle.sd_lane.specs.Queue.{PlainView, AreOfLanes};

    ghost Value = { PlainView };

    ghost view = { λ q. record {
      lanes = q.lanes;
      capacity = q.capacity;
      taken = seen_of q.taken;
      held = q.pieces.items;
    } };

    ghost invariant = { λ q. (deque_len q.pieces ≤ q.capacity)
        × (q.capacity ≤ deque_capacity q.pieces)
        × AreOfLanes q.lanes q.pieces.items };
}

impl PlainLanes {
    /// An empty queue for the lanes 1 to `lanes`, with room for `capacity` pieces.
    pub fn new(alloc: Global, lanes: u32, capacity: usize) -> Result<Self, AllocError>
        ensures { IfOk result (λ queue. queue ≡ record {
          lanes = lanes;
          capacity = capacity;
          taken = [];
          held = [];
        }) }
    {
        Ok(PlainLanes {
            lanes,
            capacity,
            pieces: VecDeque::with_capacity(alloc, capacity)?,
            taken: None,
        })
    }

    // Adds a piece after the others, if there is room.
    fn push(&mut self, lane: LaneNo, piece: Piece) -> Result<(), Piece>
        requires least { 1 ≤ lane }
        requires most { lane ≤ self.old.lanes }
        ensures room { IsOk result ↔ (length self.old.held < self.old.capacity) }
        ensures ok { OnOk result (self.new ≡ record self.old {
          held = self.old.held ++ queued lane piece ∷ [];
        }) }
        ensures sent { OnOk result (Sends
            (λ other. pieces_of other (self.old.taken ++ self.old.held))
            (λ other. pieces_of other (self.new.taken ++ self.new.held)) (queued lane piece)) }
        ensures given_back { IfErr result (λ back. back ≡ piece) }
        ensures err { OnErr result (self.new ≡ self.old) }
        ensures was_full { OnErr result (WasFull self.old.lanes self.old.capacity lane
            (pieces_of lane (self.old.taken ++ self.old.held))) }
    {
        if self.pieces.len() >= self.capacity {
            return Err(piece);
        }
        self.pieces.push_back_reserved(Queued { lane, piece });
        Ok(())
    }

    // Takes the piece that came first.
    fn take(&mut self) -> Option<Piece>
        ensures first { IfSome result (λ piece. (lane : ℕ)
            × (self.old.held ≡ queued lane piece ∷ self.new.held)
            × (self.new ≡ record self.old {
              taken = self.old.taken ++ queued lane piece ∷ [];
              held = self.new.held;
            })) }
        ensures not_sent { SendsNone
            (λ other. pieces_of other (self.old.taken ++ self.old.held))
            (λ other. pieces_of other (self.new.taken ++ self.new.held)) }
        ensures empty { IfNone result ((self.old.held ≡ []) × (self.new ≡ self.old)) }
    {
        let queued = self.pieces.pop_front()?;
        self.taken = Some(Seen::with(&self.taken, &queued));
        let Queued { lane: _, piece } = queued;
        Some(piece)
    }
}

impl Lane for PlainLanes {
    ghost use Rattle.std.specs.Prelude.{true, refl, ◌≤◌, ◌++◌};
    ghost use Rattle.sd_lane.specs.Queue.{pieces_of};

    ghost lanes = { λ q. q.lanes };

    ghost opens = { λ q lane. (1 ≤ lane) × (lane ≤ q.lanes) };

    ghost sent = { λ q lane. pieces_of lane (q.taken ++ q.held) };

    ghost taken = { λ q. q.taken };

    ghost alone = { λ q. true };

    ghost held = { λ q. q.held };

    ghost capacity = { λ q. q.capacity };

    ghost place = { λ q. 0 };

    fn try_push(&mut self, lane: LaneNo, piece: Piece) -> Result<(), Piece> {
        self.push(lane, piece)
    }

    ghost follows = { λ q alone lane. refl };
}

impl Lanes for PlainLanes {
    ghost use Rattle.std.specs.Prelude.{refl};

    fn try_take(&mut self) -> Option<Piece> {
        self.take()
    }

    fn is_empty(&self) -> bool {
        self.pieces.is_empty()
    }

    fn like(&self, alloc: Global, lanes: u32, capacity: usize) -> Result<Self, AllocError> {
        PlainLanes::new(alloc, lanes, capacity)
    }

    ghost single = { λ q. refl };

    ghost open = { λ q lane least most. (least, most) };
}
