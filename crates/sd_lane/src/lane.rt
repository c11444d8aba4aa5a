// What sessions and a drive use of the queue between them, whoever owns it.
ghost use Rattle.std.specs.Prelude.{◌≡◌, ℕ, ◌<◌, ◌≤◌, ◌++◌, ◌∷◌, [], true, length, ◌↔◌, IsTrue, OnOk, OnErr, IfOk, IfErr, IfSome, IfNone};
ghost use Rattle.sd_base.specs.Limits.{most_lanes};
ghost use Rattle.sd_lane.specs.Queue.{queued, Sends, SendsNone, LanesFollow, WasFull};

use crate::piece::{Piece, Queued};
use sd_base::LaneNo;
use std::alloc::{AllocError, Global};

/// Something by which lanes push their pieces to a drive.
///
/// Its owner may be alone with the queue; then it is known what the queue holds, and a push is refused
/// exactly if the queue is full. If others push and take at the same time, a push is refused
/// because the queue was full at some moment of the call.
pub trait Lane {
    ghost use Rattle.std.specs.Prelude.{ℕ, Bool, List};
    ghost use Rattle.sd_lane.specs.declared.piece.Piece.{Piece};
    ghost use Rattle.sd_lane.specs.declared.piece.Queued.{Queued};

    // How many lanes the queue has, numbered from 1.
    ghost lanes: { Self → ℕ };

    // The lanes that may push by it.
    ghost opens: { Self → ℕ → Type 0 };

    // All that each lane sent from the start, in order; of a lane that may not push by it, so far as its
    // owner knows.
    ghost sent: { Self → ℕ → List Piece };

    // All that the drive took from the start, in order, if its owner is alone.
    ghost taken: { Self → List Queued };

    // Whether its owner is alone with the queue.
    ghost alone: { Self → Bool };

    // What the queue holds, the piece that came first in front, if its owner is alone.
    ghost held: { Self → List Queued };

    // How many pieces the queue has room for.
    ghost capacity: { Self → ℕ };

    // Where what it changes is kept: an end that borrows a seat stays at that seat, so whoever lent it a
    // seat knows what became of it.
    ghost place: { Self → ℕ };

    /// Pushes a piece after the others, or gives it back if there is no room. Takes no memory.
    fn try_push(&mut self, lane: LaneNo, piece: Piece) -> Result<(), Piece>
        requires { opens self.old lane }
        ensures opens { (other : ℕ) → opens self.old other → opens self.new other }
        ensures alone { alone self.new ≡ alone self.old }
        ensures lanes { lanes self.new ≡ lanes self.old }
        ensures capacity { capacity self.new ≡ capacity self.old }
        ensures place { place self.new ≡ place self.old }
        ensures taken { taken self.new ≡ taken self.old }
        ensures sent { OnOk result
            (Sends (λ other. sent self.old other) (λ other. sent self.new other)
            (queued lane piece)) }
        ensures given_back { IfErr result (λ back. back ≡ piece) }
        ensures not_sent { OnErr result
            (SendsNone (λ other. sent self.old other) (λ other. sent self.new other)) }
        ensures was_full { OnErr result
            (WasFull (lanes self.old) (capacity self.old) lane (sent self.old lane)) }

        ensures room { alone self.old ≡ true
            → OnOk result (length (held self.old) < capacity self.old) }
        ensures held { alone self.old ≡ true
            → OnOk result (held self.new ≡ held self.old ++ queued lane piece ∷ []) }
        ensures full { alone self.old ≡ true
            → OnErr result (capacity self.old ≤ length (held self.old)) }
        ensures kept { alone self.old ≡ true → OnErr result (held self.new ≡ held self.old) };

    // A law: if its owner is alone, what was taken of a lane and then what is held of it is what it sent.
    ghost follows: { (x : Self) → alone x ≡ true
        → LanesFollow (λ lane. sent x lane) (taken x) (held x) };
}

/// A queue with one owner, who pushes for its lanes and takes for its drive.
pub trait Lanes: Lane {
    /// Takes the piece that came first. Takes no memory.
    fn try_take(&mut self) -> Option<Piece>
        ensures opens { (other : ℕ) → Self.opens self.old other → Self.opens self.new other }
        ensures capacity { Self.capacity self.new ≡ Self.capacity self.old }
        ensures lanes { Self.lanes self.new ≡ Self.lanes self.old }
        ensures not_sent { SendsNone (λ other. Self.sent self.old other) (λ other. Self.sent self.new other) }
        ensures first { IfSome result (λ piece. (lane : ℕ)
            × (Self.held self.old ≡ queued lane piece ∷ Self.held self.new)
            × (Self.taken self.new ≡ Self.taken self.old ++ queued lane piece ∷ [])) }
        ensures empty { IfNone result ((Self.held self.old ≡ []) × (Self.held self.new ≡ [])) }
        ensures none_taken { IfNone result (Self.taken self.new ≡ Self.taken self.old) };

    /// Whether no piece is held.
    fn is_empty(&self) -> bool
        ensures { IsTrue result ↔ (Self.held self.now ≡ []) };

    /// An empty queue of the same kind, for the lanes 1 to `lanes`, with room for `capacity` pieces.
    fn like(&self, alloc: Global, lanes: u32, capacity: usize) -> Result<Self, AllocError>
    where
        Self: Sized,
        requires most { lanes ≤ most_lanes }
        requires room { 0 < capacity }
        ensures lanes { IfOk result (λ queue. Self.lanes queue ≡ lanes) }
        ensures capacity { IfOk result (λ queue. Self.capacity queue ≡ capacity) }
        ensures held { IfOk result (λ queue. Self.held queue ≡ []) }
        ensures taken { IfOk result (λ queue. Self.taken queue ≡ []) };

    // Laws: its owner is alone, and each of its lanes may push.
    ghost single: { (x : Self) → Self.alone x ≡ true };

    ghost open: { (x : Self) (lane : ℕ) → 1 ≤ lane → lane ≤ Self.lanes x → Self.opens x lane };
}
