// A lane's seat beside the queue, as a lane.
ghost use Rattle.std.specs.Prelude.{◌≡◌};

use crate::seats::{LaneQueue, LaneSeat};
use sd_base::LaneNo;
use sd_lane::{Lane, Piece};
use std::sync::Wait;

/// A lane's seat, at a queue that others use too.
#[derive(Drop)]
pub struct LaneRef<'a, R: Wait + Drop> {
    pub queue: &'a LaneQueue<R>,
    pub seat: &'a mut LaneSeat,
    ghost here: { seat.now.table ≡ queue.now.table },
}

impl<'a, R: Wait + Drop> Lane for LaneRef<'a, R> {
    ghost use Rattle.std.specs.Prelude.{◌≡◌, ◌==◌, if◌then◌else◌, false, []};
    ghost use Rattle.std.proofs.Common.{true≢false, sym};

    ghost lanes = { λ s. s.seat.now.lanes };

    ghost opens = { λ s lane. lane ≡ s.seat.now.lane };

    ghost sent = { λ s lane. if s.seat.now.lane == lane then s.seat.now.sent else [] };

    ghost taken = { λ s. [] };

    ghost alone = { λ s. false };

    ghost held = { λ s. [] };

    ghost capacity = { λ s. s.queue.now.capacity };

    ghost place = { λ s. s.seat.ghost_name };

    fn try_push(&mut self, lane: LaneNo, piece: Piece) -> Result<(), Piece> {
        self.seat.push(self.queue, piece)
    }

    ghost follows = { λ s alone. absurd (true≢false (sym alone)) };
}
