// A lane's seat at the queue of its line, as a lane.
ghost use Rattle.std.specs.Prelude.{◌≡◌};

use crate::naming::Naming;
use crate::seat::Seat;
use sd_base::LaneNo;
use sd_lane::{Lane, Piece};
use sd_ruled::LaneQueue;
use std::sync::Wait;

/// A lane's seat, at the queue that others use too.
#[derive(Drop)]
pub(crate) struct SeatAt<'a, N: Naming, R: Wait + Drop> {
    pub(crate) queue: &'a LaneQueue<R>,
    pub(crate) seat: &'a mut Seat<N>,
    ghost here: { queue.now.table ≡ N.table seat.now.no },
}

impl<'a, N: Naming, R: Wait + Drop> Lane for SeatAt<'a, N, R> {
    ghost use Rattle.std.specs.Prelude.{◌≡◌, false, []};
    ghost use Rattle.std.proofs.Common.{true≢false, sym};
    ghost use Rattle.sd_line.specs.Parts.{sent_by_seat, number_kept};

    ghost lanes = { λ s. s.seat.now.seat.lanes };

    ghost opens = { λ s lane. lane ≡ s.seat.now.seat.lane };

    ghost sent = { λ s lane. sent_by_seat s.seat.now lane };

    // Nobody here knows what was taken, so this says another thing that no push changes.
    ghost taken = { λ s. number_kept s.seat.now.no };

    ghost alone = { λ s. false };

    ghost held = { λ s. [] };

    ghost capacity = { λ s. s.queue.now.capacity };

    ghost place = { λ s. s.seat.ghost_name };

    fn try_push(&mut self, lane: LaneNo, piece: Piece) -> Result<(), Piece> {
        self.seat.push_to(self.queue, piece)
    }

    ghost follows = { λ s alone. absurd (true≢false (sym alone)) };
}
