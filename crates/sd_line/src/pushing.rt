// A session's step of sending, by the seat of its lane.
ghost use Rattle.std.specs.Prelude.{◌≡◌, Ok, IfOk, IfErr, OnErr};
ghost use Rattle.sd_lane.specs.Queue.{WasFull};
ghost use Rattle.sd_session.specs.Sending.{DespoolRefused};
ghost use Rattle.sd_line.specs.Parts.{SendsBy};

use crate::naming::Naming;
use crate::seat::Seat;
use crate::seat_at::SeatAt;
use sd_base::Refusal;
use sd_ruled::LaneQueue;
use sd_session::{Despooled, Session};
use sd_spool::SpoolStore;
use std::sync::Wait;

/// The next body of the session goes into the queue of its line, if there is room.
pub(crate) fn push<'a, N: Naming, R: Wait + Drop, S: SpoolStore + Drop>(
    queue: &'a LaneQueue<R>,
    seat: &'a mut Seat<N>,
    session: &mut Session<S>,
) -> Result<Despooled, Refusal>
    requires here { queue.now.table ≡ N.table seat.old.no }
    requires lane { session.old.lane ≡ seat.old.seat.lane }
    ensures ok { IfOk result (λ answer. SendsBy answer queue.now.capacity
        seat.old session.old seat.new session.new) }
    ensures err { IfErr result (λ why. DespoolRefused session.old why session.new) }
    ensures refused { OnErr result (seat.new ≡ seat.old) }
    ensures was_full { result ≡ Ok Despooled.LaneFull → WasFull seat.old.seat.lanes
        queue.now.capacity seat.old.seat.lane seat.old.seat.sent }
{
    seat.know();
    let mut end = SeatAt { queue, seat };
    let answer = session.despool_step(&mut end);
    end.seat.know();
    answer
}
