// That a board may go to another thread, for the proofs of who keeps it under a lock: beside all else that a thread is lent, the
// prover doesn't find it.
ghost use Rattle.std.specs.Thread.{IsSend};
ghost use Rattle.sd_board.specs.contracts.board.Board as board;
ghost use Rattle.sd_board.specs.contracts.lanes.DriveLanes as lanes;
ghost use Rattle.sd_board.specs.contracts.slot.LaneSlot as slot;
ghost use Rattle.sd_line.specs.contracts.lane_end.LaneEnd as end;

use crate::board::Board;
use crate::lanes::DriveLanes;
use crate::posted::Posted;
use crate::slot::LaneSlot;
use sd_line::{LaneEnd, Naming};
use sd_spool::SpoolStore;

// Values of the type may.
fn sends<T: Send>()
    ensures { IsSend T.row }
{}

fn end_sends<N: Naming + Send, S: SpoolStore + Send>()
    ensures { IsSend (end.the_row N.row S.row N.Naming S.SpoolStore) }
{
    sends::<LaneEnd<N, S>>();
}

fn slot_sends<N: Naming + Send, S: SpoolStore + Send>()
    ensures { IsSend (slot.the_row N.row S.row N.Naming S.SpoolStore) }
{
    end_sends::<N, S>();
    sends::<LaneSlot<N, S>>();
}

fn lanes_send<N: Naming + Send, S: SpoolStore + Send>()
    ensures { IsSend (lanes.the_row N.row S.row N.Naming S.SpoolStore) }
{
    slot_sends::<N, S>();
    sends::<DriveLanes<N, S>>();
}

/// A board may. Does nothing.
pub fn board_sends<N: Naming + Send, S: SpoolStore + Send>()
    ensures { IsSend (board.the_row N.row S.row N.Naming S.SpoolStore) }
{
    lanes_send::<N, S>();
    sends::<Board<N, S>>();
}
