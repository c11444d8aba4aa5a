// The place of a drive among the drives, of a lane among its drive's lanes, and of a session among the sessions: all are numbered
// from 1.
ghost use Rattle.std.specs.Prelude.{◌≡◌, ◌+◌, ◌-◌};

use sd_base::{DriveNo, LaneNo, Ticket};

pub(crate) fn drive_place(drive: DriveNo) -> usize
    ensures place { result ≡ drive - 1 }
    ensures number { drive ≡ result + 1 }
{
    drive.get() as usize - 1
}

pub(crate) fn lane_place(lane: LaneNo) -> usize
    ensures place { result ≡ lane - 1 }
    ensures number { lane ≡ result + 1 }
{
    lane.get() as usize - 1
}

pub(crate) fn ticket_place(ticket: Ticket) -> usize
    ensures place { result ≡ ticket - 1 }
{
    ticket.get() as usize - 1
}
