// A line of the board.
ghost use Rattle.std.specs.Prelude.{◌≡◌};
ghost use Rattle.sd_board.specs.Lines.{session_line};

use sd_base::{DriveNo, LaneNo, Ticket};
use sd_machine::SessionLine;
use sd_session::Status;

/// What the board tells of a session: the lane of the drive to which it sends, its status, and how many records it
/// took.
#[derive(Clone, Copy, Debug, PartialEq, Eq)]
pub struct Posted {
    pub ticket: Ticket,
    pub drive: DriveNo,
    pub lane: LaneNo,
    pub status: Status,
    pub records: u64,
}

impl Posted {
    /// The line of a status.
    pub(crate) fn line(&self) -> SessionLine
        ensures { result ≡ session_line self.now }
    {
        SessionLine {
            ticket: self.ticket,
            status: self.status,
            records: self.records,
        }
    }
}
