// The lines that a console has too: the operator's.
use sd_base::{DriveNo, MediaName, PoolName, Ticket, VolName};

/// What an operator asks for by a line, of a script or of a console.
#[derive(Drop)]
pub enum ConsoleCmd {
    Label {
        drive: DriveNo,
        volume: VolName,
        pool: PoolName,
        media: MediaName,
    },
    Adopt {
        drive: DriveNo,
        volume: VolName,
    },
    Mount {
        drive: DriveNo,
        volume: VolName,
    },
    Unmount(DriveNo),
    Retire(DriveNo),
    Purge {
        drive: DriveNo,
        volume: VolName,
    },
    Cancel(Ticket),
    JobMedia(Ticket),
    Status,
    Requests,
}
