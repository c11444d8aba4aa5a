// What happens to a daemon: one step at a time, in any order.
use sd_base::{DriveNo, JobId, MediaName, PoolName, Rec, Ticket, VolName};

/// One step of a session, a drive or the operator. A moment is in microseconds.
#[derive(Drop)]
pub enum Event {
    /// A job begins a session on a drive of the media.
    Open {
        job: JobId,
        pool: PoolName,
        media: MediaName,
        moment: i64,
    },
    /// A record is added to a session.
    Append {
        ticket: Ticket,
        rec: Rec,
    },
    /// A session gets its end label.
    End {
        ticket: Ticket,
        moment: i64,
    },
    /// A session asks whether all of it is on volumes and synced.
    Close {
        ticket: Ticket,
    },
    /// A session is given up.
    Cancel {
        ticket: Ticket,
    },
    /// A body that waits goes to the spool.
    Spool {
        ticket: Ticket,
    },
    /// A body that waits goes to the drive's queue.
    Despool {
        ticket: Ticket,
    },
    /// A body goes from the drive's queue into its hand.
    Take {
        drive: DriveNo,
    },
    /// The body in the hand goes onto the loaded volume.
    Place {
        drive: DriveNo,
    },
    /// What is on the loaded volume is made to last.
    Sync {
        drive: DriveNo,
    },
    /// A new volume is labelled.
    Label {
        drive: DriveNo,
        name: VolName,
        pool: PoolName,
        media: MediaName,
        moment: i64,
    },
    /// A volume that an earlier run left is taken over.
    Adopt {
        drive: DriveNo,
        name: VolName,
    },
    /// A volume is loaded.
    Mount {
        drive: DriveNo,
        name: VolName,
    },
    /// The loaded volume is taken out.
    Unmount {
        drive: DriveNo,
    },
    /// The drive looks for a volume of its pool.
    Seek {
        drive: DriveNo,
    },
    /// The drive goes offline for good.
    Retire {
        drive: DriveNo,
    },
    /// A full volume is emptied for good, so that it takes blocks again.
    Purge {
        drive: DriveNo,
        name: VolName,
    },
    /// The spans of a session are asked for, as far as it was placed.
    Media {
        ticket: Ticket,
    },
}
