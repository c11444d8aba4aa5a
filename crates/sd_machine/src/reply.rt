// What the daemon answers to an event.
use sd_base::{DriveNo, Items, Refusal, SessionKey, Ticket, VolName};
use sd_span::Span;

/// The reply to an event.
#[derive(Drop)]
pub enum Reply {
    /// The event was refused.
    Refused(Refusal),
    /// The session is open, on that drive.
    Opened {
        ticket: Ticket,
        drive: DriveNo,
    },
    /// The record was taken; the session has `count` records now.
    Taken {
        count: u64,
    },
    /// The end label is written.
    Ended,
    /// All of the session is on volumes and synced, where the spans say.
    Closed {
        key: SessionKey,
        spans: Items<Span>,
    },
    /// The session is given up.
    Cancelled,
    /// A body went to the spool.
    Spooled,
    /// The spool has no room for the body.
    SpoolFull,
    /// There was nothing to spool or to send.
    Nothing,
    /// Nothing is spooled.
    NoSpool,
    /// A body went into the drive's queue.
    Sent,
    /// The drive's queue has no room for the body.
    LaneFull,
    /// The spool goes on filling before bodies are sent.
    NotDue,
    /// The `seq`th body of the session came into the drive's hand.
    InHand {
        ticket: Ticket,
        seq: u64,
    },
    /// A body is in the drive's hand already.
    HandFull,
    /// There was nothing to take or to place.
    Idle,
    /// The body lies on the volume, from byte `start` to before byte `end`.
    Placed {
        volume: VolName,
        start: u64,
        end: u64,
    },
    /// No volume that takes the body is loaded.
    NeedVolume,
    /// The loaded volume has no room for the body.
    VolumeFull,
    /// The loaded volume's device failed.
    VolumeError,
    /// What is on the loaded volume lasts.
    Synced,
    /// The volume is labelled.
    Labelled,
    /// The volume is taken over: where its blocks end, and the number of its next one.
    Adopted {
        end: u64,
        next: u32,
    },
    /// The volume is loaded.
    Mounted {
        name: VolName,
    },
    /// The loaded volume, if there was one, is out.
    Unmounted,
    /// No volume can be mounted; the operator was asked for one.
    Requested,
    /// The drive has the volume that it needs.
    NoNeed,
    /// The drive is offline for good.
    Retired,
    /// The volume is empty. The sessions that had blocks on it are purged.
    Purged,
    /// Where the session's blocks lie, as far as it was placed.
    Media {
        spans: Items<Span>,
    },
}
