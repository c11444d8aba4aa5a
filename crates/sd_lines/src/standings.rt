// How many sessions have each status.
use sd_session::Status;

/// How many sessions of a run have each status.
#[derive(Clone, Copy, Debug, PartialEq, Eq)]
pub struct Standings {
    pub active: u64,
    pub ended: u64,
    pub closed: u64,
    pub cancelled: u64,
    pub failed: u64,
}

impl Standings {
    /// There is no session yet.
    pub(crate) fn new() -> Self {
        Standings {
            active: 0,
            ended: 0,
            closed: 0,
            cancelled: 0,
            failed: 0,
        }
    }

    /// One session more has this status.
    pub(crate) fn add(&mut self, status: Status) {
        match status {
            Status::Active => self.active = self.active.saturating_add(1),
            Status::Ended => self.ended = self.ended.saturating_add(1),
            Status::Closed => self.closed = self.closed.saturating_add(1),
            Status::Cancelled => self.cancelled = self.cancelled.saturating_add(1),
            Status::Failed => self.failed = self.failed.saturating_add(1),
            // A running daemon purges no volume.
            Status::Purged => {}
        }
    }

    /// One session less has it.
    pub(crate) fn take(&mut self, status: Status) {
        match status {
            Status::Active => self.active = self.active.saturating_sub(1),
            Status::Ended => self.ended = self.ended.saturating_sub(1),
            Status::Closed => self.closed = self.closed.saturating_sub(1),
            Status::Cancelled => self.cancelled = self.cancelled.saturating_sub(1),
            Status::Failed => self.failed = self.failed.saturating_sub(1),
            Status::Purged => {}
        }
    }
}
