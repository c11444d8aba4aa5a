// What is counted of the answers to opens, labels and adoptions.
use sd_base::Refusal;
use std::sync::atomic::{AtomicU64, Ordering};

/// How many opens were refused for one cause.
#[derive(Clone, Copy, Debug, PartialEq, Eq)]
pub struct RefusedJobs {
    pub why: Refusal,
    pub jobs: u64,
}

/// How often something was done, and how often it was refused.
#[derive(Clone, Copy, Debug, PartialEq, Eq)]
pub struct Tries {
    pub done: u64,
    pub refused: u64,
}

/// Counts tries. It takes no lock.
#[derive(Drop)]
pub struct TryCounter {
    done: AtomicU64,
    refused: AtomicU64,
}

impl TryCounter {
    // Nothing was tried yet.
    fn new() -> Self {
        TryCounter {
            done: AtomicU64::new(0),
            refused: AtomicU64::new(0),
        }
    }

    /// Counts a try, which was done or refused.
    pub(crate) fn count(&self, is_done: bool) {
        if is_done {
            self.done.fetch_add(1, Ordering::SeqCst);
        } else {
            self.refused.fetch_add(1, Ordering::SeqCst);
        }
    }

    /// What was counted so far.
    pub(crate) fn tries(&self) -> Tries {
        Tries {
            done: self.done.load(Ordering::SeqCst),
            refused: self.refused.load(Ordering::SeqCst),
        }
    }
}

/// Counts answers. It takes no lock.
#[derive(Drop)]
pub struct AnswerCounter {
    // The opens that were refused: no number left, no drive of the media, no free lane, a spool's fault, out of memory.
    no_number: AtomicU64,
    no_drive: AtomicU64,
    no_lane: AtomicU64,
    spool_fault: AtomicU64,
    memory: AtomicU64,
    pub(crate) labels: TryCounter,
    pub(crate) adoptions: TryCounter,
}

impl AnswerCounter {
    /// Nothing was answered yet.
    pub(crate) fn new() -> Self {
        AnswerCounter {
            no_number: AtomicU64::new(0),
            no_drive: AtomicU64::new(0),
            no_lane: AtomicU64::new(0),
            spool_fault: AtomicU64::new(0),
            memory: AtomicU64::new(0),
            labels: TryCounter::new(),
            adoptions: TryCounter::new(),
        }
    }

    /// Counts an open that was refused.
    pub(crate) fn refused_job(&self, why: Refusal) {
        let count = match why {
            Refusal::NoSessionNumberLeft => &self.no_number,
            Refusal::NoDriveOfMedia => &self.no_drive,
            Refusal::NoFreeLane => &self.no_lane,
            Refusal::SpoolFault => &self.spool_fault,
            _ => &self.memory,
        };
        count.fetch_add(1, Ordering::SeqCst);
    }

    /// How many opens were refused, for each cause.
    pub(crate) fn refused_jobs(&self) -> [RefusedJobs; 5] {
        [
            refused(Refusal::NoSessionNumberLeft, &self.no_number),
            refused(Refusal::NoDriveOfMedia, &self.no_drive),
            refused(Refusal::NoFreeLane, &self.no_lane),
            refused(Refusal::SpoolFault, &self.spool_fault),
            refused(Refusal::Memory, &self.memory),
        ]
    }
}

// The count of one cause.
fn refused(why: Refusal, count: &AtomicU64) -> RefusedJobs {
    RefusedJobs {
        why,
        jobs: count.load(Ordering::SeqCst),
    }
}
