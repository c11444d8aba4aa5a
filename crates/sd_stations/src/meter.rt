// What is counted of a drive's work.
use sd_drive::Placed;
use sd_line::Turned;
use std::sync::atomic::{AtomicU64, Ordering};
use std::time::{Clock, Duration, Instant};

/// What a drive has done so far.
#[derive(Clone, Copy, Debug, PartialEq, Eq)]
pub struct Metered {
    /// How many blocks were placed, and the bytes of these with their headers.
    pub blocks: u64,
    pub block_bytes: u64,
    /// How often blocks were synced, or a sync of them failed, and how long that took.
    pub syncs: u64,
    pub sync_time: Duration,
}

/// Counts the work of a drive, for whoever looks from another thread. It takes no lock.
#[derive(Drop)]
pub(crate) struct Meter {
    blocks: AtomicU64,
    block_bytes: AtomicU64,
    syncs: AtomicU64,
    sync_nanos: AtomicU64,
}

impl Meter {
    /// Nothing was done yet.
    pub(crate) fn new() -> Self {
        Meter {
            blocks: AtomicU64::new(0),
            block_bytes: AtomicU64::new(0),
            syncs: AtomicU64::new(0),
            sync_nanos: AtomicU64::new(0),
        }
    }

    /// Counts what came of a turn that began then, when blocks of the loaded volume awaited a sync or none did.
    pub(crate) fn turned<C: Clock>(
        &self,
        clock: &C,
        begun: Option<Instant>,
        awaited_sync: bool,
        turned: &Turned,
    ) {
        if let Ok(Placed::At(placement)) = &turned.place {
            self.blocks.fetch_add(1, Ordering::SeqCst);
            self.block_bytes
                .fetch_add(placement.length, Ordering::SeqCst);
        }
        // A turn with a sync places nothing, so its time is the sync's.
        self.synced(clock, begun, awaited_sync && turned.sync.is_some());
    }

    /// Counts a sync that began then, if there was one. If the clock can't be read, it counts as none of the time.
    pub(crate) fn synced<C: Clock>(&self, clock: &C, begun: Option<Instant>, was_synced: bool) {
        if was_synced {
            self.syncs.fetch_add(1, Ordering::SeqCst);
            self.sync_nanos
                .fetch_add(nanos_since(clock, begun), Ordering::SeqCst);
        }
    }

    /// What was counted so far.
    pub(crate) fn metered(&self) -> Metered {
        Metered {
            blocks: self.blocks.load(Ordering::SeqCst),
            block_bytes: self.block_bytes.load(Ordering::SeqCst),
            syncs: self.syncs.load(Ordering::SeqCst),
            sync_time: Duration::from_nanos(self.sync_nanos.load(Ordering::SeqCst)),
        }
    }
}

// How many nanoseconds went by since then; 0 if the clock can't be read.
fn nanos_since<C: Clock>(clock: &C, begun: Option<Instant>) -> u64 {
    let Some(begun) = begun else {
        return 0;
    };
    match begun.elapsed(clock) {
        Ok(time) => u64::try_from(time.as_nanos()).unwrap_or(u64::MAX),
        Err(_) => 0,
    }
}
