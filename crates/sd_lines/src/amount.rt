// Records and their bytes, counted from several threads.
use std::sync::atomic::{AtomicU64, Ordering};

/// So many records, with so many bytes of data.
#[derive(Clone, Copy, Debug, PartialEq, Eq)]
pub struct Amount {
    pub records: u64,
    pub bytes: u64,
}

/// Counts records and their bytes. It takes no lock.
#[derive(Drop)]
pub struct AmountCounter {
    records: AtomicU64,
    bytes: AtomicU64,
}

impl AmountCounter {
    /// Nothing was counted yet.
    pub(crate) fn new() -> Self {
        AmountCounter {
            records: AtomicU64::new(0),
            bytes: AtomicU64::new(0),
        }
    }

    /// Counts a record of so many bytes.
    pub(crate) fn add(&self, bytes: usize) {
        self.records.fetch_add(1, Ordering::SeqCst);
        self.bytes.fetch_add(bytes as u64, Ordering::SeqCst);
    }

    /// What was counted so far.
    pub(crate) fn amount(&self) -> Amount {
        Amount {
            records: self.records.load(Ordering::SeqCst),
            bytes: self.bytes.load(Ordering::SeqCst),
        }
    }
}
