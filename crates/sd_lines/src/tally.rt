// What is counted of a drive beside its own work: what clients sent to it, and what its worker told.
use crate::amount::AmountCounter;
use sd_base::VolName;
use sd_stations::Worked;
use std::alloc::{AllocError, Global};
use std::sync::atomic::{AtomicU64, Ordering};
use std::sync::{Mutex, Wait};

/// How often the device failed with a volume, or it couldn't be loaded.
#[derive(Drop)]
pub struct VolumeFaults {
    pub volume: VolName,
    pub faults: u64,
}

/// The counters of a drive. What changes with each record is an atomic.
#[derive(Drop)]
pub struct Tally {
    /// The records that its sessions took.
    pub(crate) taken: AmountCounter,
    // How often the drive had to ask for a volume, and how many volumes became full.
    waits: AtomicU64,
    full: AtomicU64,
    // The volumes with which the device failed, and those that couldn't be loaded. Each has a lock of its own, which is
    // taken if one failed and when the figures are read. A volume is in each of them once.
    faults: Mutex<Vec<VolumeFaults>>,
    load_faults: Mutex<Vec<VolumeFaults>>,
}

impl Tally {
    /// Nothing was counted yet.
    pub(crate) fn new(alloc: Global) -> Self {
        Tally {
            taken: AmountCounter::new(),
            waits: AtomicU64::new(0),
            full: AtomicU64::new(0),
            faults: Mutex::new(Vec::new(alloc)),
            load_faults: Mutex::new(Vec::new(alloc)),
        }
    }

    /// Counts what the drive's worker told.
    pub(crate) fn worked<R: Wait>(&self, rt: &R, worked: &Worked) {
        match worked {
            Worked::NeedsVolume(_) => {
                self.waits.fetch_add(1, Ordering::SeqCst);
            }
            Worked::Full(_) => {
                self.full.fetch_add(1, Ordering::SeqCst);
            }
            Worked::Failed(volume) => add_fault(rt, &self.faults, volume),
            Worked::LoadFailed { volume, why: _ } => add_fault(rt, &self.load_faults, volume),
            Worked::Turned | Worked::Mounted(_) | Worked::NeedsNone | Worked::Left => {}
        }
    }

    /// How often the drive had to ask for a volume.
    pub(crate) fn waits(&self) -> u64 {
        self.waits.load(Ordering::SeqCst)
    }

    /// How many volumes became full.
    pub(crate) fn full(&self) -> u64 {
        self.full.load(Ordering::SeqCst)
    }

    /// How often the device failed with each volume.
    pub(crate) fn faults<R: Wait>(
        &self,
        rt: &R,
        alloc: Global,
    ) -> Result<Vec<VolumeFaults>, AllocError> {
        copies(rt, alloc, &self.faults)
    }

    /// How often each volume couldn't be loaded.
    pub(crate) fn load_faults<R: Wait>(
        &self,
        rt: &R,
        alloc: Global,
    ) -> Result<Vec<VolumeFaults>, AllocError> {
        copies(rt, alloc, &self.load_faults)
    }
}

// Counts one fault more of a volume. If there is no memory for a volume that wasn't counted yet, it isn't.
fn add_fault<R: Wait>(rt: &R, faults: &Mutex<Vec<VolumeFaults>>, volume: &VolName) {
    let mut faults = faults.lock(rt);
    let faults: &mut Vec<VolumeFaults> = &mut faults;
    for counted in faults.iter_mut() {
        if counted.volume.is_same(volume) {
            counted.faults = counted.faults.saturating_add(1);
            return;
        }
    }
    let _ = faults.push(VolumeFaults {
        volume: volume.copy(),
        faults: 1,
    });
}

// The faults that were counted of each volume.
fn copies<R: Wait>(
    rt: &R,
    alloc: Global,
    faults: &Mutex<Vec<VolumeFaults>>,
) -> Result<Vec<VolumeFaults>, AllocError> {
    let faults = faults.lock(rt);
    let mut copies = Vec::with_capacity(alloc, faults.len())?;
    for counted in faults.iter() {
        copies.push(VolumeFaults {
            volume: counted.volume.copy(),
            faults: counted.faults,
        })?;
    }
    Ok(copies)
}
