// What the threads that write the notes of a run share.
use crate::ending::Ending;
use crate::hub::FileHub;
use crate::planning::{Plan, Planned};
use crate::takeover::takes_name;
use sd_base::VolName;
use sd_line::Naming;
use sd_stations::VolumeRow;
use std::alloc::{AllocError, Global};
use std::sync::Wait;
use std::sync::atomic::{AtomicU64, Ordering};
use std::time::Clock;

/// A volume that its drive adopted at the start: the moment of its label, and where its blocks ended then.
#[derive(Drop)]
pub(crate) struct OldVolume {
    name: VolName,
    pub(crate) moment: i64,
    pub(crate) end: u64,
}

/// What is shared of the notes of a drive.
#[derive(Drop)]
pub(crate) struct DriveNotes {
    // The volumes that came at the start.
    old: Vec<OldVolume>,
    failures: AtomicU64,
}

impl DriveNotes {
    /// Counts a note that couldn't be written.
    pub(crate) fn failed(&self) {
        self.failures.fetch_add(1, Ordering::SeqCst);
    }

    /// How often a note couldn't be written.
    pub(crate) fn failures(&self) -> u64 {
        self.failures.load(Ordering::SeqCst)
    }

    /// What is known of a volume from the start. None if it came later.
    pub(crate) fn old(&self, name: &VolName) -> Option<&OldVolume> {
        self.old.iter().find(|one| one.name.is_same(name))
    }
}

/// What is shared of the notes of a run.
#[derive(Drop)]
pub(crate) struct NoteKeeping {
    pub(crate) ending: Ending,
    /// Of the drives 1, 2 and on.
    pub(crate) drives: Vec<DriveNotes>,
}

impl NoteKeeping {
    /// That of a hub that no thread shares yet, whose drives adopted volumes as planned.
    pub(crate) fn of<N: Naming, W: Wait + Clock + Copy + Drop>(
        hub: &FileHub<N, W>,
        plan: &Plan,
    ) -> Result<Self, AllocError> {
        let mut drives = Vec::with_capacity(hub.alloc, hub.posts.len())?;
        for post in hub.posts.iter() {
            drives.push(DriveNotes {
                old: old_volumes(hub.alloc, post.station.rows(&hub.rt, hub.alloc)?, plan)?,
                failures: AtomicU64::new(0),
            })?;
        }
        Ok(NoteKeeping {
            ending: Ending::new(),
            drives,
        })
    }
}

// The volumes of these rows, which were published at the start.
fn old_volumes(
    alloc: Global,
    rows: Vec<VolumeRow>,
    plan: &Plan,
) -> Result<Vec<OldVolume>, AllocError> {
    let mut old = Vec::with_capacity(alloc, rows.len())?;
    for row in rows {
        if let Some(moment) = moment_of(&plan.volumes, &row.name) {
            old.push(OldVolume {
                name: row.name.copy(),
                moment,
                end: row.extent.end,
            })?;
        }
    }
    Ok(old)
}

// The moment of the label of the volume of this name that was adopted.
fn moment_of(planned: &[Planned], name: &VolName) -> Option<i64> {
    planned
        .iter()
        .find(|one| takes_name(one.takeover) && one.name.is_same(name))?
        .moment
}
