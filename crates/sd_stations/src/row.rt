// What others may know of a volume without its drive's lock.
ghost use Rattle.std.specs.Prelude.{◌≡◌};
ghost use Rattle.sd_stations.specs.Rows.{blocks_at, extent_of, new_row, row_after};

use sd_base::{MediaName, PoolName, VolName};
use sd_drive::Drive;
use sd_driver::Driver;
use sd_volume::{Volume, VolumeStatus};

/// How far the whole blocks of a volume go.
#[derive(Clone, Copy, Debug, PartialEq, Eq)]
pub struct Extent {
    /// Where they end.
    pub end: u64,
    /// Where the last of them begins, 0 if there is the label's block alone.
    pub last: u64,
    /// The number of the next one.
    pub next_number: u32,
}

impl Extent {
    /// That of a volume as it is now.
    pub fn of(volume: &Volume) -> Self
        ensures { result ≡ extent_of volume.now }
    {
        Extent {
            end: volume.end(),
            last: volume.last(),
            next_number: volume.next_number(),
        }
    }
}

/// What became of a volume's blocks by a turn or an event, before which it was loaded, or after which it is.
#[derive(Clone, Copy, Debug, PartialEq, Eq)]
pub(crate) enum Blocks {
    /// The disk has all of them.
    Synced,
    /// Some await a sync.
    Awaiting,
    /// The sync of some failed, or may have failed.
    Torn,
}

/// What became of the blocks of the volume at this place, which has this status after a turn or an event. Whether by that a
/// sync failed for which blocks waited, or may have failed.
///
/// While the volume is loaded, the drive knows whether a block of it awaits a sync. It goes out once its blocks are synced, or
/// since that failed: then, and never else, its status is `Error` and the device failed with blocks that waited.
pub(crate) fn blocks_at<D: Driver>(
    drive: &Drive<D>,
    at: usize,
    status: VolumeStatus,
    has_failed: bool,
) -> Blocks
    ensures { result ≡ blocks_at has_failed at status drive.now }
{
    if drive.loaded() == Some(at) {
        if drive.awaits_sync() {
            Blocks::Awaiting
        } else {
            Blocks::Synced
        }
    } else if has_failed && status == VolumeStatus::Error {
        Blocks::Torn
    } else {
        Blocks::Synced
    }
}

/// A volume of a drive.
#[derive(Drop)]
pub struct VolumeRow {
    pub name: VolName,
    pub pool: PoolName,
    pub media: MediaName,
    pub status: VolumeStatus,
    /// How far its blocks go.
    pub extent: Extent,
    /// How far those go that the disk is known to have. It may have more, and never has less.
    pub synced: Extent,
    /// Whether a sync of it failed, so that its blocks behind `synced` may be lost. Then its status is `Error`, it takes no
    /// block more, and `synced` stays as it is. (After a failed write its status is `Error` too; but what it had before that can
    /// still be synced.)
    pub is_torn: bool,
}

impl VolumeRow {
    /// That of a volume which came to the drive by a label or an adoption. Both leave it synced.
    pub(crate) fn of(volume: &Volume) -> Self
        ensures { result ≡ new_row volume.now }
    {
        let extent = Extent::of(volume);
        VolumeRow {
            name: volume.name().copy(),
            pool: volume.pool().copy(),
            media: volume.media().copy(),
            status: volume.status(),
            extent,
            synced: extent,
            is_torn: false,
        }
    }

    /// Looks at the volume after a turn or an event, by which this became of its blocks.
    pub(crate) fn look(&mut self, volume: &Volume, blocks: Blocks)
        ensures { self.new ≡ row_after blocks volume.now self.old }
    {
        self.status = volume.status();
        self.extent = Extent::of(volume);
        match blocks {
            Blocks::Synced if !self.is_torn => self.synced = self.extent,
            Blocks::Torn => self.is_torn = true,
            Blocks::Synced | Blocks::Awaiting => {}
        }
    }

    /// The same once more.
    pub fn copy(&self) -> Self
        ensures { result ≡ self.now }
    {
        VolumeRow {
            name: self.name.copy(),
            pool: self.pool.copy(),
            media: self.media.copy(),
            status: self.status,
            extent: self.extent,
            synced: self.synced,
            is_torn: self.is_torn,
        }
    }
}
