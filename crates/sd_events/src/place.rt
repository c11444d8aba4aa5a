// Where a drive's bay is among the bays.
ghost use Rattle.std.specs.Prelude.{◌≡◌, ◌+◌, IfOk, IfErr};
ghost use Rattle.sd_world.specs.Drives.{DriveMissing};
ghost use Rattle.sd_events.specs.Found.{IsOnlineAt};
ghost use Rattle.sd_events.specs.View.{world_of};

use crate::parts::Parts;
use sd_base::{DriveNo, Refusal};
use sd_driver::Driver;
use sd_lane::Lanes;
use sd_spool::SpoolStore;

// The place of the bay of this drive: drives are numbered from 1.
pub fn index_of(drive: DriveNo) -> usize
    ensures { drive ≡ result + 1 }
{
    drive.get() as usize - 1
}

/// The place of the bay of this drive, if the drive is online. If not there is no such drive, or it is offline.
pub fn online<D: Driver, Q: Lanes, S: SpoolStore>(
    parts: &Parts<D, Q, S>,
    drive: DriveNo,
) -> Result<usize, Refusal>
    ensures ok { IfOk result (IsOnlineAt (world_of parts.now) drive) }
    ensures err { IfErr result (DriveMissing (world_of parts.now) drive) }
{
    let place = index_of(drive);
    let Some(bay) = parts.bays.get(place) else {
        return Err(Refusal::NoSuchDrive);
    };
    if bay.drive.is_none() {
        return Err(Refusal::DriveOffline);
    }
    Ok(place)
}
