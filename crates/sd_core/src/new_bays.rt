// The bays of a new world are filled.
ghost use Rattle.std.specs.Prelude.{◌≡◌, ◌≤◌, [], length, vec_len, vec_capacity, IfOk, OnOk, OnErr, List};
ghost use Rattle.std.specs.List.{AllZip};
ghost use Rattle.sd_drive.specs.Limits.{AreLimits};
ghost use Rattle.sd_drive.specs.View.{DriveIs};
ghost use Rattle.sd_core.specs.Fresh.{AreNewDrives, StaysDevice, HasRoom, new_bays};

use crate::new_drives::{make_drives, make_lanes};
use sd_base::MediaName;
use sd_drive::{Drive, Limits};
use sd_driver::Driver;
use sd_events::{Bay, LaneSlot};
use sd_lane::Lanes;
use sd_spool::SpoolStore;
use std::alloc::{AllocError, Global};

/// Makes an empty list of lanes for each list of stores, with room for a lane over each of them. Calls itself for the
/// lists before the last one, of which a world has `MOST_DRIVES` at most.
pub(crate) fn reserve_lanes<S: SpoolStore + Drop>(
    alloc: Global,
    spools: &[Vec<S>],
    rooms: &mut Vec<Vec<LaneSlot<S>>>,
) -> Result<(), AllocError>
    requires none_made { rooms.old.items ≡ [] }
    requires room { length spools.now ≤ vec_capacity rooms.old }
    ensures reserved { OnOk result (AllZip HasRoom spools.now rooms.new.items) }
    ensures len { OnOk result (vec_len rooms.new ≡ length spools.now) }
    ensures capacity { vec_capacity rooms.new ≡ vec_capacity rooms.old }
{
    let Some((stores, front)) = spools.split_last() else {
        return Ok(());
    };
    reserve_lanes(alloc, front, rooms)?;
    let lanes = Vec::with_capacity(alloc, stores.len())?;
    rooms.push_reserved(lanes);
    Ok(())
}

/// Makes a bay of each drive, in their order, with the queue, the stores and the list of lanes at its place. Calls itself
/// for those before the last one. Takes no memory.
pub(crate) fn make_bays<D: Driver, Q: Lanes, S: SpoolStore + Drop>(
    drives: &mut Vec<Drive<D>>,
    queues: &mut Vec<Q>,
    spools: &mut Vec<Vec<S>>,
    rooms: &mut Vec<Vec<LaneSlot<S>>>,
    bays: &mut Vec<Bay<D, Q, S>>,
)
    requires queues { vec_len queues.old ≡ vec_len drives.old }
    requires spools { vec_len spools.old ≡ vec_len drives.old }
    requires rooms { vec_len rooms.old ≡ vec_len drives.old }
    requires reserved { AllZip HasRoom spools.old.items rooms.old.items }
    requires none_made { bays.old.items ≡ [] }
    requires room { vec_len drives.old ≤ vec_capacity bays.old }
    ensures made { bays.new.items ≡ new_bays
        (λ q. record {
          lanes = Q.lanes q;
          capacity = Q.capacity q;
          held = Q.held q;
        }) (λ s. S.meaning s)
        drives.old.items queues.old.items spools.old.items }
    ensures len { vec_len bays.new ≡ vec_len drives.old }
    ensures capacity { vec_capacity bays.new ≡ vec_capacity bays.old }
{
    let Some(drive) = drives.pop() else {
        return;
    };
    let queue = queues.pop().unwrap();
    let mut stores = spools.pop().unwrap();
    let mut lanes = rooms.pop().unwrap();
    make_bays(drives, queues, spools, rooms, bays);
    make_lanes(&mut stores, &mut lanes);
    let media = drive.media().copy();
    bays.push_reserved(Bay {
        media,
        drive: Some(drive),
        lanes,
        queue,
    });
}

/// Makes the bays of a world of its devices, queues and stores. If out of memory, the queues and stores are as
/// they were, and the devices are there again.
pub(crate) fn fill_bays<D: Driver + Drop, Q: Lanes + Drop, S: SpoolStore + Drop>(
    alloc: Global,
    limits: &Limits,
    medias: &[(MediaName, u32)],
    drivers: &mut Vec<D>,
    queues: &mut Vec<Q>,
    spools: &mut Vec<Vec<S>>,
) -> Result<Vec<Bay<D, Q, S>>, AllocError>
    requires limits { AreLimits limits.now }
    requires medias { vec_len drivers.old ≡ length medias.now }
    requires queues { vec_len queues.old ≡ length medias.now }
    requires spools { vec_len spools.old ≡ length medias.now }
    ensures made { IfOk result (λ bays. (drives : List (DriveIs D))
        × AreNewDrives (λ d. D.meaning d) limits.now medias.now drivers.old.items drives
        × (bays.items ≡ new_bays
        (λ q. record {
          lanes = Q.lanes q;
          capacity = Q.capacity q;
          held = Q.held q;
        }) (λ s. S.meaning s)
        drives queues.old.items spools.old.items)) }
    ensures drivers { OnErr result (AllZip (StaysDevice (λ d. D.meaning d))
        drivers.old.items drivers.new.items) }
    ensures queues { OnErr result (queues.new ≡ queues.old) }
    ensures spools { OnErr result (spools.new ≡ spools.old) }
{
    let mut bays = Vec::with_capacity(alloc, drivers.len())?;
    let mut drives = Vec::with_capacity(alloc, drivers.len())?;
    let mut rooms = Vec::with_capacity(alloc, spools.len())?;
    reserve_lanes(alloc, spools, &mut rooms)?;
    make_drives(alloc, limits, medias, drivers, &mut drives)?;
    make_bays(&mut drives, queues, spools, &mut rooms, &mut bays);
    Ok(bays)
}
