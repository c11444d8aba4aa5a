// The drives of a new world are made.
ghost use Rattle.std.specs.Prelude.{◌≡◌, ◌≤◌, ◌+◌, ◌++◌, [], length, map, vec_len, vec_capacity, OnOk, OnErr};
ghost use Rattle.std.specs.List.{AllZip};
ghost use Rattle.sd_drive.specs.Limits.{AreLimits};
ghost use Rattle.sd_drive.specs.View.{DriveIs};
ghost use Rattle.sd_core.specs.Fresh.{AreNewDrives, StaysDevice, new_lane};

use sd_base::MediaName;
use sd_drive::{Drive, Limits};
use sd_driver::Driver;
use sd_events::LaneSlot;
use sd_spool::SpoolStore;
use std::alloc::{AllocError, Global};

/// Takes drives apart again: their devices go after the others, in their order. Calls itself for the drives before the
/// last one, of which a world has `MOST_DRIVES` at most. Takes no memory.
pub(crate) fn unmake_drives<D: Driver>(drives: &mut Vec<Drive<D>>, drivers: &mut Vec<D>)
    requires room { vec_len drivers.old + vec_len drives.old ≤ vec_capacity drivers.old }
    ensures devices { drivers.new.items ≡ drivers.old.items ++ map
        (λ (d : DriveIs D). d.device) drives.old.items }
    ensures len { vec_len drivers.new ≡ vec_len drivers.old + vec_len drives.old }
    ensures capacity { vec_capacity drivers.new ≡ vec_capacity drivers.old }
    ensures empty { drives.new.items ≡ [] }
    ensures kept { vec_capacity drives.new ≡ vec_capacity drives.old }
{
    let Some(drive) = drives.pop() else {
        return;
    };
    unmake_drives(drives, drivers);
    drivers.push_reserved(drive.into_driver());
}

/// Makes a lane over each store, in their order. Calls itself for the stores before the last one, of which a drive has
/// `MOST_LANES` at most. Takes no memory.
pub(crate) fn make_lanes<S: SpoolStore>(stores: &mut Vec<S>, lanes: &mut Vec<LaneSlot<S>>)
    requires room { vec_len lanes.old + vec_len stores.old ≤ vec_capacity lanes.old }
    ensures lanes { lanes.new.items ≡ lanes.old.items ++ map
        (λ s. new_lane (S.meaning s)) stores.old.items }
    ensures len { vec_len lanes.new ≡ vec_len lanes.old + vec_len stores.old }
    ensures capacity { vec_capacity lanes.new ≡ vec_capacity lanes.old }
    ensures empty { stores.new.items ≡ [] }
{
    let Some(store) = stores.pop() else {
        return;
    };
    make_lanes(stores, lanes);
    lanes.push_reserved(LaneSlot {
        holder: None,
        store: Some(store),
    });
}

/// Makes a drive of each driver, in their order, with the media at its place. If out of memory, none is made, and the
/// drivers are there again. Calls itself for the drivers before the last one.
pub(crate) fn make_drives<D: Driver>(
    alloc: Global,
    limits: &Limits,
    medias: &[(MediaName, u32)],
    drivers: &mut Vec<D>,
    drives: &mut Vec<Drive<D>>,
) -> Result<(), AllocError>
    requires limits { AreLimits limits.now }
    requires medias { vec_len drivers.old ≤ length medias.now }
    requires none_made { drives.old.items ≡ [] }
    requires room { vec_len drivers.old ≤ vec_capacity drives.old }
    ensures made { OnOk result (AreNewDrives (λ d. D.meaning d) limits.now medias.now
        drivers.old.items drives.new.items) }
    ensures none_left { OnOk result (drivers.new.items ≡ []) }
    ensures len { OnOk result (vec_len drives.new ≡ vec_len drivers.old) }
    ensures none_made { OnErr result (drives.new.items ≡ []) }
    ensures again { OnErr result (AllZip (StaysDevice (λ d. D.meaning d))
        drivers.old.items drivers.new.items) }
    ensures again_len { OnErr result (vec_len drivers.new ≡ vec_len drivers.old) }
    ensures capacity { vec_capacity drivers.new ≡ vec_capacity drivers.old }
    ensures room { vec_capacity drives.new ≡ vec_capacity drives.old }
{
    let Some(driver) = drivers.pop() else {
        return Ok(());
    };
    let media = medias[drivers.len()].0.copy();
    if let Err(lacks) = make_drives(alloc, limits, medias, drivers, drives) {
        drivers.push_reserved(driver);
        return Err(lacks);
    }
    match Drive::new(alloc, driver, media, limits.copy()) {
        Ok(drive) => {
            drives.push_reserved(drive);
            Ok(())
        }
        Err(kept) => {
            unmake_drives(drives, drivers);
            drivers.push_reserved(kept.driver);
            Err(AllocError)
        }
    }
}
