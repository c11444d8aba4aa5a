// Drives in memory, and a world of one.
ghost use Rattle.std.specs.Prelude.{◌≡◌, ℕ, List, [], ◌∷◌, length, None, IfSome};
ghost use Rattle.sd_core.specs.Conf.{AreQueues, AreStores};
ghost use Rattle.sd_drive.specs.Limits.{AreLimits};
ghost use Rattle.sd_lane.specs.Queue.{lanes_view};

use sd_base::{MediaName, Name, PoolName, SessionKey};
use sd_core::{World, WorldConf};
use sd_drive::{Drive, Limits};
use sd_lane::PlainLanes;
use sd_memdrive::MemDrive;
use sd_spool::MemSpool;
use std::alloc::Global;

/// The time of the run.
pub const TIME: u32 = 1000;

// The most bytes of a volume.
const MOST_BYTES: u64 = 1_000_000;

// The limits of the drives.
fn limits() -> Limits
    ensures { AreLimits result × (result.time ≡ 1000) }
{
    Limits {
        block: 1024,
        volume: MOST_BYTES,
        spool: 0,
        time: TIME,
        host: None,
    }
}

/// A device with no volume.
pub fn make_device(alloc: Global) -> Option<MemDrive> {
    MemDrive::new(alloc, MOST_BYTES, &[]).ok()
}

/// A device on whose shelf an earlier run left a volume.
pub fn make_used(alloc: Global) -> Option<MemDrive> {
    let media = Name::parse("File").ok()?;
    let name = Name::parse("Vol-0007").ok()?;
    let pool = Name::parse("Default").ok()?;
    let Ok(mut drive) = Drive::new(alloc, make_device(alloc)?, media.copy(), limits()) else {
        return None;
    };
    drive.label(&name, &pool, &media, 0).ok()?;
    Some(drive.into_driver())
}

/// A drive with no volume, which served a session of the pool.
pub fn make_drive(
    alloc: Global,
    device: MemDrive,
    key: SessionKey,
    pool: &PoolName,
) -> Option<Drive<MemDrive>>
    ensures limits { IfSome result (λ drive. AreLimits drive.limits × (drive.limits.time ≡ 1000)) }
    ensures unused { IfSome result (λ drive. (drive.journal ≡ []) × (drive.hand ≡ None)) }
{
    let media = Name::parse("File").ok()?;
    let Ok(mut drive) = Drive::new(alloc, device, media, limits()) else {
        return None;
    };
    drive.serve(key, pool).ok()?;
    Some(drive)
}

/// A world of one drive, over a device on which an earlier run left a volume.
pub fn make_world(alloc: Global) -> Option<World<MemDrive, PlainLanes, MemSpool>> {
    let media: MediaName = Name::parse("File").ok()?;
    let drives = one(alloc, (media, 1))?;
    let devices = one(alloc, make_used(alloc)?)?;
    let Ok(queue) = PlainLanes::new(alloc, 1, 8) else {
        return None;
    };
    let queues = one(alloc, queue)?;
    let spools = one(alloc, one(alloc, MemSpool::new(alloc))?)?;
    world_of(alloc, drives, devices, queues, spools)
}

// The world of these.
fn world_of(
    alloc: Global,
    drives: Vec<(MediaName, u32)>,
    devices: Vec<MemDrive>,
    queues: Vec<PlainLanes>,
    spools: Vec<Vec<MemSpool>>,
) -> Option<World<MemDrive, PlainLanes, MemSpool>>
    requires drives { (media : List ℕ) × (drives.items ≡ (media, 1) ∷ []) }
    requires devices { length devices.items ≡ 1 }
    requires queues { AreQueues (λ q. lanes_view q) 8 drives.items queues.items }
    requires spools { AreStores drives.items spools.items }
{
    let conf = WorldConf {
        block: 1024,
        volume: MOST_BYTES,
        spool: 0,
        queue: 8,
        drives,
        host: None,
    };
    World::new(alloc, conf, TIME, devices, queues, spools).ok()
}

// A list of one.
fn one<T: Drop>(alloc: Global, value: T) -> Option<Vec<T>>
    ensures { IfSome result (λ all. all.items ≡ value ∷ []) }
{
    let Ok(mut all) = Vec::with_capacity(alloc, 1) else {
        return None;
    };
    all.push_reserved(value);
    Some(all)
}
