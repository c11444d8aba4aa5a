// Worlds with queues in memory, and with spools in memory or over folders in memory.
ghost use Rattle.std.specs.Prelude.{◌≡◌, ◌≤◌, ◌∷◌, [], All, IfOk, Vec, codes, length};
ghost use Rattle.std.specs.Global.{Global as TheGlobal};
ghost use Rattle.std.specs.List.{AllZip};
ghost use Rattle.sd_base.specs.Limits.{most_number};
ghost use Rattle.sd_core.specs.Conf.{IsConf, AreQueues, AreStores};
ghost use Rattle.sd_lane.specs.Queue.{lanes_view};
ghost use Rattle.sd_spool.specs.FileSpool.{meaning_of};
ghost use Rattle.sd_spool.specs.Meaning.{IsHonest};

use crate::rows::Row;
use sd_base::{MediaName, Name};
use sd_core::{World, WorldConf};
use sd_driver::Driver;
use sd_lane::PlainLanes;
use sd_memdrive::MemDrive;
use sd_memfolder::{Fail, MemoryFolder};
use sd_spool::{FolderSpool, MemSpool, SpoolFail, SpoolStore};
use std::alloc::{AllocError, Global};

/// A world over devices and spools of these kinds.
pub type WorldOver<D, S> = World<D, PlainLanes, S>;

/// A world whose devices and spools are in memory.
pub type MemWorld = WorldOver<MemDrive, MemSpool>;

/// The spool that the daemon has over a folder, here over one in memory.
pub type MemoryFolderSpool = FolderSpool<MemoryFolder>;

/// The most bytes of a volume of a device.
pub const CAPACITY: u64 = 1_048_576;

/// The lanes of the one drive, and how many pieces the queue before it has room for.
const LANES: u32 = 4;

const QUEUE: usize = 8;

/// A world for an example over this device and these spools of its lanes, in the run of this time.
pub fn world_over<D: Driver + Drop, S: SpoolStore + Drop>(
    alloc: Global,
    row: &Row,
    time: u32,
    device: D,
    stores: Vec<Vec<S>>,
) -> Result<WorldOver<D, S>, AllocError>
    requires least { 1 ≤ time }
    requires most { time ≤ most_number }
    requires stores { AreStores ((codes "File", 4) ∷ []) stores.items }
{
    let drives = drives(alloc)?;
    let mut devices = Vec::new(alloc);
    devices.push(device)?;
    let queues = queues(alloc)?;
    match World::new(alloc, settings(row, drives), time, devices, queues, stores) {
        Ok(world) => Ok(world),
        Err(_) => Err(AllocError),
    }
}

/// The drive, by its media and lanes.
pub fn drives(alloc: Global) -> Result<Vec<(MediaName, u32)>, AllocError>
    ensures { IfOk result (λ drives. drives.items ≡ (codes "File", 4) ∷ []) }
{
    Ok(vec![in alloc; (Name::parse("File").unwrap(), LANES)]?)
}

/// The settings of an example's world.
pub fn settings(row: &Row, drives: Vec<(MediaName, u32)>) -> WorldConf
    requires { drives.items ≡ (codes "File", 4) ∷ [] }
    ensures conf { IsConf result }
    ensures queue { result.queue ≡ 8 }
    ensures drives { result.drives ≡ drives }
{
    WorldConf {
        block: 1024,
        volume: if row.is_small { 2200 } else { CAPACITY },
        spool: if row.is_spooled { 2000 } else { 0 },
        queue: QUEUE,
        drives,
        host: None,
    }
}

/// The queue before the drive.
pub fn queues(alloc: Global) -> Result<Vec<PlainLanes>, AllocError>
    ensures { IfOk result (λ queues. AreQueues (λ q. lanes_view q) 8
        ((codes "File", 4) ∷ []) queues.items) }
{
    Ok(vec![in alloc; PlainLanes::new(alloc, LANES, QUEUE)?]?)
}

/// The lanes' spools in memory; calls of the first one fail as `plan` says.
pub fn stores(alloc: Global, plan: Vec<SpoolFail>) -> Result<Vec<Vec<MemSpool>>, AllocError>
    ensures { IfOk result (λ stores. AreStores ((codes "File", 4) ∷ []) stores.items) }
{
    let first = MemSpool::with_plan(alloc, plan);
    let (second, third) = (MemSpool::new(alloc), MemSpool::new(alloc));
    let lanes = vec![in alloc; first, second, third, MemSpool::new(alloc)]?;
    Ok(vec![in alloc; lanes]?)
}

/// The lanes' spools, each over a folder of its own in memory; calls of the first one's folder fail as `plan` says.
pub fn folder_stores(
    alloc: Global,
    plan: &[Fail],
) -> Result<Vec<Vec<MemoryFolderSpool>>, AllocError>
    ensures stores { IfOk result (λ stores. AreStores ((codes "File", 4) ∷ []) stores.items) }
    ensures honest { IfOk result (λ stores. All (λ (lanes : Vec _ TheGlobal).
        All (λ spool. IsHonest (meaning_of spool)) lanes.items) stores.items) }
{
    let first = folder_store(alloc, plan)?;
    let (second, third) = (folder_store(alloc, &[])?, folder_store(alloc, &[])?);
    let lanes = vec![in alloc; first, second, third, folder_store(alloc, &[])?]?;
    Ok(vec![in alloc; lanes]?)
}

// A spool over a folder in memory of which calls fail as `plan` says.
fn folder_store(alloc: Global, plan: &[Fail]) -> Result<MemoryFolderSpool, AllocError>
    ensures { IfOk result (λ spool. IsHonest (meaning_of spool)) }
{
    let folder = MemoryFolder::new(alloc, CAPACITY, plan)?;
    Ok(FolderSpool::of_folder(folder, String::from_str(alloc, "spool")?))
}
