// The world that talks are held over.
ghost use Rattle.std.specs.Prelude.{◌≡◌, ◌∷◌, [], Some, IfOk, codes, length};
ghost use Rattle.sd_base.specs.Limits.{most_volume};
ghost use Rattle.sd_core.specs.Conf.{IsConf, limits_of};

use sd_base::{MOST_VOLUME, MediaName, Name};
use sd_core::{World, WorldConf};
use sd_lane::PlainLanes;
use sd_memdrive::MemDrive;
use sd_spool::MemSpool;
use std::alloc::{AllocError, Global};

/// A world whose volumes and spools are in memory.
pub(crate) type MemoryWorld = World<MemDrive, PlainLanes, MemSpool>;

/// The time of the run, in seconds.
const TIME: u32 = 1_000_000_000;

/// The most bytes of a block.
const BLOCK: usize = 64_512;

/// How many blocks the queue before the drive has room for.
const QUEUE: usize = 8;

/// The media of the drive.
const MEDIA: &str = "File";

/// The lanes of the drive.
const LANES: u32 = 4;

/// The host that the labels of new volumes say.
const HOST: &str = "localhost";

/// A new world with one drive, whose sessions have no spool.
pub(crate) fn memory_world(alloc: Global) -> Result<MemoryWorld, AllocError>
    ensures limits { IfOk result (λ world. world.limits ≡ record {
      block = 64512;
      volume = most_volume;
      spool = 0;
      time = 1000000000;
      host = Some (codes "localhost");
    }) }
    ensures queue { IfOk result (λ world. world.queue ≡ 8) }
    ensures no_session { IfOk result (λ world. world.sessions ≡ []) }
{
    let drives = vec![in alloc; (Name::parse(MEDIA).unwrap(), LANES)]?;
    let devices = vec![in alloc; MemDrive::new(alloc, MOST_VOLUME, &[])?]?;
    let queues = vec![in alloc; PlainLanes::new(alloc, LANES, QUEUE)?]?;
    let spools = vec![in alloc; empty_spools(alloc)?]?;
    match World::new(alloc, settings(drives), TIME, devices, queues, spools) {
        Ok(world) => Ok(world),
        Err(_) => Err(AllocError),
    }
}

fn settings(drives: Vec<(MediaName, u32)>) -> WorldConf
    requires { drives.items ≡ (codes "File", 4) ∷ [] }
    ensures conf { IsConf result }
    ensures limits { limits_of result 1000000000 ≡ record {
      block = 64512;
      volume = most_volume;
      spool = 0;
      time = 1000000000;
      host = Some (codes "localhost");
    } }
    ensures queue { result.queue ≡ 8 }
    ensures drives { result.drives ≡ drives }
{
    WorldConf {
        block: BLOCK,
        volume: MOST_VOLUME,
        spool: 0,
        queue: QUEUE,
        drives,
        host: Some(Name::parse(HOST).unwrap()),
    }
}

// An empty spool for each lane of the drive.
fn empty_spools(alloc: Global) -> Result<Vec<MemSpool>, AllocError>
    ensures { IfOk result (λ spools. length spools.items ≡ 4) }
{
    let mut spools = Vec::new(alloc);
    for _lane in 0..LANES {
        spools.push(MemSpool::new(alloc))?;
    }
    Ok(spools)
}
