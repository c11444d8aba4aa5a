// A later run over what a stop left.
ghost use Rattle.std.specs.Prelude.{◌≡◌, ◌∷◌, [], IfOk, codes};
ghost use Rattle.sd_core.specs.Conf.{IsConf, AreQueues, AreStores};
ghost use Rattle.sd_lane.specs.Queue.{lanes_view};

use crate::jobs::{Told, VOLUMES, limits, media, volume};
use crate::records::are_drawn;
use crate::stops::{Stop, bit_of};
use sd_base::{DriveNo, MediaName, Rec};
use sd_core::{World, WorldConf};
use sd_filedrive::FolderDrive;
use sd_lane::PlainLanes;
use sd_machine::Event;
use sd_memfolder::MemoryFolder;
use sd_spool::MemSpool;
use sd_theorem::read_told_again;
use std::alloc::{AllocError, Global};

/// The time of the later run.
const LATER: u32 = 2000;

type Later = World<FolderDrive<MemoryFolder>, PlainLanes, MemSpool>;

/// What a stop came to: how many of the sessions that were told closed before it read to their records, and how many don't.
#[derive(Clone, Copy)]
pub struct Read {
    pub right: u32,
    pub wrong: u32,
}

/// Reads all sessions that were told closed before the stop, in a later run over what it left.
pub fn read_all(alloc: Global, run: u32, told: &[Told], stop: Stop) -> Option<Read> {
    let Stop { closed, left } = stop;
    let mut world = world_over(alloc, left).ok()?;
    adopt_all(&mut world)?;
    let mut read = Read { right: 0, wrong: 0 };
    for one in told {
        if closed & bit_of(one.id) == 0 {
            continue;
        }
        if reads(alloc, run, one, &mut world) {
            read.right = read.right.saturating_add(1);
        } else {
            read.wrong = read.wrong.saturating_add(1);
        }
    }
    Some(read)
}

// Takes over the volumes that are there.
fn adopt_all(world: &mut Later) -> Option<()> {
    for number in 0..VOLUMES {
        let drive = DriveNo::new(1)?;
        let name = volume(number)?;
        let _ = world.step(Event::Adopt { drive, name });
    }
    Some(())
}

// Whether the session reads to its records.
fn reads(alloc: Global, run: u32, told: &Told, world: &mut Later) -> bool {
    let mut recs: Vec<Rec> = Vec::new(alloc);
    let (key, spans) = (told.receipt.key(), told.receipt.spans());
    match read_told_again(world, key, spans, &mut recs) {
        Ok(end) => end.ended && are_drawn(&recs, run, told.id),
        Err(_) => false,
    }
}

fn world_over(alloc: Global, left: FolderDrive<MemoryFolder>) -> Result<Later, AllocError> {
    let drives = vec![in alloc; (media(), 1)]?;
    let devices = vec![in alloc; left]?;
    let queues = vec![in alloc; PlainLanes::new(alloc, 1, 2)?]?;
    let lanes = vec![in alloc; MemSpool::new(alloc)]?;
    let stores = vec![in alloc; lanes]?;
    let limits = limits();
    let conf = WorldConf {
        block: limits.block,
        volume: limits.volume,
        spool: 0,
        queue: 2,
        drives,
        host: None,
    };
    match World::new(alloc, conf, LATER, devices, queues, stores) {
        Ok(world) => Ok(world),
        Err(_) => Err(AllocError),
    }
}
