// The worlds of a run.
ghost use Rattle.std.specs.Prelude.{◌≡◌, ◌≤◌, ◌<◌, None, IfOk, All, length};
ghost use Rattle.sd_base.specs.Limits.{most_lanes, most_number};
ghost use Rattle.sd_core.specs.Conf.{AreQueues, AreStores};
ghost use Rattle.sd_tool.specs.Making.{IsRoomOf, StartsAs};
ghost use Rattle.sd_tool.specs.Settings.{drive_count, drives_of, misfit_of};

use crate::values::Values;
use sd_base::{HostName, MediaName, Name};
use sd_core::{World, WorldConf};
use sd_driver::Driver;
use sd_lane::Lanes;
use sd_spool::MemSpool;
use std::alloc::{AllocError, Global};

/// The media of the one drive of a script that gives none.
const USUAL_MEDIA: &str = "File";

/// The lanes of that drive.
const USUAL_LANES: u32 = 4;

/// A world over drives and queues, with its spools in memory.
pub type ScriptWorld<D, Q> = World<D, Q, MemSpool>;

/// What a world is made with but its drives, each with nothing in it yet.
#[derive(Drop)]
pub struct Room<Q: Lanes> {
    conf: WorldConf,
    queues: Vec<Q>,
    stores: Vec<Vec<MemSpool>>,
}

impl<Q: Lanes + Drop> Room<Q> {
    /// What a world of these settings is made with, its queues like the one given.
    pub fn new(alloc: Global, values: &Values, queue: &Q) -> Result<Room<Q>, AllocError>
        requires { misfit_of values.now ≡ None }
        ensures { IfOk result (IsRoomOf
            (λ q. record { lanes = Q.lanes q; capacity = Q.capacity q; held = Q.held q })
            values.now) }
    {
        let drives = drives_of(alloc, values)?;
        let queues = queues_of(alloc, queue, &drives, values.queue)?;
        let stores = stores_of(alloc, &drives)?;
        let conf = WorldConf {
            block: values.block,
            volume: values.volume,
            spool: values.spool,
            queue: values.queue,
            drives,
            host: HostName::copy_of(&values.host),
        };
        Ok(Room {
            conf,
            queues,
            stores,
        })
    }

    /// The world of these settings for the run of this time, over these drives.
    pub fn into_world<D: Driver + Drop>(
        self,
        alloc: Global,
        values: &Values,
        time: u32,
        drivers: Vec<D>,
    ) -> Result<ScriptWorld<D, Q>, AllocError>
        requires room { IsRoomOf
            (λ q. record { lanes = Q.lanes q; capacity = Q.capacity q; held = Q.held q })
            values.now self }
        requires drivers { length drivers.items ≡ drive_count values.now }
        requires time_least { 1 ≤ time }
        requires time_most { time ≤ most_number }
        ensures { IfOk result (StartsAs (λ d. D.meaning d) values.now time drivers.items) }
    {
        let Room {
            conf,
            queues,
            stores,
        } = self;
        match World::new(alloc, conf, time, drivers, queues, stores) {
            Ok(world) => Ok(world),
            Err(_) => Err(AllocError),
        }
    }
}

// The media and the number of lanes of each drive.
fn drives_of(alloc: Global, values: &Values) -> Result<Vec<(MediaName, u32)>, AllocError>
    ensures { IfOk result (λ drives. drives.items ≡ drives_of values.now) }
{
    let given = &values.drives;
    if given.len() > 0 {
        return copies_of(alloc, given);
    }
    let mut usual = Vec::with_capacity(alloc, 1)?;
    usual.push_reserved((Name::parse(USUAL_MEDIA).unwrap(), USUAL_LANES));
    Ok(usual)
}

// A copy of these.
fn copies_of(
    alloc: Global,
    drives: &[(MediaName, u32)],
) -> Result<Vec<(MediaName, u32)>, AllocError>
    ensures { IfOk result (λ copies. copies.items ≡ drives.now) }
{
    let mut copies = Vec::new(alloc);
    for drive in drives {
        copies.push((drive.0.copy(), drive.1))?;
    }
    Ok(copies)
}

// An empty queue for each drive, like the one given.
fn queues_of<Q: Lanes + Drop>(
    alloc: Global,
    queue: &Q,
    drives: &[(MediaName, u32)],
    room: usize,
) -> Result<Vec<Q>, AllocError>
    requires lanes { All (λ d. d.1 ≤ most_lanes) drives.now }
    requires room { 0 < room }
    ensures { IfOk result (λ queues. AreQueues
        (λ q. record { lanes = Q.lanes q; capacity = Q.capacity q; held = Q.held q })
        room drives.now queues.items) }
{
    let mut queues = Vec::new(alloc);
    for drive in drives {
        queues.push(queue.like(alloc, drive.1, room)?)?;
    }
    Ok(queues)
}

// A list of stores for each drive, one for each of its lanes.
fn stores_of(alloc: Global, drives: &[(MediaName, u32)]) -> Result<Vec<Vec<MemSpool>>, AllocError>
    ensures { IfOk result (λ stores. AreStores drives.now stores.items) }
{
    let mut stores = Vec::new(alloc);
    for drive in drives {
        stores.push(empty_stores(alloc, drive.1)?)?;
    }
    Ok(stores)
}

// So many stores with nothing in them.
fn empty_stores(alloc: Global, lanes: u32) -> Result<Vec<MemSpool>, AllocError>
    ensures { IfOk result (λ stores. length stores.items ≡ lanes) }
{
    let mut stores = Vec::new(alloc);
    for _ in 0..lanes {
        stores.push(MemSpool::new(alloc))?;
    }
    Ok(stores)
}
