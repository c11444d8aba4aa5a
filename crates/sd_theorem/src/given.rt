// A list of events is given to a new world over devices and spools that are honest, and a session is read back.
ghost use Rattle.std.specs.Prelude.{◌≡◌, ◌≤◌, length, All, IfSome, Vec};
ghost use Rattle.std.specs.Global.{Global as TheGlobal};
ghost use Rattle.sd_lane.specs.Queue.{lanes_view};
ghost use Rattle.sd_base.specs.Limits.{most_number};
ghost use Rattle.sd_core.specs.Conf.{IsConf, AreQueues, AreStores};
ghost use Rattle.sd_driver.specs.Meaning.{IsHonest};
ghost use Rattle.sd_machine.specs.Machine.{Machine, empty_machine};
ghost use Rattle.sd_machine.specs.Step.{Run};
ghost use Rattle.sd_spool.specs.Meaning.{IsHonest as IsHonestStore};
ghost use Rattle.sd_world.specs.Deeds.{answered};
ghost use Rattle.sd_theorem.specs.Told.{WereToldClosed};
ghost use Rattle.sd_theorem.specs.Lists.{GivesList};

use crate::laws::headline;
use sd_base::{Refusal, SessionKey};
use sd_core::{Event, ReadEnd, Reply, Sink, Span, World, WorldConf};
use sd_driver::Driver;
use sd_lane::PlainLanes;
use sd_memdrive::MemDrive;
use sd_spool::{MemSpool, SpoolStore};
use sd_world::steps_lead;
use std::alloc::Global;

/// What a world told: the replies to its events, and how a read ended.
#[derive(Drop)]
pub struct Told {
    pub replies: Vec<Reply>,
    pub end: Result<ReadEnd, Refusal>,
}

/// Makes a world over devices in memory, gives it the events, and reads a session back by these spans. `None` if out of
/// memory for the world or for the replies. The replies are those of the list machine; and if the spans were told of a
/// session that was closed, the sink got its list, all of it, once and in order; or the read told that it was purged.
#[allow(clippy::too_many_arguments)]
pub fn run_and_read<K: Sink>(
    alloc: Global,
    conf: WorldConf,
    time: u32,
    devices: Vec<MemDrive>,
    queues: Vec<PlainLanes>,
    stores: Vec<Vec<MemSpool>>,
    events: Vec<Event>,
    key: SessionKey,
    spans: &[Span],
    sink: &mut K,
) -> Option<Told>
    requires conf { IsConf conf }
    requires time_least { 1 ≤ time }
    requires time_most { time ≤ most_number }
    requires devices { length devices.items ≡ length conf.drives.items }
    requires queues { AreQueues (λ q. lanes_view q) conf.queue conf.drives.items queues.items }
    requires stores { AreStores conf.drives.items stores.items }
    ensures lists { IfSome result (λ told. (m : Machine)
        × Run (empty_machine time) events.items told.replies.items m
        × (WereToldClosed key spans.now (answered events.items told.replies.items)
        → GivesList m key (K.got sink.old) (K.got sink.new) told.end)) }
{
    run_and_read_over(
        alloc, conf, time, devices, queues, stores, events, key, spans, sink,
    )
}

/// `run_and_read` over any devices and any spools that are honest.
#[allow(clippy::too_many_arguments)]
pub fn run_and_read_over<D: Driver + Drop, S: SpoolStore + Drop, K: Sink>(
    alloc: Global,
    conf: WorldConf,
    time: u32,
    devices: Vec<D>,
    queues: Vec<PlainLanes>,
    stores: Vec<Vec<S>>,
    events: Vec<Event>,
    key: SessionKey,
    spans: &[Span],
    sink: &mut K,
) -> Option<Told>
    requires conf { IsConf conf }
    requires time_least { 1 ≤ time }
    requires time_most { time ≤ most_number }
    requires devices { length devices.items ≡ length conf.drives.items }
    requires honest { All (λ device. IsHonest (D.meaning device)) devices.items }
    requires honest_stores { All (λ (lanes : Vec S TheGlobal).
        All (λ store. IsHonestStore (S.meaning store)) lanes.items) stores.items }
    requires queues { AreQueues (λ q. lanes_view q) conf.queue conf.drives.items queues.items }
    requires stores { AreStores conf.drives.items stores.items }
    ensures lists { IfSome result (λ told. (m : Machine)
        × Run (empty_machine time) events.items told.replies.items m
        × (WereToldClosed key spans.now (answered events.items told.replies.items)
        → GivesList m key (K.got sink.old) (K.got sink.new) told.end)) }
{
    let Ok(mut world) = World::new(alloc, conf, time, devices, queues, stores) else {
        return None;
    };
    let Ok(replies) = world.run(events) else {
        return None;
    };
    let end = world.read(key, spans, sink);
    steps_lead::<D>();
    headline::<D, PlainLanes, S, Global>();
    Some(Told { replies, end })
}
