// A drive's bay.
use sd_base::{MediaName, Ticket};
use sd_drive::Drive;
use sd_driver::Driver;
use sd_lane::Lanes;
use sd_spool::SpoolStore;
use std::marker::Model;

/// A lane of a drive. In a contract it is a `LaneView`.
#[derive(Drop)]
pub struct LaneSlot<S: SpoolStore> {
    /// The session that used the lane last.
    pub holder: Option<Ticket>,
    /// The lane's spool store, unless that session has it.
    pub store: Option<S>,
}

impl<S: SpoolStore> Model for LaneSlot<S> {
    ghost use Rattle.std.specs.Option.{option_map};
    ghost use Rattle.sd_spool.specs.Job.{state_of};
    ghost use Rattle.sd_world.specs.World.{LaneView};

    ghost Value = { LaneView };

    ghost view = { λ l. record {
      holder = l.holder;
      store = option_map (λ store. state_of (S.meaning store)) l.store;
    } };
}

/// A drive, none once it is retired, with its lanes and the queue before it. In a contract it is a `BayView`.
#[derive(Drop)]
pub struct Bay<D: Driver, Q: Lanes, S: SpoolStore> {
    pub media: MediaName,
    pub drive: Option<Drive<D>>,
    pub lanes: Vec<LaneSlot<S>>,
    pub queue: Q,
}

impl<D: Driver, Q: Lanes, S: SpoolStore> Model for Bay<D, Q, S> {
    ghost use Rattle.sd_world.specs.World.{BayView};

    ghost Value = { BayView D };

    ghost view = { λ b. record {
      media = b.media;
      drive = b.drive;
      lanes = b.lanes.items;
      queue = record {
        lanes = Q.lanes b.queue;
        capacity = Q.capacity b.queue;
        held = Q.held b.queue;
      };
    } };
}
