// A line that is settled.
use sd_drive::Drive;
use sd_driver::Driver;
use sd_line::Told;
use sd_ruled::RuledLanes;
use sd_spool::SpoolStore;
use std::marker::Model;
use std::sync::Wait;

/// A lane of a line that is settled. In a contract it is a `SettledLaneIs`.
#[derive(Drop)]
pub struct SettledLane<S: SpoolStore> {
    /// None while the session has it that used the lane last.
    pub store: Option<S>,
    /// Those that used the lane, in order.
    pub sessions: Vec<Told<S>>,
}

impl<S: SpoolStore> Model for SettledLane<S> {
    ghost use Rattle.std.specs.Option.{option_map};
    ghost use Rattle.sd_spool.specs.Job.{state_of};
    ghost use Rattle.sd_hub.specs.Settles.{SettledLaneIs};

    ghost Value = { SettledLaneIs };

    ghost view = { λ l. record {
      store = option_map (λ s. state_of (S.meaning s)) l.store;
      sessions = l.sessions.items;
    } };
}

/// A line whose threads have ended, with one owner. In a contract it is a `SettledIs`.
#[derive(Drop)]
pub struct Settled<D: Driver, R: Wait + Drop, S: SpoolStore> {
    pub drive: Drive<D>,
    /// The queue, with all its seats.
    pub queue: RuledLanes<R>,
    /// The lanes 1, 2 and on.
    pub lanes: Vec<SettledLane<S>>,
}

impl<D: Driver, R: Wait + Drop, S: SpoolStore> Model for Settled<D, R, S> {
    ghost use Rattle.sd_hub.specs.Settles.{SettledIs};

    ghost Value = { SettledIs D };

    ghost view = { λ s. record { drive = s.drive; queue = s.queue; lanes = s.lanes.items } };
}
