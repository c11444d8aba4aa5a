// The world of a script.
ghost use Rattle.std.specs.Prelude.{◌≡◌, None, IfOk, OnErr, length};
ghost use Rattle.sd_core.specs.Rounds.{Drains, PlaysMoving};
ghost use Rattle.sd_world.specs.Deeds.{IsRead};
ghost use Rattle.sd_core.specs.View.{status_at, view_of};
ghost use Rattle.sd_tool.specs.Restart.{BeginsAs};
ghost use Rattle.sd_tool.specs.Settings.{drive_count, misfit_of};
ghost use Rattle.sd_tool.specs.ScriptStage.{KeepsStage, StageMoves};

use crate::draining::drain;
use crate::making::{Room, ScriptWorld};
use crate::values::Values;
use sd_base::{Refusal, SessionKey, Ticket};
use sd_desk::Request;
use sd_driver::Driver;
use sd_lane::Lanes;
use sd_machine::{Event, Reply, View};
use sd_readback::{ReadEnd, Sink};
use sd_session::Status;
use sd_span::Span;
use std::alloc::{AllocError, Global};
use std::marker::Model;

/// A world, the settings that it was made of, the time of its run, and whether a drive of it was retired. In a contract
/// it is a `StageView`.
#[derive(Drop)]
pub struct ScriptStage<D: Driver, Q: Lanes> {
    pub(crate) world: ScriptWorld<D, Q>,
    /// An empty queue, which those of the worlds are like.
    pub(crate) queue: Q,
    pub(crate) values: Values,
    pub(crate) time: u32,
    pub(crate) retired: bool,
}

impl<D: Driver, Q: Lanes> Model for ScriptStage<D, Q> {
    ghost use Rattle.std.specs.Prelude.{◌≡◌};
    ghost use Rattle.sd_tool.specs.ScriptStage.{IsStage, StageView};

    ghost Value = { StageView D };

    ghost view = { λ s. record { world = s.world; values = s.values; retired = s.retired } };

    ghost invariant = { λ s.
        IsStage (record { world = s.world; values = s.values; retired = s.retired })
        × (s.world.limits.time ≡ s.time) };
}

impl<D: Driver + Drop, Q: Lanes + Drop> ScriptStage<D, Q> {
    /// The world that a script begins with, its queues like the one given.
    pub fn new(
        alloc: Global,
        values: Values,
        drivers: Vec<D>,
        queue: Q,
    ) -> Result<ScriptStage<D, Q>, AllocError>
        requires fits { misfit_of values ≡ None }
        requires drivers { length drivers.items ≡ drive_count values }
        ensures { IfOk result (BeginsAs (λ d. D.meaning d) values drivers.items) }
    {
        let room = Room::new(alloc, &values, &queue)?;
        let time = values.time;
        let world = room.into_world(alloc, &values, time, drivers)?;
        Ok(ScriptStage {
            world,
            queue,
            values,
            time,
            retired: false,
        })
    }

    /// One event.
    pub fn step(&mut self, event: Event) -> Reply
        ensures { StageMoves (λ d. D.meaning d) event result self.old self.new }
    {
        let reply = self.world.step(event);
        if let Reply::Retired = reply {
            self.retired = true;
        }
        reply
    }

    /// Plays rounds until nothing moves, and counts the blocks that were placed.
    pub fn drain(&mut self, alloc: Global) -> Result<u64, AllocError>
        ensures drains { IfOk result (λ placed. Drains
            (λ d. D.meaning d) self.old.world placed self.new.world) }
        ensures err { OnErr result (PlaysMoving (λ d. D.meaning d) self.old.world self.new.world) }
        ensures keeps { KeepsStage self.old self.new }
    {
        drain(&mut self.world, alloc)
    }

    /// Reads a session back from spans.
    pub fn read<K: Sink>(
        &mut self,
        key: SessionKey,
        spans: &[Span],
        sink: &mut K,
    ) -> Result<ReadEnd, Refusal>
        ensures reads { IsRead (λ d. D.meaning d) key spans.now (K.got sink.old)
            (K.got sink.new)
            result self.old.world self.new.world }
        ensures keeps { KeepsStage self.old self.new }
    {
        self.world.read(key, spans, sink)
    }

    /// How far the session of a ticket is, if there is one.
    pub fn status(&self, ticket: Ticket) -> Option<Status>
        ensures { result ≡ status_at ticket self.now.world.sessions }
    {
        let world = &self.world;
        world.status(ticket)
    }

    /// The key of the session that has this ticket in this run.
    pub fn key_of(&self, ticket: Ticket) -> SessionKey
        ensures { result ≡ record { time = self.now.world.limits.time; id = ticket } }
    {
        SessionKey {
            time: self.time,
            id: ticket.get(),
        }
    }

    /// The drives, the volumes and the sessions.
    pub fn view(&self) -> Result<View, AllocError>
        ensures { IfOk result (λ view. view ≡ view_of self.now.world) }
    {
        let world = &self.world;
        world.view()
    }

    /// The requests for volumes, in the order in which they were asked.
    pub fn requests(&self) -> &[Request]
        ensures { result.now ≡ self.now.world.desk.requests }
    {
        let world = &self.world;
        world.requests()
    }
}
