// A world as the port of talks.
ghost use Rattle.std.specs.Prelude.{◌≡◌, ◌++◌, List, [], All, IfOk, IfErr, OnErr};
ghost use Rattle.sd_base.specs.Record.{Record};
ghost use Rattle.sd_base.specs.declared.refusal.Refusal.TheVariants.{Memory};
ghost use Rattle.sd_machine.specs.declared.event.Event.{Event as SpecEvent};
ghost use Rattle.sd_machine.specs.declared.reply.Reply.{Reply as SpecReply};
ghost use Rattle.sd_world.specs.Deeds.{IsRead};
ghost use Rattle.sd_core.specs.Rounds.{PlaysRound};
ghost use Rattle.sd_append.specs.Port.{IsLine, Said, Stepped, WasRead};
ghost use Rattle.sd_port.specs.Console.{LineDoes};
ghost use Rattle.sd_port.specs.Port.{IsOver, behind, new_port};
ghost use Rattle.sd_core.specs.Tries.{Answers};

use crate::console::obey_line;
use crate::reading::{Reading, read_watched};
use sd_append::{Exchanges, ReadBack};
use sd_base::{Items, Refusal, SessionKey};
use sd_bnet::Payload;
use sd_core::{Round, World, answer, round};
use sd_driver::Driver;
use sd_lane::Lanes;
use sd_machine::{Event, Reply};
use sd_readback::Sink;
use sd_span::Span;
use sd_spool::SpoolStore;
use std::alloc::Global;
use std::marker::{Brand, Model};
use std::snapshot::Snapshot;

/// A world that talks are held with, one after another. In a contract it is a `PortView`. Its type keeps what `IsOver`
/// says: what the port did leads from the world that it was made with to the world now, and nothing else does.
#[derive(Drop)]
pub struct WorldPort<D: Driver, Q: Lanes, S: SpoolStore> {
    alloc: Global,
    world: World<D, Q, S>,
    moment: i64,
    rounds: u32,
    opening: Snapshot<World<D, Q, S>>,
    exchanges: Exchanges,
}

impl<D: Driver, Q: Lanes, S: SpoolStore> Model for WorldPort<D, Q, S> {
    ghost use Rattle.sd_port.specs.Port.{IsOver, PortView};

    ghost Value = { PortView D };

    ghost view = { λ p. record {
      world = p.world;
      moment = p.moment;
      rounds = p.rounds;
      opening = p.opening.value;
      asked = p.exchanges;
    } };

    ghost invariant = { λ p. IsOver (λ d. D.meaning d) (record {
      world = p.world;
      moment = p.moment;
      rounds = p.rounds;
      opening = p.opening.value;
      asked = p.exchanges;
    }) };
}

impl<D: Driver + Drop, Q: Lanes, S: SpoolStore + Drop> WorldPort<D, Q, S> {
    /// A port of this world, at this moment in microseconds, in which an append that finds the session busy and a close
    /// that comes too early wait for at most so many rounds. Takes no memory.
    pub fn new(alloc: Global, world: World<D, Q, S>, moment: i64, rounds: u32) -> Self
        ensures { result ≡ new_port world moment rounds }
    {
        world.know();
        let opening = Snapshot::of(&world);
        WorldPort {
            alloc,
            world,
            moment,
            rounds,
            opening,
            exchanges: Exchanges::new(),
        }
    }

    /// The reply to an event. An append that is answered 'Busy' and a close that is answered 'Not yet' are given again
    /// after each round in which something moved, as long as there are rounds; then that refusal is the answer.
    pub fn step(&mut self, event: Event) -> Reply
        ensures answers { (events : List SpecEvent) × (replies : List SpecReply)
            × Answers (λ d. D.meaning d) self.old.rounds self.old.world event
            result events replies
            self.new.world }
        ensures port { self.new ≡ behind (Stepped event result) self.new.world self.old }
    {
        let given = Snapshot::of(&event);
        let reply = answer(&mut self.world, self.rounds, event);
        self.exchanges = self.exchanges.stepped(given, &reply);
        reply
    }

    /// Reads a session back by its spans. Each record goes to the sink as it comes; those before a fault stay there. The
    /// sink comes back with the answer.
    pub fn read<K: Sink>(&mut self, key: SessionKey, spans: &[Span], sink: K) -> ReadBack<K>
        ensures reads { (records : List Record)
            × (K.got result.sink ≡ K.got sink ++ records)
            × IsRead (λ d. D.meaning d) key spans.now [] records result.answer
            self.old.world self.new.world
            × (self.new ≡ behind (WasRead key spans.now records result.answer) self.new.world
            self.old) }
    {
        let read = read_watched::<Brand, D, Q, S, K>(&mut self.world, key, spans, sink);
        let Reading {
            sink,
            handed,
            answer,
        } = read;
        self.exchanges = self.exchanges.was_read(key, spans, handed, &answer);
        ReadBack { sink, answer }
    }

    /// The lines that answer a console's line, each with its newline, or the refusal. What the line orders is done in the
    /// world, at the port's moment. An operator's event is given only once there is room for the line that answers it; so
    /// `Memory` may be answered before its other refusals.
    pub fn console(&mut self, line: &[u8]) -> Result<Items<Payload>, Refusal>
        ensures obeys { (events : List SpecEvent) × (replies : List SpecReply)
            × LineDoes (λ d. D.meaning d) self.old.moment line.now result
            events replies self.old.world self.new.world }
        ensures lines { IfOk result (λ lines. All IsLine lines) }
        ensures port { self.new ≡ behind (Said self.old.moment line.now result) self.new.world
            self.old }
    {
        let answer = obey_line(self.alloc, &mut self.world, self.moment, line);
        self.exchanges = self.exchanges.said(self.moment, line, &answer);
        answer
    }

    /// The moment that the port was made at, in microseconds.
    pub fn moment(&self) -> i64
        ensures { result ≡ self.now.moment }
    {
        self.moment
    }

    /// Plays one round, and says what came of it. `Memory` is answered before its first step.
    pub fn round(&mut self) -> Result<Round, Refusal>
        ensures plays { IfOk result (λ round. PlaysRound (λ d. D.meaning d)
            self.old.world round self.new.world) }
        ensures err { OnErr result (self.new ≡ self.old) }
        ensures memory { IfErr result (λ why. why ≡ Memory) }
        ensures port { self.new ≡ record self.old { world = self.new.world } }
    {
        play(&mut self.world)
    }

    /// What every port keeps. Does nothing.
    pub fn know(&self)
        ensures { IsOver (λ d. D.meaning d) self.now }
    {
        let _ = &self.world;
    }

    /// The world.
    pub fn into_world(self) -> World<D, Q, S>
        ensures { result ≡ self.world }
    {
        let WorldPort {
            alloc: _,
            world,
            moment: _,
            rounds: _,
            opening: _,
            exchanges: _,
        } = self;
        world
    }
}

fn play<D: Driver + Drop, Q: Lanes, S: SpoolStore + Drop>(
    world: &mut World<D, Q, S>,
) -> Result<Round, Refusal>
    ensures plays { IfOk result (λ round. PlaysRound (λ d. D.meaning d) world.old round world.new) }
    ensures err { OnErr result (world.new ≡ world.old) }
    ensures memory { IfErr result (λ why. why ≡ Memory) }
{
    match round(world) {
        Ok(played) => Ok(played),
        Err(_) => Err(Refusal::Memory),
    }
}
