// The port of a talk.
ghost use Rattle.std.specs.Prelude.{◌≡◌, ◌++◌, [], List, None, All, IfOk};
ghost use Rattle.sd_append.specs.Port.{IsLine, Said, Stepped, WasRead};
ghost use Rattle.sd_base.specs.Record.{Record};
ghost use Rattle.sd_lines.specs.Held.{AnswersEvent, GivesUp, GivesUpAtMost, ShowsEvent};
ghost use Rattle.sd_lines.specs.Console.{AnswersLine};
ghost use Rattle.sd_lines.specs.Port.{KeepsPort, behind, new_port};
ghost use Rattle.sd_lines.specs.Reading.{ReadsTalk};

use crate::console::obey_line;
use crate::held::Held;
use crate::hub::Hub;
use crate::notes::Notes;
use crate::over::EndedSession;
use crate::reading::{Reading, read};
use sd_append::{Exchanges, ReadBack};
use sd_base::{Items, Refusal, SessionKey};
use sd_bnet::Payload;
use sd_driver::Driver;
use sd_line::{Naming, ToldToken};
use sd_machine::{Event, Reply};
use sd_readback::Sink;
use sd_span::Span;
use sd_spool::SpoolStore;
use sd_stations::Patience;
use std::marker::{Brand, Model};
use std::snapshot::Snapshot;
use std::sync::Wait;
use std::time::Clock;

/// What a talk asks its daemon by: one session at a time, over drives that others use beside it. In a contract it is a
/// `LinePortIs`. Its type keeps what `KeepsPort` says: the records that it answered to be taken are those that the session's
/// part was told. It can't be dropped: who has it ends the talk by `finish`.
pub struct LinePort<'h, D: Driver, N: Naming, R: Wait + Drop, S: SpoolStore, P> {
    held: Held<'h, D, N, R, S, P>,
    // Devices of its own over the volumes of the drives 1, 2 and on, by which sessions are read, so that no read keeps a
    // drive from its work. Of a drive that has none here the drive itself is used.
    readers: Vec<D>,
    moment: i64,
    exchanges: Exchanges,
    // Shows that the session closed last was told closed at its drive.
    told: Option<ToldToken<D, N>>,
}

impl<'h, D: Driver, N: Naming, R: Wait + Drop, S: SpoolStore, P> Model
    for LinePort<'h, D, N, R, S, P> {
    ghost use Rattle.sd_lines.specs.Held.{last_of};
    ghost use Rattle.sd_lines.specs.Port.{KeepsPort, LinePortIs};

    ghost Value = { LinePortIs D };

    ghost view = { λ p. record {
      last = last_of p.held;
      readers = p.readers.items;
      moment = p.moment;
      asked = p.exchanges;
      told = p.told;
    } };

    ghost invariant = { λ p. KeepsPort (record {
      last = last_of p.held;
      readers = p.readers.items;
      moment = p.moment;
      asked = p.exchanges;
      told = p.told;
    }) };
}

impl<
    'h,
    D: Driver + Drop,
    N: Naming,
    R: Wait + Clock + Drop,
    S: SpoolStore + Drop,
    P: Patience + Notes + Drop,
> LinePort<'h, D, N, R, S, P> {
    /// The port of a talk that begins, at this moment in microseconds. A record and a close wait so patiently for a volume
    /// that their drive needs. By the same the notes of volumes are reached that a line of the console labels or takes over.
    pub fn new(hub: &'h Hub<D, N, R, S>, readers: Vec<D>, moment: i64, patience: P) -> Self
        ensures { result ≡ new_port readers.items moment }
    {
        LinePort {
            held: Held::nothing(hub, patience),
            readers,
            moment,
            exchanges: Exchanges::new(),
            told: None,
        }
    }

    /// What its type keeps. Does nothing.
    pub fn know(&self)
        ensures { KeepsPort self.now }
    {
        let _ = &self.moment;
    }

    /// The reply to an event. If that is that a session is closed, the port has what shows it from then on.
    pub fn step(&mut self, event: Event) -> Reply
        ensures answers { AnswersEvent event result self.old.last self.new.last }
        ensures shows { ShowsEvent event result self.new.last self.old.told self.new.told }
        ensures port { self.new ≡ record (behind (Stepped event result) self.new.last self.old) {
          told = self.new.told;
        } }
    {
        let given = Snapshot::of(&event);
        let reply = self.held.answer(event, &mut self.told);
        self.exchanges = self.exchanges.stepped(given, &reply);
        reply
    }

    /// Reads a session back by its spans. Each record goes to the sink as it comes; those before a fault stay there.
    pub fn read<K: Sink>(&mut self, key: SessionKey, spans: &[Span], sink: K) -> ReadBack<K>
        ensures { (records : List Record)
            × (K.got result.sink ≡ K.got sink ++ records)
            × ReadsTalk (λ d. D.meaning d) key spans.now [] records result.answer
            self.old.readers self.new.readers
            × (self.new ≡ record (behind (WasRead key spans.now records result.answer) self.old.last
            self.old) {
              readers = self.new.readers;
            }) }
    {
        let read = read::<Brand, D, N, R, S, K>(
            self.held.hub(),
            &mut self.readers,
            key,
            spans,
            sink,
        );
        let Reading {
            sink,
            handed,
            answer,
        } = read;
        self.exchanges = self.exchanges.was_read(key, spans, handed, &answer);
        ReadBack { sink, answer }
    }

    /// The lines that answer a console's line, each with its newline, or the refusal.
    pub fn console(&mut self, line: &[u8]) -> Result<Items<Payload>, Refusal>
        ensures lines { IfOk result (λ lines. All IsLine lines) }
        ensures own { GivesUpAtMost self.old.last self.new.last }
        ensures obeys { AnswersLine (λ d. D.meaning d) self.old.moment line.now result
            self.old.last self.new.last }
        ensures port { self.new ≡ behind (Said self.old.moment line.now result) self.new.last
            self.old }
    {
        let answer = obey_line(&mut self.held, self.moment, line);
        self.exchanges = self.exchanges.said(self.moment, line, &answer);
        answer
    }

    /// What shows that the session closed last was told closed at its drive, if one was. Who has it learns under that drive's
    /// lock that the close stands (`DriveSide::stands`).
    pub fn take_told(&mut self) -> Option<ToldToken<D, N>>
        ensures told { result ≡ self.old.told }
        ensures port { self.new ≡ record self.old { told = None } }
    {
        self.told.take()
    }

    /// The talk has ended. Its session, if it goes on, is given up, and leaves its lane. What the session was then that was opened
    /// last, if one was: it doesn't go on.
    pub fn finish(self) -> Option<EndedSession<N, S>>
        ensures { GivesUp self.entry.last result }
    {
        let LinePort {
            held,
            readers: _,
            moment: _,
            exchanges: _,
            told: _,
        } = self;
        held.give_up()
    }

    /// The moment of what happens now, in microseconds.
    pub fn moment(&self) -> i64
        ensures { result ≡ self.now.moment }
    {
        self.moment
    }
}
