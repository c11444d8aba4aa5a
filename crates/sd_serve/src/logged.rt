// A port with a log of what is asked of it.
ghost use Rattle.std.specs.Prelude.{◌≡◌};

use crate::connection_table::Seat;
use crate::connections::Connections;
use crate::heard::Heard;
use crate::log::Log;
use sd_append::{ReadBack, SessionPort, TalkEnd};
use sd_base::{Items, Refusal, SessionKey};
use sd_bnet::Payload;
use sd_machine::{Event, Reply};
use sd_readback::Sink;
use sd_span::Span;
use std::alloc::AllocError;
use std::io::Write;
use std::sync::Wait;
use std::time::Clock;

/// The port of a talk that is logged. What is asked of it goes to the port alone, and what came of it to the log too.
#[derive(Drop)]
pub struct LoggedPort<'l, P, R, L> {
    port: P,
    heard: Heard<'l, R, L>,
}

impl<'l, P, R: Wait + Clock, L: Write> LoggedPort<'l, P, R, L> {
    /// The port of the talk with this seat, which begins.
    pub fn begin(
        port: P,
        rt: &'l R,
        log: &'l Log<L>,
        connections: &'l Connections,
        seat: Seat,
    ) -> Self
        ensures { result.port ≡ port }
    {
        let heard = Heard::new(rt, log, connections, seat);
        heard.begins();
        LoggedPort { port, heard }
    }

    /// The talk has ended so, or because it was out of memory. Its port comes back.
    pub fn end(self, end: &Result<TalkEnd, AllocError>) -> P
        ensures { result ≡ self.entry.port }
    {
        let LoggedPort { port, heard } = self;
        heard.ended(end);
        port
    }
}

impl<P: SessionPort, R: Wait + Clock, L: Write> SessionPort for LoggedPort<'_, P, R, L> {
    ghost asked = { λ p. P.asked p.port };

    ghost clock = { λ p. P.clock p.port };

    fn step(&mut self, event: Event) -> Reply {
        let about = self.heard.about(&event);
        let reply = self.port.step(event);
        self.heard.reply(about, &reply);
        reply
    }

    fn read<K: Sink>(&mut self, key: SessionKey, spans: &[Span], sink: K) -> ReadBack<K> {
        let read = self.port.read(key, spans, sink);
        if let Err(refusal) = &read.answer {
            self.heard.unread(key, spans, *refusal);
        }
        read
    }

    fn console(&mut self, line: &[u8]) -> Result<Items<Payload>, Refusal> {
        let answer = self.port.console(line);
        match &answer {
            Ok(_) => self.heard.obeyed(line),
            Err(refusal) => self.heard.disobeyed(line, *refusal),
        }
        answer
    }

    fn moment(&self) -> i64 {
        self.port.moment()
    }
}
