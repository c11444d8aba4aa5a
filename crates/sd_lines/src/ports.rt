// The port of talks over files.
use crate::notes::Notes;
use crate::port::LinePort;
use sd_append::{ReadBack, SessionPort};
use sd_base::{Items, Refusal, SessionKey};
use sd_bnet::Payload;
use sd_filedrive::FileDrive;
use sd_line::Naming;
use sd_machine::{Event, Reply};
use sd_readback::Sink;
use sd_span::Span;
use sd_spool::FileSpool;
use sd_stations::Patience;
use std::sync::Wait;
use std::time::Clock;

impl<N: Naming, R: Wait + Clock + Drop, P: Patience + Notes + Drop> SessionPort
    for LinePort<'_, FileDrive<HostRuntime>, N, R, FileSpool<HostRuntime>, P> {
    ghost asked = { λ p. p.asked };

    ghost clock = { λ p. p.moment };

    fn step(&mut self, event: Event) -> Reply {
        self.step(event)
    }

    fn read<K: Sink>(&mut self, key: SessionKey, spans: &[Span], sink: K) -> ReadBack<K> {
        self.read(key, spans, sink)
    }

    fn console(&mut self, line: &[u8]) -> Result<Items<Payload>, Refusal> {
        self.console(line)
    }

    fn moment(&self) -> i64 {
        self.moment()
    }
}
