// A world over memory is a port of talks.
use crate::port::WorldPort;
use sd_append::{ReadBack, SessionPort};
use sd_base::{Items, Refusal, SessionKey};
use sd_bnet::Payload;
use sd_lane::PlainLanes;
use sd_machine::{Event, Reply};
use sd_memdrive::MemDrive;
use sd_readback::Sink;
use sd_span::Span;
use sd_spool::MemSpool;

impl SessionPort for WorldPort<MemDrive, PlainLanes, MemSpool> {
    ghost asked = { λ p. p.asked };

    ghost clock = { λ p. p.moment };

    fn step(&mut self, event: Event) -> Reply {
        self.step(event)
    }

    fn read<K: Sink>(&mut self, key: SessionKey, spans: &[Span], sink: K) -> ReadBack<K> {
        self.read(key, spans, sink)
    }

    fn console(&mut self, line: &[u8]) -> Result<Items<Payload>, Refusal> {
        self.console(line)
    }

    fn moment(&self) -> i64 {
        self.moment()
    }
}
