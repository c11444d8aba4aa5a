// What a talk asks the daemon by.
ghost use Rattle.std.specs.Prelude.{◌≡◌, ◌∷◌, ◌++◌, [], ℤ, List, All, IfOk};
ghost use Rattle.sd_base.specs.Record.{Record};
ghost use Rattle.sd_append.specs.Port.{Exchange, IsLine, Stepped, WasRead, Said};

use sd_base::{Items, Refusal, SessionKey};
use sd_bnet::Payload;
use sd_machine::{Event, Reply};
use sd_readback::{ReadEnd, Sink};
use sd_span::Span;

/// What a reading came to: the sink, with the records that it got, and the answer.
#[derive(Drop)]
pub struct ReadBack<S> {
    pub sink: S,
    pub answer: Result<ReadEnd, Refusal>,
}

/// The daemon as a talk sees it. In a contract `asked` is the list of what it was asked, with the answers, in
/// order, and `clock` is the moment that the port is set to, in microseconds. Nothing that is asked sets it.
pub trait SessionPort {
    ghost asked: { Self → List Exchange };

    ghost clock: { Self → ℤ };

    /// The reply to an event.
    fn step(&mut self, event: Event) -> Reply
        ensures asked { asked self.new ≡ asked self.old ++ Stepped event result ∷ [] }
        ensures clock { clock self.new ≡ clock self.old };

    /// Reads a session back by its spans. Each record goes to the sink as it comes; those before a fault
    /// stay there. The sink comes back with the answer.
    fn read<S: Sink>(&mut self, key: SessionKey, spans: &[Span], sink: S) -> ReadBack<S>
        ensures asked { (records : List Record)
            × (S.got result.sink ≡ S.got sink ++ records)
            × (asked self.new ≡ asked self.old ++ WasRead key spans.now records
            result.answer ∷ []) }
        ensures clock { clock self.new ≡ clock self.old };

    /// The lines that answer a console's line, each with its newline, or the refusal. The line bears the moment that the
    /// port is set to.
    fn console(&mut self, line: &[u8]) -> Result<Items<Payload>, Refusal>
        ensures lines { IfOk result (λ lines. All IsLine lines) }
        ensures asked { asked self.new ≡ asked self.old ++ Said (clock self.old) line.now
            result ∷ [] }
        ensures clock { clock self.new ≡ clock self.old };

    /// The moment that the port is set to, which an open, an end and a console's line bear, in microseconds.
    fn moment(&self) -> i64
        ensures { result ≡ clock self.now };
}
