// What a port was asked and what it answered, as contracts see it. Nothing of it is held.
ghost use Rattle.std.specs.Prelude.{◌≡◌, ◌∷◌, ◌++◌, []};
ghost use Rattle.sd_append.specs.Port.{Stepped, WasRead, Said};

use crate::shown::Shown;
use sd_base::{Items, Rec, Refusal, SessionKey};
use sd_bnet::Payload;
use sd_machine::{Event, Reply};
use sd_readback::ReadEnd;
use sd_span::Span;
use std::marker::Model;
use std::snapshot::Snapshot;

/// One question and its answer.
#[derive(Drop)]
pub(crate) enum Seen {
    Stepped(Snapshot<Event>, Snapshot<Reply>),
    WasRead(SessionKey, Shown<Span>, Shown<Rec>, Snapshot<Result<ReadEnd, Refusal>>),
    Said(i64, Shown<u8>, Snapshot<Result<Items<Payload>, Refusal>>),
}

/// What a port was asked so far, with the answers, for its `asked`. In a contract it is that list; it takes no
/// memory.
#[derive(Drop)]
pub struct Exchanges {
    seen: Shown<Seen>,
}

impl Model for Exchanges {
    ghost use Rattle.std.specs.Prelude.{List};
    ghost use Rattle.sd_append.specs.Port.{Exchange};
    ghost use Rattle.sd_append.specs.Seen.{asked_of};

    ghost Value = { List Exchange };

    ghost view = { λ l. asked_of l.seen };
}

impl Exchanges {
    pub fn new() -> Self
        ensures { result ≡ [] }
    {
        Exchanges {
            seen: Shown::nothing(),
        }
    }

    /// These with an event and its reply.
    #[tactic(auto, using(crate::proofs::ExchangeLemmas::asked_more))]
    pub fn stepped(&self, event: Snapshot<Event>, reply: &Reply) -> Self
        ensures { result ≡ self.now ++ Stepped event.value reply.now ∷ [] }
    {
        let seen = Seen::Stepped(event, Snapshot::of(reply));
        Exchanges {
            seen: self.seen.with(&seen),
        }
    }

    /// These with a session that was read back, and the records that were handed over.
    #[tactic(auto, using(crate::proofs::ExchangeLemmas::asked_more))]
    pub fn was_read(
        &self,
        key: SessionKey,
        spans: &[Span],
        records: Shown<Rec>,
        answer: &Result<ReadEnd, Refusal>,
    ) -> Self
        ensures { result ≡ self.now ++ WasRead key spans.now records answer.now ∷ [] }
    {
        let seen = Seen::WasRead(key, Shown::of(spans), records, Snapshot::of(answer));
        Exchanges {
            seen: self.seen.with(&seen),
        }
    }

    /// These with a console's line that was said at this moment.
    #[tactic(auto, using(crate::proofs::ExchangeLemmas::asked_more))]
    pub fn said(&self, moment: i64, line: &[u8], answer: &Result<Items<Payload>, Refusal>) -> Self
        ensures { result ≡ self.now ++ Said moment line.now answer.now ∷ [] }
    {
        let seen = Seen::Said(moment, Shown::of(line), Snapshot::of(answer));
        Exchanges {
            seen: self.seen.with(&seen),
        }
    }
}
