// What tells that the blocks of a session are synced.
ghost use Rattle.std.specs.Prelude.{◌≡◌, ◌↔◌, IfOk, OnErr, IfSome, IsSome};
ghost use Rattle.sd_journal.specs.Journal.{placements, placed_of, synced_of};
ghost use Rattle.sd_span.specs.Spans.{spans_of};

use crate::drive::Drive;
use sd_base::{Items, SessionKey};
use sd_driver::Driver;
use sd_span::Span;
use std::alloc::AllocError;
use std::marker::Model;

/// That so many blocks of a session were placed by a drive, all of which are synced, and where they lie. Only a
/// drive makes one.
#[derive(Drop)]
pub struct Receipt {
    key: SessionKey,
    spans: Items<Span>,
    blocks: u64,
}

impl Model for Receipt {
    ghost use Rattle.sd_drive.specs.Receipt.{ReceiptIs};

    ghost Value = { ReceiptIs };

    ghost view = { λ r. record { key = r.key; spans = r.spans; blocks = r.blocks } };
}

impl Receipt {
    pub fn key(&self) -> SessionKey
        ensures { result ≡ self.now.key }
    {
        self.key
    }

    pub fn spans(&self) -> &[Span]
        ensures { result.now ≡ self.now.spans }
    {
        self.spans.as_slice()
    }

    pub fn blocks(&self) -> u64
        ensures { result ≡ self.now.blocks }
    {
        self.blocks
    }
}

impl<D: Driver> Drive<D> {
    /// A receipt for that many blocks of a session, exactly if the journal has so many entries of it and all of
    /// them are synced. Takes memory only then.
    pub fn receipt(&self, key: SessionKey, blocks: u64) -> Result<Option<Receipt>, AllocError>
        ensures exactly { IfOk result (λ receipt. IsSome receipt
            ↔ ((placed_of key self.now.journal ≡ blocks)
            × (synced_of key self.now.journal ≡ blocks))) }
        ensures tells { IfOk result (λ receipt. IfSome receipt (λ r. r ≡ record {
          key = key;
          spans = spans_of key (placements self.now.journal);
          blocks = blocks;
        })) }
        ensures err { OnErr result
            ((placed_of key self.now.journal ≡ blocks)
            × (synced_of key self.now.journal ≡ blocks)) }
    {
        let progress = self.progress(key);
        if progress.placed != blocks || progress.synced != blocks {
            return Ok(None);
        }
        Ok(Some(Receipt {
            key,
            spans: self.spans(key)?,
            blocks,
        }))
    }
}
