// The sessions of blocks that come one after another.
ghost use Rattle.std.specs.Prelude.{◌≡◌, ◌+◌, ◌<◌, ◌^◌, ◌∷◌, ◌++◌, [], ℕ, List, length, Some, None, slice_get, OnOk, IfOk, IfSome, IfNone, false};
ghost use Rattle.sd_base.specs.Key.{is_key};
ghost use Rattle.sd_base.specs.Limits.{block_header};
ghost use Rattle.sd_scan.specs.Found.{Found, IsPlacementOf};
ghost use Rattle.sd_scan.specs.Session.{StandsFor};
ghost use Rattle.sd_scan.specs.Sessions.{Keeps, KeepsBy, Reports, keys_in, sessions_in};
ghost use Rattle.sd_scan.specs.declared.session.Session.{Session as SpecSession};
ghost use Rattle.sd_span.specs.Spans.{EndFits};
ghost use Rattle.sd_span.specs.declared.placement.Placement.{Placement as SpecPlacement};

use crate::block::FoundBlock;
use crate::indexes::indexes_in;
use crate::report::Report;
use crate::session::Session;
use sd_base::{BLOCK_HEADER, SessionKey};
use sd_span::Placement;
use std::alloc::{AllocError, Global};

/// The sessions of blocks that come one after another. For each it keeps where its blocks lie and
/// how far its records have come: a few hundred bytes, a span for each stretch of blocks, and one
/// unfinished record at most.
#[derive(Drop)]
pub struct Sessions {
    alloc: Global,
    found: Vec<Session>,
}

impl Sessions {
    /// No sessions, since no block has come; takes no memory.
    pub fn new(alloc: Global) -> Self
        ensures { Keeps [] result }
    {
        Sessions {
            alloc,
            found: Vec::new(alloc),
        }
    }

    /// Takes the next block.
    pub fn take(&mut self, block: &FoundBlock<'_>) -> Result<(), AllocError>
        requires { block.now.start + (block_header + length block.now.block.body) < 2 ^ 64 }
        ensures { OnOk result ((found : List Found) → Keeps found self.old
            → Keeps (found ++ block.now ∷ []) self.new) }
    {
        let placement = placement_of(block);
        match self.index_of(block.key) {
            Some(at) => self.found[at].take(&placement, block.body),
            None => self.begin(&placement, block.body),
        }
    }

    // The place of a session, looked for from the last one on: most blocks are of one that began
    // late.
    fn index_of(&self, key: SessionKey) -> Option<usize>
        ensures some { IfSome result (λ at. (one : SpecSession)
            × (slice_get (sessions_in self.now) at ≡ Some one) × (one.key ≡ key)) }
        ensures none { IfNone result ((at : ℕ) (one : SpecSession)
            → slice_get (sessions_in self.now) at ≡ Some one → is_key key one.key ≡ false) }
    {
        let mut at = self.found.len();
        while at > 0 {
            at -= 1;
            if key == self.found[at].key {
                return Some(at);
            }
        }
        None
    }

    // Takes the first block of a session.
    fn begin(&mut self, placement: &Placement, body: &[u8]) -> Result<(), AllocError>
        requires { EndFits placement.now }
        ensures { OnOk result ((one : SpecSession) × (one.key ≡ placement.now.key)
            × StandsFor body.now (placement.now ∷ []) (body.now ∷ []) one
            × (sessions_in self.new ≡ sessions_in self.old ++ one ∷ [])) }
    {
        let mut session = Session::new(self.alloc, placement.key, body);
        session.take(placement, body)?;
        self.found.push(session)?;
        Ok(())
    }

    /// How many sessions there are.
    pub fn len(&self) -> usize
        ensures { result ≡ length (keys_in self.now) }
    {
        self.found.len()
    }

    /// What there is to tell of the session at that place, in the order of their first blocks.
    pub fn report(&self, at: usize) -> Result<Report, AllocError>
        requires { at < length (keys_in self.now) }
        ensures key { IfOk result (λ report. slice_get (keys_in self.now) at ≡ Some report.key) }
        ensures reports { IfOk result (λ report. (found : List Found)
            (placements : List SpecPlacement) → KeepsBy found placements (sessions_in self.now)
            → Reports found placements report) }
    {
        self.found[at].report(self.alloc)
    }
}

// Where a block lies.
fn placement_of(block: &FoundBlock<'_>) -> Placement
    requires { block.now.start + (block_header + length block.now.block.body) < 2 ^ 64 }
    ensures { IsPlacementOf block.now result }
{
    let indexes = indexes_in(block.body);
    Placement {
        key: block.key,
        volume: block.volume.copy(),
        start: block.start,
        length: (BLOCK_HEADER + block.body.len()) as u64,
        first: indexes.first,
        last: indexes.last,
    }
}
