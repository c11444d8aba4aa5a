// One session, as far as its blocks have come.
ghost use Rattle.std.specs.Prelude.{◌≡◌, ◌↔◌, ◌+◌, ◌∷◌, ◌++◌, [], ℕ, List, length, OnOk, IfOk, IsTrue, Some, false};
ghost use Rattle.sd_label.specs.Cutting.{AtEnd, total_bytes};
ghost use Rattle.sd_base.specs.Count.{counted};
ghost use Rattle.sd_scan.specs.Session.{Breaks, IsStartOf, StandsFor, Took, ReadsTo};
ghost use Rattle.sd_span.specs.Spans.{EndFits, stretches, numbered_from};
ghost use Rattle.sd_span.specs.declared.placement.Placement.{Placement as SpecPlacement};
ghost use Rattle.sd_unpack.specs.Stage.{standing_at};

use crate::report::{Report, Start};
use crate::start::{shown_at, start_label_in};
use sd_base::SessionKey;
use sd_label::SessionLabel;
use sd_span::{Placement, Span, grow, numbered};
use sd_unpack::{AddFault, Unpacker};
use std::alloc::{AllocError, Global};

/// What is kept of a session: where its blocks lie, as stretches, and an unpacker of its bodies.
/// The records are counted and let go, so that it holds one unfinished record at most, however long
/// the session is.
#[derive(Drop)]
pub(crate) struct Session {
    pub(crate) key: SessionKey,
    pub(crate) start: Option<Start>,
    pub(crate) stretches: Vec<Span>,
    pub(crate) unpacker: Unpacker,
    pub(crate) records: u64,
    pub(crate) bytes: u64,
    /// Whether a body could not follow those before it. None that came later was looked at.
    pub(crate) damaged: bool,
}

impl Session {
    /// A session whose first body is this one, which is still to be taken.
    pub(crate) fn new(alloc: Global, key: SessionKey, body: &[u8]) -> Self
        ensures key { result.key ≡ key }
        ensures stands { StandsFor body.now [] [] result }
    {
        Session {
            key,
            start: start_in(body),
            stretches: Vec::new(alloc),
            unpacker: Unpacker::new(alloc),
            records: 0,
            bytes: 0,
            damaged: false,
        }
    }

    /// Takes the next block of the session, which lies there.
    pub(crate) fn take(&mut self, placement: &Placement, body: &[u8]) -> Result<(), AllocError>
        requires { EndFits placement.now }
        ensures key { self.new.key ≡ self.old.key }
        ensures stands { OnOk result ((first : List ℕ) (own : List SpecPlacement)
            (bodies : List (List ℕ)) → StandsFor first own bodies self.old
            → StandsFor first (own ++ placement.now ∷ []) (bodies ++ body.now ∷ []) self.new) }
    {
        grow(&mut self.stretches, placement)?;
        self.unpack(body)
    }

    // Takes the next body, unless one before it was damaged.
    fn unpack(&mut self, body: &[u8]) -> Result<(), AllocError>
        ensures key { self.new.key ≡ self.old.key }
        ensures start { self.new.start ≡ self.old.start }
        ensures stretches { self.new.stretches ≡ self.old.stretches }
        ensures took { OnOk result ((bodies : List (List ℕ))
            → Took bodies self.old.unpacker self.old.records self.old.bytes self.old.damaged
            → Took (bodies ++ body.now ∷ [])
            self.new.unpacker self.new.records self.new.bytes self.new.damaged) }
    {
        if self.damaged {
            return Ok(());
        }
        match self.unpacker.add(body) {
            Ok(()) => {
                self.count();
                Ok(())
            }
            Err(AddFault::Damaged(_)) => {
                self.damaged = true;
                Ok(())
            }
            Err(AddFault::Memory) => Err(AllocError),
        }
    }

    // Counts the records that wait, and lets them go.
    fn count(&mut self)
        ensures rest { self.new ≡ record self.old {
          unpacker = record self.old.unpacker { ready = [] };
          records = self.new.records;
          bytes = self.new.bytes;
        } }
        ensures records { (n : ℕ) → self.old.records ≡ counted n
            → self.new.records ≡ counted (n + length self.old.unpacker.ready) }
        ensures bytes { (n : ℕ) → self.old.bytes ≡ counted n
            → self.new.bytes ≡ counted (n + total_bytes self.old.unpacker.ready) }
    {
        while let Some(rec) = self.unpacker.take_record() {
            self.records = self.records.saturating_add(1);
            self.bytes = self.bytes.saturating_add(rec.bytes.len() as u64);
        }
    }

    // Whether the end label came, and no body could not follow.
    fn is_ended(&self) -> bool
        ensures { IsTrue result ↔ ((self.now.damaged ≡ false)
            × (standing_at self.now.unpacker.stage ≡ Some AtEnd)) }
    {
        if self.damaged {
            return false;
        }
        self.unpacker.ended()
    }

    /// What there is to tell of it.
    pub(crate) fn report(&self, alloc: Global) -> Result<Report, AllocError>
        ensures key { IfOk result (λ report. report.key ≡ self.now.key) }
        ensures spans { IfOk result (λ report. (first : List ℕ) (own : List SpecPlacement)
            (bodies : List (List ℕ)) → StandsFor first own bodies self.now
            → report.spans ≡ numbered_from 1 (stretches own)) }
        ensures start { IfOk result (λ report. report.start ≡ self.now.start) }
        ensures reads { IfOk result (λ report. (first : List ℕ) (own : List SpecPlacement)
            (bodies : List (List ℕ)) → StandsFor first own bodies self.now
            → ReadsTo bodies report.records report.bytes report.ended) }
        ensures breaks { IfOk result (λ report. (first : List ℕ) (own : List SpecPlacement)
            (bodies : List (List ℕ)) → StandsFor first own bodies self.now
            → Breaks bodies report.broken) }
    {
        Ok(Report {
            key: self.key,
            start: Start::copy_of(&self.start),
            ended: self.is_ended(),
            broken: self.damaged,
            records: self.records,
            bytes: self.bytes,
            spans: numbered(alloc, &self.stretches)?,
        })
    }
}

// The job, the pool and the moment that a body's start label says, if it begins with one.
fn start_in(body: &[u8]) -> Option<Start>
    ensures { IsStartOf body.now result }
{
    let SessionLabel {
        job,
        pool,
        moment,
        ..
    } = start_label_in(body)?;
    Some(Start {
        job,
        pool,
        moment: shown_at(moment),
    })
}
