// The fragments of one body, read before anything of them is kept: a body that is refused leaves
// nothing behind.
ghost use Rattle.std.specs.Prelude.{◌≡◌, ℕ, pos, ◌≤ℤ◌, ◌≤◌, [], ◌∷◌, ◌++◌, List, length, drop, OnOk, IfOk};
ghost use Rattle.sd_base.specs.Record.{Record};
ghost use Rattle.sd_record.specs.Fragment.{Fragment as SpecFragment, fragment_bytes, IsFragment, GoesOn};
ghost use Rattle.sd_unpack.specs.declared.stage.Stage.TheVariants.{Whole};
ghost use Rattle.sd_unpack.specs.Stage.{Reaches, AreTotalsOf, IsAtRest, IsStage};
ghost use Rattle.sd_unpack.specs.Damage.{CantFollow, StopsAt, IfDamaged};
ghost use Rattle.sd_unpack.specs.Batch.{Stands, Brings};

use crate::damage::{AddFault, Damage};
use crate::fragments::{end_label, first_due, fragment_at, start_label};
use crate::stage::{Due, Stage, totals_with};
use sd_base::{Bytes, Rec};
use sd_label::{END_LABEL, START_LABEL, Totals};
use sd_record::Fragment;
use std::alloc::{AllocError, Global};
use std::collections::VecDeque;

/// What the fragments of a body bring: the records that begin and end in it, the data of one that goes
/// on after it, and the session's stage and totals then.
#[derive(Drop)]
pub(crate) struct Batch {
    pub(crate) records: VecDeque<Rec>,
    pub(crate) totals: Option<Totals>,
    pub(crate) stage: Stage,
    pub(crate) so_far: Vec<u8>,
}

/// Reads the fragments from `from` on, when the session is at `stage` with these totals before.
pub(crate) fn read_fragments(
    alloc: Global,
    body: &[u8],
    from: usize,
    stage: Stage,
    totals: Option<Totals>,
) -> Result<Batch, AddFault>
    requires { IsAtRest stage }
    ensures stage { IfOk result (λ batch. IsStage batch.stage batch.so_far.items) }
    ensures brings { IfOk result (λ batch. (fs : List SpecFragment) (records : List Record)
        → Reaches stage fs records [] → AreTotalsOf totals records
        → Brings fs records (drop from body.now) [] batch) }
    ensures damaged { IfDamaged result (λ damage. (fs : List SpecFragment) (records : List Record)
        → Reaches stage fs records [] → AreTotalsOf totals records
        → StopsAt fs (drop from body.now) damage) }
{
    let mut batch = Batch {
        records: VecDeque::new(alloc),
        totals,
        stage,
        so_far: Vec::new(alloc),
    };
    let mut at = from;
    while let Some((fragment, next)) = fragment_at(body, at)? {
        batch.take(alloc, &fragment, &body[at..next])?;
        at = next;
    }
    Ok(batch)
}

impl Batch {
    /// Takes the next fragment, which is `bytes`.
    fn take(&mut self, alloc: Global, fragment: &Fragment<'_>, bytes: &[u8]) -> Result<(), AddFault>
        requires at_rest { IsAtRest self.old.stage }
        requires fragment { IsFragment fragment.now }
        requires bytes { bytes.now ≡ fragment_bytes fragment.now }
        ensures stage { OnOk result (IsStage self.new.stage self.new.so_far.items) }
        ensures at_rest { OnOk result ((GoesOn fragment.now → ⊥) → IsAtRest self.new.stage) }
        ensures stands { OnOk result ((fs : List SpecFragment) (records : List Record)
            → Stands fs records self.old → Stands (fs ++ fragment.now ∷ []) records self.new) }
        ensures damaged { IfDamaged result (λ damage. (fs : List SpecFragment)
            (records : List Record) → Stands fs records self.old
            → CantFollow damage self.old.stage (records ++ self.old.records.items) fragment.now) }
    {
        match self.stage {
            Stage::Fresh => {
                start_label(fragment, bytes)?;
                self.stage = Stage::Whole;
                Ok(())
            }
            Stage::Whole => self.take_next(alloc, fragment, bytes),
            Stage::Partway(_) => unreachable!(),
            Stage::Closed => Err(AddFault::Damaged(Damage::AfterEnd)),
        }
    }

    fn take_next(
        &mut self,
        alloc: Global,
        fragment: &Fragment<'_>,
        bytes: &[u8],
    ) -> Result<(), AddFault>
        requires whole { self.old.stage ≡ Whole }
        requires fragment { IsFragment fragment.now }
        requires bytes { bytes.now ≡ fragment_bytes fragment.now }
        ensures stage { OnOk result (IsStage self.new.stage self.new.so_far.items) }
        ensures at_rest { OnOk result ((GoesOn fragment.now → ⊥) → IsAtRest self.new.stage) }
        ensures stands { OnOk result ((fs : List SpecFragment) (records : List Record)
            → Stands fs records self.old → Stands (fs ++ fragment.now ∷ []) records self.new) }
        ensures damaged { IfDamaged result (λ damage. (fs : List SpecFragment)
            (records : List Record) → Stands fs records self.old
            → CantFollow damage Whole (records ++ self.old.records.items) fragment.now) }
    {
        if fragment.index == START_LABEL {
            return Err(AddFault::Damaged(Damage::LabelAgain));
        }
        if fragment.index == END_LABEL {
            end_label(fragment, bytes, self.totals)?;
            self.stage = Stage::Closed;
            return Ok(());
        }
        if fragment.index < 1 {
            return Err(AddFault::Damaged(Damage::BadIndex));
        }
        self.take_record(alloc, fragment)
    }

    fn take_record(&mut self, alloc: Global, fragment: &Fragment<'_>) -> Result<(), AddFault>
        requires whole { self.old.stage ≡ Whole }
        requires fragment { IsFragment fragment.now }
        requires index { pos 1 ≤ℤ fragment.now.index }
        ensures stage { OnOk result (IsStage self.new.stage self.new.so_far.items) }
        ensures at_rest { OnOk result ((GoesOn fragment.now → ⊥) → IsAtRest self.new.stage) }
        ensures stands { OnOk result ((fs : List SpecFragment) (records : List Record)
            → Stands fs records self.old → Stands (fs ++ fragment.now ∷ []) records self.new) }
        ensures damaged { IfDamaged result (λ damage. (records : List Record)
            → CantFollow damage Whole records fragment.now) }
    {
        let due = first_due(fragment)?;
        let part = fragment.part;
        if part.len() < due.left as usize {
            self.so_far = begun(alloc, part, due.left as usize)?;
            self.stage = Stage::Partway(due.after(part.len()));
            return Ok(());
        }
        let bytes = Bytes::from_slice(alloc, part)?;
        self.records.push_back(Rec {
            index: due.index,
            stream: due.stream,
            bytes,
        })?;
        self.totals = totals_with(self.totals, part.len());
        Ok(())
    }
}

// The first data of a record of `size` bytes, with room for all of them at once: what comes later moves none
// of them. That is one record's room at a time, and a record has at most `MOST_DATA` bytes.
fn begun(alloc: Global, part: &[u8], size: usize) -> Result<Vec<u8>, AllocError>
    ensures { IfOk result (λ bytes. bytes.items ≡ part.now) }
{
    let mut bytes = Vec::with_capacity(alloc, size)?;
    bytes.extend_from_slice(part)?;
    Ok(bytes)
}
