// The unpacker: the bodies of a session in, its records out.
ghost use Rattle.std.specs.Prelude.{◌≡◌, ◌↔◌, ℕ, ◌+◌, ◌<◌, ◌≤◌, [], ◌∷◌, ◌++◌, List, Option, Some, None, Err, length, OnOk, OnErr, IfErr, IfSome, IfNone, IsNone, IsTrue};
ghost use Rattle.sd_base.specs.Record.{Record};
ghost use Rattle.sd_label.specs.Cutting.{Standing, Within, AtEnd, Holds};
ghost use Rattle.sd_unpack.specs.declared.damage.Damage.{Damage as SpecDamage};
ghost use Rattle.sd_unpack.specs.declared.damage.AddFault.TheVariants.{Damaged, Memory};
ghost use Rattle.sd_unpack.specs.declared.stage.Stage.TheVariants.{Partway};
ghost use Rattle.sd_unpack.specs.Stage.{standing_at, due_record, CouldBeRecord, IsStage, IsAtRest};
ghost use Rattle.sd_unpack.specs.Unpacking.{Unpacks};
ghost use Rattle.sd_unpack.specs.Damage.{IsDamaged, IfDamaged};

use crate::batch::{Batch, read_fragments};
use crate::damage::{AddFault, Damage};
use crate::fragments::{continues, fragment_at};
use crate::stage::{Due, Stage, totals_with};
use sd_base::{Bytes, Rec};
use sd_label::Totals;
use std::alloc::{AllocError, Global};
use std::collections::VecDeque;
use std::marker::Model;
use std::mem;

/// Takes the bodies of a session one after another and gives its records. It holds what waits to be
/// taken and at most one unfinished record. In a contract it is the `Unpacking` of specs.
#[derive(Drop)]
pub struct Unpacker {
    alloc: Global,
    ready: VecDeque<Rec>,
    totals: Option<Totals>,
    stage: Stage,
    so_far: Vec<u8>,
    damage: Option<Damage>,
}

impl Model for Unpacker {
    ghost use Rattle.sd_unpack.specs.Unpacking.{Unpacking};
    ghost use Rattle.sd_unpack.specs.Stage.{IsStage};

    ghost Value = { Unpacking };

    ghost view = { λ u. record {
      ready = u.ready.items;
      totals = u.totals;
      stage = u.stage;
      so_far = u.so_far.items;
      damage = u.damage;
    } };

    ghost invariant = { λ u. IsStage u.stage u.so_far.items };
}

impl Unpacker {
    /// An unpacker that was given no body; takes no memory.
    pub fn new(alloc: Global) -> Self
        ensures unpacks { Unpacks [] [] result }
        ensures damage { result.damage ≡ None }
    {
        Unpacker {
            alloc,
            ready: VecDeque::new(alloc),
            totals: Some(Totals {
                records: 0,
                bytes: 0,
            }),
            stage: Stage::Fresh,
            so_far: Vec::new(alloc),
            damage: None,
        }
    }

    /// Takes the session's next body. The first damage stays: it is the answer to all that comes later.
    pub fn add(&mut self, body: &[u8]) -> Result<(), AddFault>
        ensures unpacks { OnOk result ((bodies : List (List ℕ)) (taken : List Record)
            → Unpacks bodies taken self.old → Unpacks (bodies ++ body.now ∷ []) taken self.new) }
        ensures undamaged { OnOk result ((self.old.damage ≡ None) × (self.new.damage ≡ None)) }

        // No cutting begins with a body that is refused, and the damage says why.
        ensures damaged { IfDamaged result
            (λ damage. self.new ≡ record self.old { damage = Some damage }) }
        ensures again { (damage : SpecDamage) → self.old.damage ≡ Some damage
            → result ≡ Err (Damaged damage) }
        ensures why { IfDamaged result (λ damage. (bodies : List (List ℕ)) (taken : List Record)
            → self.old.damage ≡ None → Unpacks bodies taken self.old
            → IsDamaged bodies body.now damage) }
        ensures no_cutting { IfDamaged result (λ damage. (bodies : List (List ℕ))
            (taken records : List Record) (standing : Standing)
            → self.old.damage ≡ None → Unpacks bodies taken self.old
            → Holds (bodies ++ body.now ∷ []) records standing → ⊥) }
        ensures memory { result ≡ Err Memory → self.new ≡ self.old }
    {
        if let Some(damage) = self.damage {
            return Err(AddFault::Damaged(damage));
        }
        let added = self.add_body(body);
        if let Err(AddFault::Damaged(damage)) = added {
            self.damage = Some(damage);
        }
        added
    }

    fn add_body(&mut self, body: &[u8]) -> Result<(), AddFault>
        ensures unpacks { OnOk result ((bodies : List (List ℕ)) (taken : List Record)
            → Unpacks bodies taken self.old → Unpacks (bodies ++ body.now ∷ []) taken self.new) }
        ensures undamaged { OnOk result (self.new.damage ≡ self.old.damage) }
        ensures why { IfDamaged result (λ damage. (bodies : List (List ℕ)) (taken : List Record)
            → Unpacks bodies taken self.old → IsDamaged bodies body.now damage) }
        ensures err { OnErr result (self.new ≡ self.old) }
    {
        if body.is_empty() {
            return Err(AddFault::Damaged(Damage::BadFragment));
        }
        if let Stage::Partway(due) = self.stage {
            return self.add_partway(due, body);
        }
        let batch = read_fragments(self.alloc, body, 0, self.stage, self.totals)?;
        self.keep(batch)?;
        Ok(())
    }

    /// Takes a body that begins within a record.
    fn add_partway(&mut self, due: Due, body: &[u8]) -> Result<(), AddFault>
        requires { self.old.stage ≡ Partway due }
        ensures unpacks { OnOk result ((bodies : List (List ℕ)) (taken : List Record)
            → Unpacks bodies taken self.old → Unpacks (bodies ++ body.now ∷ []) taken self.new) }
        ensures undamaged { OnOk result (self.new.damage ≡ self.old.damage) }
        ensures why { IfDamaged result (λ damage. (bodies : List (List ℕ)) (taken : List Record)
            → Unpacks bodies taken self.old → IsDamaged bodies body.now damage) }
        ensures err { OnErr result (self.new ≡ self.old) }
    {
        let Some((fragment, next)) = fragment_at(body, 0)? else {
            return Err(AddFault::Damaged(Damage::BadFragment));
        };
        if !continues(due, &fragment) {
            return Err(AddFault::Damaged(Damage::BadContinuation));
        }
        let part = fragment.part;
        if part.len() < due.left as usize {
            self.so_far.extend_from_slice(part)?;
            self.stage = Stage::Partway(due.after(part.len()));
            return Ok(());
        }
        let totals = totals_with(self.totals, self.so_far.len() + part.len());
        let batch = read_fragments(self.alloc, body, next, Stage::Whole, totals)?;
        self.finish(due, part, batch)?;
        Ok(())
    }

    fn keep(&mut self, mut batch: Batch) -> Result<(), AllocError>
        requires { IsStage batch.stage batch.so_far.items }
        ensures ok { OnOk result (self.new ≡ record self.old {
          ready = self.old.ready ++ batch.records.items;
          totals = batch.totals;
          stage = batch.stage;
          so_far = batch.so_far.items;
        }) }
        ensures err { OnErr result (self.new ≡ self.old) }
    {
        self.ready.append(&mut batch.records)?;
        self.totals = batch.totals;
        self.stage = batch.stage;
        self.so_far = batch.so_far;
        Ok(())
    }

    /// Makes the unfinished record whole by its last part, and keeps what comes after it.
    fn finish(&mut self, due: Due, part: &[u8], mut batch: Batch) -> Result<(), AllocError>
        requires stage { self.old.stage ≡ Partway due }
        requires part { length part.now ≡ due.left }
        requires batch { IsStage batch.stage batch.so_far.items }
        ensures ok { OnOk result (self.new ≡ record self.old {
          ready = (self.old.ready ++ due_record due (self.old.so_far ++ part.now) ∷ [])
              ++ batch.records.items;
          totals = batch.totals;
          stage = batch.stage;
          so_far = batch.so_far.items;
        }) }
        ensures err { OnErr result (self.new ≡ self.old) }
    {
        self.ready.reserve(batch.records.len() + 1)?;
        // The last growth: nothing fails once the record is whole.
        self.so_far.extend_from_slice(part)?;
        let bytes = Bytes::from_vec(mem::replace(&mut self.so_far, batch.so_far));
        self.ready.push_back(Rec {
            index: due.index,
            stream: due.stream,
            bytes,
        })?;
        self.ready.append(&mut batch.records)?;
        self.totals = batch.totals;
        self.stage = batch.stage;
        Ok(())
    }

    /// The first record that waits, if one does.
    pub fn take_record(&mut self) -> Option<Rec>
        ensures none { IsNone result ↔ (self.old.ready ≡ []) }
        ensures first { IfSome result
            (λ it. self.old ≡ record self.new { ready = it ∷ self.new.ready }) }
        ensures unpacks { IfSome result (λ it. (bodies : List (List ℕ)) (taken : List Record)
            → Unpacks bodies taken self.old → Unpacks bodies (taken ++ it ∷ []) self.new) }
        ensures unchanged { IfNone result (self.new ≡ self.old) }
    {
        self.ready.pop_front()
    }

    /// Whether a record has begun that isn't whole.
    pub fn pending(&self) -> bool
        ensures { IsTrue result ↔ (standing_at self.now.stage ≡ Some Within) }
    {
        matches!(self.stage, Stage::Partway(_))
    }

    /// Whether the end label has come.
    pub fn ended(&self) -> bool
        ensures { IsTrue result ↔ (standing_at self.now.stage ≡ Some AtEnd) }
    {
        matches!(self.stage, Stage::Closed)
    }
}
