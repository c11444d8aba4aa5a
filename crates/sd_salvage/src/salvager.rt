// The salvager: what is found of spans in, the whole records of one session out.
ghost use Rattle.std.specs.Prelude.{◌≡◌, ◌&&◌, [], ◌∷◌, ◌++◌, ℕ, List, None, Some, OnOk, IfOk, IfErr, true, false};
ghost use Rattle.sd_base.specs.Record.{Record};
ghost use Rattle.sd_collect.specs.Whole.{Place};
ghost use Rattle.sd_salvage.specs.Readable.{Lost, Read, place};
ghost use Rattle.sd_salvage.specs.Salvage.{Course, HasCome, IsEndOf, Takes, Unpacked, told_unless};
ghost use Rattle.sd_unpack.specs.Unpacking.{Unpacks};

use crate::session::SalvageEnd;
use sd_base::{SessionKey, VolName};
use sd_collect::{Collector, Salvaged, take_body};
use sd_readback::ReadFault;
use sd_unpack::{AddFault, Unpacker};
use std::alloc::{AllocError, Global};

/// Collects the records of one session. Besides, as long as nothing is lost, an unpacker tells whether each body follows those
/// before it; its records are let go.
#[derive(Drop)]
pub(crate) struct Salvager {
    pub(crate) key: SessionKey,
    pub(crate) collector: Collector,
    pub(crate) unpacker: Unpacker,
    /// Whether nothing was lost so far.
    pub(crate) sound: bool,
    /// Whether a block of the session was there.
    pub(crate) found: bool,
}

impl Salvager {
    pub(crate) fn new(alloc: Global, key: SessionKey) -> Self
        ensures key { result.key ≡ key }
        ensures due { result.collector.due ≡ None }
        ensures come { HasCome (Some []) result }
    {
        Salvager {
            key,
            collector: Collector::new(alloc),
            unpacker: Unpacker::new(alloc),
            sound: true,
            found: false,
        }
    }

    /// Goes on after a place from which on some may be lost.
    pub(crate) fn lose<S: Salvaged>(&mut self, volume: &VolName, at: u64, sink: &mut S)
        ensures key { self.new.key ≡ self.old.key }
        ensures takes { Takes self.old.key self.old self.new
            (Lost (place volume.now at) ∷ []) (S.got sink.old) (S.got sink.new)
            (S.lost sink.old) (S.lost sink.new) }
    {
        self.collector.cut();
        self.sound = false;
        sink.lose(volume, at);
    }

    /// Takes the next block, which lies there, and may be another session's.
    pub(crate) fn take<S: Salvaged>(
        &mut self,
        key: SessionKey,
        body: &[u8],
        volume: &VolName,
        at: u64,
        sink: &mut S,
    ) -> Result<(), AllocError>
        ensures key { self.new.key ≡ self.old.key }
        ensures takes { OnOk result (Takes self.old.key self.old self.new
            (Read (place volume.now at) (record { key = key; body = body.now }) ∷ [])
            (S.got sink.old) (S.got sink.new) (S.lost sink.old) (S.lost sink.new)) }
    {
        if self.key != key {
            return Ok(());
        }
        self.found = true;
        let whole = take_body(&mut self.collector, body, sink)?;
        let follows = self.follows(body)?;
        let goes_on = both(whole, follows);
        self.sound = both(self.sound, goes_on);
        tell_body(goes_on, volume, at, sink);
        Ok(())
    }

    // Whether the body follows those before it, if nothing was lost so far.
    fn follows(&mut self, body: &[u8]) -> Result<bool, AllocError>
        ensures rest { self.new ≡ record self.old { unpacker = self.new.unpacker } }
        ensures lost { self.old.sound ≡ false → IfOk result (λ follows. follows ≡ true) }
        ensures course { self.old.sound ≡ true → (bodies : List (List ℕ)) (taken : List Record)
            → self.old.unpacker.damage ≡ None → Unpacks bodies taken self.old.unpacker
            → IfOk result (λ follows. Unpacked bodies body.now follows self.new.unpacker) }
    {
        if !self.sound {
            return Ok(true);
        }
        unpack(&mut self.unpacker, body)
    }

    /// What the salvage came to, after all spans. Spans in which nothing is lost, and no block is the session's, are bad.
    pub(crate) fn end(&self) -> Result<SalvageEnd, ReadFault>
        ensures ok { IfOk result (λ end. (course : Course) → HasCome course self.now
            → IsEndOf course end) }
        ensures bad { IfErr result (λ fault. fault ≡ ReadFault.BadSpan) }
        ensures err { IfErr result (λ fault. (course : Course) → HasCome course self.now
            → course ≡ Some []) }
    {
        if self.sound && !self.found {
            return Err(ReadFault::BadSpan);
        }
        Ok(SalvageEnd {
            sound: self.sound,
            ended: self.unpacker.ended(),
        })
    }
}

// Has the unpacker take the session's next body, and lets the records go. Says whether the body can follow those before it.
fn unpack(unpacker: &mut Unpacker, body: &[u8]) -> Result<bool, AllocError>
    ensures { (bodies : List (List ℕ)) (taken : List Record)
        → unpacker.old.damage ≡ None → Unpacks bodies taken unpacker.old
        → IfOk result (λ follows. Unpacked bodies body.now follows unpacker.new) }
{
    match unpacker.add(body) {
        Ok(()) => {
            let_go(unpacker);
            Ok(true)
        }
        Err(AddFault::Damaged(_)) => Ok(false),
        Err(AddFault::Memory) => Err(AllocError),
    }
}

// Lets the records go that wait.
fn let_go(unpacker: &mut Unpacker)
    ensures damage { unpacker.new.damage ≡ unpacker.old.damage }
    ensures unpacks { (bodies : List (List ℕ)) (taken : List Record)
        → Unpacks bodies taken unpacker.old
        → (more : List Record) × Unpacks bodies more unpacker.new }
{
    while let Some(rec) = unpacker.take_record() {
        let _ = rec;
    }
}

// Tells that some may be lost from a block on, unless the session goes on with it.
fn tell_body<S: Salvaged>(goes_on: bool, volume: &VolName, at: u64, sink: &mut S)
    ensures got { S.got sink.new ≡ S.got sink.old }
    ensures told { S.lost sink.new
        ≡ S.lost sink.old ++ told_unless goes_on (place volume.now at) }
{
    if !goes_on {
        sink.lose(volume, at);
    }
}

// Whether the one holds, and the other.
fn both(one: bool, other: bool) -> bool
    ensures { result ≡ (one && other) }
{
    one && other
}
