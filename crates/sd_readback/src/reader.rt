// The reader: the blocks of spans in, the records of one session out to a sink.
ghost use Rattle.std.specs.Prelude.{◌≡◌, ◌≢◌, ◌+◌, ◌≤◌, ◌<◌, ◌^◌, ◌⊎◌, ◌++◌, ◌∷◌, [], ℕ, List, length, IfOk, OnOk, IfErr, OnErr};
ghost use Rattle.sd_base.specs.declared.number.SessionKey.{SessionKey as SpecKey};
ghost use Rattle.sd_base.specs.Record.{Record};
ghost use Rattle.sd_label.specs.Cutting.{WholeOf, total_bytes};
ghost use Rattle.sd_volume.specs.Image.{Block};
ghost use Rattle.sd_readback.specs.Reading.{blocks_of};
ghost use Rattle.sd_readback.specs.Faults.{AreReadable};
ghost use Rattle.sd_readback.specs.Reader.{HasRead, ReadsOn, HandsOverInBlock};
ghost use Rattle.sd_readback.specs.HandsOver.{GotFirstOf};

use crate::fault::ReadFault;
use crate::read::ReadEnd;
use crate::sink::Sink;
use sd_base::{Rec, SessionKey};
use sd_block::Opened;
use sd_unpack::Unpacker;
use std::alloc::Global;

/// Reads the blocks of one session, and counts its records and their data bytes.
#[derive(Drop)]
pub(crate) struct Reader {
    pub(crate) key: SessionKey,
    pub(crate) unpacker: Unpacker,
    pub(crate) records: u64,
    pub(crate) bytes: u64,
    /// Whether a block of the session was there.
    pub(crate) found: bool,
}

impl Reader {
    pub(crate) fn new(alloc: Global, key: SessionKey) -> Self
        ensures { HasRead key [] [] result }
    {
        Reader {
            key,
            unpacker: Unpacker::new(alloc),
            records: 0,
            bytes: 0,
            found: false,
        }
    }

    /// Reads one block, which may be another session's.
    pub(crate) fn read_block<S: Sink>(
        &mut self,
        block: &Opened<'_>,
        sink: &mut S,
    ) -> Result<(), ReadFault>
        ensures ok { OnOk result (ReadsOn self.old self.new (S.got sink.old) (S.got sink.new)
            (record { key = block.now.key; body = block.now.body.now } ∷ [])) }
        ensures refused { IfErr result (λ fault. fault ≢ ReadFault.Memory
            → (key : SpecKey) (before : List Block) (taken : List Record)
            → HasRead key before taken self.old
            → (fault ≡ ReadFault.DamagedBlock)
            × (AreReadable (blocks_of key (before
            ++ record { key = block.now.key; body = block.now.body.now } ∷ [])) → ⊥)) }
        ensures faults { IfErr result (λ fault. fault ≢ ReadFault.Device) }
        ensures handed_over { OnErr result (HandsOverInBlock self.old
            (S.got sink.old) (S.got sink.new)
            (record { key = block.now.key; body = block.now.body.now })) }
    {
        if self.key != block.key {
            return Ok(());
        }
        self.unpacker.add(block.body)?;
        self.found = true;
        self.hand_over(sink)
    }

    /// Hands over all records that wait.
    fn hand_over<S: Sink>(&mut self, sink: &mut S) -> Result<(), ReadFault>
        ensures sink { OnOk result (S.got sink.new ≡ S.got sink.old ++ self.old.unpacker.ready) }
        ensures reader { OnOk result (self.new ≡ record self.old {
          unpacker = record self.old.unpacker { ready = [] };
          records = self.old.records + length self.old.unpacker.ready;
          bytes = self.old.bytes + total_bytes self.old.unpacker.ready;
        }) }
        ensures counted { OnOk result (self.old.records < 2 ^ 64 → self.old.bytes < 2 ^ 64
            → (self.new.records < 2 ^ 64) × (self.new.bytes < 2 ^ 64)) }
        ensures uncountable { IfErr result (λ fault. fault ≢ ReadFault.Memory
            → (fault ≡ ReadFault.DamagedBlock)
            × ((2 ^ 64 ≤ self.old.records + length self.old.unpacker.ready)
            ⊎ (2 ^ 64 ≤ self.old.bytes + total_bytes self.old.unpacker.ready))) }
        ensures faults { IfErr result (λ fault. fault ≢ ReadFault.Device) }
        ensures handed_over { OnErr result
            (GotFirstOf self.old.unpacker.ready (S.got sink.old) (S.got sink.new)) }
    {
        while let Some(rec) = self.unpacker.take_record() {
            self.count(&rec)?;
            sink.put(rec)?;
        }
        Ok(())
    }

    /// Counts one record more.
    fn count(&mut self, rec: &Rec) -> Result<(), ReadFault>
        ensures ok { OnOk result (self.new ≡ record self.old {
          records = self.old.records + 1;
          bytes = self.old.bytes + length rec.now.bytes;
        }) }
        ensures counted { OnOk result ((self.new.records < 2 ^ 64) × (self.new.bytes < 2 ^ 64)) }
        ensures uncountable { IfErr result (λ fault. (fault ≡ ReadFault.DamagedBlock)
            × ((2 ^ 64 ≤ self.old.records + 1)
            ⊎ (2 ^ 64 ≤ self.old.bytes + length rec.now.bytes))) }
    {
        let Some(records) = self.records.checked_add(1) else {
            return Err(ReadFault::DamagedBlock);
        };
        let Some(bytes) = self.bytes.checked_add(rec.bytes.len() as u64) else {
            return Err(ReadFault::DamagedBlock);
        };
        self.records = records;
        self.bytes = bytes;
        Ok(())
    }

    /// What was read, once there is no more.
    pub(crate) fn finish(&self) -> Result<ReadEnd, ReadFault>
        ensures ok { IfOk result (λ end. (key : SpecKey) (blocks : List Block) (taken : List Record)
            → HasRead key blocks taken self.now
            → (blocks_of key blocks ≢ []) × WholeOf (blocks_of key blocks) taken end.ended
            × (end.records ≡ length taken) × (end.bytes ≡ total_bytes taken)) }
        ensures none { IfErr result (λ fault. (fault ≡ ReadFault.BadSpan)
            × ((key : SpecKey) (blocks : List Block) (taken : List Record)
            → HasRead key blocks taken self.now → blocks_of key blocks ≡ [])) }
    {
        if !self.found {
            return Err(ReadFault::BadSpan);
        }
        Ok(ReadEnd {
            records: self.records,
            bytes: self.bytes,
            ended: self.unpacker.ended(),
        })
    }
}
