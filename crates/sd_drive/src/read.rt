// A session is read back through the drive.
ghost use Rattle.std.specs.Prelude.{◌≡◌, ◌⊎◌, ◌<◌, ◌^◌, ◌++◌, Bool, List, length, Err, IfOk, IfErr, OnErr, IsErrOf, IsErrAnd};
ghost use Rattle.sd_base.specs.Record.{Record};
ghost use Rattle.sd_driver.specs.Meaning.{IsHonest};
ghost use Rattle.sd_label.specs.Cutting.{total_bytes};
ghost use Rattle.sd_readback.specs.declared.fault.ReadFault.{ReadFault as SpecFault};
ghost use Rattle.sd_readback.specs.Faults.{AreSpans, IsOfSpans, MeetsFault};
ghost use Rattle.sd_readback.specs.HandsOver.{HandsOverFront};
ghost use Rattle.sd_readback.specs.Reading.{volumes_on, Reads};
ghost use Rattle.sd_volume.specs.Device.{OnlyReads};
ghost use Rattle.sd_drive.specs.Shelf.{KeepsPieces};

use crate::drive::Drive;
use sd_base::SessionKey;
use sd_driver::Driver;
use sd_readback::{ReadEnd, ReadFault, Sink, read_session};
use sd_span::Span;

impl<D: Driver> Drive<D> {
    /// Reads a session back from its spans, as `read_session` does. Nothing of the drive changes but its device, of
    /// which no volume does, loaded or not.
    pub fn read<S: Sink>(
        &mut self,
        key: SessionKey,
        spans: &[Span],
        sink: &mut S,
    ) -> Result<ReadEnd, ReadFault>
        ensures same { self.new ≡ record self.old { device = self.new.device } }
        ensures device { OnlyReads (IsErrOf result ReadFault.Device)
            (D.meaning self.old.device) (D.meaning self.new.device) }
        ensures keeps { KeepsPieces (D.meaning self.old.device) (D.meaning self.new.device)
            self.old.journal self.new.journal self.old.hand self.new.hand }
        ensures bad_spans { (AreSpans spans.now → ⊥) → result ≡ Err ReadFault.BadSpan }
        ensures no_call { (AreSpans spans.now → ⊥)
            → (self.new ≡ self.old) × (S.got sink.new ≡ S.got sink.old) }
        ensures adds { (more : List Record) × (S.got sink.new ≡ S.got sink.old ++ more) }
        ensures counts { IfOk result (λ end. (records : List Record)
            × (S.got sink.new ≡ S.got sink.old ++ records)
            × (end.records ≡ length records)
            × (end.bytes ≡ total_bytes records)) }

        ensures reads { IsHonest (D.meaning self.old.device)
            → IfOk result (λ end. (records : List Record)
            × (S.got sink.new ≡ S.got sink.old ++ records)
            × Reads (volumes_on (D.meaning self.old.device).shelf) key spans.now records end.ended
            × (end.records ≡ length records)
            × (end.bytes ≡ total_bytes records)) }
        ensures found { IsHonest (D.meaning self.old.device)
            → (records : List Record) (ended : Bool)
            → length records < 2 ^ 64 → total_bytes records < 2 ^ 64
            → Reads (volumes_on (D.meaning self.old.device).shelf) key spans.now records ended
            → IfErr result (λ fault. (fault ≡ ReadFault.Device) ⊎ (fault ≡ ReadFault.Memory)) }
        ensures first { IsHonest (D.meaning self.old.device)
            → IfErr result (λ fault. IsOfSpans fault
            → MeetsFault (volumes_on (D.meaning self.old.device).shelf) key spans.now fault) }
        ensures met { IsHonest (D.meaning self.old.device)
            → (fault : SpecFault)
            → MeetsFault (volumes_on (D.meaning self.old.device).shelf) key spans.now fault
            → IsErrAnd result (λ answer. (answer ≡ fault)
            ⊎ (answer ≡ ReadFault.Device) ⊎ (answer ≡ ReadFault.Memory)) }
        ensures handed_over { IsHonest (D.meaning self.old.device)
            → OnErr result (HandsOverFront (volumes_on (D.meaning self.old.device).shelf)
            key spans.now (S.got sink.old) (S.got sink.new)) }
    {
        read_session(self.alloc, &mut self.driver, key, spans, sink)
    }
}
