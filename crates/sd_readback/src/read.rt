// A session's spans in, its records out.
ghost use Rattle.std.specs.Prelude.{◌≡◌, ◌⊎◌, ◌≤◌, ◌<◌, ◌^◌, ◌++◌, ℕ, Bool, List, length, Err, IfOk, IfErr, OnOk, OnErr, IsErrOf, IsErrAnd};
ghost use Rattle.sd_base.specs.Record.{Record};
ghost use Rattle.sd_base.specs.declared.number.SessionKey.{SessionKey as SpecKey};
ghost use Rattle.sd_driver.specs.Meaning.{IsHonest};
ghost use Rattle.sd_label.specs.Cutting.{total_bytes};
ghost use Rattle.sd_volume.specs.Device.{OnlyReads};
ghost use Rattle.sd_volume.specs.Image.{Block, images, AreImages};
ghost use Rattle.sd_readback.specs.declared.fault.ReadFault.{ReadFault as SpecFault};
ghost use Rattle.sd_readback.specs.Device.{HasVolumes, IsReading, stretch};
ghost use Rattle.sd_readback.specs.Faults.{AreSpans, CantRead, IsOfSpans, MeetsFault, StopsWithin};
ghost use Rattle.sd_readback.specs.HandsOver.{HandsOverFront};
ghost use Rattle.sd_readback.specs.Reader.{HasRead, ReadsOn, HandsOverInPart, HandsOverInSpan};
ghost use Rattle.sd_readback.specs.Reading.{Volumes, volumes_on, Reads, SpanHolds};

use crate::fault::ReadFault;
use crate::front::{next_block, show_block};
use crate::reader::Reader;
use crate::sink::Sink;
use crate::spans::are_spans;
use sd_base::SessionKey;
use sd_driver::Driver;
use sd_span::Span;
use sd_volume::VolumeReader;
use std::alloc::Global;

/// What a session was read to: how many records and data bytes it has, and whether its end label is there.
#[derive(Clone, Copy, Debug, PartialEq, Eq)]
pub struct ReadEnd {
    pub records: u64,
    pub bytes: u64,
    pub ended: bool,
}

/// Reads the session `key` back from its spans. Each record goes to the sink as soon as the block that makes
/// it whole is read, so records may be handed over before a fault is met; those stay, and they are the
/// first of the session's, in order. The first fault is the answer, and nothing after it is read: first the
/// spans themselves are looked at, then span by span the volume, its length, and the blocks one after
/// another. The blocks of other sessions within a span are tested whole like the session's own. A session
/// with more records or data bytes than a `u64` counts is damaged, since no such session is ever taken.
///
/// Calls len once for each span, and then reads, each time at most the bytes of the greatest block. Held at a
/// time are one such buffer, which is taken before the device is called and kept from span to span, the records
/// that one block makes whole, and what has come of the next, with room for all of its data: `MOST_DATA` bytes
/// at most, whatever a block announces. Volumes are not changed, loaded or not.
pub fn read_session<D: Driver, S: Sink>(
    alloc: Global,
    driver: &mut D,
    key: SessionKey,
    spans: &[Span],
    sink: &mut S,
) -> Result<ReadEnd, ReadFault>
    ensures device { OnlyReads (IsErrOf result ReadFault.Device)
        (D.meaning driver.old) (D.meaning driver.new) }
    ensures bad_spans { (AreSpans spans.now → ⊥) → result ≡ Err ReadFault.BadSpan }
    ensures no_call { (AreSpans spans.now → ⊥)
        → (driver.new ≡ driver.old) × (S.got sink.new ≡ S.got sink.old) }
    ensures adds { (more : List Record) × (S.got sink.new ≡ S.got sink.old ++ more) }
    ensures counts { IfOk result (λ end. (records : List Record)
        × (S.got sink.new ≡ S.got sink.old ++ records)
        × (end.records ≡ length records)
        × (end.bytes ≡ total_bytes records)) }

    ensures reads { IsHonest (D.meaning driver.old)
        → IfOk result (λ end. (records : List Record)
        × (S.got sink.new ≡ S.got sink.old ++ records)
        × Reads (volumes_on (D.meaning driver.old).shelf) key spans.now records end.ended
        × (end.records ≡ length records)
        × (end.bytes ≡ total_bytes records)) }
    ensures found { IsHonest (D.meaning driver.old)
        → (records : List Record) (ended : Bool)
        → length records < 2 ^ 64 → total_bytes records < 2 ^ 64
        → Reads (volumes_on (D.meaning driver.old).shelf) key spans.now records ended
        → IfErr result (λ fault. (fault ≡ ReadFault.Device) ⊎ (fault ≡ ReadFault.Memory)) }
    ensures first { IsHonest (D.meaning driver.old)
        → IfErr result (λ fault. IsOfSpans fault
        → MeetsFault (volumes_on (D.meaning driver.old).shelf) key spans.now fault) }
    ensures met { IsHonest (D.meaning driver.old)
        → (fault : SpecFault)
        → MeetsFault (volumes_on (D.meaning driver.old).shelf) key spans.now fault
        → IsErrAnd result (λ answer. (answer ≡ fault)
        ⊎ (answer ≡ ReadFault.Device) ⊎ (answer ≡ ReadFault.Memory)) }
    ensures handed_over { IsHonest (D.meaning driver.old)
        → OnErr result (HandsOverFront (volumes_on (D.meaning driver.old).shelf)
        key spans.now (S.got sink.old) (S.got sink.new)) }
{
    if !are_spans(spans) {
        return Err(ReadFault::BadSpan);
    }
    let mut volume = VolumeReader::new(alloc, &spans[0].volume)?;
    let mut reader = Reader::new(alloc, key);
    for span in spans {
        read_span(driver, span, &mut volume, &mut reader, sink)?;
    }
    reader.finish()
}

/// Reads the part of a volume that the span names. `volume` is turned to it.
fn read_span<D: Driver, S: Sink>(
    driver: &mut D,
    span: &Span,
    volume: &mut VolumeReader,
    reader: &mut Reader,
    sink: &mut S,
) -> Result<(), ReadFault>
    requires { span.now.start < span.now.end }
    ensures device { OnlyReads (IsErrOf result ReadFault.Device)
        (D.meaning driver.old) (D.meaning driver.new) }
    ensures adds { (more : List Record) × (S.got sink.new ≡ S.got sink.old ++ more) }
    ensures ok { OnOk result ((blocks : List Block)
        × ReadsOn reader.old reader.new (S.got sink.old) (S.got sink.new) blocks
        × ((volumes : Volumes) → HasVolumes (D.meaning driver.old) volumes
        → SpanHolds volumes span.now blocks)) }

    ensures stops { (volumes : Volumes) → HasVolumes (D.meaning driver.old) volumes
        → IfErr result (λ fault. IsOfSpans fault
        → (key : SpecKey) (before : List Block) (taken : List Record)
        → HasRead key before taken reader.old → CantRead fault volumes key before span.now) }
    ensures handed_over { (volumes : Volumes) → HasVolumes (D.meaning driver.old) volumes
        → OnErr result (HandsOverInSpan volumes span.now reader.old
        (S.got sink.old) (S.got sink.new)) }
{
    let size = driver.len(&span.volume)?;
    if size < span.end {
        return Err(ReadFault::SpanEndsEarly);
    }
    volume.turn_to_volume(&span.volume);
    read_part(driver, volume, span.start, span.end, reader, sink)
}

/// Reads from `start` to `end` of the volume, which are to be whole blocks with numbers that rise by one.
fn read_part<D: Driver, S: Sink>(
    driver: &mut D,
    volume: &mut VolumeReader,
    start: u64,
    end: u64,
    reader: &mut Reader,
    sink: &mut S,
) -> Result<(), ReadFault>
    requires { start ≤ end }
    ensures device { OnlyReads (IsErrOf result ReadFault.Device)
        (D.meaning driver.old) (D.meaning driver.new) }
    ensures adds { (more : List Record) × (S.got sink.new ≡ S.got sink.old ++ more) }
    ensures ok { OnOk result ((blocks : List Block) × (number : ℕ) × AreImages number blocks
        × ReadsOn reader.old reader.new (S.got sink.old) (S.got sink.new) blocks
        × ((bytes : List ℕ) → IsReading (D.meaning driver.old) volume.old end bytes
        → stretch start end bytes ≡ images number blocks)) }

    ensures stops { (bytes : List ℕ)
        → IsReading (D.meaning driver.old) volume.old end bytes
        → IfErr result (λ fault. IsOfSpans fault
        → (key : SpecKey) (before : List Block) (taken : List Record)
        → HasRead key before taken reader.old
        → StopsWithin key before (stretch start end bytes) fault) }
    ensures handed_over { (bytes : List ℕ)
        → IsReading (D.meaning driver.old) volume.old end bytes
        → OnErr result (HandsOverInPart reader.old (S.got sink.old) (S.got sink.new)
        (stretch start end bytes)) }
{
    let mut at = start;
    let mut last = None;
    while at < end {
        show_block(driver, volume, at, end)?;
        let block = next_block(volume.shown(), last)?;
        reader.read_block(&block, sink)?;
        last = Some(block.number);
        at += volume.shown().len() as u64;
    }
    Ok(())
}
