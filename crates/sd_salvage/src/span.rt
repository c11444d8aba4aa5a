// A span, read past damage.
ghost use Rattle.std.specs.Prelude.{◌≡◌, ◌≢◌, ◌+◌, ◌≤◌, [], List, length, drop, min, None, Some, IfOk, IfErr, IfSome, IfNone, OnOk, IsErrOf};
ghost use Rattle.sd_base.specs.Limits.{block_header};
ghost use Rattle.sd_driver.specs.Meaning.{IsHonest};
ghost use Rattle.sd_driver.specs.Shelf.{Held};
ghost use Rattle.sd_readback.specs.Reading.{volumes_on};
ghost use Rattle.sd_salvage.specs.Readable.{AreReadable, FindsInSpan, IsNext, Piece, Stored, before, is_due, pieces_of, rest_of, stored};
ghost use Rattle.sd_salvage.specs.Salvage.{Takes};
ghost use Rattle.sd_volume.specs.Device.{OnlyReads};
ghost use Rattle.sd_volume.specs.Reader.{IsBlockOf, Shows};

use crate::salvager::Salvager;
use sd_base::{BLOCK_HEADER, VolName};
use sd_collect::Salvaged;
use sd_driver::{Driver, DriverFault};
use sd_readback::ReadFault;
use sd_scan::{Whole, next_whole};
use sd_span::Span;
use sd_volume::VolumeReader;

/// Reads the part of a volume that the span names: each whole block in it, in order. `volume` is turned to it.
pub(crate) fn salvage_span<D: Driver, S: Salvaged>(
    driver: &mut D,
    span: &Span,
    volume: &mut VolumeReader,
    salvager: &mut Salvager,
    sink: &mut S,
) -> Result<(), ReadFault>
    ensures key { salvager.new.key ≡ salvager.old.key }
    ensures device { OnlyReads (IsErrOf result ReadFault.Device)
        (D.meaning driver.old) (D.meaning driver.new) }
    ensures faults { IfErr result (λ fault. fault ≢ ReadFault.BadSpan) }
    ensures takes { IsHonest (D.meaning driver.old) → OnOk result ((pieces : List Piece)
        × FindsInSpan (volumes_on (D.meaning driver.old).shelf) span.now pieces
        × Takes salvager.old.key salvager.old salvager.new pieces
        (S.got sink.old) (S.got sink.new) (S.lost sink.old) (S.lost sink.new)) }
{
    let size = match driver.len(&span.volume) {
        Ok(size) => size,
        Err(DriverFault::NotThere) => {
            salvager.lose(&span.volume, span.start, sink);
            return Ok(());
        }
        Err(fault) => return Err(ReadFault::from(fault)),
    };
    volume.turn_to_volume(&span.volume);
    salvage_part(driver, span, size, volume, salvager, sink)
}

// Reads the part of a volume of that size, to which `volume` is turned.
fn salvage_part<D: Driver, S: Salvaged>(
    driver: &mut D,
    span: &Span,
    size: u64,
    volume: &mut VolumeReader,
    salvager: &mut Salvager,
    sink: &mut S,
) -> Result<(), ReadFault>
    ensures key { salvager.new.key ≡ salvager.old.key }
    ensures device { OnlyReads (IsErrOf result ReadFault.Device)
        (D.meaning driver.old) (D.meaning driver.new) }
    ensures faults { IfErr result (λ fault. fault ≢ ReadFault.BadSpan) }
    ensures takes { IsHonest (D.meaning driver.old) → Shows volume.old (D.meaning driver.old).shelf
        → (held : Held) → (D.meaning driver.old).shelf.volume volume.old.name ≡ Some held
        → size ≡ length held.bytes
        → OnOk result ((bs : List Stored)
        × AreReadable held.bytes span.now.start span.now.end bs
        × Takes salvager.old.key salvager.old salvager.new
        (pieces_of span.now.volume span.now.start None span.now.end bs)
        (S.got sink.old) (S.got sink.new) (S.lost sink.old) (S.lost sink.new)) }
{
    let limit = size.min(span.end);
    let mut at = span.start;
    let mut last = None;
    while let Some(whole) = next_within(driver, volume, at, limit, span.end)? {
        tell_before(&span.volume, at, last, &whole, salvager, sink);
        let (_, body) = volume.shown().split_at(BLOCK_HEADER);
        salvager.take(whole.head.key, body, &span.volume, whole.at, sink)?;
        at = whole.at + whole.head.size as u64;
        last = Some(whole.head.number);
    }
    tell_rest(&span.volume, at, span.end, salvager, sink);
    Ok(())
}

// Tells that some may be lost before a block, unless it lies at the place that is due, with the number that is.
fn tell_before<S: Salvaged>(
    volume: &VolName,
    at: u64,
    last: Option<u32>,
    whole: &Whole,
    salvager: &mut Salvager,
    sink: &mut S,
)
    ensures key { salvager.new.key ≡ salvager.old.key }
    ensures takes { Takes salvager.old.key salvager.old salvager.new
        (before volume.now at last (stored whole.now.at whole.now.head []))
        (S.got sink.old) (S.got sink.new) (S.lost sink.old) (S.lost sink.new) }
{
    if whole.at == at && is_due(last, whole.head.number) {
        return;
    }
    salvager.lose(volume, at, sink);
}

// Tells that some may be lost up to the end of a span, unless that is reached.
fn tell_rest<S: Salvaged>(
    volume: &VolName,
    at: u64,
    end: u64,
    salvager: &mut Salvager,
    sink: &mut S,
)
    ensures key { salvager.new.key ≡ salvager.old.key }
    ensures takes { Takes salvager.old.key salvager.old salvager.new
        (rest_of volume.now at end)
        (S.got sink.old) (S.got sink.new) (S.lost sink.old) (S.lost sink.new) }
{
    if at < end {
        salvager.lose(volume, at, sink);
    }
}

// The first whole block from a place on that begins before `limit`, if it ends before `end` or there.
fn next_within<D: Driver>(
    driver: &mut D,
    volume: &mut VolumeReader,
    from: u64,
    limit: u64,
    end: u64,
) -> Result<Option<Whole>, DriverFault>
    ensures name { volume.new.name ≡ volume.old.name }
    ensures device { OnlyReads (IsErrOf result DriverFault.Device)
        (D.meaning driver.old) (D.meaning driver.new) }
    ensures faults { IfErr result
        (λ fault. (fault ≢ DriverFault.Exists) × (fault ≢ DriverFault.NoRoom)) }
    ensures block { IfOk result (λ found. IfSome found
        (λ whole. IsBlockOf volume.new.shown whole.head)) }
    ensures within { IfOk result (λ found. IfSome found
        (λ whole. (from ≤ whole.at) × (whole.at + whole.head.size ≤ end))) }
    ensures next { IsHonest (D.meaning driver.old) → Shows volume.old (D.meaning driver.old).shelf
        → (held : Held) → (D.meaning driver.old).shelf.volume volume.old.name ≡ Some held
        → IfOk result (λ found. IfSome found (λ whole. IsNext held.bytes from end
        (stored whole.at whole.head (drop block_header volume.new.shown)))) }
    ensures none { IsHonest (D.meaning driver.old) → Shows volume.old (D.meaning driver.old).shelf
        → (held : Held) → (D.meaning driver.old).shelf.volume volume.old.name ≡ Some held
        → limit ≡ min (length held.bytes) end
        → IfOk result (λ found. IfNone found (AreReadable held.bytes from end [])) }
    ensures shows { IsHonest (D.meaning driver.old) → Shows volume.old (D.meaning driver.old).shelf
        → OnOk result (Shows volume.new (D.meaning driver.new).shelf) }
{
    let Some(whole) = next_whole(driver, volume, from, limit)? else {
        return Ok(None);
    };
    if whole.head.size as u64 > end.saturating_sub(whole.at) {
        return Ok(None);
    }
    Ok(Some(whole))
}

// Whether a block of that number may come after one of the number `last`.
fn is_due(last: Option<u32>, number: u32) -> bool
    ensures { result ≡ is_due last number }
{
    match last {
        None => true,
        Some(last) => u64::from(number) == u64::from(last) + 1,
    }
}
