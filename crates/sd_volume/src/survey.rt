// What is on a volume: its label, and its blocks one after another. Nothing is changed.
ghost use Rattle.std.specs.Prelude.{◌≡◌, ◌≢◌, ◌*◌, ◌+◌, ◌≤◌, ◌<◌, ◌⊎◌, ℕ, List, [], length, drop, IfOk, IfErr, IfSome, IfNone, IsErrOf, IsTrue, ◌↔◌, None, Some};
ghost use Rattle.sd_base.specs.Limits.{least_block, most_volume};
ghost use Rattle.sd_driver.specs.Meaning.{IsHonest};
ghost use Rattle.sd_driver.specs.Shelf.{Held, BeginsWith};
ghost use Rattle.sd_label.specs.Label.{IsVolumeLabel};
ghost use Rattle.sd_label.specs.declared.label.VolumeLabel.{VolumeLabel as SpecLabel};
ghost use Rattle.sd_volume.specs.Adopt.{IsLabelled, IsLabelOf, HasBlockOfThisRun, GoesUpTo, BlockStandsAt};
ghost use Rattle.sd_volume.specs.Device.{OnlyReads};
ghost use Rattle.sd_volume.specs.Image.{NoBlockNext, no_session, label_block};
ghost use Rattle.sd_volume.specs.Noted.{EndsWithBlock};
ghost use Rattle.sd_volume.specs.Reader.{Shows, IsBlockOf};

use crate::block::next_block;
use crate::fault::AdoptFault;
use crate::label::NO_SESSION;
use crate::reader::VolumeReader;
use sd_base::{BLOCK_HEADER, VolName};
use sd_block::Head;
use sd_driver::{Driver, DriverFault};
use sd_label::{VolumeLabel, read_volume_label};

/// The label of a volume, and where its first block begins.
#[derive(Drop)]
pub struct Labelled {
    pub label: VolumeLabel,
    pub first: u64,
}

/// Where the blocks of a volume end, which number the next one gets, and where the last one begins, 0 if there is none.
#[derive(Clone, Copy)]
pub(crate) struct End {
    pub(crate) end: u64,
    pub(crate) next_number: u32,
    pub(crate) last: u64,
}

/// The label of a volume of that size, which is to have that name, or `None` if no label block of that name
/// begins it.
pub fn read_label<D: Driver>(
    driver: &mut D,
    reader: &mut VolumeReader,
    name: &VolName,
    size: u64,
) -> Result<Option<Labelled>, DriverFault>
    ensures name { reader.new.name ≡ reader.old.name }
    ensures device { OnlyReads (IsErrOf result DriverFault.Device)
        (D.meaning driver.old) (D.meaning driver.new) }
    ensures faults { IfErr result
        (λ fault. (fault ≢ DriverFault.Exists) × (fault ≢ DriverFault.NoRoom)) }
    ensures label { IfOk result (λ read. IfSome read (λ found. IsVolumeLabel found.label)) }
    ensures named { IfOk result (λ read. IfSome read (λ found. found.label.name ≡ name.now)) }
    ensures first { IfOk result (λ read. IfSome read
        (λ found. found.first ≡ length (label_block found.label))) }
    ensures within { IfOk result (λ read. IfSome read (λ found. found.first ≤ size)) }

    ensures begins { IsHonest (D.meaning driver.old) → Shows reader.old (D.meaning driver.old).shelf
        → (held : Held) → (D.meaning driver.old).shelf.volume reader.old.name ≡ Some held
        → IfOk result (λ read. IfSome read
        (λ found. BeginsWith held.bytes (label_block found.label))) }
    ensures not_ours { IsHonest (D.meaning driver.old)
        → Shows reader.old (D.meaning driver.old).shelf
        → (held : Held) → (D.meaning driver.old).shelf.volume reader.old.name ≡ Some held
        → size ≡ length held.bytes → IfOk result (λ read. IfNone read
        ((label : SpecLabel) → ¬ IsLabelled name.now held.bytes label)) }
    ensures shows { IsHonest (D.meaning driver.old) → Shows reader.old (D.meaning driver.old).shelf
        → Shows reader.new (D.meaning driver.new).shelf }
    ensures not_there { IsHonest (D.meaning driver.old) → IsErrOf result DriverFault.NotThere
        → (D.meaning driver.old).shelf.volume reader.old.name ≡ None }
{
    let Some(head) = next_block(driver, reader, 0)? else {
        return Ok(None);
    };
    let first = head.size as u64;
    if first > size {
        return Ok(None);
    }
    let Some(label) = label_of(name, &head, reader.shown()) else {
        return Ok(None);
    };
    Ok(Some(Labelled { label, first }))
}

// The label that a block holds, if it is a label block with that name.
fn label_of(name: &VolName, head: &Head, block: &[u8]) -> Option<VolumeLabel>
    requires { IsBlockOf block.now head.now }
    ensures some { IfSome result (IsLabelOf name.now block.now) }
    ensures none { IfNone result ((label : SpecLabel) → ¬ IsLabelOf name.now block.now label) }
{
    if !is_label_head(head) {
        return None;
    }
    let (_, body) = block.split_at(BLOCK_HEADER);
    let Ok(label) = read_volume_label(body) else {
        return None;
    };
    if !label.name.is_same(name) {
        return None;
    }
    Some(label)
}

// Whether the head is a label block's: it has the number 0, and is of no session.
fn is_label_head(head: &Head) -> bool
    ensures { IsTrue result ↔ ((head.now.number ≡ 0) × (head.now.key ≡ no_session)) }
{
    head.number == 0 && head.key == NO_SESSION
}

/// Where the blocks of a volume of that size end that come after those up to `known`. All of them are to be of earlier
/// runs than the one that began at `start_time`.
pub(crate) fn find_end<D: Driver>(
    driver: &mut D,
    reader: &mut VolumeReader,
    known: End,
    size: u64,
    start_time: u32,
) -> Result<End, AdoptFault>
    requires within { known.end ≤ size }
    requires most { size ≤ most_volume }
    requires least { 1 ≤ known.next_number }
    requires next { known.next_number * least_block ≤ known.end }
    ensures name { reader.new.name ≡ reader.old.name }
    ensures device { OnlyReads (IsErrOf result AdoptFault.Device)
        (D.meaning driver.old) (D.meaning driver.new) }
    ensures faults { IfErr result
        (λ fault. (fault ≢ AdoptFault.NotOurVolume) × (fault ≢ AdoptFault.OtherMedia)) }
    ensures first { IfOk result (λ found. known.end ≤ found.end) }
    ensures end { IfOk result (λ found. found.end ≤ size) }
    ensures least { IfOk result (λ found. 1 ≤ found.next_number) }
    ensures next { IfOk result (λ found. found.next_number * least_block ≤ found.end) }

    ensures goes { IsHonest (D.meaning driver.old) → Shows reader.old (D.meaning driver.old).shelf
        → (held : Held) → (D.meaning driver.old).shelf.volume reader.old.name ≡ Some held
        → (label : SpecLabel)
        → GoesUpTo start_time held.bytes label known.end known.next_number known.last
        → IfOk result (λ found.
        GoesUpTo start_time held.bytes label found.end found.next_number found.last) }
    ensures stands { IsHonest (D.meaning driver.old)
        → Shows reader.old (D.meaning driver.old).shelf
        → (held : Held) → (D.meaning driver.old).shelf.volume reader.old.name ≡ Some held
        → IfOk result (λ found.
        EndsWithBlock start_time held.bytes found.last found.end found.next_number
        ⊎ ((found.last ≡ known.last) × (found.end ≡ known.end)
        × (found.next_number ≡ known.next_number))) }
    ensures ended { IsHonest (D.meaning driver.old) → Shows reader.old (D.meaning driver.old).shelf
        → (held : Held) → (D.meaning driver.old).shelf.volume reader.old.name ≡ Some held
        → size ≡ length held.bytes
        → IfOk result (λ found. NoBlockNext found.next_number (drop found.end held.bytes)) }
    ensures this_run { IsHonest (D.meaning driver.old)
        → Shows reader.old (D.meaning driver.old).shelf
        → (held : Held) → (D.meaning driver.old).shelf.volume reader.old.name ≡ Some held
        → (label : SpecLabel)
        → GoesUpTo start_time held.bytes label known.end known.next_number known.last
        → IsErrOf result AdoptFault.BlocksOfThisRun
        → HasBlockOfThisRun start_time held.bytes label }
    ensures not_there { IsHonest (D.meaning driver.old) → IsErrOf result AdoptFault.NotOnShelf
        → (D.meaning driver.old).shelf.volume reader.old.name ≡ None }
{
    let mut end = known.end;
    let mut next_number = known.next_number;
    let mut last = known.last;
    while let Some(head) = numbered_block(driver, reader, end, next_number as u64, size)? {
        if head.key.time >= start_time {
            return Err(AdoptFault::BlocksOfThisRun);
        }
        last = end;
        end += head.size as u64;
        next_number += 1;
    }
    Ok(End {
        end,
        next_number,
        last,
    })
}

/// The block with that number at a place of a volume of that size, or `None` if no such whole block is there.
pub fn numbered_block<D: Driver>(
    driver: &mut D,
    reader: &mut VolumeReader,
    at: u64,
    number: u64,
    size: u64,
) -> Result<Option<Head>, DriverFault>
    requires { at ≤ size }
    ensures name { reader.new.name ≡ reader.old.name }
    ensures device { OnlyReads (IsErrOf result DriverFault.Device)
        (D.meaning driver.old) (D.meaning driver.new) }
    ensures faults { IfErr result
        (λ fault. (fault ≢ DriverFault.Exists) × (fault ≢ DriverFault.NoRoom)) }
    ensures within { IfOk result (λ found. IfSome found
        (λ head. (least_block ≤ head.size) × (at + head.size ≤ size))) }
    ensures number { IfOk result (λ found. IfSome found (λ head. head.number ≡ number)) }

    ensures there { IsHonest (D.meaning driver.old) → Shows reader.old (D.meaning driver.old).shelf
        → (held : Held) → (D.meaning driver.old).shelf.volume reader.old.name ≡ Some held
        → IfOk result (λ found. IfSome found (BlockStandsAt at number held.bytes)) }
    ensures none { IsHonest (D.meaning driver.old) → Shows reader.old (D.meaning driver.old).shelf
        → (held : Held) → (D.meaning driver.old).shelf.volume reader.old.name ≡ Some held
        → size ≡ length held.bytes
        → IfOk result (λ found. IfNone found (NoBlockNext number (drop at held.bytes))) }
    ensures shows { IsHonest (D.meaning driver.old) → Shows reader.old (D.meaning driver.old).shelf
        → Shows reader.new (D.meaning driver.new).shelf }
    ensures not_there { IsHonest (D.meaning driver.old) → IsErrOf result DriverFault.NotThere
        → (D.meaning driver.old).shelf.volume reader.old.name ≡ None }
{
    let Some(head) = next_block(driver, reader, at)? else {
        return Ok(None);
    };
    if head.number as u64 != number {
        return Ok(None);
    }
    if head.size as u64 > size - at {
        return Ok(None);
    }
    Ok(Some(head))
}
