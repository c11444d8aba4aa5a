// How far a volume was read before, as its note says, and whether the volume bears the note out.
ghost use Rattle.std.specs.Prelude.{◌≡◌, ◌≢◌, ◌*◌, ◌+◌, ◌^◌, ◌≤◌, ◌<◌, ◌⊎◌, ◌↔◌, ℕ, List, length, IfOk, IfErr, IsErrOf, IsTrue, None, Some};
ghost use Rattle.sd_base.specs.Limits.{least_block};
ghost use Rattle.sd_driver.specs.Meaning.{IsHonest};
ghost use Rattle.sd_driver.specs.Shelf.{Held};
ghost use Rattle.sd_note.specs.declared.note.Note.{Note as SpecNote};
ghost use Rattle.sd_volume.specs.Adopt.{IsVolumeOf, GoesUpTo};
ghost use Rattle.sd_volume.specs.Device.{OnlyReads};
ghost use Rattle.sd_volume.specs.Image.{label_block};
ghost use Rattle.sd_volume.specs.Noted.{EndsWithBlock, Fits, IsTrusted, MayFit};
ghost use Rattle.sd_volume.specs.Reader.{Shows};

use crate::reader::VolumeReader;
use crate::survey::{End, Labelled, numbered_block};
use sd_base::LEAST_BLOCK;
use sd_block::Head;
use sd_driver::{Driver, DriverFault};
use sd_note::Note;

/// Where the blocks of a volume of that size end, as far as is known before they are read: where its note says, if it
/// has one that fits; else where its label block does.
pub(crate) fn known_end<D: Driver>(
    driver: &mut D,
    reader: &mut VolumeReader,
    found: &Labelled,
    size: u64,
    start_time: u32,
    note: Option<Note>,
) -> Result<End, DriverFault>
    requires first { found.now.first ≡ length (label_block found.now.label) }
    requires within { found.now.first ≤ size }
    ensures name { reader.new.name ≡ reader.old.name }
    ensures device { OnlyReads (IsErrOf result DriverFault.Device)
        (D.meaning driver.old) (D.meaning driver.new) }
    ensures faults { IfErr result
        (λ fault. (fault ≢ DriverFault.Exists) × (fault ≢ DriverFault.NoRoom)) }
    ensures first { IfOk result (λ known. found.now.first ≤ known.end) }
    ensures end { IfOk result (λ known. known.end ≤ size) }
    ensures least { IfOk result (λ known. 1 ≤ known.next_number) }
    ensures next { IfOk result (λ known. known.next_number * least_block ≤ known.end) }

    ensures goes { IsHonest (D.meaning driver.old) → Shows reader.old (D.meaning driver.old).shelf
        → (held : Held) → (D.meaning driver.old).shelf.volume reader.old.name ≡ Some held
        → size ≡ length held.bytes → IsVolumeOf reader.old.name held.bytes found.now.label
        → IsTrusted note reader.old.name start_time (D.meaning driver.old).shelf
        → IfOk result (λ known. GoesUpTo start_time held.bytes found.now.label
        known.end known.next_number known.last) }
    ensures noted { IsHonest (D.meaning driver.old)
        → Shows reader.old (D.meaning driver.old).shelf
        → (held : Held) → (D.meaning driver.old).shelf.volume reader.old.name ≡ Some held
        → size ≡ length held.bytes → (given : SpecNote) → note ≡ Some given
        → Fits given start_time held.bytes found.now.label
        → IfOk result (λ known. known.end ≡ given.end) }
    ensures stands { IsHonest (D.meaning driver.old)
        → Shows reader.old (D.meaning driver.old).shelf
        → (held : Held) → (D.meaning driver.old).shelf.volume reader.old.name ≡ Some held
        → size ≡ length held.bytes → IfOk result (λ known.
        EndsWithBlock start_time held.bytes known.last known.end known.next_number
        ⊎ ((known.last ≡ 0) × (known.end ≡ found.now.first) × (known.next_number ≡ 1))) }
    ensures shows { IsHonest (D.meaning driver.old) → Shows reader.old (D.meaning driver.old).shelf
        → Shows reader.new (D.meaning driver.new).shelf }
    ensures not_there { IsHonest (D.meaning driver.old) → IsErrOf result DriverFault.NotThere
        → (D.meaning driver.old).shelf.volume reader.old.name ≡ None }
{
    let label_end = End {
        end: found.first,
        next_number: 1,
        last: 0,
    };
    let Some(note) = note else {
        return Ok(label_end);
    };
    let fits = note_fits(driver, reader, found, size, start_time, note)?;
    if !fits {
        return Ok(label_end);
    }
    Ok(End {
        end: note.end,
        next_number: note.next_number,
        last: note.last,
    })
}

// Whether the note fits the volume of that label and size.
fn note_fits<D: Driver>(
    driver: &mut D,
    reader: &mut VolumeReader,
    found: &Labelled,
    size: u64,
    start_time: u32,
    note: Note,
) -> Result<bool, DriverFault>
    requires first { found.now.first ≡ length (label_block found.now.label) }
    ensures name { reader.new.name ≡ reader.old.name }
    ensures device { OnlyReads (IsErrOf result DriverFault.Device)
        (D.meaning driver.old) (D.meaning driver.new) }
    ensures faults { IfErr result
        (λ fault. (fault ≢ DriverFault.Exists) × (fault ≢ DriverFault.NoRoom)) }
    ensures may { IfOk result (λ fits. IsTrue fits
        → MayFit note start_time found.now.label size × (note.end ≤ size) × (note.last ≤ note.end)) }

    ensures fits { IsHonest (D.meaning driver.old) → Shows reader.old (D.meaning driver.old).shelf
        → (held : Held) → (D.meaning driver.old).shelf.volume reader.old.name ≡ Some held
        → size ≡ length held.bytes
        → IfOk result (λ fits. IsTrue fits ↔ Fits note start_time held.bytes found.now.label) }
    ensures shows { IsHonest (D.meaning driver.old) → Shows reader.old (D.meaning driver.old).shelf
        → Shows reader.new (D.meaning driver.new).shelf }
    ensures not_there { IsHonest (D.meaning driver.old) → IsErrOf result DriverFault.NotThere
        → (D.meaning driver.old).shelf.volume reader.old.name ≡ None }
{
    if !may_fit(found, size, start_time, note) {
        return Ok(false);
    }
    ends_with_block(driver, reader, size, start_time, note)
}

// Whether the note may fit, as far as its numbers tell.
fn may_fit(found: &Labelled, size: u64, start_time: u32, note: Note) -> bool
    requires { found.now.first ≡ length (label_block found.now.label) }
    ensures { IsTrue result ↔ MayFit note start_time found.now.label size }
{
    note.moment == found.label.moment
        && note.time < start_time
        && found.first <= note.last
        && note.last <= size
        && note.next_number >= 1
        && note.next_number as u64 * LEAST_BLOCK as u64 <= note.end
}

// Whether the noted last block is there, and ends where the note says.
fn ends_with_block<D: Driver>(
    driver: &mut D,
    reader: &mut VolumeReader,
    size: u64,
    start_time: u32,
    note: Note,
) -> Result<bool, DriverFault>
    requires last { note.last ≤ size }
    requires number { 1 ≤ note.next_number }
    ensures name { reader.new.name ≡ reader.old.name }
    ensures device { OnlyReads (IsErrOf result DriverFault.Device)
        (D.meaning driver.old) (D.meaning driver.new) }
    ensures faults { IfErr result
        (λ fault. (fault ≢ DriverFault.Exists) × (fault ≢ DriverFault.NoRoom)) }
    ensures within { IfOk result
        (λ ends. IsTrue ends → (note.end ≤ size) × (note.last ≤ note.end)) }

    ensures ends { IsHonest (D.meaning driver.old) → Shows reader.old (D.meaning driver.old).shelf
        → (held : Held) → (D.meaning driver.old).shelf.volume reader.old.name ≡ Some held
        → size ≡ length held.bytes → IfOk result (λ ends. IsTrue ends
        ↔ EndsWithBlock start_time held.bytes note.last note.end note.next_number) }
    ensures shows { IsHonest (D.meaning driver.old) → Shows reader.old (D.meaning driver.old).shelf
        → Shows reader.new (D.meaning driver.new).shelf }
    ensures not_there { IsHonest (D.meaning driver.old) → IsErrOf result DriverFault.NotThere
        → (D.meaning driver.old).shelf.volume reader.old.name ≡ None }
{
    let number = note.next_number as u64 - 1;
    let Some(head) = numbered_block(driver, reader, note.last, number, size)? else {
        return Ok(false);
    };
    Ok(is_last(head, start_time, note))
}

// Whether a block of an earlier run that begins at the noted last place ends where the note says.
fn is_last(head: Head, start_time: u32, note: Note) -> bool
    requires { note.last + head.size < 2 ^ 64 }
    ensures { IsTrue result ↔ ((head.key.time < start_time) × (note.last + head.size ≡ note.end)) }
{
    head.key.time < start_time && note.last + head.size as u64 == note.end
}
