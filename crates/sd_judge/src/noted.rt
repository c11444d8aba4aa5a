// A volume whose note counts.
ghost use Rattle.std.specs.Prelude.{◌≡◌, ◌≢◌, ◌↔◌, ◌≤◌, ℕ, List, length, IfOk, IfErr, IsErrOf, IsTrue, None};
ghost use Rattle.sd_driver.specs.Shelf.{Held};
ghost use Rattle.sd_judge.specs.Noted.{JudgesNoted, StandsLast};
ghost use Rattle.sd_judge.specs.Reading.{IsAt};
ghost use Rattle.sd_volume.specs.Device.{OnlyReads};

use crate::run::end_of_run;
use crate::volume::Judgement;
use sd_driver::{Driver, DriverFault};
use sd_note::Note;
use sd_volume::{VolumeReader, numbered_block};

/// What a volume of that size is, by its note.
pub(crate) fn judge_noted<D: Driver>(
    driver: &mut D,
    reader: &mut VolumeReader,
    note: Note,
    size: u64,
) -> Result<Judgement, DriverFault>
    ensures device { OnlyReads (IsErrOf result DriverFault.Device)
        (D.meaning driver.old) (D.meaning driver.new) }
    ensures faults { IfErr result
        (λ fault. (fault ≢ DriverFault.Exists) × (fault ≢ DriverFault.NoRoom)) }
    ensures judges { (held : Held) → IsAt held reader.old (D.meaning driver.old)
        → size ≡ length held.bytes → IfOk result (JudgesNoted held.bytes note) }
{
    if size < note.end {
        return Ok(Judgement::Damaged { at: size });
    }
    if !stands_last(driver, reader, note, size)? {
        return Ok(Judgement::Damaged { at: note.last });
    }
    judge_torn(driver, reader, note, size)
}

// What a volume is whose last noted block stands.
fn judge_torn<D: Driver>(
    driver: &mut D,
    reader: &mut VolumeReader,
    note: Note,
    size: u64,
) -> Result<Judgement, DriverFault>
    requires { note.end ≤ size }
    ensures device { OnlyReads (IsErrOf result DriverFault.Device)
        (D.meaning driver.old) (D.meaning driver.new) }
    ensures faults { IfErr result
        (λ fault. (fault ≢ DriverFault.Exists) × (fault ≢ DriverFault.NoRoom)) }
    ensures judges { (held : Held) → IsAt held reader.old (D.meaning driver.old)
        → size ≡ length held.bytes → StandsLast held.bytes note → IfOk result (JudgesNoted held.bytes note) }
{
    let Some(torn) = note.torn else {
        return Ok(Judgement::Noted(note));
    };
    let run = end_of_run(driver, reader, note.end, note.next_number as u64, size)?;
    if run.end > torn {
        Ok(Judgement::Damaged { at: torn })
    } else {
        Ok(Judgement::Noted(note))
    }
}

// Whether a whole block with the number before the next one begins at the note's last place, and ends at its end. If the
// last place is 0 that is the label's block.
fn stands_last<D: Driver>(
    driver: &mut D,
    reader: &mut VolumeReader,
    note: Note,
    size: u64,
) -> Result<bool, DriverFault>
    requires { note.end ≤ size }
    ensures name { reader.new.name ≡ reader.old.name }
    ensures device { OnlyReads (IsErrOf result DriverFault.Device)
        (D.meaning driver.old) (D.meaning driver.new) }
    ensures faults { IfErr result
        (λ fault. (fault ≢ DriverFault.Exists) × (fault ≢ DriverFault.NoRoom)) }

    ensures at { (held : Held) → IsAt held reader.old (D.meaning driver.old)
        → IsAt held reader.new (D.meaning driver.new) }
    ensures stands { (held : Held) → IsAt held reader.old (D.meaning driver.old)
        → size ≡ length held.bytes
        → IfOk result (λ stands. IsTrue stands ↔ StandsLast held.bytes note) }
{
    if note.last >= note.end || note.next_number == 0 {
        return Ok(false);
    }
    let number = note.next_number as u64 - 1;
    let Some(head) = numbered_block(driver, reader, note.last, number, size)? else {
        return Ok(false);
    };
    Ok(note.end - note.last == head.size as u64)
}
