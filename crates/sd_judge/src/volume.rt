// What a volume is, before it is adopted.
ghost use Rattle.std.specs.Prelude.{◌≡◌, ◌≢◌, ◌<◌, ◌≤◌, length, IfOk, IfErr, IfSome, IfNone, OnOk, IsErrOf, MatchOption, None, Some};
ghost use Rattle.sd_base.specs.Limits.{most_volume};
ghost use Rattle.sd_driver.specs.Meaning.{IsHonest};
ghost use Rattle.sd_driver.specs.Shelf.{Held};
ghost use Rattle.sd_judge.specs.Judge.{CountsFor, IsJudged, Judges, JudgesUnlabelled, JudgesLabelled, NoneCounts};
ghost use Rattle.sd_judge.specs.Reading.{IsAt};
ghost use Rattle.sd_judge.specs.declared.volume.Judgement.{Judgement as SpecJudgement};
ghost use Rattle.sd_label.specs.Label.{IsVolumeLabel};
ghost use Rattle.sd_label.specs.declared.label.VolumeLabel.{VolumeLabel as SpecLabel};
ghost use Rattle.sd_volume.specs.Adopt.{IsLabelled};
ghost use Rattle.sd_volume.specs.Device.{OnlyReads};
ghost use Rattle.sd_volume.specs.Image.{label_block};
ghost use Rattle.sd_volume.specs.Reader.{Shows};

use crate::alone::judge_alone;
use crate::fault::JudgeFault;
use crate::noted::judge_noted;
use sd_base::{MOST_VOLUME, VolName};
use sd_driver::{Driver, DriverFault};
use sd_label::VolumeLabel;
use sd_note::Note;
use sd_notes::NoteRead;
use sd_volume::{Labelled, VolumeReader, read_label};
use std::alloc::Global;

/// What a volume is.
#[derive(Clone, Copy, Debug, PartialEq, Eq)]
pub enum Judgement {
    /// No note counts for it, and behind its blocks no other of its own was found. It may be adopted by reading all of it.
    Whole,
    /// This note counts for it, and its last block stands where the note says. It may be adopted by that.
    Noted(Note),
    /// It is damaged at this place. An adoption would cut what is behind.
    Damaged { at: u64 },
    /// No label of its name begins it, or it is longer than a volume may be; and no note is there.
    NotOurs,
    /// No volume has this name.
    NotThere,
}

/// A volume that was judged, and its label, if one of its name begins it.
#[derive(Drop)]
pub struct Judged {
    pub label: Option<VolumeLabel>,
    pub judgement: Judgement,
}

/// Judges the volume of that name by what was read of its note, which counts if it has the moment of the volume's label.
///
/// If it counts, the label, the noted last block and, if a sync failed, what comes after it are read; else the volume to
/// its end. Holds one buffer of a block's greatest length.
pub fn judge<D: Driver>(
    alloc: Global,
    driver: &mut D,
    name: &VolName,
    note: NoteRead,
) -> Result<Judged, JudgeFault>
    ensures device { OnlyReads (IsErrOf result JudgeFault.Device)
        (D.meaning driver.old) (D.meaning driver.new) }
    ensures not_there { IsHonest (D.meaning driver.old)
        → (D.meaning driver.old).shelf.volume name.now ≡ None
        → IfOk result (λ judged. judged.judgement ≡ Judgement.NotThere) }
    ensures label { IsHonest (D.meaning driver.old)
        → (held : Held) → (D.meaning driver.old).shelf.volume name.now ≡ Some held
        → IfOk result (λ judged. MatchOption judged.label
        ((label : SpecLabel) → ¬ IsLabelled name.now held.bytes label)
        (IsLabelled name.now held.bytes)) }
    ensures judges { IsHonest (D.meaning driver.old)
        → (held : Held) → (D.meaning driver.old).shelf.volume name.now ≡ Some held
        → IfOk result (λ judged. Judges name.now note held.bytes judged.judgement) }
    ensures exactly { IsHonest (D.meaning driver.old)
        → (held : Held) → (D.meaning driver.old).shelf.volume name.now ≡ Some held
        → (judgement : SpecJudgement) → Judges name.now note held.bytes judgement
        → IfOk result (λ judged. judged.judgement ≡ judgement) }
{
    let mut reader = VolumeReader::new(alloc, name)?;
    match judge_there(driver, &mut reader, name, note) {
        Ok(judged) => Ok(judged),
        Err(DriverFault::NotThere) => judge_gone(driver, name),
        Err(DriverFault::Memory) => Err(JudgeFault::Memory),
        Err(DriverFault::Device | DriverFault::Exists | DriverFault::NoRoom) => {
            Err(JudgeFault::Device)
        }
    }
}

// Judges a volume that was told not to be there. If it is there now, it may be judged again.
fn judge_gone<D: Driver>(driver: &mut D, name: &VolName) -> Result<Judged, JudgeFault>
    ensures device { OnlyReads (IsErrOf result JudgeFault.Device)
        (D.meaning driver.old) (D.meaning driver.new) }
    ensures gone { IfOk result (λ judged. judged.judgement ≡ Judgement.NotThere) }
    ensures not_there { IsHonest (D.meaning driver.old)
        → OnOk result ((D.meaning driver.old).shelf.volume name.now ≡ None) }
{
    match driver.len(name) {
        Err(DriverFault::NotThere) => Ok(Judged {
            label: None,
            judgement: Judgement::NotThere,
        }),
        Ok(_) | Err(DriverFault::Memory) => Err(JudgeFault::Memory),
        Err(DriverFault::Device | DriverFault::Exists | DriverFault::NoRoom) => {
            Err(JudgeFault::Device)
        }
    }
}

// Judges the volume under the reader's name, which has that name.
fn judge_there<D: Driver>(
    driver: &mut D,
    reader: &mut VolumeReader,
    name: &VolName,
    note: NoteRead,
) -> Result<Judged, DriverFault>
    requires { reader.old.name ≡ name.now }
    ensures device { OnlyReads (IsErrOf result DriverFault.Device)
        (D.meaning driver.old) (D.meaning driver.new) }
    ensures faults { IfErr result
        (λ fault. (fault ≢ DriverFault.Exists) × (fault ≢ DriverFault.NoRoom)) }
    ensures judged { IsHonest (D.meaning driver.old) → Shows reader.old (D.meaning driver.old).shelf
        → IfOk result (IsJudged name.now note (D.meaning driver.old).shelf) }
{
    let size = driver.len(name)?;
    let Some(found) = read_label(driver, reader, name, size)? else {
        return Ok(Judged {
            label: None,
            judgement: unlabelled(note),
        });
    };
    let judgement = judge_labelled(driver, reader, &found, note, size)?;
    Ok(Judged {
        label: Some(found.label),
        judgement,
    })
}

// Judges a volume of that size that begins with that label, which has that name.
fn judge_labelled<D: Driver>(
    driver: &mut D,
    reader: &mut VolumeReader,
    found: &Labelled,
    note: NoteRead,
    size: u64,
) -> Result<Judgement, DriverFault>
    requires label { IsVolumeLabel found.now.label }
    requires within { found.now.first ≤ size }
    requires first { found.now.first ≡ length (label_block found.now.label) }
    ensures device { OnlyReads (IsErrOf result DriverFault.Device)
        (D.meaning driver.old) (D.meaning driver.new) }
    ensures faults { IfErr result
        (λ fault. (fault ≢ DriverFault.Exists) × (fault ≢ DriverFault.NoRoom)) }
    ensures too_long { most_volume < size → IfOk result (JudgesUnlabelled note) }
    ensures judges { size ≤ most_volume
        → (held : Held) → IsAt held reader.old (D.meaning driver.old)
        → size ≡ length held.bytes
        → IfOk result (JudgesLabelled note held.bytes found.now.label) }
{
    if size > MOST_VOLUME {
        return Ok(unlabelled(note));
    }
    match counting(note, found.label.moment) {
        Some(note) => judge_noted(driver, reader, note, size),
        None => judge_alone(driver, reader, found.first, size),
    }
}

// The note that was read, if it has that moment.
fn counting(note: NoteRead, moment: i64) -> Option<Note>
    ensures some { IfSome result (CountsFor note moment) }
    ensures none { IfNone result (NoneCounts note moment) }
{
    match note {
        NoteRead::Note(note) if note.moment == moment => Some(note),
        _ => None,
    }
}

// What a file is that no label of a volume begins: a note tells that one did.
fn unlabelled(note: NoteRead) -> Judgement
    ensures { JudgesUnlabelled note result }
{
    match note {
        NoteRead::Note(_) => Judgement::Damaged { at: 0 },
        _ => Judgement::NotOurs,
    }
}
