// Which drive a volume is for, and what becomes of it at the start.
ghost use Rattle.std.specs.Prelude.{◌≡◌, is_some, unwrap_or};
ghost use Rattle.sd_daemon.specs.Plan.{first_for, is_asked, is_planned, place_for, planned_takeover};

use crate::judging::{FoundFolder, FoundVolume, has_name};
use crate::run::Run;
use crate::takeover::{Takeover, asked_takeover, takeover_of, takes_name};
use sd_base::{MediaName, Refusal, VolName};
use sd_conf::DriveConf;
use sd_note::Note;
use sd_notes::NoteRead;
use sd_serve::{LogLine, ShownPath, UnheededNote};
use std::alloc::AllocError;
use std::io::Write;
use std::sync::Wait;
use std::time::Clock;

/// What becomes of a volume.
#[derive(Drop)]
pub(crate) struct Planned {
    /// The place of its drive.
    pub(crate) drive: usize,
    pub(crate) name: VolName,
    /// The moment of its label, if a label of its name begins it.
    pub(crate) moment: Option<i64>,
    /// How many bytes it has.
    pub(crate) size: u64,
    /// What its note says.
    pub(crate) note: Option<Note>,
    pub(crate) takeover: Takeover,
}

/// What becomes of the volumes of all folders, in the order of drives and names; nothing, if none is to be adopted.
#[derive(Drop)]
pub(crate) struct Plan {
    pub(crate) volumes: Vec<Planned>,
    /// How many volumes are missing in the folders of the drives 1, 2 and on.
    pub(crate) missing: Vec<u64>,
}

/// What becomes of the volumes of these folders. The log is told of each that isn't adopted.
pub(crate) fn plan_all<W: Wait + Clock, L: Write>(
    run: &Run<'_, W, L>,
    folders: Vec<FoundFolder>,
) -> Result<Plan, AllocError> {
    let alloc = run.rt.alloc();
    let mut plan = Plan {
        volumes: Vec::new(alloc),
        missing: Vec::with_capacity(alloc, folders.len())?,
    };
    let mut at = 0_usize;
    for folder in folders {
        let missing = plan_folder(run, &mut plan.volumes, at, folder)?;
        plan.missing.push(missing)?;
        at = at.saturating_add(1);
    }
    tell_undamaged(run, &plan.volumes);
    Ok(plan)
}

// Plans the volumes of a folder, whose first drive is at this place. How many are missing.
fn plan_folder<W: Wait + Clock, L: Write>(
    run: &Run<'_, W, L>,
    planned: &mut Vec<Planned>,
    at: usize,
    folder: FoundFolder,
) -> Result<u64, AllocError> {
    match folder {
        FoundFolder::OfEarlier => Ok(0),
        FoundFolder::Unlisted => {
            tell_unlisted(run, at);
            Ok(0)
        }
        FoundFolder::Listed { volumes, missing } => {
            tell_missing(run, at, &missing);
            plan_volumes(run, planned, at, volumes)?;
            Ok(missing.len() as u64)
        }
    }
}

// Plans these volumes of a folder, one after another.
fn plan_volumes<W: Wait + Clock, L: Write>(
    run: &Run<'_, W, L>,
    planned: &mut Vec<Planned>,
    at: usize,
    volumes: Vec<FoundVolume>,
) -> Result<(), AllocError> {
    for volume in volumes {
        let next = plan_volume(run, planned, at, volume);
        tell_planned(run, &next);
        planned.push(next)?;
    }
    Ok(())
}

// What becomes of a volume, beside those that were planned before.
fn plan_volume<W: Wait + Clock, L: Write>(
    run: &Run<'_, W, L>,
    planned: &[Planned],
    at: usize,
    volume: FoundVolume,
) -> Planned
    ensures name { result.name ≡ volume.name }
    ensures size { result.size ≡ volume.size }
    ensures drive { result.drive ≡ unwrap_or (place_for run.now.conf.now.drives at volume.media) at }
    ensures takeover { result.takeover ≡ planned_takeover planned.now run.now.bounds.adopt_damaged.now
        volume (is_some (place_for run.now.conf.now.drives at volume.media)) }
{
    let place = place_for(run.conf.drives.as_slice(), at, &volume.media);
    let has_drive = place.is_some();
    let drive = place.unwrap_or(at);
    tell_note(run, drive, &volume);
    let takeover = planned_takeover(planned, run.bounds.adopt_damaged, &volume, has_drive);
    Planned {
        drive,
        name: volume.name,
        moment: volume.moment,
        size: volume.size,
        note: said_in(volume.note),
        takeover,
    }
}

// What a note says, if it says anything.
fn said_in(read: NoteRead) -> Option<Note> {
    match read {
        NoteRead::Note(note) => Some(note),
        _ => None,
    }
}

// What becomes of a volume that has a drive of its media or none, beside those that were planned before.
fn planned_takeover(
    planned: &[Planned],
    asked: &[VolName],
    volume: &FoundVolume,
    has_drive: bool,
) -> Takeover
    ensures { result ≡ planned_takeover planned.now asked.now volume.now has_drive }
{
    let takeover = takeover_of(volume.judgement);
    if is_planned(planned, &volume.name) {
        Takeover::Refused(Refusal::AlreadyLabelled)
    } else if !has_drive && takes_name(takeover) {
        Takeover::Refused(Refusal::OtherPoolOrMedia)
    } else if has_name(asked, &volume.name) {
        asked_takeover(takeover)
    } else {
        takeover
    }
}

// The place of the drive that a volume is for which is in the folder of the drive at that place: the first drive of the label's
// media that has this folder. If no label is known, the one at that place.
fn place_for(drives: &[DriveConf], at: usize, media: &Option<MediaName>) -> Option<usize>
    ensures { result ≡ place_for drives.now at media.now }
{
    match (media, drives.get(at)) {
        (Some(media), Some(here)) => first_for(drives, here.folder.as_str(), media),
        (Some(_), None) => None,
        (None, _) => Some(at),
    }
}

// The place of the first drive with this folder and of this media.
fn first_for(drives: &[DriveConf], folder: &str, media: &MediaName) -> Option<usize>
    ensures { result ≡ first_for drives.now folder.now media.now }
{
    drives.iter().position(|drive| drive.folder.as_str() == folder && drive.media.is_same(media))
}

// Whether a volume of this name has its drive already.
fn is_planned(planned: &[Planned], name: &VolName) -> bool
    ensures { result ≡ is_planned planned.now name.now }
{
    planned
        .iter()
        .any(|one| takes_name(one.takeover) && one.name.is_same(name))
}

// The number of the drive at a place.
pub(crate) fn number_at(at: usize) -> u32 {
    match u32::try_from(at) {
        Ok(at) => at.saturating_add(1),
        Err(_) => u32::MAX,
    }
}

fn tell_unlisted<W: Wait + Clock, L: Write>(run: &Run<'_, W, L>, at: usize) {
    let Some(drive) = run.conf.drives.as_slice().get(at) else {
        return;
    };
    let folder = ShownPath(drive.folder.as_str());
    let drive = number_at(at);
    run.log.line(&run.wait, LogLine::Unlisted { drive, folder });
}

fn tell_missing<W: Wait + Clock, L: Write>(run: &Run<'_, W, L>, at: usize, missing: &[VolName]) {
    let drive = number_at(at);
    for volume in missing {
        run.log.line(&run.wait, LogLine::Missing { drive, volume });
    }
}

// Tells of a note that isn't heeded.
fn tell_note<W: Wait + Clock, L: Write>(run: &Run<'_, W, L>, at: usize, volume: &FoundVolume) {
    let why = match volume.note {
        NoteRead::None | NoteRead::Note(_) => return,
        NoteRead::OtherForm => UnheededNote::OtherForm,
        NoteRead::Damaged => UnheededNote::Damaged,
        NoteRead::Unreadable => UnheededNote::Unreadable,
    };
    let drive = number_at(at);
    let volume = &volume.name;
    run.log
        .line(&run.wait, LogLine::Unheeded { drive, volume, why });
}

// Tells of a volume that isn't adopted.
fn tell_planned<W: Wait + Clock, L: Write>(run: &Run<'_, W, L>, planned: &Planned) {
    let drive = number_at(planned.drive);
    let volume = &planned.name;
    let line = match planned.takeover {
        Takeover::ByNote(_) | Takeover::Whole | Takeover::AsAsked => return,
        Takeover::Damaged { at } => LogLine::Damaged { drive, volume, at },
        Takeover::Torn { at } => LogLine::Torn { drive, volume, at },
        Takeover::Refused(refusal) => LogLine::NotAdopted {
            drive,
            volume,
            refusal,
        },
    };
    run.log.line(&run.wait, line);
}

// Tells of each name by which a damaged volume is to be adopted, and that none has.
fn tell_undamaged<W: Wait + Clock, L: Write>(run: &Run<'_, W, L>, planned: &[Planned]) {
    for volume in run.bounds.adopt_damaged {
        if !is_asked(planned, volume) {
            run.log.line(&run.wait, LogLine::NoneDamaged { volume });
        }
    }
}

// Whether a volume of this name is adopted though it is damaged.
fn is_asked(planned: &[Planned], name: &VolName) -> bool
    ensures { result ≡ is_asked planned.now name.now }
{
    planned.iter().any(|one| one.takeover == Takeover::AsAsked && one.name.is_same(name))
}
