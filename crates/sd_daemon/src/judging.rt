// What the folders of a configuration have, before anything in them is changed.
ghost use Rattle.std.specs.Prelude.{◌≡◌, take};
ghost use Rattle.sd_daemon.specs.Plan.{has_folder, has_name};

use sd_base::{MediaName, VolName};
use sd_conf::{Conf, DriveConf};
use sd_driver::Driver;
use sd_filedrive::FileDrive;
use sd_judge::{JudgeFault, Judgement, judge};
use sd_notes::{Listing, NoteRead, list_folder, load_note};
use std::alloc::{AllocError, Global};
use std::io::ErrorKind;
use std::thread;
use std::thread::Threads;

/// A volume in a folder.
#[derive(Drop)]
pub(crate) struct FoundVolume {
    pub(crate) name: VolName,
    /// The media and the moment of its label, if a label of its name begins it.
    pub(crate) media: Option<MediaName>,
    pub(crate) moment: Option<i64>,
    /// How many bytes it has.
    pub(crate) size: u64,
    pub(crate) note: NoteRead,
    /// What it is. None if the device failed.
    pub(crate) judgement: Option<Judgement>,
}

/// What the folder of a drive has.
#[derive(Drop)]
pub(crate) enum FoundFolder {
    /// An earlier drive has the same folder.
    OfEarlier,
    /// It can't be listed.
    Unlisted,
    /// These volumes, in their order; and these are missing, of which notes are there.
    Listed {
        volumes: Vec<FoundVolume>,
        missing: Vec<VolName>,
    },
}

/// What the folders of the drives 1, 2 and on have. All of them are read at once.
pub(crate) fn judge_folders<W: Threads + Sync>(
    rt: &HostRuntime,
    wait: &W,
    conf: &Conf,
) -> Result<Vec<FoundFolder>, AllocError> {
    let drives = conf.drives.as_slice();
    let judged = thread::map_indices(
        wait,
        rt.alloc(),
        drives.len(),
        &|at| { judge_folder_at(rt, drives, at) },
    )?;
    let mut folders = Vec::with_capacity(rt.alloc(), drives.len())?;
    for folder in judged {
        folders.push(folder?)?;
    }
    Ok(folders)
}

// What the folder of the drive at this place has.
fn judge_folder_at(
    rt: &HostRuntime,
    drives: &[DriveConf],
    at: usize,
) -> Result<FoundFolder, AllocError> {
    let Some(drive) = drives.get(at) else {
        return Ok(FoundFolder::OfEarlier);
    };
    let folder = drive.folder.as_str();
    if is_of_earlier(drives, at, folder) {
        return Ok(FoundFolder::OfEarlier);
    }
    judge_folder(rt, folder)
}

// Whether a drive before this place has the folder.
fn is_of_earlier(drives: &[DriveConf], at: usize, folder: &str) -> bool
    ensures { result ≡ has_folder (take at drives.now) folder.now }
{
    has_folder(&drives[..at.min(drives.len())], folder)
}

// Whether one of these drives has the folder.
fn has_folder(drives: &[DriveConf], folder: &str) -> bool
    ensures { result ≡ has_folder drives.now folder.now }
{
    drives.iter().any(|drive| drive.folder.as_str() == folder)
}

// What a folder has.
fn judge_folder(rt: &HostRuntime, folder: &str) -> Result<FoundFolder, AllocError> {
    let alloc = rt.alloc();
    let listing = match list_folder(rt, alloc, folder) {
        Ok(listing) => listing,
        Err(fault) if fault.kind() == ErrorKind::OutOfMemory => return Err(AllocError),
        Err(_) => return Ok(FoundFolder::Unlisted),
    };
    let missing = missing_in(alloc, &listing)?;
    let volumes = judge_volumes(rt, folder, listing.volumes)?;
    Ok(FoundFolder::Listed { volumes, missing })
}

// The volumes of which notes are there, and that aren't.
fn missing_in(alloc: Global, listing: &Listing) -> Result<Vec<VolName>, AllocError> {
    let mut missing = Vec::new(alloc);
    for name in listing.notes.iter() {
        if !has_name(&listing.volumes, name) {
            missing.push(name.copy())?;
        }
    }
    Ok(missing)
}

/// Whether a name is among these.
pub(crate) fn has_name(names: &[VolName], name: &VolName) -> bool
    ensures { result ≡ has_name names.now name.now }
{
    names.iter().any(|one| one.is_same(name))
}

// What these volumes of a folder are.
fn judge_volumes(
    rt: &HostRuntime,
    folder: &str,
    names: Vec<VolName>,
) -> Result<Vec<FoundVolume>, AllocError> {
    let alloc = rt.alloc();
    let mut device = FileDrive::new(rt.clone()?, alloc, folder)?;
    let mut volumes = Vec::with_capacity(alloc, names.len())?;
    for name in names {
        volumes.push(judge_volume(rt, &mut device, folder, name)?)?;
    }
    Ok(volumes)
}

// What a volume of a folder is, by its note if that counts.
fn judge_volume(
    rt: &HostRuntime,
    device: &mut FileDrive<HostRuntime>,
    folder: &str,
    name: VolName,
) -> Result<FoundVolume, AllocError> {
    let alloc = rt.alloc();
    let note = load_note(rt, alloc, folder, &name)?;
    let size = device.len(&name).unwrap_or(0);
    let (label, judgement) = match judge(alloc, device, &name, note) {
        Ok(judged) => (judged.label, Some(judged.judgement)),
        Err(JudgeFault::Device) => (None, None),
        Err(JudgeFault::Memory) => return Err(AllocError),
    };
    let (media, moment) = match label {
        Some(label) => (Some(label.media), Some(label.moment)),
        None => (None, None),
    };
    Ok(FoundVolume {
        name,
        media,
        moment,
        size,
        note,
        judgement,
    })
}
