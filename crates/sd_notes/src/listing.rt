// The volumes of a folder, and the notes.
ghost use Rattle.std.specs.Prelude.{IfOk, IfSome, IfNone};
ghost use Rattle.sd_base.specs.Name.{IsName};
ghost use Rattle.sd_notes.specs.Named.{IsNamed, NamesNothing};
ghost use Rattle.sd_notes.specs.Order.{InOrder};
ghost use Rattle.sd_notes.specs.Place.{MayHaveNote, note_name};

use crate::order::in_order;
use crate::path::{folder_or_dot, may_have_note};
use sd_base::{BadName, VolName};
use std::alloc::Global;
use std::fs::{self, DirEntry, Files};
use std::io::{self, ErrorKind};

/// What a folder has. Both lists are in the order of names, numbers in them as numbers: Vol-2 comes before Vol-10.
#[derive(Drop)]
pub struct Listing {
    /// The regular files whose names a volume may have.
    pub volumes: Vec<VolName>,
    /// The volumes whose notes are regular files, be they there or not.
    pub notes: Vec<VolName>,
}

/// What a file's name says that it is.
#[derive(Drop)]
enum Named {
    Volume(VolName),
    Note(VolName),
}

/// The volumes and notes of this folder. Folders, links and other files are passed over, also what is gone when it is
/// looked at.
pub fn list_folder<R: Files + Clone + Drop>(
    rt: &R,
    alloc: Global,
    folder: &str,
) -> io::Result<Listing>
    ensures volumes { IfOk result (λ listing. InOrder listing.volumes.items) }
    ensures notes { IfOk result (λ listing. InOrder listing.notes.items) }
{
    let host = (rt.clone()?, alloc);
    let mut volumes = Vec::new(alloc);
    let mut notes = Vec::new(alloc);
    for entry in fs::read_dir(&host, folder_or_dot(folder))? {
        match found(entry)? {
            Some(Named::Volume(name)) => volumes.push(name)?,
            Some(Named::Note(name)) => notes.push(name)?,
            None => {}
        }
    }
    Ok(Listing {
        volumes: in_order(volumes),
        notes: in_order(notes),
    })
}

// What an entry of a folder is, if that is a regular file and still there.
fn found<R: Files + Drop>(entry: io::Result<DirEntry<(R, Global)>>) -> io::Result<Option<Named>> {
    let entry = match entry {
        Ok(entry) => entry,
        // A name that is no text.
        Err(fault) if fault.kind() == ErrorKind::InvalidFilename => return Ok(None),
        Err(fault) => return Err(fault),
    };
    let Some(named) = named_by(entry.file_name()) else {
        return Ok(None);
    };
    match entry.file_type() {
        Ok(kind) => Ok(kind.is_file().then_some(named)),
        Err(fault) if fault.kind() == ErrorKind::NotFound => Ok(None),
        Err(fault) => Err(fault),
    }
}

// What a file of this name is.
fn named_by(text: &str) -> Option<Named>
    ensures some { IfSome result (IsNamed text.now) }
    ensures none { IfNone result (NamesNothing text.now) }
{
    match text.strip_suffix('~') {
        Some(volume) => note_of(volume),
        None => match VolName::parse(text) {
            Ok(name) => Some(Named::Volume(name)),
            Err(BadName) => None,
        },
    }
}

// The note of a volume of this name.
fn note_of(volume: &str) -> Option<Named>
    ensures some { IfSome result (IsNamed (note_name volume.now)) }
    ensures none { IfNone result (IsName volume.now → MayHaveNote volume.now → ⊥) }
{
    match VolName::parse(volume) {
        Ok(name) if may_have_note(&name) => Some(Named::Note(name)),
        _ => None,
    }
}
