// A note that is written, or removed.
ghost use Rattle.std.specs.Prelude.{◌↔◌, ◌≤◌, List, ℕ, IfSome, IsOk, IsTrue, OnOk};
ghost use Rattle.std.specs.Io.KnownBytes.{Appends};
ghost use Rattle.sd_base.specs.Limits.{most_volume};
ghost use Rattle.sd_note.specs.Note.{IsNote};
ghost use Rattle.sd_notes.specs.Place.{MayHaveNote};

use crate::path::{folder_or_dot, may_have_note, new_note_path, note_path};
use sd_base::{MOST_VOLUME, VolName};
use sd_note::{Note, note_bytes};
use std::alloc::Global;
use std::fs::{self, File, Files, OpenFile};
use std::io::{self, ErrorKind, Write};

/// Writes the note of a volume of this folder, in place of the one that is there: to a new file, which the disk is made
/// to have before it takes the old one's name, and then to have under that name. Whoever reads the note, also after a
/// stop, finds the old one or this one. After an error the note may be either, and no other file is left where that can
/// be helped.
///
/// A volume whose name begins with a dot has no note, and none is torn past the greatest length of a volume: that is
/// `InvalidInput`.
pub fn store_note<R: Files>(
    rt: &R,
    alloc: Global,
    folder: &str,
    name: &VolName,
    note: Note,
) -> io::Result<()>
    ensures may { OnOk result (MayHaveNote name.now) }
    ensures torn { OnOk result (IfSome note.torn (λ length. length ≤ most_volume)) }
{
    if !may_have_note(name) || !is_torn_within(note.torn) {
        return Err(ErrorKind::InvalidInput.into());
    }
    let path = note_path(alloc, folder, name)?;
    let new = new_note_path(alloc, folder, name)?;
    remove_if_there(rt, new.as_str())?;
    let mut file = sd_file::make(rt, new.as_str())?;
    let placed = place(rt, &mut file, new.as_str(), path.as_str(), note);
    if placed.is_err() {
        let _ = fs::remove_file(rt, new.as_str());
        return placed;
    }
    sync_folder(rt, folder)
}

/// Removes the note of a volume of this folder, and makes the disk have it so. `Ok` if there was none, as of a volume whose
/// name begins with a dot.
pub fn remove_note<R: Files>(rt: &R, alloc: Global, folder: &str, name: &VolName) -> io::Result<()>
    ensures dot { ¬ MayHaveNote name.now → IsOk result }
{
    if !may_have_note(name) {
        return Ok(());
    }
    let path = note_path(alloc, folder, name)?;
    if remove_if_there(rt, path.as_str())? {
        sync_folder(rt, folder)
    } else {
        Ok(())
    }
}

// Writes a note to a new file, which then takes another path.
fn place<R: Files>(rt: &R, file: &mut R::File, new: &str, path: &str, note: Note) -> io::Result<()>
    requires { IfSome note.torn (λ length. length ≤ most_volume) }
{
    write_note(file, note)?;
    file.sync_data()?;
    fs::rename(rt, new, path)
}

// Writes the bytes of a note.
fn write_note<F: Write>(file: &mut F, note: Note) -> io::Result<()>
    requires { IfSome note.torn (λ length. length ≤ most_volume) }
    ensures { OnOk result ((bytes : List ℕ)
        × IsNote bytes note × Appends (F.contents file.old) (F.contents file.new) bytes) }
{
    file.write_all(&note_bytes(note))
}

// Whether a note is torn nowhere past the greatest length of a volume.
fn is_torn_within(torn: Option<u64>) -> bool
    ensures { IsTrue result ↔ IfSome torn (λ length. length ≤ most_volume) }
{
    match torn {
        Some(length) => length <= MOST_VOLUME,
        None => true,
    }
}

// Removes what has this path, unless that is a folder. Whether there was anything.
fn remove_if_there<R: Files>(rt: &R, path: &str) -> io::Result<bool> {
    match fs::remove_file(rt, path) {
        Ok(()) => Ok(true),
        Err(fault) if fault.kind() == ErrorKind::NotFound => Ok(false),
        Err(fault) => Err(fault),
    }
}

// Makes the disk have the names in a folder.
fn sync_folder<R: Files>(rt: &R, folder: &str) -> io::Result<()> {
    File::open(rt, folder_or_dot(folder))?.sync_all()
}
