// A note that is read.
ghost use Rattle.std.specs.Prelude.{◌≡◌, IfOk, IfSome, take};
ghost use Rattle.sd_notes.specs.Place.{MayHaveNote};
ghost use Rattle.sd_notes.specs.Reading.{IsReadOf};

use crate::path::{may_have_note, note_path};
use sd_base::VolName;
use sd_note::{NOTE_LENGTH, Note, NoteFault, read_note};
use std::alloc::{AllocError, Global};
use std::fs::{Files, OpenOptions};
use std::io::{self, ErrorKind, Read};

/// One byte more than a note has: a longer file is read no further.
const MOST_READ: u64 = NOTE_LENGTH as u64 + 1;

/// What is there of a volume's note.
#[derive(Clone, Copy, Debug, PartialEq, Eq)]
pub enum NoteRead {
    /// No file has its name.
    None,
    /// It says this.
    Note(Note),
    /// It is of another form, as a later daemon writes it.
    OtherForm,
    /// Its bytes are none.
    Damaged,
    /// It can't be read, or what has its name is no regular file.
    Unreadable,
}

/// Reads the note of a volume of this folder, at most 49 bytes of it. Follows no link at the end of its path. A volume whose
/// name begins with a dot has none.
pub fn load_note<R: Files>(
    rt: &R,
    alloc: Global,
    folder: &str,
    name: &VolName,
) -> Result<NoteRead, AllocError>
    ensures dot { ¬ MayHaveNote name.now → result ≡ Ok NoteRead.None }
{
    if !may_have_note(name) {
        return Ok(NoteRead::None);
    }
    let path = note_path(alloc, folder, name)?;
    let opened = sd_file::open_there(rt, path.as_str(), OpenOptions::new().read(true));
    let read = match opened {
        Ok(file) => note_in(alloc, file),
        Err(fault) => Err(fault),
    };
    match read {
        Ok(read) => Ok(read),
        Err(fault) if fault.kind() == ErrorKind::OutOfMemory => Err(AllocError),
        Err(fault) if fault.kind() == ErrorKind::NotFound => Ok(NoteRead::None),
        Err(_) => Ok(NoteRead::Unreadable),
    }
}

// What a file says that is read from its front on.
fn note_in<F: Read + Drop>(alloc: Global, file: F) -> io::Result<NoteRead>
    ensures { IfSome (F.remaining file) (λ bytes. IfOk result (IsReadOf (take 49 bytes))) }
{
    let mut bytes = Vec::new(alloc);
    file.take(MOST_READ).read_to_end(&mut bytes)?;
    Ok(note_of(&bytes))
}

// What bytes say.
fn note_of(bytes: &[u8]) -> NoteRead
    ensures { IsReadOf bytes.now result }
{
    match read_note(bytes) {
        Ok(note) => NoteRead::Note(note),
        Err(NoteFault::OtherForm) => NoteRead::OtherForm,
        Err(NoteFault::Damaged) => NoteRead::Damaged,
    }
}
