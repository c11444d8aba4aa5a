// Where the note of a volume lies.
ghost use Rattle.std.specs.Prelude.{◌≡◌, ◌↔◌, IfOk, IsTrue, string_bytes};
ghost use Rattle.sd_folder.specs.Place.{IsFileIn, folder_named};
ghost use Rattle.sd_notes.specs.Place.{MayHaveNote, note_name, new_name};

use sd_base::VolName;
use std::alloc::{AllocError, Global};

/// Whether a volume of this name has a note. None has one whose name begins with a dot, since other files of the daemon
/// and its tools, as `.lock~`, have the name that its note would have.
pub(crate) fn may_have_note(name: &VolName) -> bool
    ensures { IsTrue result ↔ MayHaveNote name.now }
{
    !name.as_str().starts_with('.')
}

/// The path of the note of the volume of that name in a folder.
pub(crate) fn note_path(alloc: Global, folder: &str, name: &VolName) -> Result<String, AllocError>
    ensures { IfOk result (λ path.
        IsFileIn (folder_named folder.now) (note_name name.now) (string_bytes path)) }
{
    let folder = folder_or_dot(folder);
    let name = name.as_str();
    format!(in alloc; "{folder}/{name}~")
}

/// The path at which a new note of that volume is written, before it takes the old one's place.
pub(crate) fn new_note_path(
    alloc: Global,
    folder: &str,
    name: &VolName,
) -> Result<String, AllocError>
    ensures { IfOk result (λ path.
        IsFileIn (folder_named folder.now) (new_name name.now) (string_bytes path)) }
{
    let folder = folder_or_dot(folder);
    let name = name.as_str();
    format!(in alloc; "{folder}/{name}~~")
}

/// The folder as the system takes it: the current one if the text is empty.
pub(crate) fn folder_or_dot(folder: &str) -> &str
    ensures { result.now ≡ folder_named folder.now }
{
    if folder.is_empty() { "." } else { folder }
}
