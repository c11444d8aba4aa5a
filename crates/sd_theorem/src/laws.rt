// The theorem of the daemon, in two laws; both drive by drive; what they ask of folders; and that they stand for starts by notes.
ghost use Rattle.sd_theorem.specs.Folders.{OverFolders};
ghost use Rattle.sd_theorem.specs.ByDrive.{HeadlineByDrive};
ghost use Rattle.sd_theorem.specs.Headline.{Headline};
ghost use Rattle.sd_theorem.specs.Noted.{NotedShelf, NotedStarts};
ghost use Rattle.sd_theorem.specs.Stops.{StopByDrive, StopTheorem};

use sd_folder::Folder;

/// The session theorem: whatever a world was asked, its replies and its sessions are those of a list machine; and while
/// devices return what was written, what it acknowledged is read back, once and in order.
pub fn headline<D, Q, S, Z>()
    ensures { Headline D Q S Z }
{}

/// The stop theorem: what was told to be closed comes back after any stop, also one inside a call.
pub fn stop_theorem<D, Q, S, Z>()
    ensures { StopTheorem D Q S Z }
{}

/// The session theorem drive by drive: a session is read back while its own drive's device and stores are honest, whatever the
/// others are. And each strike had its cause.
pub fn headline_by_drive<D, Q, S, Z>()
    ensures { HeadlineByDrive D Q S Z }
{}

/// The stop theorem drive by drive.
pub fn stop_by_drive<D, Q, S, Z>()
    ensures { StopByDrive D Q S Z }
{}

/// Over folders of files both theorems rest on these folders: if each one is honest that a world's devices and spools are over,
/// all is that the world was made of.
pub fn over_folders<F: Folder, Q, Z>()
    ensures { OverFolders (record {
      meaning = λ f. F.meaning f;
      name_of = λ h. F.name_of h;
    }) Q Z }
{}

/// What a note of bytes that last says is true of what any later stop leaves, so at the start of a daemon over that: there an
/// adoption by a note may ask it (`sd_lines::UnusedDrive::adopt`).
pub fn noted_shelf<D, Q, S, Z>()
    ensures { NotedShelf D Q S Z }
{}

/// Starts by notes: what a note of bytes that last says is true in each later run, whatever stops and runs come between; and
/// an adoption by a true note is a step of the event `Adopt` (`sd_core::World::adopt_noted`). So both theorems stand for
/// worlds that adopt by notes.
pub fn noted_starts<D, Q, S, Z>()
    ensures { NotedStarts D Q S Z }
{}
