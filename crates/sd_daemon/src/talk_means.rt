// What a talk waits by, and what it reaches the notes of volumes by.
use sd_base::{DriveNo, Refusal, VolName};
use sd_conf::Conf;
use sd_lines::{Notes, Taken};
use sd_notes::{NoteRead, load_note, remove_note, store_note};
use sd_serve::ClientPatience;
use sd_stations::Patience;
use std::io::ErrorKind;
use std::time::Duration;

/// The patience of a talk, and the folders of the drives, in which their volumes' notes lie.
#[derive(Drop)]
pub(crate) struct TalkMeans<'d> {
    pub(crate) patience: ClientPatience<'d>,
    pub(crate) rt: &'d HostRuntime,
    pub(crate) conf: &'d Conf,
}

impl Patience for TalkMeans<'_> {
    fn lasts(&self, waited: Duration) -> bool {
        self.patience.lasts(waited)
    }
}

impl Notes for TalkMeans<'_> {
    ghost answered = { λ means drive name answer. Unit {0} };

    ghost has_back = { λ means drive name taken. Unit {0} };

    fn take(&self, drive: DriveNo, name: &VolName) -> Result<Taken, Refusal> {
        let Some(folder) = self.folder_of(drive) else {
            return Err(Refusal::DeviceFault);
        };
        let alloc = self.rt.alloc();
        let Ok(read) = load_note(self.rt, alloc, folder, name) else {
            return Err(Refusal::Memory);
        };
        // What isn't heeded stays: nobody could put it back.
        let NoteRead::Note(note) = read else {
            return Ok(Taken::Nothing);
        };
        match remove_note(self.rt, alloc, folder, name) {
            Ok(()) => Ok(Taken::Note(note)),
            Err(fault) => Err(fault_refusal(fault.kind())),
        }
    }

    fn put_back(&self, drive: DriveNo, name: &VolName, taken: Taken) {
        if let (Some(folder), Taken::Note(note)) = (self.folder_of(drive), taken) {
            // If it can't be put back, the volume is without a note.
            let _ = store_note(self.rt, self.rt.alloc(), folder, name, note);
        }
    }
}

impl TalkMeans<'_> {
    // The folder of a drive.
    fn folder_of(&self, drive: DriveNo) -> Option<&str> {
        let at = (drive.get() as usize).checked_sub(1)?;
        Some(self.conf.drives.as_slice().get(at)?.folder.as_str())
    }
}

// The refusal for a note that can't be removed.
pub(crate) fn fault_refusal(fault: ErrorKind) -> Refusal {
    if fault == ErrorKind::OutOfMemory {
        Refusal::Memory
    } else {
        Refusal::DeviceFault
    }
}
