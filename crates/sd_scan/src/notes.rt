// The notes of volumes.
ghost use Rattle.std.specs.Prelude.{◌<◌, IfSome, length};

use crate::chain::{Chain, Fit};
use sd_base::VolName;
use sd_notes::{NoteRead, load_note};
use std::alloc::{AllocError, Global};

/// Where volumes have their notes.
pub trait NoteFolder {
    /// The note of the volume of that name in this folder.
    fn note_of(&self, folder: &str, name: &VolName) -> Result<NoteRead, AllocError>;
}

impl NoteFolder for HostRuntime {
    fn note_of(&self, folder: &str, name: &VolName) -> Result<NoteRead, AllocError> {
        load_note(self, self.alloc(), folder, name)
    }
}

/// The note of a volume, and how it stands to that.
#[derive(Drop)]
pub(crate) struct NotedVolume {
    pub(crate) name: VolName,
    pub(crate) read: NoteRead,
    pub(crate) fit: Fit,
}

/// The notes of volumes. Those that were not looked at yet fit.
#[derive(Drop)]
pub(crate) struct Notes {
    pub(crate) noted: Vec<NotedVolume>,
}

impl Notes {
    /// No notes; takes no memory.
    pub(crate) fn none(alloc: Global) -> Self {
        Notes {
            noted: Vec::new(alloc),
        }
    }

    /// The notes beside these files of a folder.
    pub(crate) fn beside<H: NoteFolder + AllocGlobal>(
        host: &H,
        folder: &str,
        files: &[VolName],
    ) -> Result<Self, AllocError> {
        let mut notes = Notes::none(host.alloc());
        for name in files {
            let read = host.note_of(folder, name)?;
            if !matches!(read, NoteRead::None) {
                notes.noted.push(NotedVolume {
                    name: name.copy(),
                    read,
                    fit: Fit::Fits,
                })?;
            }
        }
        Ok(notes)
    }

    /// The names of the volumes that have a whole note of this form, after those given.
    pub(crate) fn names_after(
        &self,
        alloc: Global,
        names: &[VolName],
    ) -> Result<Vec<VolName>, AllocError> {
        let mut all = copies(alloc, names)?;
        for one in self.noted.as_slice() {
            if let NoteRead::Note(_) = one.read {
                all.push(one.name.copy())?;
            }
        }
        Ok(all)
    }

    /// Where the blocks of the volume of that name end, as its note says, if it has one.
    pub(crate) fn end_of(&self, name: &VolName) -> Option<u64> {
        match self.noted[self.index_of(name)?].read {
            NoteRead::Note(note) => Some(note.end),
            _ => None,
        }
    }

    /// Compares the note of the volume of that name, if it has one, with its blocks, all of which came, and with the moment of
    /// its label.
    pub(crate) fn compare(&mut self, name: &VolName, moment: i64, chain: &Chain) {
        let Some(at) = self.index_of(name) else {
            return;
        };
        self.noted[at].fit = chain.fit_of(self.noted[at].read, moment);
    }

    // Which of them is that of the volume of that name.
    fn index_of(&self, name: &VolName) -> Option<usize>
        ensures { IfSome result (λ at. at < length self.now.noted.items) }
    {
        for (at, one) in self.noted.iter().enumerate() {
            if one.name.is_same(name) {
                return Some(at);
            }
        }
        None
    }
}

// The same names.
fn copies(alloc: Global, names: &[VolName]) -> Result<Vec<VolName>, AllocError> {
    let mut all = Vec::with_capacity(alloc, names.len())?;
    for name in names {
        all.push(name.copy())?;
    }
    Ok(all)
}
