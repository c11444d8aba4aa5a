// The notes of a drive's volumes are written.
use crate::locks::named;
use crate::note_keeping::DriveNotes;
use crate::volume_note::{Known, earlier_time, is_sync_due, known_after_sync, note_for};
use sd_base::VolName;
use sd_driver::Driver;
use sd_filedrive::FileDrive;
use sd_note::Note;
use sd_notes::{NoteRead, load_note, store_note};
use sd_stations::VolumeRow;
use sd_volume::{VolumeReader, read_label};
use std::fs::OpenOptions;
use std::io;

/// A volume whose notes are written.
#[derive(Drop)]
struct NotedVolume {
    // None before its label is read.
    known: Option<Known>,
    // What its note says, if that is known.
    noted: Option<Note>,
    // Whether its note couldn't be written the last time, and at how many looks from then on that isn't tried again.
    is_failing: bool,
    rests: u32,
}

/// At how many looks a note isn't tried again that couldn't be written.
const RESTS: u32 = 20;

/// What came of looking at a volume.
#[derive(Clone, Copy, Debug, PartialEq, Eq)]
pub(crate) enum Looked {
    /// Its note is as it is to be, or was written.
    Noted,
    /// Its note was written, and couldn't be before.
    NotedAgain,
    /// Its note can't be written any more.
    Fails,
    /// Its note still can't be written.
    StillFails,
}

/// What writes the notes of the volumes of a drive.
#[derive(Drop)]
pub(crate) struct NoteWriter<'d> {
    rt: &'d HostRuntime,
    folder: &'d str,
    run: u32,
    shared: &'d DriveNotes,
    volumes: Vec<NotedVolume>,
}

impl<'d> NoteWriter<'d> {
    /// That of a drive with this folder, in the run of this time. Takes no memory.
    pub(crate) fn new(
        rt: &'d HostRuntime,
        folder: &'d str,
        run: u32,
        shared: &'d DriveNotes,
    ) -> Self {
        NoteWriter {
            rt,
            folder,
            run,
            shared,
            volumes: Vec::new(rt.alloc()),
        }
    }

    /// Looks at the volume at this place as its drive has published it, and writes its note if that is due. One that couldn't be
    /// written is left alone for a while, but for the last look.
    pub(crate) fn look(&mut self, at: usize, row: &VolumeRow, is_last: bool) -> Looked {
        // A volume that has no note has its place too.
        let has_place = self.have_place(at).is_some();
        if row.name.as_str().starts_with('.') || self.rests(at, is_last) {
            return Looked::Noted;
        }
        let is_noted = has_place && self.note_at(at, row).is_some();
        if !is_noted {
            self.shared.failed();
        }
        self.came(at, is_noted)
    }

    // Whether the volume at this place is left alone.
    fn rests(&mut self, at: usize, is_last: bool) -> bool {
        match self.volumes.get_mut(at) {
            Some(volume) if volume.rests > 0 && !is_last => {
                volume.rests -= 1;
                true
            }
            _ => false,
        }
    }

    // What it comes to that the note of the volume at this place is as it is to be, or can't be.
    fn came(&mut self, at: usize, is_noted: bool) -> Looked {
        let Some(volume) = self.volumes.get_mut(at) else {
            return Looked::StillFails;
        };
        let was_failing = volume.is_failing;
        volume.is_failing = !is_noted;
        volume.rests = if is_noted { 0 } else { RESTS };
        match (was_failing, is_noted) {
            (false, true) => Looked::Noted,
            (true, true) => Looked::NotedAgain,
            (false, false) => Looked::Fails,
            (true, false) => Looked::StillFails,
        }
    }

    // Makes room for the volumes up to this place. They come one after another, and none goes.
    fn have_place(&mut self, at: usize) -> Option<()> {
        if at < self.volumes.len() {
            return Some(());
        }
        let added = self.volumes.push(NotedVolume {
            known: None,
            noted: None,
            is_failing: false,
            rests: 0,
        });
        added.ok()
    }

    // Has the note of the volume at this place say what it is to. None if that can't be.
    fn note_at(&mut self, at: usize, row: &VolumeRow) -> Option<()> {
        let known = match self.volumes.get(at)?.known {
            Some(known) => known,
            None => self.know(at, row)?,
        };
        let note = note_for(known, row);
        if self.volumes.get(at)?.noted == Some(note) {
            return self.sync_if_due(at, row, known, note);
        }
        let stored = store_note(self.rt, self.rt.alloc(), self.folder, &row.name, note).ok();
        let volume = self.volumes.get_mut(at)?;
        volume.noted = stored.map(|_stored| note);
        stored
    }

    // Has the disk have a volume as it was published, if so much of it awaits a sync. Its note says so when the volume is looked
    // at next, if no sync of its drive failed meanwhile.
    fn sync_if_due(&mut self, at: usize, row: &VolumeRow, known: Known, noted: Note) -> Option<()> {
        if !is_sync_due(known, noted, row) {
            return Some(());
        }
        let is_synced = self.sync(&row.name).is_ok();
        let volume = self.volumes.get_mut(at)?;
        volume.known = Some(known_after_sync(known, row.extent, is_synced));
        is_synced.then_some(())
    }

    // Has the disk have what was written of a volume.
    fn sync(&self, name: &VolName) -> io::Result<()> {
        let (folder, name) = (named(self.folder), name.as_str());
        let path = format!(in self.rt.alloc(); "{folder}/{name}")?;
        let file = sd_file::open_there(self.rt, path.as_str(), OpenOptions::new().read(true))?;
        file.sync_data()
    }

    // Finds out what there is to know of the volume at this place, which is looked at for the first time. One that came after the
    // start may have blocks of this run from its front on.
    fn know(&mut self, at: usize, row: &VolumeRow) -> Option<Known> {
        let (moment, own_from) = match self.shared.old(&row.name) {
            Some(old) => (old.moment, old.end),
            None => (self.moment_of(&row.name)?, 0),
        };
        let noted = self.read_note(&row.name)?;
        let known = Known {
            moment,
            run: self.run,
            own_from,
            earlier: earlier_time(self.run, moment, own_from, noted),
            own_synced: None,
            may_sync: true,
        };
        let volume = self.volumes.get_mut(at)?;
        volume.known = Some(known);
        volume.noted = noted;
        Some(known)
    }

    // What the note of a volume says, if it says anything. None if there is no memory to read it.
    fn read_note(&self, name: &VolName) -> Option<Option<Note>> {
        match load_note(self.rt, self.rt.alloc(), self.folder, name).ok()? {
            NoteRead::Note(note) => Some(Some(note)),
            _ => Some(None),
        }
    }

    // The moment of a volume's label, read by a device of its own, since the drive's may hang.
    fn moment_of(&self, name: &VolName) -> Option<i64> {
        let alloc = self.rt.alloc();
        let mut device = FileDrive::new(self.rt.clone().ok()?, alloc, self.folder).ok()?;
        let mut reader = VolumeReader::new(alloc, name).ok()?;
        let size = device.len(name).ok()?;
        let found = read_label(&mut device, &mut reader, name, size).ok()??;
        Some(found.label.moment)
    }
}
