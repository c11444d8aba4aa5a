// The notes of the drives' volumes, while the daemon runs.
use crate::note_writer::{Looked, NoteWriter};
use crate::talks::FileTalks;
use sd_line::Naming;
use sd_serve::LogLine;
use sd_stations::VolumeRow;
use std::io::Write;
use std::sync::Wait;
use std::thread::Scope;
use std::time::{Clock, Duration};

/// How many milliseconds go by from one look at a drive's volumes to the next.
const LOOK_MILLISECONDS: u64 = 250;

/// What writes the notes of so many drives.
pub(crate) trait NotesWriter: Sync {
    fn noted_drives(&self) -> usize;

    /// Writes those of the volumes of the drive at this place, until the last ones are written.
    fn write_notes(&self, at: usize);

    /// Tells that the last ones are to be written.
    fn end_notes(&self);
}

/// Starts a thread for the notes of each drive. Whether all could be made.
pub(crate) fn start_notes<'s, E, K: NotesWriter>(scope: &Scope<'s, E>, writer: &'s K) -> bool {
    for at in 0..writer.noted_drives() {
        if scope.spawn(move || writer.write_notes(at)).is_err() {
            return false;
        }
    }
    true
}

impl<N: Naming + Send + Sync, W: Wait + Clock + Sync + Copy + Drop, L: Write + Send> NotesWriter
    for FileTalks<'_, N, W, L> {
    fn noted_drives(&self) -> usize {
        self.notes.drives.len()
    }

    fn write_notes(&self, at: usize) {
        let Some(mut writer) = self.note_writer(at) else {
            return;
        };
        let period = Duration::from_millis(LOOK_MILLISECONDS);
        for _look in self.hub.rt.forever() {
            let is_last = self.notes.ending.wait(&self.hub.rt, period);
            self.look_at_volumes(at, &mut writer, is_last);
            if is_last {
                return;
            }
        }
    }

    fn end_notes(&self) {
        self.notes.ending.end(&self.hub.rt);
    }
}

impl<'d, N: Naming, W: Wait + Clock + Copy + Drop, L: Write> FileTalks<'d, N, W, L> {
    /// Writes the notes of the volumes that came at the start, before anything is appended to them: without one a stop could
    /// leave a volume that looks damaged, since blocks that weren't synced come to the disk in any order.
    pub(crate) fn write_first_notes(&self) {
        for at in 0..self.notes.drives.len() {
            if let Some(mut writer) = self.note_writer(at) {
                self.look_at_volumes(at, &mut writer, true);
            }
        }
    }

    // What writes the notes of the drive at this place.
    fn note_writer(&self, at: usize) -> Option<NoteWriter<'d>> {
        let drive = self.conf.drives.as_slice().get(at)?;
        let shared = self.notes.drives.get(at)?;
        let folder = drive.folder.as_str();
        Some(NoteWriter::new(self.rt, folder, self.time, shared))
    }

    // Looks at the volumes of the drive at this place. Takes no drive's lock. If there is no memory, none is looked at.
    fn look_at_volumes(&self, at: usize, writer: &mut NoteWriter<'_>, is_last: bool) {
        let hub = self.hub;
        let Some(post) = hub.posts.get(at) else {
            return;
        };
        let drive = post.station.line().no().get();
        let Ok(rows) = post.station.rows(&hub.rt, self.rt.alloc()) else {
            return;
        };
        for place in 0..rows.len() {
            let row = &rows[place];
            let looked = writer.look(place, row, is_last);
            self.tell_looked(drive, row, looked);
        }
    }

    // Tells of a note that can't be written any more, or is written again.
    fn tell_looked(&self, drive: u32, row: &VolumeRow, looked: Looked) {
        let volume = &row.name;
        let line = match looked {
            Looked::Noted | Looked::StillFails => return,
            Looked::Fails => LogLine::Unnoted { drive, volume },
            Looked::NotedAgain => LogLine::NotedAgain { drive, volume },
        };
        self.log.line(&self.hub.rt, line);
    }
}
