// The file of a spool.
ghost use Rattle.std.specs.Prelude.{◌≡◌, ◌+◌, ◌++◌, ◌≤◌, None, length, take, drop, string_bytes, IsSome, OnOk, OnErr};
ghost use Rattle.std.specs.Option.{ForSome};
ghost use Rattle.sd_folder.specs.Meaning.{IsHonest};
ghost use Rattle.sd_folder.specs.Place.{IsFileName};
ghost use Rattle.sd_spool.specs.Opened.{HasNoMore, IsWhole, Holds, OthersStay, spool_bytes};

use crate::opened::{Opened, cut_even, fill, find, write_at};
use sd_folder::{Folder, FolderFault};

/// A file of a folder, which is not looked at before the first write or clear. If it is made by this, it goes with it.
pub(crate) struct SpoolFile<F: Folder + Drop> {
    folder: F,
    name: String,
    opened: Option<Opened<F::File>>,
    // How many bytes were written since the last clear. They are the file's first.
    end: u64,
    ghost rule: { IsFileName (string_bytes name) },
    ghost closed: { opened ≡ None → end ≡ 0 },
    ghost whole: { opened ≡ None → IsHonest (F.meaning folder)
        → IsWhole (string_bytes name) (F.meaning folder) },
    ghost knows: { IsHonest (F.meaning folder) → ForSome opened
        (λ o. (F.name_of o.file ≡ string_bytes name)
        × Holds (string_bytes name) o.is_even end (F.meaning folder)) },
}

impl<F: Folder + Drop> SpoolFile<F> {
    /// The file of that name in a folder. No sync of it failed.
    pub(crate) fn new(folder: F, name: String) -> SpoolFile<F>
        requires rule { IsFileName (string_bytes name) }
        requires whole { IsHonest (F.meaning folder)
            → IsWhole (string_bytes name) (F.meaning folder) }
        ensures folder { result.folder ≡ folder }
        ensures name { string_bytes result.name ≡ string_bytes name }
        ensures closed { result.opened ≡ None }
        ensures empty { result.end ≡ 0 }
    {
        SpoolFile {
            folder,
            name,
            opened: None,
            end: 0,
        }
    }

    /// Throws away what was written. If that fails the file may hold anything, and none of it is the spool's.
    pub(crate) fn clear(&mut self) -> Result<(), FolderFault>
        ensures honest { (F.meaning self.new.folder).honest
            ≡ (F.meaning self.old.folder).honest }
        ensures others { IsHonest (F.meaning self.old.folder)
            → OthersStay (string_bytes self.old.name) (F.meaning self.old.folder)
            (F.meaning self.new.folder) }
        ensures none { self.new.end ≡ 0 }
        ensures no_more { IsHonest (F.meaning self.old.folder) → OnOk result
            (HasNoMore (F.meaning self.new.folder) (string_bytes self.new.name) self.new.end) }
    {
        self.forget();
        self.open()?;
        let Some(opened) = &mut self.opened else {
            unreachable!()
        };
        cut_even(&mut self.folder, opened, 0)
    }

    /// Writes after what was written. If that fails, what it left is cut off before the next write.
    pub(crate) fn append(&mut self, bytes: &[u8]) -> Result<(), FolderFault>
        ensures honest { (F.meaning self.new.folder).honest
            ≡ (F.meaning self.old.folder).honest }
        ensures others { IsHonest (F.meaning self.old.folder)
            → OthersStay (string_bytes self.old.name) (F.meaning self.old.folder)
            (F.meaning self.new.folder) }
        ensures end { OnOk result (self.new.end ≡ self.old.end + length bytes.now) }
        ensures end_stays { OnErr result (self.new.end ≡ self.old.end) }
        ensures no_more { IsHonest (F.meaning self.old.folder) → OnOk result
            (HasNoMore (F.meaning self.new.folder) (string_bytes self.new.name) self.new.end) }
        ensures ok { IsHonest (F.meaning self.old.folder) → OnOk result
            (spool_bytes (F.meaning self.new.folder) (string_bytes self.new.name) self.new.end
            ≡ spool_bytes (F.meaning self.old.folder) (string_bytes self.old.name) self.old.end
            ++ bytes.now) }
        ensures err { IsHonest (F.meaning self.old.folder) → OnErr result
            (spool_bytes (F.meaning self.new.folder) (string_bytes self.new.name) self.new.end
            ≡ spool_bytes (F.meaning self.old.folder) (string_bytes self.old.name)
            self.old.end) }
    {
        let Some(end) = self.end.checked_add(bytes.len() as u64) else {
            return Err(FolderFault::Full);
        };
        self.open()?;
        let Some(opened) = &mut self.opened else {
            unreachable!()
        };
        cut_even(&mut self.folder, opened, self.end)?;
        write_at(&mut self.folder, opened, self.end, bytes)?;
        self.end = end;
        Ok(())
    }

    /// Fills `into` with what was written from `at` on.
    pub(crate) fn read_at(&mut self, at: u64, into: &mut [u8]) -> Result<(), FolderFault>
        ensures honest { (F.meaning self.new.folder).honest
            ≡ (F.meaning self.old.folder).honest }
        ensures others { IsHonest (F.meaning self.old.folder)
            → OthersStay (string_bytes self.old.name) (F.meaning self.old.folder)
            (F.meaning self.new.folder) }
        ensures end { self.new.end ≡ self.old.end }
        ensures within { OnOk result (at + length into.old ≤ self.old.end) }
        ensures ok { IsHonest (F.meaning self.old.folder) → OnOk result
            (into.new ≡ take (length into.old) (drop at (spool_bytes
            (F.meaning self.old.folder) (string_bytes self.old.name) self.old.end))) }
        ensures same { IsHonest (F.meaning self.old.folder)
            → spool_bytes (F.meaning self.new.folder) (string_bytes self.new.name) self.new.end
            ≡ spool_bytes (F.meaning self.old.folder) (string_bytes self.old.name)
            self.old.end }
    {
        let length = into.len() as u64;
        if at > self.end || length > self.end - at {
            return Err(FolderFault::Failed);
        }
        match &self.opened {
            Some(opened) => fill(&mut self.folder, &opened.file, at, into),
            None => Ok(()),
        }
    }

    // None of the file's bytes is the spool's any more.
    fn forget(&mut self)
        ensures folder { self.new.folder ≡ self.old.folder }
        ensures name { self.new.name ≡ self.old.name }
        ensures none { self.new.end ≡ 0 }
    {
        self.end = 0;
        if let Some(opened) = &mut self.opened {
            opened.is_even = false;
        }
    }

    // Opens the file, if it isn't open.
    fn open(&mut self) -> Result<(), FolderFault>
        ensures honest { (F.meaning self.new.folder).honest
            ≡ (F.meaning self.old.folder).honest }
        ensures others { IsHonest (F.meaning self.old.folder)
            → OthersStay (string_bytes self.old.name) (F.meaning self.old.folder)
            (F.meaning self.new.folder) }
        ensures end { self.new.end ≡ self.old.end }
        ensures name { self.new.name ≡ self.old.name }
        ensures opened { OnOk result (IsSome self.new.opened) }
        ensures bytes { IsHonest (F.meaning self.old.folder)
            → spool_bytes (F.meaning self.new.folder) (string_bytes self.new.name) self.new.end
            ≡ spool_bytes (F.meaning self.old.folder) (string_bytes self.old.name)
            self.old.end }
    {
        if self.opened.is_none() {
            self.opened = Some(find(&mut self.folder, self.name.as_str())?);
        }
        Ok(())
    }
}

impl<F: Folder + Drop> Drop for SpoolFile<F> {
    fn drop(self) {
        let SpoolFile {
            mut folder,
            name: _,
            opened,
            end: _,
        } = self;
        if let Some(opened) = opened {
            if opened.is_made {
                let _ = folder.remove(&opened.file);
            }
        }
    }
}
