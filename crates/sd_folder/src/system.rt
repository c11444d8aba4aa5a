// A folder of the system. Each call is handed on to it.
ghost use Rattle.std.specs.Prelude.{◌≡◌, ◌≢◌, ◌↔◌, ◌⊎◌, ◌≤◌, List, ℕ, [], length, IfOk, IfErr, string_bytes};
ghost use Rattle.std.specs.IoError.{error_kind};
ghost use Rattle.sd_folder.specs.Fault.{IsFull};
ghost use Rattle.sd_folder.specs.Place.{IsFileIn, IsFileName, folder_named};

use crate::folder::{Access, Folder, FolderFault};
use std::alloc::{AllocError, Global};
use std::fs::{self, File, Files, OpenFile, OpenOptions};
use std::io::{self, ErrorKind};
use std::os::unix::fs::FileExt;

// No byte of a file is at or past this place. The system refuses a read that could go on past it.
const MOST_FILE: u64 = i64::MAX as u64;

/// A folder of the system, which is kept beside its path. Nothing is claimed of what a file holds, nor of what a
/// stop leaves of it.
///
/// A file is made for its owner alone. Its name is looked at before it is opened, and what was opened is compared with
/// that, since the system can't be asked here to follow no link: if a link takes the name's place in between, its
/// target is opened and closed, and no more.
#[derive(Drop)]
pub struct SystemFolder<R: Files + Drop> {
    system: R,
    alloc: Global,
    // As the system takes it.
    path: String,
}

/// A file of such a folder, and the path that it was opened at. Reads and writes name their place, so the file's own
/// position is never used.
#[derive(Drop)]
pub struct SystemFile<F: Drop> {
    file: F,
    path: String,
}

impl<R: Files + Drop> SystemFolder<R> {
    ghost use Rattle.sd_folder.specs.System.{path_of};

    /// The folder at `path`, the current one if that is empty. It is not looked at before a file is.
    pub fn new(system: R, alloc: Global, path: &str) -> Result<SystemFolder<R>, AllocError>
        ensures { IfOk result (λ folder. path_of folder ≡ folder_named path.now) }
    {
        let path = if path.is_empty() { "." } else { path };
        Ok(SystemFolder {
            system,
            alloc,
            path: String::from_str(alloc, path)?,
        })
    }

    // The path of a file, which is in this folder. No other path of a file is made.
    fn path_to(&self, name: &str) -> Result<String, AllocError>
        requires { IsFileName name.now }
        ensures { IfOk result (λ path.
            IsFileIn (string_bytes self.now.path) name.now (string_bytes path)) }
    {
        let folder = self.path.as_str();
        format!(in self.alloc; "{folder}/{name}")
    }

    // Why no file could be made if something has its name.
    fn standing(&self, path: &str) -> FolderFault
        ensures { (result ≡ FolderFault.Exists) ⊎ (result ≡ FolderFault.Failed) }
    {
        match fs::symlink_metadata(&self.system, path) {
            Ok(found) if found.is_file() => FolderFault::Exists,
            _ => FolderFault::Failed,
        }
    }
}

impl<R: Files + Drop> Folder for SystemFolder<R>
where
    R::File: FileExt,
{
    ghost use Rattle.sd_folder.specs.System.{unknown_folder, unknown_stands};

    type File = SystemFile<R::File>;

    ghost meaning = { λ _. unknown_folder };

    ghost name_of = { λ _. [] };

    fn create(&mut self, name: &str) -> Result<SystemFile<R::File>, FolderFault> {
        let Ok(path) = self.path_to(name) else {
            return Err(FolderFault::Memory);
        };
        match sd_file::make(&self.system, path.as_str()) {
            Ok(file) => Ok(SystemFile { file, path }),
            Err(error) if error.kind() == ErrorKind::AlreadyExists => {
                Err(self.standing(path.as_str()))
            }
            Err(_) => Err(FolderFault::Failed),
        }
    }

    fn open(&mut self, name: &str, access: Access) -> Result<SystemFile<R::File>, FolderFault> {
        let Ok(path) = self.path_to(name) else {
            return Err(FolderFault::Memory);
        };
        let writes = access == Access::ReadWrite;
        match sd_file::open_there(
            &self.system,
            path.as_str(),
            OpenOptions::new().read(true).write(writes),
        ) {
            Ok(file) => Ok(SystemFile { file, path }),
            Err(error) => Err(missing(&error)),
        }
    }

    fn is_there(&mut self, file: &SystemFile<R::File>) -> Result<bool, FolderFault> {
        match sd_file::is_there(&self.system, file.path.as_str(), &file.file) {
            Ok(is) => Ok(is),
            Err(error) if error.kind() == ErrorKind::NotFound => Ok(false),
            Err(_) => Err(FolderFault::Failed),
        }
    }

    fn len(&mut self, file: &SystemFile<R::File>) -> Result<u64, FolderFault> {
        match file.file.metadata() {
            Ok(found) => Ok(found.len()),
            Err(_) => Err(FolderFault::Failed),
        }
    }

    fn read_at(
        &mut self,
        file: &SystemFile<R::File>,
        at: u64,
        into: &mut [u8],
    ) -> Result<usize, FolderFault> {
        let room = into.len().min(MOST_FILE.saturating_sub(at) as usize);
        if room == 0 {
            return Ok(0);
        }
        match file.file.read_at(&mut into[..room], at) {
            Ok(count) => Ok(count),
            Err(error) if error.kind() == ErrorKind::Interrupted => Err(FolderFault::Interrupted),
            Err(_) => Err(FolderFault::Failed),
        }
    }

    fn append(
        &mut self,
        file: &SystemFile<R::File>,
        at: u64,
        bytes: &[u8],
    ) -> Result<(), FolderFault> {
        match file.file.write_all_at(bytes, at) {
            Ok(()) => Ok(()),
            Err(error) => Err(append_fault(&error)),
        }
    }

    fn sync_data(&mut self, file: &SystemFile<R::File>) -> Result<(), FolderFault> {
        match file.file.sync_data() {
            Ok(()) => Ok(()),
            Err(_) => Err(FolderFault::Failed),
        }
    }

    fn sync_name(&mut self, _file: &SystemFile<R::File>) -> Result<(), FolderFault> {
        let Ok(folder) = File::open(&self.system, self.path.as_str()) else {
            return Err(FolderFault::Failed);
        };
        match folder.sync_all() {
            Ok(()) => Ok(()),
            Err(_) => Err(FolderFault::Failed),
        }
    }

    fn cut(&mut self, file: &SystemFile<R::File>, to: u64) -> Result<(), FolderFault> {
        match file.file.set_len(to) {
            Ok(()) => Ok(()),
            Err(_) => Err(FolderFault::Failed),
        }
    }

    fn remove(&mut self, file: &SystemFile<R::File>) -> Result<(), FolderFault> {
        if !self.is_there(file)? {
            return Ok(());
        }
        match fs::remove_file(&self.system, file.path.as_str()) {
            Ok(()) => Ok(()),
            Err(_) => Err(FolderFault::Failed),
        }
    }

    ghost stands = { λ folder h. unknown_stands h };
}

// What an error says of a file that was to be there.
fn missing(error: &io::Error) -> FolderFault
    ensures missing { (result ≡ FolderFault.NotThere)
        ↔ (error_kind error.now ≡ ErrorKind.NotFound) }
    ensures faults { (result ≡ FolderFault.NotThere) ⊎ (result ≡ FolderFault.Failed) }
{
    match error.kind() {
        ErrorKind::NotFound => FolderFault::NotThere,
        _ => FolderFault::Failed,
    }
}

// What an append's error is. A full folder tells so by any of three words.
fn append_fault(error: &io::Error) -> FolderFault
    ensures full { (result ≡ FolderFault.Full) ↔ IsFull (error_kind error.now) }
    ensures faults { (result ≡ FolderFault.Full) ⊎ (result ≡ FolderFault.Failed) }
{
    match error.kind() {
        ErrorKind::StorageFull => FolderFault::Full,
        ErrorKind::QuotaExceeded => FolderFault::Full,
        ErrorKind::FileTooLarge => FolderFault::Full,
        _ => FolderFault::Failed,
    }
}
