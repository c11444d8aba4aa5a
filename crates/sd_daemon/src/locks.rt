// The locks of the folders that a daemon has its volumes and its spools in.
ghost use Rattle.std.specs.Prelude.{◌≡◌, IfErr, IfOk, string_bytes};
ghost use Rattle.std.specs.List.{AllZip};
ghost use Rattle.sd_folder.specs.Place.{folder_named};
ghost use Rattle.sd_daemon.specs.Locks.{AddsLock, AreLocksOf, IsFaultAmong, IsFaultAt, IsFaultIn, IsFaultOfSpools, IsLockAt, IsLockOf, IsLockOfSpools, lock_path};

use crate::daemon::ServeFault;
use sd_conf::{Conf, DriveConf, Text};
use std::alloc::{AllocError, Global};
use std::fs::{File, OpenOptions, TryLockError};
use std::io::{self, ErrorKind};

/// The lock of a folder. It lasts as long as this does, and ends with the process, however that ends.
#[derive(Drop)]
pub(crate) struct FolderLock {
    // The path of the file that is locked.
    path: String,
    // The file. None if an earlier lock is the same, or if the folder takes none.
    file: Option<File>,
}

/// The locks of all folders that a daemon writes in.
#[derive(Drop)]
pub(crate) struct FolderLocks {
    // Of the drives 1, 2 and on.
    drives: Vec<FolderLock>,
    // Of the spools, if sessions are spooled.
    spools: Option<FolderLock>,
}

impl FolderLock {
    // Whether this is the lock at a path, also if that names the folder otherwise.
    fn is_at(&self, rt: &HostRuntime, path: &str) -> bool {
        if self.path.as_str() == path {
            return true;
        }
        match &self.file {
            Some(file) => sd_file::is_there(rt, path, file).unwrap_or(false),
            None => false,
        }
    }
}

// Another process has the file locked.
#[derive(Clone, Copy)]
struct InUse;

/// Locks the folder of each drive, and that of the spools if sessions are spooled, so that no other daemon serves these
/// volumes or writes over these spools. A folder that isn't there, or in which no file can be locked, goes without.
pub(crate) fn lock_all(rt: &HostRuntime, conf: &Conf) -> Result<FolderLocks, ServeFault>
    ensures locks { IfOk result (AreLocksOf conf.now) }
    ensures fault { IfErr result (IsFaultIn conf.now) }
{
    let drives = match lock_folders(rt, conf.drives.as_slice()) {
        Ok(locks) => locks,
        Err(fault) => return Err(fault),
    };
    match lock_spools(rt, &drives, conf) {
        Ok(spools) => Ok(FolderLocks { drives, spools }),
        Err(fault) => Err(fault),
    }
}

// The lock of the folder of the spools, beside those of the drives' folders.
fn lock_spools(
    rt: &HostRuntime,
    locks: &[FolderLock],
    conf: &Conf,
) -> Result<Option<FolderLock>, ServeFault>
    ensures lock { IfOk result (IsLockOfSpools conf.now) }
    ensures fault { IfErr result (IsFaultOfSpools conf.now) }
{
    if conf.spool == 0 {
        return Ok(None);
    }
    match &conf.spool_folder {
        None => Ok(None),
        Some(folder) => match lock_of(rt, locks, folder.as_str()) {
            Ok(lock) => Ok(Some(lock)),
            Err(fault) => Err(fault),
        },
    }
}

// Locks the folder of each drive. Calls itself for the drives before the last one.
fn lock_folders(rt: &HostRuntime, drives: &[DriveConf]) -> Result<Vec<FolderLock>, ServeFault>
    ensures locks { IfOk result (λ locks. AllZip IsLockOf drives.now locks.items) }
    ensures fault { IfErr result (IsFaultAmong drives.now) }
{
    let Some((last, front)) = drives.split_last() else {
        return Ok(Vec::new(rt.alloc()));
    };
    match lock_folders(rt, front) {
        Ok(locks) => with_lock(rt, locks, last),
        Err(fault) => Err(fault),
    }
}

// The locks with that of one drive more.
fn with_lock(
    rt: &HostRuntime,
    mut locks: Vec<FolderLock>,
    drive: &DriveConf,
) -> Result<Vec<FolderLock>, ServeFault>
    ensures locks { IfOk result (λ all. AddsLock drive.now locks.items all.items) }
    ensures fault { IfErr result (IsFaultAt drive.now.folder) }
{
    let lock = lock_of(rt, &locks, drive.folder.as_str())?;
    let Ok(()) = locks.push(lock) else {
        return Err(ServeFault::Memory);
    };
    Ok(locks)
}

// The lock of a folder, beside earlier ones.
fn lock_of(rt: &HostRuntime, locks: &[FolderLock], folder: &str) -> Result<FolderLock, ServeFault>
    ensures lock { IfOk result (IsLockAt folder.now) }
    ensures fault { IfErr result (IsFaultAt folder.now) }
{
    let alloc = rt.alloc();
    let Ok(path) = path_in(alloc, folder) else {
        return Err(ServeFault::Memory);
    };
    match lock_at(rt, path.as_str(), locks) {
        Ok(file) => Ok(FolderLock { path, file }),
        Err(InUse) => Err(in_use(alloc, folder)),
    }
}

// The fault of a folder that another process has locked.
fn in_use(alloc: Global, folder: &str) -> ServeFault
    ensures { IsFaultAt folder.now result }
{
    match Text::new(alloc, folder) {
        Ok(folder) => ServeFault::Folder(folder),
        Err(_) => ServeFault::Memory,
    }
}

// The path of the file that is locked in a folder. There is a `~` in its name, so it is no volume's.
fn path_in(alloc: Global, folder: &str) -> Result<String, AllocError>
    ensures { IfOk result (λ path. string_bytes path ≡ lock_path folder.now) }
{
    let place = named(folder);
    format!(in alloc; "{place}/.lock~")
}

/// A folder by its name, which the current one has too if the text is empty.
pub(crate) fn named(folder: &str) -> &str
    ensures { result.now ≡ folder_named folder.now }
{
    if folder.is_empty() { "." } else { folder }
}

// The file at a path, locked, beside earlier locks. None if one of those is the same, or if no file can be had or
// locked there.
fn lock_at(rt: &HostRuntime, path: &str, locks: &[FolderLock]) -> Result<Option<File>, InUse> {
    for lock in locks {
        if lock.is_at(rt, path) {
            return Ok(None);
        }
    }
    let Ok(file) = open_at(rt, path) else {
        return Ok(None);
    };
    match file.try_lock() {
        Ok(()) => Ok(Some(file)),
        Err(TryLockError::WouldBlock) => Err(InUse),
        Err(TryLockError::Error(_)) => Ok(None),
    }
}

// The file at a path, made if there is none.
fn open_at(rt: &HostRuntime, path: &str) -> io::Result<File> {
    match sd_file::make(rt, path) {
        Ok(file) => Ok(file),
        Err(error) if error.kind() == ErrorKind::AlreadyExists => {
            sd_file::open_there(rt, path, OpenOptions::new().read(true).write(true))
        }
        Err(error) => Err(error),
    }
}
