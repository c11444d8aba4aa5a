//! Opens files without following a link at the end of their path.
//!
//! What the system does with a file can't be known, so nothing is claimed of one.
#![tactic(auto)]

use std::fs::{self, Files, Metadata, OpenFile, OpenOptions};
use std::io::{self, ErrorKind};
use std::os::unix::fs::{MetadataExt, OpenOptionsExt};

/// The permissions of a file that is made: its owner reads and writes it.
const OWNER_ONLY: u32 = 0o600;

/// Makes a file to read and write, for its owner alone. The system makes it only if nothing has its name, and follows
/// no link there.
pub fn make<R: Files>(system: &R, path: &str) -> io::Result<R::File> {
    OpenOptions::new()
        .read(true)
        .write(true)
        .create_new(true)
        .mode(OWNER_ONLY)
        .open(system, path)
}

/// Opens what is at the path, if that is a file. What was opened is compared with what was there before, since a link
/// could take its place in between: then its target is closed again, and no more.
pub fn open_there<R: Files>(system: &R, path: &str, how: &OpenOptions) -> io::Result<R::File> {
    let found = fs::symlink_metadata(system, path)?;
    if !found.is_file() {
        return Err(ErrorKind::Other.into());
    }
    let file = how.open(system, path)?;
    match file.metadata() {
        Ok(opened) if is_same(&opened, &found) => Ok(file),
        _ => Err(ErrorKind::Other.into()),
    }
}

/// Whether this open file is what is at the path.
pub fn is_there<R: Files>(system: &R, path: &str, file: &R::File) -> io::Result<bool> {
    let found = fs::symlink_metadata(system, path)?;
    Ok(is_same(&file.metadata()?, &found))
}

fn is_same(one: &Metadata, other: &Metadata) -> bool {
    one.dev() == other.dev() && one.ino() == other.ino()
}
