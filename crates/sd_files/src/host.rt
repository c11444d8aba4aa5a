// Where a program has its texts and its volumes: in files, and in folders.
ghost use Rattle.std.specs.Prelude.{◌≡◌, ◌≤◌, ℕ, List, length, Option, IfOk};
ghost use Rattle.sd_driver.specs.Meaning.{Meaning};
ghost use Rattle.sd_files.specs.declared.watched.ShownProgress.{ShownProgress as SpecProgress};

use crate::watched::{ShownProgress, WatchedDevice};
use sd_base::VolName;
use sd_driver::Driver;
use sd_filedrive::FileDrive;
use std::alloc::AllocError;
use std::fs::{self, DirEntry, File};
use std::io::{self, ErrorKind, Read};

/// What a program has its texts and its volumes from. Two ghost members say what it is: what the file at a path holds,
/// if that is known, and what the device of a folder, whose reading is told of or not, is as it is made.
pub trait Host {
    type Text: Read + Drop;

    type Shelf: Driver + Drop;

    ghost text_at: { Self → List ℕ → Option (List ℕ) };

    ghost device_of: { Self → List ℕ → SpecProgress → Meaning };

    /// The file at this path, to be read from its front on.
    fn open_text(&self, path: &str) -> io::Result<Self::Text>
        ensures { IfOk result (λ text. Self.Text.remaining text ≡ text_at self.now path.now) };

    /// The device whose volumes are the files of this folder, of which no call was made yet.
    fn open_folder(&self, path: &str, progress: ShownProgress) -> Result<Self::Shelf, AllocError>
        ensures { IfOk result (λ shelf.
            Self.Shelf.meaning shelf ≡ device_of self.now path.now progress) };

    /// The regular files of this folder whose names a volume could have, in the order of their names.
    fn files_in(&self, path: &str) -> io::Result<Vec<VolName>>;
}

/// The system. Its files and folders are only read, and none is made.
impl Host for HostRuntime {
    ghost use Rattle.sd_folder.specs.Place.{folder_named};
    ghost use Rattle.sd_files.specs.Host.{folder_inside, told_of, unknown_text, unused_device};

    type Text = File;

    type Shelf = WatchedDevice<FileDrive<HostRuntime>, HostRuntime>;

    ghost text_at = { λ _. unknown_text };

    ghost device_of = { λ _. unused_device };

    fn open_text(&self, path: &str) -> io::Result<File> {
        File::open(self, path)
    }

    fn open_folder(
        &self,
        path: &str,
        progress: ShownProgress,
    ) -> Result<WatchedDevice<FileDrive<HostRuntime>, HostRuntime>, AllocError>
        ensures device { IfOk result (λ shelf.
            ⟦<WatchedDevice<FileDrive<HostRuntime>, HostRuntime> as Driver>⟧.meaning shelf
            ≡ unused_device path.now progress) }
        ensures folder { IfOk result (λ shelf. folder_inside shelf ≡ folder_named path.now) }
        ensures told { IfOk result (λ shelf. told_of shelf ≡ progress) }
    {
        let drive = FileDrive::new(self.clone()?, self.alloc(), path)?;
        Ok(WatchedDevice::new(drive, self.clone()?, progress))
    }

    fn files_in(&self, path: &str) -> io::Result<Vec<VolName>> {
        let mut names = Vec::new(self.alloc());
        for entry in fs::read_dir(self, path)? {
            match entry {
                Ok(entry) => {
                    if let Some(name) = volume_name(&entry)? {
                        place(&mut names, name)?;
                    }
                }
                // A name that is no text.
                Err(fault) if fault.kind() == ErrorKind::InvalidFilename => {}
                Err(fault) => return Err(fault),
            }
        }
        Ok(names)
    }
}

// The name of a regular file, if a volume could have it.
fn volume_name(entry: &DirEntry<HostRuntime>) -> io::Result<Option<VolName>> {
    let Ok(name) = VolName::parse(entry.file_name()) else {
        return Ok(None);
    };
    Ok(entry.file_type()?.is_file().then_some(name))
}

// Puts a name before the first of these that comes after it.
fn place(names: &mut Vec<VolName>, one: VolName) -> Result<(), AllocError> {
    let at = place_for(names, &one);
    names.insert(at, one)?;
    Ok(())
}

fn place_for(names: &[VolName], one: &VolName) -> usize
    ensures { result ≤ length names.now }
{
    for (at, name) in names.iter().enumerate() {
        if one.as_str() < name.as_str() {
            return at;
        }
    }
    names.len()
}
