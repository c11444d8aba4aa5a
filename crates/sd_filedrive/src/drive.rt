// A folder of files, as a device.
ghost use Rattle.std.specs.Prelude.{◌≡◌, ◌≢◌, ◌≤◌, ◌⊎◌, None, Some, IfOk, IfErr, OnOk, OnErr, IsSome, IsErrOf, length};
ghost use Rattle.sd_base.specs.Count.{CountsOnce, IsSpent};
ghost use Rattle.sd_driver.specs.Shelf.{SameShelf, Passes, KeepsStable, KeepsStableTo, Creates, MayCreate, Appends, MayAppend, Syncs, MaySync, Truncates, MayTruncate};
ghost use Rattle.sd_driver.specs.Meaning.{IsHonest, CountsFailures, SameCounts, Unchanged, TellsLength, TellsBytes};
ghost use Rattle.sd_filedrive.specs.Drive.{meaning_of};

use crate::tally::Tally;
use crate::volumes::Volumes;
use sd_base::VolName;
use sd_driver::{Driver, DriverFault};
use sd_folder::{Folder, SystemFolder};
use std::alloc::{AllocError, Global};
use std::fs::Files;
use std::os::unix::fs::FileExt;

/// A folder in which each volume is a file of its name. It is honest exactly if the folder is. Of any other folder only
/// the loaded name is known, how often the drive failed and how often it was full; at the greatest count of failures no
/// call does anything.
///
/// `NotThere` and `Exists` are the folder's words, `NoRoom` is an append's want of space or quota, or a file at
/// its greatest size, `Memory` a path that could not be spelled, or no room to note a volume whose sync fails. All else
/// is `Device`: also a link, a folder or anything but a regular file under a volume's name.
///
/// The loaded volume's file stays open, and that of the volume that was read last without being loaded, up to the next
/// create or load. An append that fails leaves what it wrote, and the next one goes on after that. A sync has the disk
/// have the volume's bytes, and the first one after a create or load its name too, and then looks whether that name is
/// the file's still. After a sync that failed nobody can tell what the disk has: for as long as the drive lives the
/// volume takes no more, isn't loaded again, and is read up to where its last sync reached and no further.
#[derive(Drop)]
pub struct FolderDrive<F: Folder + Drop> {
    pub(crate) volumes: Volumes<F>,
    pub(crate) tally: Tally,
}

/// A drive over a folder of the system, of which nothing is claimed.
pub type FileDrive<R> = FolderDrive<SystemFolder<R>>;

impl<F: Folder + Drop> FolderDrive<F> {
    ghost use Rattle.sd_folder.specs.Meaning.{NoneTorn, IsHonest as IsHonestFolder};
    ghost use Rattle.sd_filedrive.specs.Drive.{counted_from, drive_meaning};

    /// The drive of a folder of which no sync failed.
    pub fn of_folder(folder: F, alloc: Global) -> FolderDrive<F>
        requires { IsHonestFolder (F.meaning folder) → NoneTorn (F.meaning folder) }
        ensures unused { meaning_of result ≡ drive_meaning (F.meaning folder) None 0 0 }
        ensures folder { result.volumes.folder ≡ folder }
    {
        FolderDrive {
            volumes: Volumes::new(folder, alloc),
            tally: Tally::new(),
        }
    }

    /// This drive, which goes on counting its failures from there: for whoever takes over the count of an
    /// earlier drive.
    pub fn counting_from(self, failures: u64) -> FolderDrive<F>
        ensures counted { meaning_of result
            ≡ counted_from failures (meaning_of self) }
        ensures folder { result.volumes.folder ≡ self.volumes.folder }
    {
        FolderDrive {
            volumes: self.volumes,
            tally: self.tally.counting_from(failures),
        }
    }

    /// The folder.
    pub fn folder(&self) -> &F
        ensures { result.now ≡ self.now.volumes.folder }
    {
        &self.volumes.folder
    }

    /// How often it answered that it is full.
    pub fn told(&self) -> u64
        ensures { result ≡ (meaning_of self.now).told }
    {
        self.tally.told
    }
}

impl<R: Files + Drop> FolderDrive<SystemFolder<R>>
where
    R::File: FileExt,
{
    ghost use Rattle.sd_folder.specs.Place.{folder_named};
    ghost use Rattle.sd_filedrive.specs.Drive.{folder_of, unused};

    /// The drive of the folder at `path`, the current folder if that is empty. The folder is not looked at
    /// before a volume is.
    pub fn new(system: R, alloc: Global, path: &str) -> Result<FileDrive<R>, AllocError>
        ensures unused { IfOk result (λ drive. meaning_of drive ≡ unused) }
        ensures folder { IfOk result (λ drive. folder_of drive ≡ folder_named path.now) }
    {
        let folder = SystemFolder::new(system, alloc, path)?;
        Ok(FolderDrive::of_folder(folder, alloc))
    }
}

impl<F: Folder + Send + Drop> Driver for FolderDrive<F>
where
    F::File: Send,
{
    ghost meaning = { meaning_of };

    fn create(&mut self, name: &VolName) -> Result<(), DriverFault>
        requires { (meaning_of self.old).loaded ≡ None }
        ensures counts { CountsFailures result (meaning_of self.old) (meaning_of self.new) }
        ensures faults { IfErr result
            (λ fault. (fault ≢ DriverFault.NotThere) × (fault ≢ DriverFault.NoRoom)) }
        ensures memory { IsErrOf result DriverFault.Memory
            → Unchanged (meaning_of self.old) (meaning_of self.new) }
        ensures passes { Passes (meaning_of self.old).shelf (meaning_of self.new).shelf }
        ensures stable { KeepsStable (meaning_of self.old).shelf (meaning_of self.new).shelf }
        ensures loaded { OnOk result ((meaning_of self.new).loaded ≡ Some name.now) }
        ensures not_loaded { OnErr result ((meaning_of self.new).loaded ≡ None) }

        ensures ok { IsHonest (meaning_of self.old)
            → OnOk result (Creates name.now (meaning_of self.old).shelf (meaning_of self.new).shelf) }
        ensures err { IsHonest (meaning_of self.old)
            → OnErr result (MayCreate name.now (meaning_of self.old).shelf (meaning_of self.new).shelf) }
        ensures exists { IsHonest (meaning_of self.old)
            → IsErrOf result DriverFault.Exists
            → IsSome ((meaning_of self.old).shelf.volume name.now) }

        // Beyond what every device promises.
        ensures once { CountsOnce (IsErrOf result DriverFault.Device)
            (meaning_of self.old).failures (meaning_of self.new).failures }
        ensures spent { IsSpent (meaning_of self.old).failures → self.new ≡ self.old }
    {
        if self.tally.is_spent() {
            return Err(DriverFault::Device);
        }
        let created = self.volumes.create(name);
        self.tally.answer(created)
    }

    fn load(&mut self, name: &VolName) -> Result<(), DriverFault>
        requires { (meaning_of self.old).loaded ≡ None }
        ensures counts { CountsFailures result (meaning_of self.old) (meaning_of self.new) }
        ensures faults { IfErr result
            (λ fault. (fault ≢ DriverFault.Exists) × (fault ≢ DriverFault.NoRoom)) }
        ensures memory { IsErrOf result DriverFault.Memory
            → Unchanged (meaning_of self.old) (meaning_of self.new) }
        ensures passes { Passes (meaning_of self.old).shelf (meaning_of self.new).shelf }
        ensures stable { KeepsStable (meaning_of self.old).shelf (meaning_of self.new).shelf }
        ensures loaded { OnOk result ((meaning_of self.new).loaded ≡ Some name.now) }
        ensures not_loaded { OnErr result ((meaning_of self.new).loaded ≡ None) }

        ensures ok { IsHonest (meaning_of self.old)
            → OnOk result (IsSome ((meaning_of self.old).shelf.volume name.now)) }
        ensures not_there { IsHonest (meaning_of self.old)
            → IsErrOf result DriverFault.NotThere
            → (meaning_of self.old).shelf.volume name.now ≡ None }
        ensures same { IsHonest (meaning_of self.old)
            → SameShelf (meaning_of self.old).shelf (meaning_of self.new).shelf }

        // Beyond what every device promises.
        ensures once { CountsOnce (IsErrOf result DriverFault.Device)
            (meaning_of self.old).failures (meaning_of self.new).failures }
        ensures spent { IsSpent (meaning_of self.old).failures → self.new ≡ self.old }
    {
        if self.tally.is_spent() {
            return Err(DriverFault::Device);
        }
        let loaded = self.volumes.load(name);
        self.tally.answer(loaded)
    }

    fn unload(&mut self)
        ensures counts { SameCounts (meaning_of self.old) (meaning_of self.new) }
        ensures passes { Passes (meaning_of self.old).shelf (meaning_of self.new).shelf }
        ensures stable { KeepsStable (meaning_of self.old).shelf (meaning_of self.new).shelf }
        ensures loaded { (meaning_of self.new).loaded ≡ None }
        ensures same { IsHonest (meaning_of self.old)
            → SameShelf (meaning_of self.old).shelf (meaning_of self.new).shelf }
    {
        self.volumes.unload();
    }

    fn len(&mut self, name: &VolName) -> Result<u64, DriverFault>
        ensures counts { CountsFailures result (meaning_of self.old) (meaning_of self.new) }
        ensures faults { IfErr result
            (λ fault. (fault ≢ DriverFault.Exists) × (fault ≢ DriverFault.NoRoom)) }
        ensures memory { IsErrOf result DriverFault.Memory
            → Unchanged (meaning_of self.old) (meaning_of self.new) }
        ensures passes { Passes (meaning_of self.old).shelf (meaning_of self.new).shelf }
        ensures stable { KeepsStable (meaning_of self.old).shelf (meaning_of self.new).shelf }
        ensures loaded { (meaning_of self.new).loaded ≡ (meaning_of self.old).loaded }

        ensures ok { IsHonest (meaning_of self.old)
            → IfOk result (λ count. TellsLength name.now count (meaning_of self.old).shelf) }
        ensures not_there { IsHonest (meaning_of self.old)
            → IsErrOf result DriverFault.NotThere
            → (meaning_of self.old).shelf.volume name.now ≡ None }
        ensures same { IsHonest (meaning_of self.old)
            → SameShelf (meaning_of self.old).shelf (meaning_of self.new).shelf }

        // Beyond what every device promises.
        ensures once { CountsOnce (IsErrOf result DriverFault.Device)
            (meaning_of self.old).failures (meaning_of self.new).failures }
        ensures spent { IsSpent (meaning_of self.old).failures → self.new ≡ self.old }
    {
        if self.tally.is_spent() {
            return Err(DriverFault::Device);
        }
        let length = self.volumes.len(name);
        self.tally.answer(length)
    }

    fn read_at(&mut self, name: &VolName, at: u64, into: &mut [u8]) -> Result<usize, DriverFault>
        ensures within { IfOk result (λ count. count ≤ length into.old) }
        ensures counts { CountsFailures result (meaning_of self.old) (meaning_of self.new) }
        ensures faults { IfErr result
            (λ fault. (fault ≢ DriverFault.Exists) × (fault ≢ DriverFault.NoRoom)) }
        ensures memory { IsErrOf result DriverFault.Memory
            → Unchanged (meaning_of self.old) (meaning_of self.new) }
        ensures passes { Passes (meaning_of self.old).shelf (meaning_of self.new).shelf }
        ensures stable { KeepsStable (meaning_of self.old).shelf (meaning_of self.new).shelf }
        ensures loaded { (meaning_of self.new).loaded ≡ (meaning_of self.old).loaded }

        ensures ok { IsHonest (meaning_of self.old)
            → IfOk result (λ count.
            TellsBytes name.now at (length into.old) count into.new (meaning_of self.old).shelf) }
        ensures not_there { IsHonest (meaning_of self.old)
            → IsErrOf result DriverFault.NotThere
            → (meaning_of self.old).shelf.volume name.now ≡ None }
        ensures same { IsHonest (meaning_of self.old)
            → SameShelf (meaning_of self.old).shelf (meaning_of self.new).shelf }

        // Beyond what every device promises.
        ensures once { CountsOnce (IsErrOf result DriverFault.Device)
            (meaning_of self.old).failures (meaning_of self.new).failures }
        ensures spent { IsSpent (meaning_of self.old).failures → self.new ≡ self.old }
    {
        if self.tally.is_spent() {
            return Err(DriverFault::Device);
        }
        let read = self.volumes.read_at(name, at, into);
        self.tally.answer(read)
    }

    fn append(&mut self, bytes: &[u8]) -> Result<(), DriverFault>
        requires { IsSome (meaning_of self.old).loaded }
        ensures counts { CountsFailures result (meaning_of self.old) (meaning_of self.new) }
        ensures faults { IfErr result
            (λ fault. (fault ≡ DriverFault.NoRoom) ⊎ (fault ≡ DriverFault.Device)) }
        ensures memory { IsErrOf result DriverFault.Memory
            → Unchanged (meaning_of self.old) (meaning_of self.new) }
        ensures passes { Passes (meaning_of self.old).shelf (meaning_of self.new).shelf }
        ensures stable { KeepsStable (meaning_of self.old).shelf (meaning_of self.new).shelf }
        ensures loaded { (meaning_of self.new).loaded ≡ (meaning_of self.old).loaded }

        ensures ok { IsHonest (meaning_of self.old) → OnOk result
            (Appends bytes.now (meaning_of self.old).loaded
            (meaning_of self.old).shelf (meaning_of self.new).shelf) }
        ensures err { IsHonest (meaning_of self.old) → OnErr result
            (MayAppend (meaning_of self.old).loaded
            (meaning_of self.old).shelf (meaning_of self.new).shelf) }

        // Beyond what every device promises.
        ensures once { CountsOnce (IsErrOf result DriverFault.Device)
            (meaning_of self.old).failures (meaning_of self.new).failures }
        ensures spent { IsSpent (meaning_of self.old).failures → self.new ≡ self.old }
    {
        if self.tally.is_spent() {
            return Err(DriverFault::Device);
        }
        let appended = self.volumes.append(bytes);
        self.tally.answer(appended)
    }

    fn sync(&mut self) -> Result<(), DriverFault>
        requires { IsSome (meaning_of self.old).loaded }
        ensures counts { CountsFailures result (meaning_of self.old) (meaning_of self.new) }
        ensures faults { IfErr result (λ fault. fault ≡ DriverFault.Device) }
        ensures passes { Passes (meaning_of self.old).shelf (meaning_of self.new).shelf }
        ensures stable { KeepsStable (meaning_of self.old).shelf (meaning_of self.new).shelf }
        ensures loaded { (meaning_of self.new).loaded ≡ (meaning_of self.old).loaded }

        ensures ok { IsHonest (meaning_of self.old) → OnOk result
            (Syncs (meaning_of self.old).loaded (meaning_of self.old).shelf (meaning_of self.new).shelf) }
        ensures err { IsHonest (meaning_of self.old) → OnErr result
            (MaySync (meaning_of self.old).loaded (meaning_of self.old).shelf (meaning_of self.new).shelf) }

        // Beyond what every device promises.
        ensures once { CountsOnce (IsErrOf result DriverFault.Device)
            (meaning_of self.old).failures (meaning_of self.new).failures }
        ensures spent { IsSpent (meaning_of self.old).failures → self.new ≡ self.old }
    {
        if self.tally.is_spent() {
            return Err(DriverFault::Device);
        }
        let synced = self.volumes.sync();
        self.tally.answer(synced)
    }

    fn cut(&mut self, to: u64) -> Result<(), DriverFault>
        requires { IsSome (meaning_of self.old).loaded }
        ensures counts { CountsFailures result (meaning_of self.old) (meaning_of self.new) }
        ensures faults { IfErr result
            (λ fault. fault ≡ DriverFault.Device) }
        ensures memory { IsErrOf result DriverFault.Memory
            → Unchanged (meaning_of self.old) (meaning_of self.new) }
        ensures passes { Passes (meaning_of self.old).shelf (meaning_of self.new).shelf }
        ensures stable { KeepsStableTo to (meaning_of self.old).loaded
            (meaning_of self.old).shelf (meaning_of self.new).shelf }
        ensures loaded { (meaning_of self.new).loaded ≡ (meaning_of self.old).loaded }

        ensures ok { IsHonest (meaning_of self.old) → OnOk result
            (Truncates to (meaning_of self.old).loaded
            (meaning_of self.old).shelf (meaning_of self.new).shelf) }
        ensures err { IsHonest (meaning_of self.old) → OnErr result
            (MayTruncate to (meaning_of self.old).loaded
            (meaning_of self.old).shelf (meaning_of self.new).shelf) }

        // Beyond what every device promises.
        ensures once { CountsOnce (IsErrOf result DriverFault.Device)
            (meaning_of self.old).failures (meaning_of self.new).failures }
        ensures spent { IsSpent (meaning_of self.old).failures → self.new ≡ self.old }
    {
        if self.tally.is_spent() {
            return Err(DriverFault::Device);
        }
        let cut = self.volumes.cut(to);
        self.tally.answer(cut)
    }

    fn failures(&self) -> u64 {
        self.tally.failures
    }
}
