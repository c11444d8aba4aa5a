// One folder, and the files in it.
ghost use Rattle.std.specs.Prelude.{◌≡◌, ◌≢◌, ◌↔◌, ◌≤◌, ◌⊎◌, ℕ, List, None, length, IfOk, IfErr, OnOk, OnErr, IsSome, IsTrue, IsErrOf};
ghost use Rattle.sd_folder.specs.Meaning.{FolderMeaning, IsHonest, Goes, SameFiles, Stands};
ghost use Rattle.sd_folder.specs.Place.{IsFileName};
ghost use Rattle.sd_folder.specs.Steps.{Makes, MayMake, EndsAt, TellsEnd, Reads, Adds, MayAdd, SyncsData, MaySyncData, SyncsName, MaySyncName, Cuts, MayCut, Removes, MayRemove};

/// Why a call of the file system failed.
#[derive(Clone, Copy, Debug, PartialEq, Eq)]
pub enum FolderFault {
    /// Nothing has that name (open).
    NotThere,
    /// A regular file has that name (create).
    Exists,
    /// No space, no quota, or the greatest size of a file (append).
    Full,
    /// A signal came, and nothing was read (read_at).
    Interrupted,
    /// Out of memory, and nothing happened (create, open).
    Memory,
    /// All else: also a link, a folder or anything but a regular file of that name.
    Failed,
}

/// What an opened file is used for.
#[derive(Clone, Copy, Debug, PartialEq, Eq)]
pub enum Access {
    Read,
    ReadWrite,
}

/// A folder. Its meaning says what it is: the files by name, what a stop leaves of each, and whether it is honest.
/// An honest one does what its calls answer, if nobody else changes its files. Of any other nothing is known.
pub trait Folder {
    /// A file that is open.
    type File: Drop;

    ghost meaning: { Self → FolderMeaning };

    /// The name under which a file was opened.
    ghost name_of: { Self.File → List ℕ };

    /// A new empty file, open to be read and written: `open` with `O_CREAT` and `O_EXCL`.
    fn create(&mut self, name: &str) -> Result<Self::File, FolderFault>
        requires { IsFileName name.now }
        ensures goes { Goes (meaning self.old) (meaning self.new) }
        ensures faults { IfErr result
            (λ fault. (fault ≢ FolderFault.NotThere) × (fault ≢ FolderFault.Full)) }
        ensures file { IsHonest (meaning self.old)
            → IfOk result (λ file. name_of file ≡ name.now) }
        ensures ok { IsHonest (meaning self.old)
            → OnOk result (Makes name.now (meaning self.old) (meaning self.new)) }
        ensures err { IsHonest (meaning self.old)
            → OnErr result (MayMake name.now (meaning self.old) (meaning self.new)) }
        ensures exists { IsHonest (meaning self.old)
            → IsErrOf result FolderFault.Exists
            → IsSome ((meaning self.old).file name.now) }
        ensures memory { IsHonest (meaning self.old)
            → IsErrOf result FolderFault.Memory
            → SameFiles (meaning self.old) (meaning self.new) };

    /// Opens a regular file: `open`.
    fn open(&mut self, name: &str, access: Access) -> Result<Self::File, FolderFault>
        requires { IsFileName name.now }
        ensures goes { Goes (meaning self.old) (meaning self.new) }
        ensures faults { IfErr result
            (λ fault. (fault ≢ FolderFault.Exists) × (fault ≢ FolderFault.Full)) }
        ensures file { IsHonest (meaning self.old)
            → IfOk result (λ file. name_of file ≡ name.now) }
        ensures ok { IsHonest (meaning self.old)
            → OnOk result (IsSome ((meaning self.old).file name.now)) }
        ensures not_there { IsHonest (meaning self.old)
            → IsErrOf result FolderFault.NotThere
            → (meaning self.old).file name.now ≡ None }
        ensures same { IsHonest (meaning self.old)
            → SameFiles (meaning self.old) (meaning self.new) };

    /// Whether the name under which a file was opened is that of this file still: `lstat` and `fstat`, whose
    /// devices and numbers are compared.
    fn is_there(&mut self, file: &Self::File) -> Result<bool, FolderFault>
        ensures goes { Goes (meaning self.old) (meaning self.new) }
        ensures faults { IfErr result (λ fault. fault ≡ FolderFault.Failed) }
        ensures ok { IsHonest (meaning self.old)
            → IfOk result (λ is. IsTrue is
            ↔ IsSome ((meaning self.old).file (name_of file.now))) }
        ensures same { IsHonest (meaning self.old)
            → SameFiles (meaning self.old) (meaning self.new) };

    /// The length of a file, in bytes: `fstat`.
    fn len(&mut self, file: &Self::File) -> Result<u64, FolderFault>
        ensures goes { Goes (meaning self.old) (meaning self.new) }
        ensures faults { IfErr result (λ fault. fault ≡ FolderFault.Failed) }
        ensures ok { IsHonest (meaning self.old)
            → IfOk result (λ end. TellsEnd (name_of file.now) end (meaning self.old)) }
        ensures same { IsHonest (meaning self.old)
            → SameFiles (meaning self.old) (meaning self.new) };

    /// Some bytes of a file from the one at `at` on, none only at its end or if there is no room: one `pread`. After
    /// a fault `into` may hold anything.
    fn read_at(&mut self, file: &Self::File, at: u64, into: &mut [u8]) -> Result<usize, FolderFault>
        ensures within { IfOk result (λ count. count ≤ length into.old) }
        ensures goes { Goes (meaning self.old) (meaning self.new) }
        ensures faults { IfErr result (λ fault.
            (fault ≡ FolderFault.Interrupted) ⊎ (fault ≡ FolderFault.Failed)) }
        ensures ok { IsHonest (meaning self.old)
            → IfOk result (λ count.
            Reads (name_of file.now) at (length into.old) count into.new (meaning self.old)) }
        ensures same { IsHonest (meaning self.old)
            → SameFiles (meaning self.old) (meaning self.new) };

    /// Bytes at the end of a file, which is at `at`: `pwrite`, till all are written or one fails.
    fn append(&mut self, file: &Self::File, at: u64, bytes: &[u8]) -> Result<(), FolderFault>
        requires { IsHonest (meaning self.old) → EndsAt (name_of file.now) at (meaning self.old) }
        ensures goes { Goes (meaning self.old) (meaning self.new) }
        ensures faults { IfErr result (λ fault.
            (fault ≡ FolderFault.Full) ⊎ (fault ≡ FolderFault.Failed)) }
        ensures ok { IsHonest (meaning self.old) → OnOk result
            (Adds (name_of file.now) bytes.now (meaning self.old) (meaning self.new)) }
        ensures err { IsHonest (meaning self.old) → OnErr result
            (MayAdd (name_of file.now) (meaning self.old) (meaning self.new)) };

    /// Has the disk have the bytes of a file: `fdatasync`. If that fails the file is torn: what the disk may lack
    /// may be read as anything, and no later sync shows that the disk has it.
    fn sync_data(&mut self, file: &Self::File) -> Result<(), FolderFault>
        ensures goes { Goes (meaning self.old) (meaning self.new) }
        ensures faults { IfErr result (λ fault. fault ≡ FolderFault.Failed) }
        ensures ok { IsHonest (meaning self.old) → OnOk result
            (SyncsData (name_of file.now) (meaning self.old) (meaning self.new)) }
        ensures err { IsHonest (meaning self.old) → OnErr result
            (MaySyncData (name_of file.now) (meaning self.old) (meaning self.new)) };

    /// Has the disk have the name of a file: `fsync` of the folder. The disk may have other names by that too, which
    /// is not told.
    fn sync_name(&mut self, file: &Self::File) -> Result<(), FolderFault>
        ensures goes { Goes (meaning self.old) (meaning self.new) }
        ensures faults { IfErr result (λ fault. fault ≡ FolderFault.Failed) }
        ensures ok { IsHonest (meaning self.old) → OnOk result
            (SyncsName (name_of file.now) (meaning self.old) (meaning self.new)) }
        ensures err { IsHonest (meaning self.old) → OnErr result
            (MaySyncName (name_of file.now) (meaning self.old) (meaning self.new)) };

    /// Takes away what is past the byte at `to` of a file, which goes on past that or ends there: `ftruncate`.
    fn cut(&mut self, file: &Self::File, to: u64) -> Result<(), FolderFault>
        ensures goes { Goes (meaning self.old) (meaning self.new) }
        ensures faults { IfErr result (λ fault. fault ≡ FolderFault.Failed) }
        ensures ok { IsHonest (meaning self.old) → OnOk result
            (Cuts (name_of file.now) to (meaning self.old) (meaning self.new)) }
        ensures err { IsHonest (meaning self.old) → OnErr result
            (MayCut (name_of file.now) to (meaning self.old) (meaning self.new)) };

    /// Takes a file away, unless its name is another file's by now: `lstat`, `fstat` and `unlink`. A folder that
    /// has no such call answers `Failed`.
    fn remove(&mut self, file: &Self::File) -> Result<(), FolderFault>
        ensures goes { Goes (meaning self.old) (meaning self.new) }
        ensures faults { IfErr result (λ fault. fault ≡ FolderFault.Failed) }
        ensures ok { IsHonest (meaning self.old) → OnOk result
            (Removes (name_of file.now) (meaning self.old) (meaning self.new)) }
        ensures err { IsHonest (meaning self.old) → OnErr result
            (MayRemove (name_of file.now) (meaning self.old) (meaning self.new)) }
    {
        let _ = file;
        Err(FolderFault::Failed)
    }

    /// A stop now leaves of each file what the disk has of it, and that is no more than was written.
    ghost stands: { (folder : Self) → IsHonest (meaning folder) → Stands (meaning folder) };
}
