// A folder in memory.
ghost use Rattle.std.specs.Prelude.{◌≡◌, ◌≤◌, [], None, IfOk, take};

use crate::call::{Call, Fail};
use crate::files::Files;
use crate::stored::Change;
use sd_base::VolName;
use sd_folder::{Access, Folder, FolderFault};
use sd_plan::{Plan, part};
use std::alloc::{AllocError, Global};

/// A file that was opened: its name.
#[derive(Drop)]
pub struct MemoryFile {
    name: VolName,
}

/// A folder in memory. It is honest, and its calls fail as its plan says. Each file has room for `capacity` bytes, and an
/// append that finds less writes what there is room for.
///
/// Nothing lasts at once: a name from its sync on, bytes from theirs. Each call that changes a file's bytes, or what a stop
/// leaves of them, counts, and the folder notes what a stop before it left: a copy of all that the disk had. A sync of
/// bytes that fails by plan tears its file: what the disk may lack is read as zeros from then on, and no later sync has the
/// disk have it. Names are those that volumes have; any other is `Failed`.
#[derive(Drop)]
pub struct MemoryFolder {
    files: Files,
    capacity: u64,
    plan: Plan<Call>,
}

impl MemoryFolder {
    ghost use Rattle.sd_driver.specs.Shelf.{AfterStop};
    ghost use Rattle.sd_folder.specs.Meaning.{NoneTorn, shelf_of};
    ghost use Rattle.sd_memfolder.specs.Files.{state_after};
    ghost use Rattle.sd_memfolder.specs.Memory.{meaning_of, plan_of, capacity_of, NoneCounted};

    /// A folder with no file.
    pub fn new(alloc: Global, capacity: u64, plan: &[Fail]) -> Result<MemoryFolder, AllocError>
        ensures empty { IfOk result (λ folder. (name : _) → (meaning_of folder).file name ≡ None) }
        ensures moment { IfOk result (λ folder. (meaning_of folder).moment ≡ 0) }
        ensures whole { IfOk result (λ folder. NoneTorn (meaning_of folder)) }
        ensures capacity { IfOk result (λ folder. capacity_of folder ≡ capacity) }
        ensures plan { IfOk result (λ folder. plan_of folder ≡ plan.now) }
        ensures counted { IfOk result NoneCounted }
    {
        Ok(MemoryFolder {
            files: Files::of(alloc, Vec::new(alloc)),
            capacity,
            plan: Plan::new(plan.to_vec(alloc)?),
        })
    }

    /// How many calls counted.
    pub fn calls(&self) -> u64
        ensures { result ≡ (meaning_of self.now).moment }
    {
        self.files.past.len() as u64
    }

    /// The folder after a stop that came after the first `calls` calls that counted: of each file the bytes that the disk
    /// had then, under a name that it had, and after them `tail`, which it may lack. Any other file is missing. No plan is
    /// left.
    pub fn after_stop(
        &self,
        alloc: Global,
        calls: u64,
        tail: &[u8],
    ) -> Result<MemoryFolder, AllocError>
        requires { calls ≤ (meaning_of self.now).moment }
        ensures left { IfOk result (λ folder. (name : _) → (meaning_of folder).file name
            ≡ state_after ((meaning_of self.now).kept calls name) tail.now) }
        ensures moment { IfOk result (λ folder. (meaning_of folder).moment ≡ 0) }
        ensures whole { IfOk result (λ folder. NoneTorn (meaning_of folder)) }
        ensures stop { IfOk result (λ folder.
            AfterStop calls (shelf_of (meaning_of self.now)) (shelf_of (meaning_of folder))) }
        ensures capacity { IfOk result (λ folder. capacity_of folder ≡ capacity_of self.now) }
        ensures plan { IfOk result (λ folder. plan_of folder ≡ []) }
        ensures counted { IfOk result NoneCounted }
    {
        Ok(MemoryFolder {
            files: self.files.after_stop(alloc, calls as usize, tail)?,
            capacity: self.capacity,
            plan: Plan::new(Vec::new(alloc)),
        })
    }
}

impl Folder for MemoryFolder {
    ghost use Rattle.sd_memfolder.specs.Memory.{meaning_of, memory_stands};

    type File = MemoryFile;

    ghost meaning = { meaning_of };

    ghost name_of = { λ file. file.name };

    fn create(&mut self, name: &str) -> Result<MemoryFile, FolderFault> {
        let due = self.plan.begin(Call::Create, FolderFault::Failed)?;
        let Ok(name) = VolName::parse(name) else {
            return Err(FolderFault::Failed);
        };
        let None = self.files.find(&name) else {
            return Err(FolderFault::Exists);
        };
        let Ok(()) = self.files.create(&name) else {
            return Err(FolderFault::Memory);
        };
        self.plan.finish(due, FolderFault::Failed)?;
        Ok(MemoryFile { name })
    }

    fn open(&mut self, name: &str, _access: Access) -> Result<MemoryFile, FolderFault> {
        let due = self.plan.begin(Call::Open, FolderFault::Failed)?;
        let Ok(name) = VolName::parse(name) else {
            return Err(FolderFault::Failed);
        };
        let Some(_) = self.files.find(&name) else {
            return Err(FolderFault::NotThere);
        };
        self.plan.finish(due, FolderFault::Failed)?;
        Ok(MemoryFile { name })
    }

    fn is_there(&mut self, file: &MemoryFile) -> Result<bool, FolderFault> {
        let due = self.plan.begin(Call::Look, FolderFault::Failed)?;
        let is_there = self.files.find(&file.name).is_some();
        self.plan.finish(due, FolderFault::Failed)?;
        Ok(is_there)
    }

    fn len(&mut self, file: &MemoryFile) -> Result<u64, FolderFault> {
        let due = self.plan.begin(Call::Look, FolderFault::Failed)?;
        let Some(place) = self.files.find(&file.name) else {
            return Err(FolderFault::Failed);
        };
        self.plan.finish(due, FolderFault::Failed)?;
        Ok(self.files.files[place].len() as u64)
    }

    fn read_at(
        &mut self,
        file: &MemoryFile,
        at: u64,
        into: &mut [u8],
    ) -> Result<usize, FolderFault> {
        let due = self.plan.begin(Call::Read, FolderFault::Failed)?;
        let Some(place) = self.files.find(&file.name) else {
            return Err(FolderFault::Failed);
        };
        self.plan.finish(due, FolderFault::Failed)?;
        Ok(self.files.files[place].read(at as usize, into))
    }

    fn append(&mut self, file: &MemoryFile, _at: u64, bytes: &[u8]) -> Result<(), FolderFault> {
        let due = self.plan.begin(Call::Append, FolderFault::Failed)?;
        let Some(place) = self.files.find(&file.name) else {
            return Err(FolderFault::Failed);
        };
        let bytes = part(due, bytes);
        let room = self
            .capacity
            .saturating_sub(self.files.files[place].len() as u64);
        let fitting = fitting(room, bytes);
        let Ok(()) = self
            .files
            .change(&file.name, place, Change::Append(fitting))
        else {
            return Err(FolderFault::Failed);
        };
        if fitting.len() < bytes.len() {
            return Err(FolderFault::Full);
        }
        self.plan.finish(due, FolderFault::Failed)
    }

    fn sync_data(&mut self, file: &MemoryFile) -> Result<(), FolderFault> {
        let begun = self.plan.begin(Call::Sync, FolderFault::Failed);
        let Some(place) = self.files.find(&file.name) else {
            return Err(FolderFault::Failed);
        };
        let Ok(due) = begun else {
            self.files.tear(&file.name, place);
            return Err(FolderFault::Failed);
        };
        let change = Change::SyncData {
            fails: due.is_some(),
        };
        let Ok(()) = self.files.change(&file.name, place, change) else {
            return Err(FolderFault::Failed);
        };
        self.plan.finish(due, FolderFault::Failed)
    }

    fn sync_name(&mut self, file: &MemoryFile) -> Result<(), FolderFault> {
        let due = self.plan.begin(Call::Sync, FolderFault::Failed)?;
        let Some(place) = self.files.find(&file.name) else {
            return Err(FolderFault::Failed);
        };
        let Ok(()) = self.files.change(&file.name, place, Change::SyncName) else {
            return Err(FolderFault::Failed);
        };
        self.plan.finish(due, FolderFault::Failed)
    }

    fn cut(&mut self, file: &MemoryFile, to: u64) -> Result<(), FolderFault> {
        let due = self.plan.begin(Call::Cut, FolderFault::Failed)?;
        let Some(place) = self.files.find(&file.name) else {
            return Err(FolderFault::Failed);
        };
        let Ok(()) = self
            .files
            .change(&file.name, place, Change::Cut(to as usize))
        else {
            return Err(FolderFault::Failed);
        };
        self.plan.finish(due, FolderFault::Failed)
    }

    ghost stands = { memory_stands };
}

// As many of these bytes as there is room for.
fn fitting(room: u64, bytes: &[u8]) -> &[u8]
    ensures { result.now ≡ take room bytes.now }
{
    &bytes[..bytes.len().min(room as usize)]
}
