// A spool in a file, as a store.
ghost use Rattle.std.specs.Prelude.{◌≡◌, ◌≢◌, ◌↔◌, ◌≤◌, ◌+◌, ◌++◌, [], codes, length, take, drop, string_bytes, IsOk, IfOk, IfErr, OnOk, OnErr, IsErrOf};
ghost use Rattle.sd_base.specs.Count.{CountsOnce, CountsUp, IsSpent};
ghost use Rattle.sd_spool.specs.Meaning.{IsHonest, CountsFailures, MayAppend, MayClear};
ghost use Rattle.sd_spool.specs.FileSpool.{meaning_of, unused, IsAllOfFile, IsUntouched, KeepsOthers, LaneFilesDiffer, lane_file, name_of, path_of, unused_in, written};

use crate::spool_file::SpoolFile;
use crate::store::{SpoolStore, SpoolStoreFault};
use sd_base::{DriveNo, LaneNo};
use sd_folder::{Folder, FolderFault, SystemFolder};
use std::alloc::{AllocError, Global};
use std::fs::Files;
use std::os::unix::fs::FileExt;

/// A spool in a file of its own. It is honest exactly if its folder is; its failures are counted. A `Device` is
/// answered to each call of the folder that failed, also if out of memory. After an append that failed the same bytes
/// are there, after a clear that failed none is.
#[derive(Drop)]
pub struct FolderSpool<F: Folder + Drop> {
    pub(crate) file: SpoolFile<F>,
    pub(crate) failures: u64,
}

/// A spool in a file of a folder of the system, of which nothing is claimed.
pub type FileSpool<R> = FolderSpool<SystemFolder<R>>;

impl<F: Folder + Drop> FolderSpool<F> {
    ghost use Rattle.sd_folder.specs.Meaning.{IsHonest as IsHonestFolder};
    ghost use Rattle.sd_folder.specs.Place.{IsFileName};
    ghost use Rattle.sd_spool.specs.Opened.{IsWhole};

    /// The spool whose file has that name in a folder. No sync of that file failed. Nothing of the folder is touched before
    /// the first append or clear, which empties a file that an earlier run left. A drop removes the file only if this
    /// spool made it.
    pub fn of_folder(folder: F, name: String) -> FolderSpool<F>
        requires rule { IsFileName (string_bytes name) }
        requires whole { IsHonestFolder (F.meaning folder)
            → IsWhole (string_bytes name) (F.meaning folder) }
        ensures unused { meaning_of result ≡ unused_in (F.meaning folder) }
        ensures untouched { IsUntouched result }
        ensures empty { written result ≡ 0 }
        ensures folder { result.file.folder ≡ folder }
        ensures name { name_of result ≡ string_bytes name }
    {
        FolderSpool {
            file: SpoolFile::new(folder, name),
            failures: 0,
        }
    }
}

impl<R: Files + Drop> FolderSpool<SystemFolder<R>>
where
    R::File: FileExt,
{
    /// The spool of a lane, in the folder at a path, the current folder if that is empty. The file's name is no
    /// volume's, since a `~` is in it.
    pub fn new(
        system: R,
        alloc: Global,
        folder: &str,
        drive: DriveNo,
        lane: LaneNo,
    ) -> Result<FileSpool<R>, AllocError>
        ensures unused { IfOk result (λ spool. meaning_of spool ≡ unused) }
        ensures untouched { IfOk result IsUntouched }
        ensures empty { IfOk result (λ spool. written spool ≡ 0) }
        ensures there { IfOk result (λ spool. folder.now ≢ []
            → path_of spool ≡ folder.now ++ lane_file drive lane) }
        ensures here { IfOk result (λ spool. folder.now ≡ []
            → path_of spool ≡ codes "." ++ lane_file drive lane) }
    {
        let folder = SystemFolder::new(system, alloc, folder)?;
        let (drive, lane) = (drive.get(), lane.get());
        let name = format!(in alloc; "spool~{drive}~{lane}")?;
        Ok(FolderSpool::of_folder(folder, name))
    }
}

impl<F: Folder + Send + Drop> SpoolStore for FolderSpool<F>
where
    F::File: Send,
{
    ghost meaning = { meaning_of };

    fn append(&mut self, bytes: &[u8]) -> Result<(), SpoolStoreFault>
        ensures counts { CountsFailures result (meaning_of self.old) (meaning_of self.new) }
        ensures memory { IsErrOf result SpoolStoreFault.Memory
            → meaning_of self.new ≡ meaning_of self.old }
        ensures ok { IsHonest (meaning_of self.old) → OnOk result
            ((meaning_of self.new).bytes ≡ (meaning_of self.old).bytes ++ bytes.now) }
        ensures err { IsHonest (meaning_of self.old) → OnErr result
            (MayAppend (meaning_of self.old).bytes (meaning_of self.new).bytes) }

        // Beyond what every store promises.
        ensures others { IsHonest (meaning_of self.old) → KeepsOthers self.old self.new }
        ensures once { CountsOnce (IsErrOf result SpoolStoreFault.Device)
            (meaning_of self.old).failures (meaning_of self.new).failures }
        ensures spent { IsSpent (meaning_of self.old).failures → self.new ≡ self.old }
        ensures faults { IfErr result (λ fault. fault ≡ SpoolStoreFault.Device) }
        ensures adds { OnOk result (written self.new ≡ written self.old + length bytes.now) }
        ensures adds_none { OnErr result (written self.new ≡ written self.old) }
        ensures no_more { IsHonest (meaning_of self.old) → OnOk result (IsAllOfFile self.new) }
        ensures stays { IsHonest (meaning_of self.old) → OnErr result
            ((meaning_of self.new).bytes ≡ (meaning_of self.old).bytes) }
    {
        if self.failures == u64::MAX {
            return Err(SpoolStoreFault::Device);
        }
        answer(&mut self.failures, self.file.append(bytes))
    }

    fn read_at(&mut self, at: u64, into: &mut [u8]) -> Result<(), SpoolStoreFault>
        ensures counts { CountsFailures result (meaning_of self.old) (meaning_of self.new) }
        ensures memory { IsErrOf result SpoolStoreFault.Memory
            → meaning_of self.new ≡ meaning_of self.old }
        ensures ok { IsHonest (meaning_of self.old) → OnOk result
            (into.new ≡ take (length into.old) (drop at (meaning_of self.old).bytes)) }
        ensures same { IsHonest (meaning_of self.old)
            → (meaning_of self.new).bytes ≡ (meaning_of self.old).bytes }

        // Beyond what every store promises.
        ensures others { IsHonest (meaning_of self.old) → KeepsOthers self.old self.new }
        ensures once { CountsOnce (IsErrOf result SpoolStoreFault.Device)
            (meaning_of self.old).failures (meaning_of self.new).failures }
        ensures spent { IsSpent (meaning_of self.old).failures → self.new ≡ self.old }
        ensures faults { IfErr result (λ fault. fault ≡ SpoolStoreFault.Device) }
        ensures within { OnOk result (at + length into.old ≤ written self.old) }
        ensures reads { written self.new ≡ written self.old }
    {
        if self.failures == u64::MAX {
            return Err(SpoolStoreFault::Device);
        }
        answer(&mut self.failures, self.file.read_at(at, into))
    }

    fn clear(&mut self) -> Result<(), SpoolStoreFault>
        ensures counts { CountsFailures result (meaning_of self.old) (meaning_of self.new) }
        ensures memory { IsErrOf result SpoolStoreFault.Memory
            → meaning_of self.new ≡ meaning_of self.old }
        ensures ok { IsHonest (meaning_of self.old) → OnOk result
            ((meaning_of self.new).bytes ≡ []) }
        ensures err { IsHonest (meaning_of self.old) → OnErr result
            (MayClear (meaning_of self.old).bytes (meaning_of self.new).bytes) }

        // Beyond what every store promises.
        ensures others { IsHonest (meaning_of self.old) → KeepsOthers self.old self.new }
        ensures once { CountsOnce (IsErrOf result SpoolStoreFault.Device)
            (meaning_of self.old).failures (meaning_of self.new).failures }
        ensures spent { IsSpent (meaning_of self.old).failures → self.new ≡ self.old }
        ensures faults { IfErr result (λ fault. fault ≡ SpoolStoreFault.Device) }
        ensures clears { OnOk result (written self.new ≡ 0) }
        ensures no_more { IsHonest (meaning_of self.old) → OnOk result (IsAllOfFile self.new) }
        ensures none_left { ¬ IsSpent (meaning_of self.old).failures
            → OnErr result (written self.new ≡ 0) }
    {
        if self.failures == u64::MAX {
            return Err(SpoolStoreFault::Device);
        }
        answer(&mut self.failures, self.file.clear())
    }

    fn failures(&self) -> u64 {
        self.failures
    }
}

/// No two lanes have one file.
#[tactic(auto, using(crate::proofs::Files::lane_files_differ))]
pub fn lane_files_differ()
    ensures { LaneFilesDiffer }
{}

// What the folder's answer is to the spool's caller; a failure is counted.
fn answer(failures: &mut u64, answer: Result<(), FolderFault>) -> Result<(), SpoolStoreFault>
    requires { ¬ IsSpent failures.old }
    ensures ok { IsOk result ↔ IsOk answer }
    ensures once { CountsOnce (IsErrOf result SpoolStoreFault.Device) failures.old failures.new }
    ensures failures { CountsUp (IsErrOf result SpoolStoreFault.Device) failures.old failures.new }
    ensures faults { IfErr result (λ fault. fault ≡ SpoolStoreFault.Device) }
{
    match answer {
        Ok(()) => Ok(()),
        Err(_) => {
            *failures = failures.saturating_add(1);
            Err(SpoolStoreFault::Device)
        }
    }
}
