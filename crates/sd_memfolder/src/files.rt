// The files of a folder in memory, and what a stop left of them at each moment.
ghost use Rattle.std.specs.Prelude.{◌≡◌, ◌<◌, map, vec_len, vec_capacity, length, [], IfOk, None, OnOk, OnErr, OnSome, IsSome, IfSome, MatchOption};
ghost use Rattle.std.specs.List.{filter_map};
ghost use Rattle.sd_folder.specs.Meaning.{Goes, SameFiles};
ghost use Rattle.sd_folder.specs.Steps.{Makes, Takes};
ghost use Rattle.sd_memfolder.specs.Files.{AllDiffer, AllDiffer-prop, AllWithin, AllWithin-prop, AreSound, Differ, Differ-prop, file_of, left_at, left_file, noted, StandsFirstAt};
ghost use Rattle.sd_memfolder.specs.Change.{after, torn_too};

use crate::left::{Left, files_after, left_all};
use crate::stored::{Change, Stored};
use sd_base::{Items, VolName};
use std::alloc::{AllocError, Global};

/// The files in the order in which they were made, and what a stop left before each call that counted, oldest first.
#[derive(Drop)]
pub struct Files {
    pub alloc: Global,
    pub files: Vec<Stored>,
    pub past: Vec<Items<Left>>,
    ghost differ: { Differ (map (λ f. f.name) files.items) } by { Differ-prop (map (λ f. f.name) files.items) },
    ghost within: { AllWithin files.items } by { AllWithin-prop files.items },
    ghost were: { AllDiffer past.items } by { AllDiffer-prop past.items },
}

impl Files {
    ghost use Rattle.sd_memfolder.specs.Folder.{files_folder};

    /// These files, of which no call was made yet.
    pub fn of(alloc: Global, files: Vec<Stored>) -> Files
        requires { AreSound files.items [] }
        ensures files { result.files.items ≡ files.items }
        ensures past { result.past.items ≡ [] }
    {
        Files {
            alloc,
            files,
            past: Vec::new(alloc),
        }
    }

    /// Where the file of a name lies.
    pub fn find(&self, name: &VolName) -> Option<usize>
        ensures place { MatchOption result (file_of self.now.files.items name.now ≡ None)
            (λ place. StandsFirstAt name.now self.now.files.items place) }
        ensures within { IfSome result (λ place. place < vec_len self.now.files) }
        ensures there { OnSome result (IsSome (file_of self.now.files.items name.now)) }
    {
        first_named(&self.files, name)
    }

    /// A new empty file, whose name the disk lacks.
    pub fn create(&mut self, name: &VolName) -> Result<(), AllocError>
        requires { file_of self.old.files.items name.now ≡ None }
        ensures goes { Goes (files_folder self.old) (files_folder self.new) }
        ensures ok { OnOk result (Makes name.now (files_folder self.old) (files_folder self.new)) }
        ensures err { OnErr result (SameFiles (files_folder self.old) (files_folder self.new)) }
    {
        let left = left_all(self.alloc, &self.files)?;
        self.past.reserve(1)?;
        self.files.push(Stored::new(self.alloc, name.copy()))?;
        self.past.push(left).unwrap();
        Ok(())
    }

    /// Changes a file. It counts if that changed its bytes, or what a stop leaves of them.
    pub fn change(&mut self, name: &VolName, place: usize, change: Change) -> Result<(), AllocError>
        requires { StandsFirstAt name.now self.old.files.items place }
        ensures goes { Goes (files_folder self.old) (files_folder self.new) }
        ensures ok { OnOk result (Takes (λ state next. next ≡ after change.entry state) name.now
            (files_folder self.old) (files_folder self.new)) }
        ensures err { OnErr result (SameFiles (files_folder self.old) (files_folder self.new)) }
    {
        let left = left_all(self.alloc, &self.files)?;
        self.past.reserve(1)?;
        let file = &mut self.files[place];
        let counts = file.make(change)?;
        note(&mut self.past, left, counts);
        Ok(())
    }

    /// Notes that a sync of a file failed.
    pub fn tear(&mut self, name: &VolName, place: usize)
        requires { StandsFirstAt name.now self.old.files.items place }
        ensures goes { Goes (files_folder self.old) (files_folder self.new) }
        ensures ok { Takes (λ state next. next ≡ torn_too state) name.now
            (files_folder self.old) (files_folder self.new) }
    {
        let _ = name;
        let file = &mut self.files[place];
        file.tear();
    }

    /// The files after a stop that came after the first `calls` calls that counted: those of which it left a byte, each
    /// with a tail that the disk may lack.
    pub fn after_stop(&self, alloc: Global, calls: usize, tail: &[u8]) -> Result<Files, AllocError>
        ensures files { IfOk result (λ after. after.files.items ≡ filter_map (left_file tail.now)
            (left_at self.now.files.items self.now.past.items calls)) }
        ensures past { IfOk result (λ after. after.past.items ≡ []) }
    {
        let files = self.left_files(alloc, calls, tail)?;
        Ok(Files::of(alloc, files))
    }

    fn left_files(
        &self,
        alloc: Global,
        calls: usize,
        tail: &[u8],
    ) -> Result<Vec<Stored>, AllocError>
        ensures { IfOk result (λ files. files.items ≡ filter_map (left_file tail.now)
            (left_at self.now.files.items self.now.past.items calls)) }
    {
        match self.past.get(calls) {
            Some(left) => files_after(alloc, left.as_slice(), tail),
            None => {
                let left = left_all(alloc, &self.files)?;
                files_after(alloc, left.as_slice(), tail)
            }
        }
    }
}

// Notes what a stop left before a call, if that call counts.
fn note(past: &mut Vec<Items<Left>>, left: Items<Left>, counts: bool)
    requires { vec_len past.old < vec_capacity past.old }
    ensures { past.new.items ≡ noted counts left past.old.items }
{
    if counts {
        past.push(left).unwrap();
    }
}

// Where the first file of a name lies.
fn first_named(files: &[Stored], name: &VolName) -> Option<usize>
    ensures place { MatchOption result (file_of files.now name.now ≡ None)
        (λ place. StandsFirstAt name.now files.now place) }
    ensures within { IfSome result (λ place. place < length files.now) }
    ensures there { OnSome result (IsSome (file_of files.now name.now)) }
{
    for (place, stored) in files.iter().enumerate() {
        if stored.is_named(name) {
            return Some(place);
        }
    }
    None
}
