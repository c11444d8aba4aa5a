// One file of a folder in memory.
ghost use Rattle.std.specs.Prelude.{◌≡◌, ◌↔◌, ◌≤◌, ◌++◌, false, true, length, take, min, IfOk, OnOk, OnErr, IsTrue};
ghost use Rattle.sd_folder.specs.Meaning.{held_of};
ghost use Rattle.sd_memfolder.specs.Files.{Counts, known_of, left_of, new_file, shown};
ghost use Rattle.sd_memfolder.specs.Change.{after, torn_too};

use crate::left::Left;
use sd_base::{Bytes, VolName};
use std::alloc::{AllocError, Global};
use std::marker::Model;

/// A change of one file.
#[derive(Clone, Copy)]
pub enum Change<'a> {
    /// These bytes at its end.
    Append(&'a [u8]),
    /// The disk has its bytes. The call may be told as failed all the same.
    SyncData { fails: bool },
    /// The disk has its name.
    SyncName,
    /// It ends at that byte, or before.
    Cut(usize),
}

/// A file: its bytes, how many of them the disk has, whether the disk has its name, and whether a sync of it failed. In a
/// contract it is its name and its state.
#[derive(Drop)]
pub struct Stored {
    name: VolName,
    bytes: Vec<u8>,
    written: usize,
    named: bool,
    torn: bool,
}

impl Model for Stored {
    ghost use Rattle.std.specs.Prelude.{◌≤◌, vec_len};
    ghost use Rattle.sd_memfolder.specs.Files.{NamedFile};

    ghost Value = { NamedFile };

    ghost view = { λ s. record {
      name = s.name;
      state = record { bytes = s.bytes.items; written = s.written; named = s.named; torn = s.torn };
    } };

    ghost invariant = { λ s. s.written ≤ vec_len s.bytes };
}

impl Stored {
    /// An empty file, whose name the disk lacks.
    pub fn new(alloc: Global, name: VolName) -> Self
        ensures { result ≡ new_file name }
    {
        Stored {
            name,
            bytes: Vec::new(alloc),
            written: 0,
            named: false,
            torn: false,
        }
    }

    /// A file after a stop: what was left of it, which the disk has, and a tail, which it may lack.
    pub fn after_stop(alloc: Global, left: &Left, tail: &[u8]) -> Result<Self, AllocError>
        ensures { IfOk result (λ s. s
            ≡ record {
              name = left.now.name;
              state = record {
                bytes = left.now.bytes ++ tail.now;
                written = length left.now.bytes;
                named = true;
                torn = false;
              };
            }) }
    {
        let mut bytes = left.bytes.as_slice().to_vec(alloc)?;
        let written = bytes.len();
        bytes.extend_from_slice(tail)?;
        Ok(Stored {
            name: left.name.copy(),
            bytes,
            written,
            named: true,
            torn: false,
        })
    }

    pub fn is_named(&self, name: &VolName) -> bool
        ensures { IsTrue result ↔ (self.now.name ≡ name.now) }
    {
        self.name.is_same(name)
    }

    pub fn len(&self) -> usize
        ensures length { result ≡ length self.now.state.bytes }
        ensures within { self.now.state.written ≤ result }
    {
        let _ = &self.written;
        self.bytes.len()
    }

    /// What a stop now leaves of it.
    pub fn left(&self, alloc: Global) -> Result<Left, AllocError>
        ensures { IfOk result (λ left. left ≡ left_of self.now) }
    {
        let bytes = Bytes::from_slice(alloc, &self.bytes[..self.stable()])?;
        Ok(Left {
            name: self.name.copy(),
            bytes,
        })
    }

    /// Copies bytes from `at` on into `into`, as far as there is room and as one read gives them: after a sync that failed
    /// a read ends where the disk's bytes end, and one past that gives other bytes than were written.
    pub fn read(&self, at: usize, into: &mut [u8]) -> usize
        ensures count { result ≡ min (length into.old) (length (shown at self.now.state)) }
        ensures bytes { take result into.new ≡ take result (shown at self.now.state) }
    {
        let known = self.known();
        if at >= known.len() {
            let count = into.len().min(self.bytes.len().saturating_sub(at));
            into[..count].fill(0);
            return count;
        }
        let rest = &known[at..];
        let count = into.len().min(rest.len());
        into[..count].copy_from_slice(&rest[..count]);
        count
    }

    // The bytes that are read as they were written.
    fn known(&self) -> &[u8]
        ensures { result.now ≡ known_of self.now.state }
    {
        if self.torn {
            &self.bytes[..self.written]
        } else {
            &self.bytes
        }
    }

    /// Makes a change, and says whether it changed the bytes or what a stop leaves of them. Without memory all stays.
    pub fn make(&mut self, change: Change) -> Result<bool, AllocError>
        ensures ok { OnOk result (self.new ≡ record {
          name = self.old.name;
          state = after change.entry self.old.state;
        }) }
        ensures counts { IfOk result (λ counts. Counts counts self.old.state self.new.state) }
        ensures err { OnErr result (self.new ≡ self.old) }
    {
        let (length, stable) = (self.bytes.len(), self.stable());
        self.put(change)?;
        Ok(self.bytes.len() != length || self.stable() != stable)
    }

    /// Notes that a sync of its bytes failed.
    pub fn tear(&mut self)
        ensures { self.new ≡ record {
          name = self.old.name;
          state = torn_too self.old.state;
        } }
    {
        self.torn = true;
    }

    // Makes a change.
    fn put(&mut self, change: Change) -> Result<(), AllocError>
        ensures ok { OnOk result (self.new ≡ record {
          name = self.old.name;
          state = after change.entry self.old.state;
        }) }
        ensures err { OnErr result (self.new ≡ self.old) }
    {
        match change {
            Change::Append(bytes) => self.bytes.extend_from_slice(bytes)?,
            Change::SyncData { fails } => {
                self.written = if self.torn {
                    self.written
                } else {
                    self.bytes.len()
                };
                self.torn = self.torn || fails;
            }
            Change::SyncName => self.named = true,
            Change::Cut(to) => {
                self.bytes.truncate(to);
                self.written = self.written.min(to);
            }
        }
        Ok(())
    }

    // How many bytes a stop leaves.
    fn stable(&self) -> usize
        ensures stable { result ≡ (held_of self.now.state).stable }
        ensures within { result ≤ length self.now.state.bytes }
    {
        let _ = &self.bytes;
        if self.named { self.written } else { 0 }
    }
}
