// One volume in memory.
ghost use Rattle.std.specs.Prelude.{◌≡◌, ◌↔◌, ◌≤◌, ◌-◌, [], ◌++◌, length, take, drop, min, IfOk, OnOk, OnErr, IsTrue};

use sd_base::VolName;
use std::alloc::{AllocError, Global};
use std::marker::Model;

/// A volume: its bytes, and how many of them are stable. In a contract it is its name and what it holds.
#[derive(Drop)]
pub struct Stored {
    name: VolName,
    bytes: Vec<u8>,
    stable: usize,
}

impl Model for Stored {
    ghost use Rattle.std.specs.Prelude.{◌≤◌, vec_len};
    ghost use Rattle.sd_memdrive.specs.Volumes.{Volume};

    ghost Value = { Volume };

    ghost view = { λ s. record {
      name = s.name;
      held = record { bytes = s.bytes.items; stable = s.stable };
    } };

    ghost invariant = { λ s. s.stable ≤ vec_len s.bytes };
}

impl Stored {
    /// An empty volume.
    pub fn new(alloc: Global, name: VolName) -> Self
        ensures { result ≡ record { name = name; held = record { bytes = []; stable = 0 } } }
    {
        Stored {
            name,
            bytes: Vec::new(alloc),
            stable: 0,
        }
    }

    /// A volume of stable bytes and a tail that is not stable.
    pub fn left(name: VolName, mut bytes: Vec<u8>, tail: &[u8]) -> Result<Self, AllocError>
        ensures { IfOk result (λ s. s
            ≡ record {
              name = name;
              held = record {
                bytes = bytes.items ++ tail.now;
                stable = length bytes.items;
              };
            }) }
    {
        let stable = bytes.len();
        bytes.extend_from_slice(tail)?;
        Ok(Stored {
            name,
            bytes,
            stable,
        })
    }

    pub fn is_named(&self, name: &VolName) -> bool
        ensures { IsTrue result ↔ (self.now.name ≡ name.now) }
    {
        self.name.is_same(name)
    }

    pub fn name(&self) -> VolName
        ensures { result ≡ self.now.name }
    {
        self.name.copy()
    }

    pub fn len(&self) -> usize
        ensures length { result ≡ length self.now.held.bytes }
        ensures within { self.now.held.stable ≤ result }
    {
        let _ = &self.stable;
        self.bytes.len()
    }

    /// How many bytes are stable.
    pub fn stable(&self) -> usize
        ensures stable { result ≡ self.now.held.stable }
        ensures within { result ≤ length self.now.held.bytes }
    {
        self.stable
    }

    /// The stable bytes from `from` on.
    pub fn stable_from(&self, from: usize) -> &[u8]
        ensures { result.now ≡ drop from (take self.now.held.stable self.now.held.bytes) }
    {
        let stable = &self.bytes[..self.stable];
        &stable[from.min(stable.len())..]
    }

    /// Copies bytes from `at` on into `into`, as far as there is room and as the volume goes.
    pub fn read(&self, at: usize, into: &mut [u8]) -> usize
        ensures count { result ≡ min (length into.old) (length self.now.held.bytes - at) }
        ensures bytes { take result into.new ≡ take result (drop at self.now.held.bytes) }
    {
        let rest = &self.bytes[at.min(self.bytes.len())..];
        let count = into.len().min(rest.len());
        into[..count].copy_from_slice(&rest[..count]);
        count
    }

    /// Adds bytes at the end. Without memory all stays.
    pub fn append(&mut self, bytes: &[u8]) -> Result<(), AllocError>
        ensures ok { OnOk result (self.new ≡ record {
          name = self.old.name;
          held = record {
            bytes = self.old.held.bytes ++ bytes.now;
            stable = self.old.held.stable;
          };
        }) }
        ensures err { OnErr result (self.new ≡ self.old) }
    {
        self.bytes.extend_from_slice(bytes)
    }

    /// Makes all bytes stable.
    pub fn sync(&mut self)
        ensures { self.new ≡ record {
          name = self.old.name;
          held = record {
            bytes = self.old.held.bytes;
            stable = length self.old.held.bytes;
          };
        } }
    {
        self.stable = self.bytes.len();
    }

    /// Takes away what is past `to`.
    pub fn cut(&mut self, to: usize)
        ensures { self.new ≡ record {
          name = self.old.name;
          held = record {
            bytes = take to self.old.held.bytes;
            stable = min to self.old.held.stable;
          };
        } }
    {
        self.bytes.truncate(to);
        self.stable = self.stable.min(to);
    }
}
