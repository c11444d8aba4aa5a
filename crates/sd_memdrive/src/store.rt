// The volumes of a drive, and the log of what changed them.
ghost use Rattle.std.specs.Prelude.{◌≡◌, ◌≢◌, ◌+◌, ◌≤◌, ◌<◌, length, [], IfOk, None, Some, OnOk, OnErr, OnSome, IsSome, IfSome, IsTrue, MatchOption, vec_len, vec_capacity};
ghost use Rattle.sd_driver.specs.Shelf.{SameShelf, Passes, KeepsStable, KeepsStableTo, Creates, Appends, Syncs, MaySync, Truncates};
ghost use Rattle.sd_memdrive.specs.ChangeLog.{NoneWithout};
ghost use Rattle.sd_memdrive.specs.Volumes.{volume_of, StandsFirstAt, names_differ, unsynced, SameNames};

use crate::change_log::Change;
use crate::stored::Stored;
use sd_base::{Bytes, VolName};
use std::alloc::{AllocError, Global};

/// The volumes in the order in which they were made, and the changes in theirs. The log has room for a
/// sync of each volume that has bytes to be made stable.
#[derive(Drop)]
pub struct Store {
    pub alloc: Global,
    pub volumes: Vec<Stored>,
    pub changes: Vec<Change>,
    ghost names: { IsTrue (names_differ volumes.items) },
    ghost absent: { NoneWithout volumes.items changes.items },
    ghost room: { vec_len changes + unsynced volumes.items ≤ vec_capacity changes },
}

impl Store {
    ghost use Rattle.sd_memdrive.specs.Drive.{store_shelf};

    pub fn new(alloc: Global) -> Store
        ensures volumes { (name : _) → (store_shelf result).volume name ≡ None }
        ensures moment { (store_shelf result).moment ≡ 0 }
    {
        Store {
            alloc,
            volumes: Vec::new(alloc),
            changes: Vec::new(alloc),
        }
    }

    /// A store of these volumes, with no change yet.
    pub fn of(alloc: Global, volumes: Vec<Stored>) -> Result<Store, AllocError>
        requires { IsTrue (names_differ volumes.items) }
        ensures volumes { IfOk result (λ store. store.volumes.items ≡ volumes.items) }
        ensures changes { IfOk result (λ store. store.changes.items ≡ []) }
    {
        let mut changes = Vec::new(alloc);
        changes.reserve(volumes.len())?;
        Ok(Store {
            alloc,
            volumes,
            changes,
        })
    }

    /// Where the volume of a name lies.
    pub fn index_of(&self, name: &VolName) -> Option<usize>
        ensures place { MatchOption result (volume_of self.now.volumes.items name.now ≡ None)
            (λ place. StandsFirstAt name.now self.now.volumes.items place) }
        ensures within { IfSome result (λ place. place < vec_len self.now.volumes) }
        ensures there { OnSome result (IsSome (volume_of self.now.volumes.items name.now)) }
    {
        first_named(&self.volumes, name)
    }

    /// A new empty volume.
    pub fn create(&mut self, name: &VolName) -> Result<(), AllocError>
        requires { volume_of self.old.volumes.items name.now ≡ None }
        ensures passes { Passes (store_shelf self.old) (store_shelf self.new) }
        ensures stable { KeepsStable (store_shelf self.old) (store_shelf self.new) }
        ensures ok { OnOk result (Creates name.now (store_shelf self.old) (store_shelf self.new)) }
        ensures err { OnErr result (SameShelf (store_shelf self.old) (store_shelf self.new)) }
    {
        self.changes.reserve(self.volumes.len() + 1)?;
        self.volumes.push(Stored::new(self.alloc, name.copy()))?;
        let lost = Bytes::new(self.alloc);
        self.changes
            .push(Change {
                name: name.copy(),
                stable: 0,
                lost,
            })
            .unwrap();
        Ok(())
    }

    /// Bytes at the end of a volume, which are not stable. Makes room for the sync that will make them so.
    pub fn append(&mut self, name: &VolName, place: usize, bytes: &[u8]) -> Result<(), AllocError>
        requires { StandsFirstAt name.now self.old.volumes.items place }
        ensures passes { Passes (store_shelf self.old) (store_shelf self.new) }
        ensures stable { KeepsStable (store_shelf self.old) (store_shelf self.new) }
        ensures ok { OnOk result
            (Appends bytes.now (Some name.now) (store_shelf self.old) (store_shelf self.new)) }
        ensures err { OnErr result (SameShelf (store_shelf self.old) (store_shelf self.new)) }
        ensures names { SameNames self.old.volumes.items self.new.volumes.items }
    {
        if bytes.is_empty() {
            return Ok(());
        }
        self.changes.reserve(self.volumes.len() + 1)?;
        let volume = &mut self.volumes[place];
        let stable = volume.stable();
        volume.append(bytes)?;
        let lost = Bytes::new(self.alloc);
        self.changes
            .push(Change {
                name: name.copy(),
                stable,
                lost,
            })
            .unwrap();
        Ok(())
    }

    /// Makes all bytes of a volume stable; takes no memory.
    pub fn sync(&mut self, name: &VolName, place: usize)
        requires { StandsFirstAt name.now self.old.volumes.items place }
        ensures passes { Passes (store_shelf self.old) (store_shelf self.new) }
        ensures stable { KeepsStable (store_shelf self.old) (store_shelf self.new) }
        ensures ok { Syncs (Some name.now) (store_shelf self.old) (store_shelf self.new) }
        ensures may { MaySync (Some name.now) (store_shelf self.old) (store_shelf self.new) }
        ensures names { SameNames self.old.volumes.items self.new.volumes.items }
    {
        let volume = &mut self.volumes[place];
        let stable = volume.stable();
        if stable == volume.len() {
            return;
        }
        volume.sync();
        let lost = Bytes::new(self.alloc);
        self.changes
            .push(Change {
                name: name.copy(),
                stable,
                lost,
            })
            .unwrap();
    }

    /// Takes away what is past `to` of a volume. The log keeps what of it was stable.
    pub fn cut(&mut self, name: &VolName, place: usize, to: usize) -> Result<(), AllocError>
        requires { StandsFirstAt name.now self.old.volumes.items place }
        ensures passes { Passes (store_shelf self.old) (store_shelf self.new) }
        ensures stable { KeepsStableTo to (Some name.now)
            (store_shelf self.old) (store_shelf self.new) }
        ensures ok { OnOk result
            (Truncates to (Some name.now) (store_shelf self.old) (store_shelf self.new)) }
        ensures err { OnErr result (SameShelf (store_shelf self.old) (store_shelf self.new)) }
        ensures names { SameNames self.old.volumes.items self.new.volumes.items }
    {
        self.changes.reserve(self.volumes.len() + 1)?;
        let volume = &mut self.volumes[place];
        if to >= volume.len() {
            return Ok(());
        }
        let stable = volume.stable();
        let lost = Bytes::from_slice(self.alloc, volume.stable_from(to))?;
        volume.cut(to);
        self.changes
            .push(Change {
                name: name.copy(),
                stable,
                lost,
            })
            .unwrap();
        Ok(())
    }
}

// Where the first volume of a name lies.
fn first_named(volumes: &[Stored], name: &VolName) -> Option<usize>
    ensures place { MatchOption result (volume_of volumes.now name.now ≡ None)
        (λ place. StandsFirstAt name.now volumes.now place) }
    ensures within { IfSome result (λ place. place < length volumes.now) }
    ensures there { OnSome result (IsSome (volume_of volumes.now name.now)) }
{
    for (place, stored) in volumes.iter().enumerate() {
        if stored.is_named(name) {
            return Some(place);
        }
    }
    None
}
