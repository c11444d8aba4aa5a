// A drive in memory, as a device.
ghost use Rattle.std.specs.Prelude.{◌≡◌, ◌≢◌, ◌↔◌, ◌≤◌, ◌<◌, ◌⊎◌, None, Some, IfOk, IfErr, OnOk, OnErr, IsSome, IsTrue, IsErrOf, ◌+◌, length, [], vec_len};
ghost use Rattle.std.specs.Option.{ForSome};
ghost use Rattle.sd_memdrive.specs.Volumes.{volume_of, StandsFirstAt};

use crate::stop::left_all;
use crate::store::Store;
use crate::stored::Stored;
use sd_base::VolName;
use sd_driver::{Driver, DriverFault};
use sd_plan::{Call, DriveFail as Fail, Plan, part};
use std::alloc::{AllocError, Global};

/// A drive in memory. Each volume has room for `capacity` bytes; calls fail as the plan says. It is honest.
///
/// It keeps a log of the calls that changed its shelf, each with the volume's name and two numbers
/// (about 200 bytes), and of the stable bytes that a cut took away a copy. Bytes that no cut takes away are
/// stored once.
#[derive(Drop)]
pub struct MemDrive {
    store: Store,
    capacity: u64,
    loaded: Option<VolName>,
    told: u64,
    plan: Plan<Call>,
    ghost there: { ForSome loaded (λ name. volume_of store.volumes.items name ≢ None) },
}

impl MemDrive {
    ghost use Rattle.sd_driver.specs.Shelf.{AfterStop};
    ghost use Rattle.sd_memdrive.specs.ChangeLog.{left_of};
    ghost use Rattle.sd_memdrive.specs.Drive.{meaning_of, IsUnused, plan_of, capacity_of, NoneCounted};

    /// A drive with no volume, with room for `capacity` bytes in each that will be made. Its calls fail as
    /// `plan` says.
    pub fn new(alloc: Global, capacity: u64, plan: &[Fail]) -> Result<MemDrive, AllocError>
        ensures unused { IfOk result (λ drive. IsUnused (meaning_of drive)) }
        ensures empty { IfOk result (λ drive.
            (name : _) → (meaning_of drive).shelf.volume name ≡ None) }
        ensures capacity { IfOk result (λ drive. capacity_of drive ≡ capacity) }
        ensures plan { IfOk result (λ drive. plan_of drive ≡ plan.now) }
        ensures counted { IfOk result NoneCounted }
    {
        Ok(MemDrive {
            store: Store::new(alloc),
            capacity,
            loaded: None,
            told: 0,
            plan: Plan::new(plan.to_vec(alloc)?),
        })
    }

    /// How many calls changed the shelf: each create, append, sync and cut that changed a name, bytes or a
    /// stable length.
    pub fn calls(&self) -> u64
        ensures { result ≡ (meaning_of self.now).shelf.moment }
    {
        self.store.changes.len() as u64
    }

    /// The drive after a stop that came after the first `calls` of them: each volume has the bytes that were
    /// stable then, followed by `tail`, which is not stable; those with no stable byte are missing. Nothing
    /// is loaded, and no plan is left. Costs what it copies, and a look at each later entry of the log
    /// for each volume.
    pub fn after_stop(&self, alloc: Global, calls: u64, tail: &[u8]) -> Result<MemDrive, AllocError>
        requires { calls ≤ (meaning_of self.now).shelf.moment }
        ensures unused { IfOk result (λ drive. IsUnused (meaning_of drive)) }
        ensures left { IfOk result (λ drive. (name : _) → (meaning_of drive).shelf.volume name
            ≡ left_of ((meaning_of self.now).shelf.kept calls name) tail.now) }
        ensures capacity { IfOk result (λ drive. capacity_of drive ≡ capacity_of self.now) }
        ensures plan { IfOk result (λ drive. plan_of drive ≡ []) }
        ensures counted { IfOk result NoneCounted }
        ensures stop { IfOk result (λ drive.
            AfterStop calls (meaning_of self.now).shelf (meaning_of drive).shelf) }
    {
        let later = &self.store.changes[calls as usize..];
        let volumes = left_all(alloc, &self.store.volumes, later, tail)?;
        Ok(MemDrive {
            store: Store::of(alloc, volumes)?,
            capacity: self.capacity,
            loaded: None,
            told: 0,
            plan: Plan::new(Vec::new(alloc)),
        })
    }

    // The loaded volume's name, and where the volume lies.
    fn loaded_place(&self) -> (VolName, usize)
        requires { IsSome self.now.loaded }
        ensures loaded { self.now.loaded ≡ Some result.0 }
        ensures place { StandsFirstAt result.0 self.now.store.volumes.items result.1 }
        ensures within { result.1 < vec_len self.now.store.volumes }
    {
        let name = self.loaded.as_ref().unwrap().copy();
        let place = self.store.index_of(&name).unwrap();
        (name, place)
    }
}

impl Driver for MemDrive {
    ghost use Rattle.sd_driver.specs.Shelf.{SameShelf, Passes, KeepsStable, KeepsStableTo, Creates, MayCreate, Appends, MayAppend, Syncs, MaySync, Truncates, MayTruncate};
    ghost use Rattle.sd_driver.specs.Meaning.{IsHonest, CountsFailures, SameCounts, Unchanged, TellsLength, TellsBytes};
    ghost use Rattle.sd_memdrive.specs.Drive.{meaning_of, capacity_of, HasRoom, LacksRoom, AppendsPart, FollowsPlan, KeepsPlan};

    ghost meaning = { meaning_of };

    fn create(&mut self, name: &VolName) -> Result<(), DriverFault>
        requires { (meaning_of self.old).loaded ≡ None }
        ensures counts { CountsFailures result (meaning_of self.old) (meaning_of self.new) }
        ensures faults { IfErr result
            (λ fault. (fault ≢ DriverFault.NotThere) × (fault ≢ DriverFault.NoRoom)) }
        ensures memory { IsErrOf result DriverFault.Memory
            → Unchanged (meaning_of self.old) (meaning_of self.new) }
        ensures passes { Passes (meaning_of self.old).shelf (meaning_of self.new).shelf }
        ensures stable { KeepsStable (meaning_of self.old).shelf (meaning_of self.new).shelf }
        ensures loaded { OnOk result ((meaning_of self.new).loaded ≡ Some name.now) }
        ensures not_loaded { OnErr result ((meaning_of self.new).loaded ≡ None) }

        ensures ok { IsHonest (meaning_of self.old)
            → OnOk result
            (Creates name.now (meaning_of self.old).shelf (meaning_of self.new).shelf) }
        ensures err { IsHonest (meaning_of self.old)
            → OnErr result
            (MayCreate name.now (meaning_of self.old).shelf (meaning_of self.new).shelf) }
        ensures exists { IsHonest (meaning_of self.old)
            → IsErrOf result DriverFault.Exists
            → IsSome ((meaning_of self.old).shelf.volume name.now) }

        ensures plan { FollowsPlan Call.Create
            (IsSome ((meaning_of self.old).shelf.volume name.now)) result self.old self.new }
        ensures capacity { capacity_of self.new ≡ capacity_of self.old }
    {
        let due = self.plan.begin(Call::Create, DriverFault::Device)?;
        let None = self.store.index_of(name) else {
            return Err(DriverFault::Exists);
        };
        let Ok(()) = self.store.create(name) else {
            return Err(DriverFault::Memory);
        };
        self.plan.finish(due, DriverFault::Device)?;
        self.loaded = Some(name.copy());
        Ok(())
    }

    fn load(&mut self, name: &VolName) -> Result<(), DriverFault>
        requires { (meaning_of self.old).loaded ≡ None }
        ensures counts { CountsFailures result (meaning_of self.old) (meaning_of self.new) }
        ensures faults { IfErr result
            (λ fault. (fault ≢ DriverFault.Exists) × (fault ≢ DriverFault.NoRoom)) }
        ensures memory { IsErrOf result DriverFault.Memory
            → Unchanged (meaning_of self.old) (meaning_of self.new) }
        ensures passes { Passes (meaning_of self.old).shelf (meaning_of self.new).shelf }
        ensures stable { KeepsStable (meaning_of self.old).shelf (meaning_of self.new).shelf }
        ensures loaded { OnOk result ((meaning_of self.new).loaded ≡ Some name.now) }
        ensures not_loaded { OnErr result ((meaning_of self.new).loaded ≡ None) }

        ensures ok { IsHonest (meaning_of self.old)
            → OnOk result (IsSome ((meaning_of self.old).shelf.volume name.now)) }
        ensures not_there { IsHonest (meaning_of self.old)
            → IsErrOf result DriverFault.NotThere
            → (meaning_of self.old).shelf.volume name.now ≡ None }
        ensures same { IsHonest (meaning_of self.old)
            → SameShelf (meaning_of self.old).shelf (meaning_of self.new).shelf }

        ensures plan { FollowsPlan Call.Load ((meaning_of self.old).shelf.volume name.now ≡ None)
            result self.old self.new }
        ensures capacity { capacity_of self.new ≡ capacity_of self.old }
    {
        let due = self.plan.begin(Call::Load, DriverFault::Device)?;
        let Some(_) = self.store.index_of(name) else {
            return Err(DriverFault::NotThere);
        };
        self.plan.finish(due, DriverFault::Device)?;
        self.loaded = Some(name.copy());
        Ok(())
    }

    fn unload(&mut self)
        ensures counts { SameCounts (meaning_of self.old) (meaning_of self.new) }
        ensures passes { Passes (meaning_of self.old).shelf (meaning_of self.new).shelf }
        ensures stable { KeepsStable (meaning_of self.old).shelf (meaning_of self.new).shelf }
        ensures loaded { (meaning_of self.new).loaded ≡ None }
        ensures same { IsHonest (meaning_of self.old)
            → SameShelf (meaning_of self.old).shelf (meaning_of self.new).shelf }

        ensures plan { KeepsPlan self.old self.new }
        ensures capacity { capacity_of self.new ≡ capacity_of self.old }
    {
        self.loaded = None;
    }

    fn len(&mut self, name: &VolName) -> Result<u64, DriverFault>
        ensures counts { CountsFailures result (meaning_of self.old) (meaning_of self.new) }
        ensures faults { IfErr result
            (λ fault. (fault ≢ DriverFault.Exists) × (fault ≢ DriverFault.NoRoom)) }
        ensures memory { IsErrOf result DriverFault.Memory
            → Unchanged (meaning_of self.old) (meaning_of self.new) }
        ensures passes { Passes (meaning_of self.old).shelf (meaning_of self.new).shelf }
        ensures stable { KeepsStable (meaning_of self.old).shelf (meaning_of self.new).shelf }
        ensures loaded { (meaning_of self.new).loaded ≡ (meaning_of self.old).loaded }

        ensures ok { IsHonest (meaning_of self.old)
            → IfOk result (λ count. TellsLength name.now count (meaning_of self.old).shelf) }
        ensures not_there { IsHonest (meaning_of self.old)
            → IsErrOf result DriverFault.NotThere
            → (meaning_of self.old).shelf.volume name.now ≡ None }
        ensures same { IsHonest (meaning_of self.old)
            → SameShelf (meaning_of self.old).shelf (meaning_of self.new).shelf }

        ensures plan { FollowsPlan Call.Len ((meaning_of self.old).shelf.volume name.now ≡ None)
            result self.old self.new }
        ensures capacity { capacity_of self.new ≡ capacity_of self.old }
    {
        let due = self.plan.begin(Call::Len, DriverFault::Device)?;
        let Some(place) = self.store.index_of(name) else {
            return Err(DriverFault::NotThere);
        };
        self.plan.finish(due, DriverFault::Device)?;
        Ok(self.store.volumes[place].len() as u64)
    }

    fn read_at(&mut self, name: &VolName, at: u64, into: &mut [u8]) -> Result<usize, DriverFault>
        ensures within { IfOk result (λ count. count ≤ length into.old) }
        ensures counts { CountsFailures result (meaning_of self.old) (meaning_of self.new) }
        ensures faults { IfErr result
            (λ fault. (fault ≢ DriverFault.Exists) × (fault ≢ DriverFault.NoRoom)) }
        ensures memory { IsErrOf result DriverFault.Memory
            → Unchanged (meaning_of self.old) (meaning_of self.new) }
        ensures passes { Passes (meaning_of self.old).shelf (meaning_of self.new).shelf }
        ensures stable { KeepsStable (meaning_of self.old).shelf (meaning_of self.new).shelf }
        ensures loaded { (meaning_of self.new).loaded ≡ (meaning_of self.old).loaded }

        ensures ok { IsHonest (meaning_of self.old)
            → IfOk result (λ count.
            TellsBytes name.now at (length into.old) count into.new (meaning_of self.old).shelf) }
        ensures not_there { IsHonest (meaning_of self.old)
            → IsErrOf result DriverFault.NotThere
            → (meaning_of self.old).shelf.volume name.now ≡ None }
        ensures same { IsHonest (meaning_of self.old)
            → SameShelf (meaning_of self.old).shelf (meaning_of self.new).shelf }

        ensures plan { FollowsPlan Call.Read ((meaning_of self.old).shelf.volume name.now ≡ None)
            result self.old self.new }
        ensures capacity { capacity_of self.new ≡ capacity_of self.old }
    {
        let due = self.plan.begin(Call::Read, DriverFault::Device)?;
        let Some(place) = self.store.index_of(name) else {
            return Err(DriverFault::NotThere);
        };
        let count = self.store.volumes[place].read(at as usize, into);
        self.plan.finish(due, DriverFault::Device)?;
        Ok(count)
    }

    #[tactic(auto, using(crate::proofs::Exits::may_append_same, crate::proofs::Exits::may_append_done))]
    fn append(&mut self, bytes: &[u8]) -> Result<(), DriverFault>
        requires { IsSome (meaning_of self.old).loaded }
        ensures counts { CountsFailures result (meaning_of self.old) (meaning_of self.new) }
        ensures faults { IfErr result
            (λ fault. (fault ≢ DriverFault.NotThere) × (fault ≢ DriverFault.Exists)) }
        ensures memory { IsErrOf result DriverFault.Memory
            → Unchanged (meaning_of self.old) (meaning_of self.new) }
        ensures passes { Passes (meaning_of self.old).shelf (meaning_of self.new).shelf }
        ensures stable { KeepsStable (meaning_of self.old).shelf (meaning_of self.new).shelf }
        ensures loaded { (meaning_of self.new).loaded ≡ (meaning_of self.old).loaded }

        ensures ok { IsHonest (meaning_of self.old) → OnOk result
            (Appends bytes.now (meaning_of self.old).loaded
            (meaning_of self.old).shelf (meaning_of self.new).shelf) }
        ensures err { IsHonest (meaning_of self.old) → OnErr result
            (MayAppend (meaning_of self.old).loaded
            (meaning_of self.old).shelf (meaning_of self.new).shelf) }

        // This drive is full exactly if the volume would pass the capacity.
        ensures room { OnOk result (HasRoom bytes.now self.old) }
        ensures no_room { IsErrOf result DriverFault.NoRoom → LacksRoom bytes.now self.old }
        ensures plan { FollowsPlan Call.Append (LacksRoom bytes.now self.old)
            result self.old self.new }
        ensures part { ¬ IsErrOf result DriverFault.Memory
            → AppendsPart bytes.now self.old self.new }
        ensures capacity { capacity_of self.new ≡ capacity_of self.old }
    {
        let due = self.plan.begin(Call::Append, DriverFault::Device)?;
        let (name, place) = self.loaded_place();
        if !has_room(&self.store.volumes[place], self.capacity, bytes) {
            self.told = self.told.saturating_add(1);
            return Err(DriverFault::NoRoom);
        }
        let Ok(()) = self.store.append(&name, place, part(due, bytes)) else {
            return Err(DriverFault::Memory);
        };
        self.plan.finish(due, DriverFault::Device)
    }

    fn sync(&mut self) -> Result<(), DriverFault>
        requires { IsSome (meaning_of self.old).loaded }
        ensures counts { CountsFailures result (meaning_of self.old) (meaning_of self.new) }
        ensures faults { IfErr result (λ fault. fault ≡ DriverFault.Device) }
        ensures passes { Passes (meaning_of self.old).shelf (meaning_of self.new).shelf }
        ensures stable { KeepsStable (meaning_of self.old).shelf (meaning_of self.new).shelf }
        ensures loaded { (meaning_of self.new).loaded ≡ (meaning_of self.old).loaded }

        ensures ok { IsHonest (meaning_of self.old) → OnOk result
            (Syncs (meaning_of self.old).loaded
            (meaning_of self.old).shelf (meaning_of self.new).shelf) }
        ensures err { IsHonest (meaning_of self.old) → OnErr result
            (MaySync (meaning_of self.old).loaded
            (meaning_of self.old).shelf (meaning_of self.new).shelf) }

        ensures plan { FollowsPlan Call.Sync ⊥ result self.old self.new }
        ensures capacity { capacity_of self.new ≡ capacity_of self.old }
    {
        let due = self.plan.begin(Call::Sync, DriverFault::Device)?;
        let (name, place) = self.loaded_place();
        self.store.sync(&name, place);
        self.plan.finish(due, DriverFault::Device)
    }

    #[tactic(auto, using(crate::proofs::Exits::may_cut_same, crate::proofs::Exits::may_cut_done, crate::proofs::Exits::keeps_to_same))]
    fn cut(&mut self, to: u64) -> Result<(), DriverFault>
        requires { IsSome (meaning_of self.old).loaded }
        ensures counts { CountsFailures result (meaning_of self.old) (meaning_of self.new) }
        ensures faults { IfErr result
            (λ fault. (fault ≡ DriverFault.Device) ⊎ (fault ≡ DriverFault.Memory)) }
        ensures memory { IsErrOf result DriverFault.Memory
            → Unchanged (meaning_of self.old) (meaning_of self.new) }
        ensures passes { Passes (meaning_of self.old).shelf (meaning_of self.new).shelf }
        ensures stable { KeepsStableTo to (meaning_of self.old).loaded
            (meaning_of self.old).shelf (meaning_of self.new).shelf }
        ensures loaded { (meaning_of self.new).loaded ≡ (meaning_of self.old).loaded }

        ensures ok { IsHonest (meaning_of self.old) → OnOk result
            (Truncates to (meaning_of self.old).loaded
            (meaning_of self.old).shelf (meaning_of self.new).shelf) }
        ensures err { IsHonest (meaning_of self.old) → OnErr result
            (MayTruncate to (meaning_of self.old).loaded
            (meaning_of self.old).shelf (meaning_of self.new).shelf) }

        ensures plan { FollowsPlan Call.Cut ⊥ result self.old self.new }
        ensures capacity { capacity_of self.new ≡ capacity_of self.old }
    {
        let due = self.plan.begin(Call::Cut, DriverFault::Device)?;
        let (name, place) = self.loaded_place();
        let Ok(()) = self.store.cut(&name, place, to as usize) else {
            return Err(DriverFault::Memory);
        };
        self.plan.finish(due, DriverFault::Device)
    }

    fn failures(&self) -> u64 {
        self.plan.failures()
    }
}

// Whether a volume has room for more bytes.
fn has_room(stored: &Stored, capacity: u64, bytes: &[u8]) -> bool
    ensures { IsTrue result ↔ (length stored.now.held.bytes + length bytes.now ≤ capacity) }
{
    let held = stored.len() as u64;
    held <= capacity && bytes.len() as u64 <= capacity - held
}
