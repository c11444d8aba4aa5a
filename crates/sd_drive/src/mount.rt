// A volume of the drive is loaded.
ghost use Rattle.std.specs.Prelude.{◌≡◌, ◌≢◌, ℕ, ◌+◌, None, Some, OnOk, OnErr, IfOk, IfErr, IsErr, IsErrOf, slice_get};
ghost use Rattle.sd_base.specs.declared.refusal.Refusal.{Refusal as SpecRefusal};
ghost use Rattle.sd_driver.specs.Meaning.{IsHonest};
ghost use Rattle.sd_driver.specs.Shelf.{SameShelf, StillLasts};
ghost use Rattle.sd_volume.specs.Device.{Counted, OthersStay, CallsAtMost};
ghost use Rattle.sd_volume.specs.Volume.{VolumeView};
ghost use Rattle.sd_drive.specs.Shelf.{KeepsPieces};
ghost use Rattle.sd_drive.specs.Moves.{Mounts, RefusesLoad, mount_due, mount_due_at, is_append, is_at, is_other_pool, index_of, load_refusal, sync_calls};

use crate::drive::Drive;
use sd_base::{PoolName, Refusal, VolName};
use sd_driver::{Driver, DriverFault};
use sd_volume::{Volume, VolumeStatus};

impl<D: Driver> Drive<D> {
    /// Loads the volume of that name in place of the one that is loaded, whose blocks are made to last first. If
    /// that fails, so does the mount. If the load fails, no volume is loaded. The refusals, in this order: not on the
    /// shelf, if the drive has no such volume; in use, if it is loaded and takes blocks; not appendable; other
    /// pool than the drive's. They change nothing. Calls sync, if a block awaits it, unload and load, in this order.
    pub fn mount(&mut self, name: &VolName) -> Result<(), Refusal>
        ensures refused { (fault : SpecRefusal) → mount_due self.old name.now ≡ Some fault
            → IsErrOf result fault }
        ensures unchanged { mount_due self.old name.now ≢ None → self.new ≡ self.old }
        ensures mounts { mount_due self.old name.now ≡ None
            → (at : ℕ) × (index_of self.old.volumes name.now ≡ Some at)
            × Mounts at result self.old self.new }
        ensures on_shelf { IsHonest (D.meaning self.old.device) → mount_due self.old name.now ≡ None
            → IfErr result (λ fault. fault ≢ Refusal.VolumeNotOnShelf) }
        ensures counted { Counted (IsErrOf result Refusal.DeviceFault) ⊥
            (D.meaning self.old.device) (D.meaning self.new.device) }
        ensures keeps { KeepsPieces (D.meaning self.old.device) (D.meaning self.new.device)
            self.old.journal self.new.journal self.old.hand self.new.hand }
        ensures later { StillLasts (D.meaning self.old.device).shelf
            (D.meaning self.new.device).shelf }
        ensures others { IsHonest (D.meaning self.old.device)
            → OthersStay (D.meaning self.old.device).loaded
            (D.meaning self.old.device).shelf (D.meaning self.new.device).shelf }
        ensures calls { CallsAtMost (sync_calls self.old + 2)
            (D.meaning self.old.device) (D.meaning self.new.device) }
    {
        let at = self.mountable(name)?;
        self.unmount()?;
        self.load(at, name)
    }

    // The place of the volume of that name, if it may be mounted.
    fn mountable(&self, name: &VolName) -> Result<usize, Refusal>
        ensures due { IfErr result (λ fault. mount_due self.now name.now ≡ Some fault) }
        ensures none { OnOk result (mount_due self.now name.now ≡ None) }
        ensures place { IfOk result (λ at. index_of self.now.volumes name.now ≡ Some at) }
        ensures there { IfOk result (λ at. (v : VolumeView)
            × (slice_get self.now.volumes at ≡ Some v) × (v.name ≡ name.now)) }
    {
        let Some(at) = find(&self.volumes, name) else {
            return Err(Refusal::VolumeNotOnShelf);
        };
        match refusal_at(&self.volumes[at], at, self.loaded, &self.pool) {
            None => Ok(at),
            Some(refusal) => Err(refusal),
        }
    }

    // Loads the volume of that name, which is at that place, if none is loaded.
    fn load(&mut self, at: usize, name: &VolName) -> Result<(), Refusal>
        requires none { self.old.loaded ≡ None }
        requires there { (v : VolumeView)
            × (slice_get self.old.volumes at ≡ Some v) × (v.name ≡ name.now) }
        ensures ok { OnOk result
            (self.new ≡ record self.old { device = self.new.device; loaded = Some at }) }
        ensures err { OnErr result (self.new ≡ record self.old { device = self.new.device }) }
        ensures faults { IfErr result RefusesLoad }
        ensures on_shelf { IsHonest (D.meaning self.old.device)
            → IfErr result (λ fault. fault ≢ Refusal.VolumeNotOnShelf) }
        ensures counted { Counted (IsErrOf result Refusal.DeviceFault) ⊥
            (D.meaning self.old.device) (D.meaning self.new.device) }
        ensures keeps { KeepsPieces (D.meaning self.old.device) (D.meaning self.new.device)
            self.old.journal self.new.journal self.old.hand self.new.hand }
        ensures later { StillLasts (D.meaning self.old.device).shelf
            (D.meaning self.new.device).shelf }
        ensures same { IsHonest (D.meaning self.old.device)
            → SameShelf (D.meaning self.old.device).shelf (D.meaning self.new.device).shelf }
        ensures calls { CallsAtMost 1 (D.meaning self.old.device) (D.meaning self.new.device) }
    {
        match self.driver.load(name) {
            Ok(()) => {
                self.loaded = Some(at);
                Ok(())
            }
            Err(fault) => Err(load_refusal(fault)),
        }
    }
}

/// The place of the volume of that name. Looks at the volumes one after another.
pub(crate) fn find(volumes: &[Volume], name: &VolName) -> Option<usize>
    ensures { result ≡ index_of volumes.now name.now }
{
    volumes
        .iter()
        .position(|volume| volume.name().is_same(name))
}

// Which refusal is due if a volume, which is at that place, is to be mounted.
fn refusal_at(
    volume: &Volume,
    at: usize,
    loaded: Option<usize>,
    pool: &Option<PoolName>,
) -> Option<Refusal>
    ensures { result ≡ mount_due_at loaded pool.now at volume.now }
{
    if volume.status() != VolumeStatus::Append {
        return Some(Refusal::NotAppendable);
    }
    if loaded == Some(at) {
        return Some(Refusal::InUse);
    }
    let Some(pool) = pool else {
        return None;
    };
    if pool.is_same(volume.pool()) {
        None
    } else {
        Some(Refusal::OtherPoolOrMedia)
    }
}

// The refusal that a device's answer to a load is.
fn load_refusal(fault: DriverFault) -> Refusal
    ensures { result ≡ load_refusal fault }
{
    match fault {
        DriverFault::NotThere => Refusal::VolumeNotOnShelf,
        DriverFault::Exists | DriverFault::NoRoom | DriverFault::Device => Refusal::DeviceFault,
        DriverFault::Memory => Refusal::Memory,
    }
}
