// A volume of the drive is used anew.
ghost use Rattle.std.specs.Prelude.{◌≡◌, ◌≢◌, None, Some, OnOk, OnErr, IfOk, IfErr, IsErrOf, ℕ, List, slice_get};
ghost use Rattle.sd_base.specs.declared.refusal.Refusal.{Refusal as SpecRefusal};
ghost use Rattle.sd_driver.specs.Meaning.{IsHonest};
ghost use Rattle.sd_driver.specs.Shelf.{SameShelf, StillLasts};
ghost use Rattle.sd_journal.specs.Journal.{has_on, purged};
ghost use Rattle.sd_volume.specs.Device.{CallsAtMost, Counted};
ghost use Rattle.sd_volume.specs.Volume.{VolumeView};
ghost use Rattle.sd_drive.specs.Moves.{PurgesAt, KeepsPurging, purge_due, purge_due_at, index_of};

use crate::drive::Drive;
use crate::mount::find;
use sd_base::{Refusal, SessionKey, VolName};
use sd_driver::Driver;
use sd_journal::Journal;
use sd_volume::{AdoptFault, Volume, VolumeStatus, purge};

impl<D: Driver> Drive<D> {
    /// Whether the volume of that name may be purged. The refusals, in this order: not on the shelf, if the drive has
    /// no such volume; volume not full; in use, while a volume is loaded.
    pub fn may_purge(&self, name: &VolName) -> Result<(), Refusal>
        ensures due { IfErr result (λ fault. purge_due self.now name.now ≡ Some fault) }
        ensures none { OnOk result (purge_due self.now name.now ≡ None) }
    {
        self.purgeable(name)?;
        Ok(())
    }

    /// Takes all blocks from a full volume, for good: cuts it to its label block, and makes that last. It takes blocks
    /// again then, from number 1 on, and keeps its place among the drive's volumes. The journal keeps its entries, of
    /// which those on the volume count no more. Refused as `may_purge` says, and then nothing changes. If the device
    /// fails, the volume has status `Error` and its blocks are gone all the same. If it isn't on the shelf any more,
    /// or if out of memory, nothing changes. No volume is loaded then.
    pub fn purge(&mut self, name: &VolName) -> Result<(), Refusal>
        ensures refused { (fault : SpecRefusal) → purge_due self.old name.now ≡ Some fault
            → IsErrOf result fault }
        ensures unchanged { purge_due self.old name.now ≢ None → self.new ≡ self.old }
        ensures purges { purge_due self.old name.now ≡ None
            → (at : ℕ) × (index_of self.old.volumes name.now ≡ Some at)
            × PurgesAt name.now at result (D.meaning self.old.device)
            (D.meaning self.new.device) self.old self.new }
        ensures on_shelf { IsHonest (D.meaning self.old.device) → purge_due self.old name.now ≡ None
            → IfErr result (λ fault. fault ≢ Refusal.VolumeNotOnShelf) }
        ensures counted { Counted (IsErrOf result Refusal.DeviceFault) ⊥
            (D.meaning self.old.device) (D.meaning self.new.device) }
        ensures keeps { KeepsPurging result name.now (D.meaning self.old.device)
            (D.meaning self.new.device) self.old.journal self.old.hand }
        ensures refused_last { IfErr result (λ fault. fault ≢ Refusal.DeviceFault
            → StillLasts (D.meaning self.old.device).shelf (D.meaning self.new.device).shelf) }
        ensures same { IsHonest (D.meaning self.old.device)
            → IfErr result (λ fault. fault ≢ Refusal.DeviceFault
            → SameShelf (D.meaning self.old.device).shelf (D.meaning self.new.device).shelf) }
        ensures others { IsHonest (D.meaning self.old.device)
            → (other : List ℕ) → other ≢ name.now
            → (D.meaning self.new.device).shelf.volume other
            ≡ (D.meaning self.old.device).shelf.volume other }
        ensures calls { CallsAtMost 4 (D.meaning self.old.device) (D.meaning self.new.device) }
    {
        let at = self.purgeable(name)?;
        self.purge_at(at, name)
    }

    /// Whether a block of the session was placed on the volume, gone or not. Looks at the session's stretches alone.
    pub fn has_on(&self, key: SessionKey, volume: &VolName) -> bool
        ensures { result ≡ has_on key volume.now self.now.journal }
    {
        self.journal.has_on(key, volume)
    }

    // The place of the volume of that name, if it may be purged.
    fn purgeable(&self, name: &VolName) -> Result<usize, Refusal>
        ensures due { IfErr result (λ fault. purge_due self.now name.now ≡ Some fault) }
        ensures none { OnOk result (purge_due self.now name.now ≡ None) }
        ensures loaded { OnOk result (self.now.loaded ≡ None) }
        ensures place { IfOk result (λ at. index_of self.now.volumes name.now ≡ Some at) }
        ensures there { IfOk result (λ at. (v : VolumeView)
            × (slice_get self.now.volumes at ≡ Some v) × (v.name ≡ name.now)) }
        ensures faults { IfErr result (λ fault. fault ≢ Refusal.DeviceFault) }
    {
        let Some(at) = find(&self.volumes, name) else {
            return Err(Refusal::VolumeNotOnShelf);
        };
        may_empty(&self.volumes[at], self.loaded)?;
        Ok(at)
    }

    // Purges the volume of that name, which is at that place, if none is loaded.
    fn purge_at(&mut self, at: usize, name: &VolName) -> Result<(), Refusal>
        requires none { self.old.loaded ≡ None }
        requires there { (v : VolumeView)
            × (slice_get self.old.volumes at ≡ Some v) × (v.name ≡ name.now) }
        ensures purges { PurgesAt name.now at result (D.meaning self.old.device)
            (D.meaning self.new.device) self.old self.new }
        ensures on_shelf { IsHonest (D.meaning self.old.device)
            → IfErr result (λ fault. fault ≢ Refusal.VolumeNotOnShelf) }
        ensures counted { Counted (IsErrOf result Refusal.DeviceFault) ⊥
            (D.meaning self.old.device) (D.meaning self.new.device) }
        ensures keeps { KeepsPurging result name.now (D.meaning self.old.device)
            (D.meaning self.new.device) self.old.journal self.old.hand }
        ensures refused_last { IfErr result (λ fault. fault ≢ Refusal.DeviceFault
            → StillLasts (D.meaning self.old.device).shelf (D.meaning self.new.device).shelf) }
        ensures same { IsHonest (D.meaning self.old.device)
            → IfErr result (λ fault. fault ≢ Refusal.DeviceFault
            → SameShelf (D.meaning self.old.device).shelf (D.meaning self.new.device).shelf) }
        ensures others { IsHonest (D.meaning self.old.device)
            → (other : List ℕ) → other ≢ name.now
            → (D.meaning self.new.device).shelf.volume other
            ≡ (D.meaning self.old.device).shelf.volume other }
        ensures calls { CallsAtMost 4 (D.meaning self.old.device) (D.meaning self.new.device) }
    {
        match purge(&mut self.driver, &mut self.volumes[at]) {
            Ok(()) => {
                self.journal.purged(name);
                Ok(())
            }
            Err(fault) => {
                tell_failure(fault, &mut self.journal, name);
                Err(fault.refusal())
            }
        }
    }
}

// Whether a volume may be purged, with that one loaded.
fn may_empty(volume: &Volume, loaded: Option<usize>) -> Result<(), Refusal>
    ensures due { IfErr result (λ fault. purge_due_at loaded volume.now ≡ Some fault) }
    ensures none { OnOk result (purge_due_at loaded volume.now ≡ None) }
    ensures loaded { OnOk result (loaded ≡ None) }
    ensures faults { IfErr result (λ fault. fault ≢ Refusal.DeviceFault) }
{
    if volume.status() != VolumeStatus::Full {
        return Err(Refusal::VolumeNotFull);
    }
    if loaded.is_some() {
        return Err(Refusal::InUse);
    }
    Ok(())
}

// Tells the journal what a purge that failed did to the volume: if the device failed, its blocks are gone.
fn tell_failure(fault: AdoptFault, journal: &mut Journal, name: &VolName)
    ensures device { fault ≡ AdoptFault.Device → journal.new ≡ record journal.old {
      entries = purged name.now journal.old.entries;
    } }
    ensures other { fault ≢ AdoptFault.Device → journal.new ≡ journal.old }
{
    if matches!(fault, AdoptFault::Device) {
        journal.purged(name);
    }
}
