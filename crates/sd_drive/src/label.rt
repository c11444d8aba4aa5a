// A new volume comes to the drive.
ghost use Rattle.std.specs.Prelude.{◌≡◌, ◌≢◌, ℕ, None, Some, OnOk, OnErr, IfOk, IfErr, IsErrOf, IsSome, slice_get};
ghost use Rattle.sd_base.specs.declared.refusal.Refusal.{Refusal as SpecRefusal};
ghost use Rattle.sd_driver.specs.Meaning.{IsHonest};
ghost use Rattle.sd_driver.specs.Shelf.{StillLasts, MayCreate};
ghost use Rattle.sd_volume.specs.Device.{Counted, CallsAtMost};
ghost use Rattle.sd_volume.specs.Fault.{label_refusal};
ghost use Rattle.sd_volume.specs.declared.fault.LabelFault.{LabelFault as SpecFault};
ghost use Rattle.sd_volume.specs.Label.{Labels, MayCreateEmpty, new_volume};
ghost use Rattle.sd_drive.specs.Shelf.{KeepsPieces};
ghost use Rattle.sd_drive.specs.View.{names};
ghost use Rattle.sd_drive.specs.Moves.{AddsVolume, AddsNone, label_due, label_of};

use crate::drive::Drive;
use crate::mount::find;
use sd_base::{HostName, MediaName, PoolName, Refusal, VolName};
use sd_driver::Driver;
use sd_label::VolumeLabel;
use sd_volume::label_new;

impl<D: Driver> Drive<D> {
    /// Labels a new volume, which is not loaded; its label says the drive's host, if there is one. The refusals, in this
    /// order: other media than the drive's; in use, while a volume is loaded; already labelled, if the drive has a
    /// volume of that name. They change nothing. Then as `label_new`: already labelled, if the name is on the
    /// shelf; no room; device fault. Takes the memory for its list of volumes before it calls the device.
    pub fn label(
        &mut self,
        name: &VolName,
        pool: &PoolName,
        media: &MediaName,
        moment: i64,
    ) -> Result<(), Refusal>
        ensures refused { (fault : SpecRefusal) → label_due self.old name.now media.now ≡ Some fault
            → IsErrOf result fault }
        ensures unchanged { label_due self.old name.now media.now ≢ None → self.new ≡ self.old }
        ensures ok { OnOk result
            (AddsVolume (new_volume (label_of self.old.limits.host name.now pool.now media.now moment)) self.old
            self.new) }
        ensures err { OnErr result (AddsNone self.old self.new) }
        ensures faults { label_due self.old name.now media.now ≡ None → IfErr result
            (λ fault. (cause : SpecFault) × (fault ≡ label_refusal cause)) }
        ensures labels { IsHonest (D.meaning self.old.device) → OnOk result
            (Labels (label_of self.old.limits.host name.now pool.now media.now moment)
            (D.meaning self.old.device).shelf (D.meaning self.new.device).shelf) }
        ensures fails { IsHonest (D.meaning self.old.device) → OnErr result (MayCreate name.now
            (D.meaning self.old.device).shelf (D.meaning self.new.device).shelf) }
        ensures memory { IsHonest (D.meaning self.old.device) → IsErrOf result Refusal.Memory
            → MayCreateEmpty name.now
            (D.meaning self.old.device).shelf (D.meaning self.new.device).shelf }
        ensures already { IsHonest (D.meaning self.old.device)
            → label_due self.old name.now media.now ≡ None
            → IsErrOf result Refusal.AlreadyLabelled
            → IsSome ((D.meaning self.old.device).shelf.volume name.now) }
        ensures taken { IsHonest (D.meaning self.old.device)
            → IsSome ((D.meaning self.old.device).shelf.volume name.now)
            → IfErr result (λ fault. fault ≢ Refusal.NoRoom) }
        ensures counted { Counted (IsErrOf result Refusal.DeviceFault)
            (IsErrOf result Refusal.NoRoom)
            (D.meaning self.old.device) (D.meaning self.new.device) }
        ensures keeps { KeepsPieces (D.meaning self.old.device) (D.meaning self.new.device)
            self.old.journal self.new.journal self.old.hand self.new.hand }
        ensures calls { CallsAtMost 4 (D.meaning self.old.device) (D.meaning self.new.device) }
        ensures later { StillLasts (D.meaning self.old.device).shelf
            (D.meaning self.new.device).shelf }
    {
        self.may_label(name, media)?;
        let host = HostName::copy_of(&self.limits.host);
        self.add_new(&VolumeLabel {
            name: name.copy(),
            pool: pool.copy(),
            media: media.copy(),
            moment,
            host,
        })
    }

    // Whether a volume of that name and media may be labelled.
    fn may_label(&self, name: &VolName, media: &MediaName) -> Result<(), Refusal>
        ensures due { IfErr result (λ fault. label_due self.now name.now media.now ≡ Some fault) }
        ensures none { OnOk result (label_due self.now name.now media.now ≡ None) }
        ensures loaded { OnOk result (self.now.loaded ≡ None) }
        ensures fresh { OnOk result
            ((at : ℕ) → slice_get (names self.now.volumes) at ≢ Some name.now) }
        ensures faults { IfErr result (λ fault. (fault ≢ Refusal.NoRoom)
            × (fault ≢ Refusal.DeviceFault)) }
    {
        if !media.is_same(&self.media) {
            return Err(Refusal::OtherPoolOrMedia);
        }
        if self.loaded.is_some() {
            return Err(Refusal::InUse);
        }
        if find(&self.volumes, name).is_some() {
            return Err(Refusal::AlreadyLabelled);
        }
        Ok(())
    }

    // Labels a new volume, if none is loaded and none has its name.
    fn add_new(&mut self, label: &VolumeLabel) -> Result<(), Refusal>
        requires loaded { self.old.loaded ≡ None }
        requires fresh { (at : ℕ) → slice_get (names self.old.volumes) at ≢ Some label.now.name }
        ensures ok { OnOk result (AddsVolume (new_volume label.now) self.old self.new) }
        ensures err { OnErr result (AddsNone self.old self.new) }
        ensures faults { IfErr result (λ fault. (cause : SpecFault)
            × (fault ≡ label_refusal cause)) }
        ensures labels { IsHonest (D.meaning self.old.device) → OnOk result (Labels label.now
            (D.meaning self.old.device).shelf (D.meaning self.new.device).shelf) }
        ensures fails { IsHonest (D.meaning self.old.device)
            → OnErr result (MayCreate label.now.name
            (D.meaning self.old.device).shelf (D.meaning self.new.device).shelf) }
        ensures memory { IsHonest (D.meaning self.old.device) → IsErrOf result Refusal.Memory
            → MayCreateEmpty label.now.name
            (D.meaning self.old.device).shelf (D.meaning self.new.device).shelf }
        ensures already { IsHonest (D.meaning self.old.device)
            → IsErrOf result Refusal.AlreadyLabelled
            → IsSome ((D.meaning self.old.device).shelf.volume label.now.name) }
        ensures taken { IsHonest (D.meaning self.old.device)
            → IsSome ((D.meaning self.old.device).shelf.volume label.now.name)
            → IfErr result (λ fault. fault ≢ Refusal.NoRoom) }
        ensures counted { Counted (IsErrOf result Refusal.DeviceFault)
            (IsErrOf result Refusal.NoRoom)
            (D.meaning self.old.device) (D.meaning self.new.device) }
        ensures keeps { KeepsPieces (D.meaning self.old.device) (D.meaning self.new.device)
            self.old.journal self.new.journal self.old.hand self.new.hand }
        ensures calls { CallsAtMost 4 (D.meaning self.old.device) (D.meaning self.new.device) }
        ensures later { StillLasts (D.meaning self.old.device).shelf
            (D.meaning self.new.device).shelf }
    {
        let Ok(()) = self.volumes.reserve(1) else {
            return Err(Refusal::Memory);
        };
        match label_new(self.alloc, &mut self.driver, label) {
            Ok(volume) => {
                self.volumes.push_reserved(volume);
                Ok(())
            }
            Err(fault) => Err(fault.refusal()),
        }
    }
}
