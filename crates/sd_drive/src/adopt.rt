// A volume that an earlier run left comes to the drive.
ghost use Rattle.std.specs.Prelude.{◌≡◌, ◌≢◌, ◌⊎◌, ℕ, List, None, Some, OnOk, OnErr, IfOk, IfErr, IfSome, IsErrOf, IsErrAnd, slice_get};
ghost use Rattle.sd_base.specs.declared.refusal.Refusal.{Refusal as SpecRefusal};
ghost use Rattle.sd_driver.specs.Meaning.{IsHonest};
ghost use Rattle.sd_driver.specs.Shelf.{SameShelf, StillLasts, StillLastsBelow};
ghost use Rattle.sd_volume.specs.declared.fault.AdoptFault.{AdoptFault as SpecFault};
ghost use Rattle.sd_volume.specs.Adopt.{IsDue, KeepsWholeBlocks};
ghost use Rattle.sd_volume.specs.Device.{Counted, OnlyReads};
ghost use Rattle.sd_volume.specs.Fault.{adopt_refusal};
ghost use Rattle.sd_volume.specs.Noted.{IsTrueNote};
ghost use Rattle.sd_drive.specs.Shelf.{KeepsPieces};
ghost use Rattle.sd_drive.specs.View.{names};
ghost use Rattle.sd_drive.specs.Moves.{AddsNone, AdoptsVolume, adopt_due};

use crate::drive::Drive;
use crate::mount::find;
use sd_base::{Refusal, VolName};
use sd_driver::Driver;
use sd_note::Note;
use sd_volume::adopt_by;

/// Where an adopted volume's blocks end, and the number of its next one.
#[derive(Clone, Copy, Debug, PartialEq, Eq)]
pub struct Adopted {
    pub end: u64,
    pub next_number: u32,
}

impl<D: Driver> Drive<D> {
    /// Takes over a volume that an earlier run left, which is not loaded then. The refusals, in this order: already
    /// labelled, if the drive has a volume of that name; in use, while a volume is loaded. They change nothing. Then
    /// as `sd_volume::adopt`. Takes the memory for its list of volumes before it calls the device.
    pub fn adopt(&mut self, name: &VolName) -> Result<Adopted, Refusal>
        ensures refused { (fault : SpecRefusal) → adopt_due self.old name.now ≡ Some fault
            → IsErrOf result fault }
        ensures unchanged { adopt_due self.old name.now ≢ None → self.new ≡ self.old }
        ensures ok { IfOk result (λ answer. AdoptsVolume name.now answer
            (D.meaning self.old.device) (D.meaning self.new.device) self.old self.new) }
        ensures err { OnErr result (AddsNone self.old self.new) }
        ensures faults { adopt_due self.old name.now ≡ None → IfErr result
            (λ fault. (cause : SpecFault) × (fault ≡ adopt_refusal cause)) }
        ensures due { IsHonest (D.meaning self.old.device) → adopt_due self.old name.now ≡ None
            → IfErr result (λ fault.
            fault ≢ Refusal.DeviceFault → fault ≢ Refusal.Memory
            → (cause : SpecFault) × (fault ≡ adopt_refusal cause) × IsDue cause name.now
            self.old.media self.old.limits.time (D.meaning self.old.device).shelf) }
        ensures refuses { IsHonest (D.meaning self.old.device) → adopt_due self.old name.now ≡ None
            → (cause : SpecFault) → IsDue cause name.now
            self.old.media self.old.limits.time (D.meaning self.old.device).shelf
            → IsErrAnd result (λ fault. (fault ≡ adopt_refusal cause)
            ⊎ (fault ≡ Refusal.DeviceFault) ⊎ (fault ≡ Refusal.Memory)) }
        ensures same { IsHonest (D.meaning self.old.device)
            → IfErr result (λ fault. fault ≢ Refusal.DeviceFault
            → SameShelf (D.meaning self.old.device).shelf (D.meaning self.new.device).shelf) }
        ensures counted { Counted (IsErrOf result Refusal.DeviceFault) ⊥
            (D.meaning self.old.device) (D.meaning self.new.device) }
        ensures keeps { KeepsPieces (D.meaning self.old.device) (D.meaning self.new.device)
            self.old.journal self.new.journal self.old.hand self.new.hand }
        ensures others_last { StillLastsBelow 0 name.now
            (D.meaning self.old.device).shelf (D.meaning self.new.device).shelf }
        ensures whole_blocks { IsHonest (D.meaning self.old.device) → KeepsWholeBlocks name.now
            (D.meaning self.old.device).shelf (D.meaning self.new.device).shelf }
        ensures refused_last { IfErr result (λ fault. fault ≢ Refusal.DeviceFault
            → StillLasts (D.meaning self.old.device).shelf (D.meaning self.new.device).shelf) }
        ensures others { IsHonest (D.meaning self.old.device)
            → (other : List ℕ) → other ≢ name.now
            → (D.meaning self.new.device).shelf.volume other
            ≡ (D.meaning self.old.device).shelf.volume other }
        ensures only_reads { IsHonest (D.meaning self.old.device)
            → (cause : SpecFault) → IsDue cause name.now
            self.old.media self.old.limits.time (D.meaning self.old.device).shelf
            → OnlyReads (IsErrOf result Refusal.DeviceFault)
            (D.meaning self.old.device) (D.meaning self.new.device) }
    {
        self.may_adopt(name)?;
        self.add_adopted(name, None)
    }

    /// As `adopt`, but reads on from where the note says that the blocks end, if the note fits the volume, as
    /// `sd_volume::adopt_noted` says. What the note says is to be true of the volume.
    pub fn adopt_noted(&mut self, name: &VolName, note: &Note) -> Result<Adopted, Refusal>
        requires known { IsHonest (D.meaning self.old.device)
            → IsTrueNote note.now name.now (D.meaning self.old.device).shelf }
        ensures refused { (fault : SpecRefusal) → adopt_due self.old name.now ≡ Some fault
            → IsErrOf result fault }
        ensures unchanged { adopt_due self.old name.now ≢ None → self.new ≡ self.old }
        ensures ok { IfOk result (λ answer. AdoptsVolume name.now answer
            (D.meaning self.old.device) (D.meaning self.new.device) self.old self.new) }
        ensures err { OnErr result (AddsNone self.old self.new) }
        ensures faults { adopt_due self.old name.now ≡ None → IfErr result
            (λ fault. (cause : SpecFault) × (fault ≡ adopt_refusal cause)) }
        ensures due { IsHonest (D.meaning self.old.device) → adopt_due self.old name.now ≡ None
            → IfErr result (λ fault.
            fault ≢ Refusal.DeviceFault → fault ≢ Refusal.Memory
            → (cause : SpecFault) × (fault ≡ adopt_refusal cause) × IsDue cause name.now
            self.old.media self.old.limits.time (D.meaning self.old.device).shelf) }
        ensures refuses { IsHonest (D.meaning self.old.device) → adopt_due self.old name.now ≡ None
            → (cause : SpecFault) → IsDue cause name.now
            self.old.media self.old.limits.time (D.meaning self.old.device).shelf
            → IsErrAnd result (λ fault. (fault ≡ adopt_refusal cause)
            ⊎ (fault ≡ Refusal.DeviceFault) ⊎ (fault ≡ Refusal.Memory)) }
        ensures same { IsHonest (D.meaning self.old.device)
            → IfErr result (λ fault. fault ≢ Refusal.DeviceFault
            → SameShelf (D.meaning self.old.device).shelf (D.meaning self.new.device).shelf) }
        ensures counted { Counted (IsErrOf result Refusal.DeviceFault) ⊥
            (D.meaning self.old.device) (D.meaning self.new.device) }
        ensures keeps { KeepsPieces (D.meaning self.old.device) (D.meaning self.new.device)
            self.old.journal self.new.journal self.old.hand self.new.hand }
        ensures others_last { StillLastsBelow 0 name.now
            (D.meaning self.old.device).shelf (D.meaning self.new.device).shelf }
        ensures whole_blocks { IsHonest (D.meaning self.old.device) → KeepsWholeBlocks name.now
            (D.meaning self.old.device).shelf (D.meaning self.new.device).shelf }
        ensures refused_last { IfErr result (λ fault. fault ≢ Refusal.DeviceFault
            → StillLasts (D.meaning self.old.device).shelf (D.meaning self.new.device).shelf) }
        ensures others { IsHonest (D.meaning self.old.device)
            → (other : List ℕ) → other ≢ name.now
            → (D.meaning self.new.device).shelf.volume other
            ≡ (D.meaning self.old.device).shelf.volume other }
        ensures only_reads { IsHonest (D.meaning self.old.device)
            → (cause : SpecFault) → IsDue cause name.now
            self.old.media self.old.limits.time (D.meaning self.old.device).shelf
            → OnlyReads (IsErrOf result Refusal.DeviceFault)
            (D.meaning self.old.device) (D.meaning self.new.device) }
    {
        self.may_adopt(name)?;
        self.add_adopted(name, Some(*note))
    }

    // Whether a volume of that name may be adopted.
    fn may_adopt(&self, name: &VolName) -> Result<(), Refusal>
        ensures due { IfErr result (λ fault. adopt_due self.now name.now ≡ Some fault) }
        ensures none { OnOk result (adopt_due self.now name.now ≡ None) }
        ensures loaded { OnOk result (self.now.loaded ≡ None) }
        ensures fresh { OnOk result
            ((at : ℕ) → slice_get (names self.now.volumes) at ≢ Some name.now) }
        ensures faults { IfErr result (λ fault. fault ≢ Refusal.DeviceFault) }
    {
        if find(&self.volumes, name).is_some() {
            return Err(Refusal::AlreadyLabelled);
        }
        if self.loaded.is_some() {
            return Err(Refusal::InUse);
        }
        Ok(())
    }

    // Adopts a volume, by its note if there is one, if none is loaded and none has its name.
    fn add_adopted(&mut self, name: &VolName, note: Option<Note>) -> Result<Adopted, Refusal>
        requires known { IsHonest (D.meaning self.old.device) → IfSome note
            (λ given. IsTrueNote given name.now (D.meaning self.old.device).shelf) }
        requires loaded { self.old.loaded ≡ None }
        requires fresh { (at : ℕ) → slice_get (names self.old.volumes) at ≢ Some name.now }
        ensures ok { IfOk result (λ answer. AdoptsVolume name.now answer
            (D.meaning self.old.device) (D.meaning self.new.device) self.old self.new) }
        ensures err { OnErr result (AddsNone self.old self.new) }
        ensures faults { IfErr result (λ fault. (cause : SpecFault)
            × (fault ≡ adopt_refusal cause)) }
        ensures due { IsHonest (D.meaning self.old.device) → IfErr result (λ fault.
            fault ≢ Refusal.DeviceFault → fault ≢ Refusal.Memory
            → (cause : SpecFault) × (fault ≡ adopt_refusal cause) × IsDue cause name.now
            self.old.media self.old.limits.time (D.meaning self.old.device).shelf) }
        ensures refuses { IsHonest (D.meaning self.old.device)
            → (cause : SpecFault) → IsDue cause name.now
            self.old.media self.old.limits.time (D.meaning self.old.device).shelf
            → IsErrAnd result (λ fault. (fault ≡ adopt_refusal cause)
            ⊎ (fault ≡ Refusal.DeviceFault) ⊎ (fault ≡ Refusal.Memory)) }
        ensures same { IsHonest (D.meaning self.old.device)
            → IfErr result (λ fault. fault ≢ Refusal.DeviceFault
            → SameShelf (D.meaning self.old.device).shelf (D.meaning self.new.device).shelf) }
        ensures counted { Counted (IsErrOf result Refusal.DeviceFault) ⊥
            (D.meaning self.old.device) (D.meaning self.new.device) }
        ensures keeps { KeepsPieces (D.meaning self.old.device) (D.meaning self.new.device)
            self.old.journal self.new.journal self.old.hand self.new.hand }
        ensures others_last { StillLastsBelow 0 name.now
            (D.meaning self.old.device).shelf (D.meaning self.new.device).shelf }
        ensures whole_blocks { IsHonest (D.meaning self.old.device) → KeepsWholeBlocks name.now
            (D.meaning self.old.device).shelf (D.meaning self.new.device).shelf }
        ensures refused_last { IfErr result (λ fault. fault ≢ Refusal.DeviceFault
            → StillLasts (D.meaning self.old.device).shelf (D.meaning self.new.device).shelf) }
        ensures others { IsHonest (D.meaning self.old.device)
            → (other : List ℕ) → other ≢ name.now
            → (D.meaning self.new.device).shelf.volume other
            ≡ (D.meaning self.old.device).shelf.volume other }
        ensures only_reads { IsHonest (D.meaning self.old.device)
            → (cause : SpecFault) → IsDue cause name.now
            self.old.media self.old.limits.time (D.meaning self.old.device).shelf
            → OnlyReads (IsErrOf result Refusal.DeviceFault)
            (D.meaning self.old.device) (D.meaning self.new.device) }
    {
        let Ok(()) = self.volumes.reserve(1) else {
            return Err(Refusal::Memory);
        };
        match adopt_by(
            self.alloc,
            &mut self.driver,
            name,
            &self.media,
            self.limits.time,
            self.limits.volume,
            note,
        ) {
            Ok(volume) => {
                let answer = Adopted {
                    end: volume.end(),
                    next_number: volume.next_number(),
                };
                self.volumes.push_reserved(volume);
                Ok(answer)
            }
            Err(fault) => Err(fault.refusal()),
        }
    }
}
