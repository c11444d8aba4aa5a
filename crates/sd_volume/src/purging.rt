// A volume is used anew.
ghost use Rattle.std.specs.Prelude.{◌≡◌, ◌≢◌, ◌⊎◌, ℕ, List, IfErr, OnOk, IsErrOf, None};
ghost use Rattle.sd_driver.specs.Meaning.{IsHonest};
ghost use Rattle.sd_driver.specs.Shelf.{SameShelf, StillLasts, StillLastsBelow};
ghost use Rattle.sd_volume.specs.declared.volume.VolumeStatus.TheVariants.{Append, Error};
ghost use Rattle.sd_volume.specs.Adopt.{CutsAt};
ghost use Rattle.sd_volume.specs.Device.{CallsAtMost, Counted};
ghost use Rattle.sd_volume.specs.Purge.{emptied, LeavesLabel, KeepsLabel};

use crate::adoption::cut_back;
use crate::fault::AdoptFault;
use crate::volume::{Volume, VolumeStatus};
use sd_driver::Driver;

/// Takes all blocks from a volume: cuts it to the end of its label block, and makes that last. Then it takes blocks
/// again, from number 1 on. After a fault of the device it has status `Error` and no block: what comes after its label
/// block may be anything. The other faults are those of a load, not on the shelf and out of memory, or out of memory
/// in the cut; they change nothing.
///
/// Calls load, cut, sync and unload, in this order.
pub fn purge<D: Driver>(driver: &mut D, volume: &mut Volume) -> Result<(), AdoptFault>
    requires { (D.meaning driver.old).loaded ≡ None }
    ensures unloaded { (D.meaning driver.new).loaded ≡ None }
    ensures counted { Counted (IsErrOf result AdoptFault.Device) ⊥
        (D.meaning driver.old) (D.meaning driver.new) }
    ensures faults { IfErr result (λ fault. (fault ≡ AdoptFault.NotOnShelf)
        ⊎ (fault ≡ AdoptFault.Device) ⊎ (fault ≡ AdoptFault.Memory)) }
    ensures ok { OnOk result (volume.new ≡ emptied Append volume.old) }
    ensures failed { IsErrOf result AdoptFault.Device → volume.new ≡ emptied Error volume.old }
    ensures refused { IfErr result (λ fault. fault ≢ AdoptFault.Device
        → volume.new ≡ volume.old) }
    ensures calls { CallsAtMost 4 (D.meaning driver.old) (D.meaning driver.new) }
    ensures lasts_below { StillLastsBelow volume.old.first volume.old.name
        (D.meaning driver.old).shelf (D.meaning driver.new).shelf }
    ensures refused_last { IfErr result (λ fault. fault ≢ AdoptFault.Device
        → StillLasts (D.meaning driver.old).shelf (D.meaning driver.new).shelf) }

    ensures cuts { IsHonest (D.meaning driver.old) → OnOk result
        (CutsAt volume.old.first volume.old.name
        (D.meaning driver.old).shelf (D.meaning driver.new).shelf) }
    ensures leaves { IsHonest (D.meaning driver.old) → OnOk result
        (LeavesLabel volume.old (D.meaning driver.old).shelf
        volume.new (D.meaning driver.new).shelf) }
    ensures keeps { IsHonest (D.meaning driver.old) → IsErrOf result AdoptFault.Device
        → KeepsLabel volume.old (D.meaning driver.old).shelf
        volume.new (D.meaning driver.new).shelf }
    ensures same { IsHonest (D.meaning driver.old)
        → IfErr result (λ fault. fault ≢ AdoptFault.Device
        → SameShelf (D.meaning driver.old).shelf (D.meaning driver.new).shelf) }
    ensures others { IsHonest (D.meaning driver.old)
        → (other : List ℕ) → other ≢ volume.old.name
        → (D.meaning driver.new).shelf.volume other ≡ (D.meaning driver.old).shelf.volume other }
    ensures not_there { IsHonest (D.meaning driver.old) → IsErrOf result AdoptFault.NotOnShelf
        → (D.meaning driver.old).shelf.volume volume.old.name ≡ None }
{
    let cut = cut_back(driver, &volume.name, volume.first);
    empty_after(cut, volume);
    cut
}

// A volume that was cut to its label block, or on which that failed, has no block.
fn empty_after(cut: Result<(), AdoptFault>, volume: &mut Volume)
    ensures ok { OnOk cut (volume.new ≡ emptied Append volume.old) }
    ensures failed { IsErrOf cut AdoptFault.Device → volume.new ≡ emptied Error volume.old }
    ensures refused { IfErr cut (λ fault. fault ≢ AdoptFault.Device
        → volume.new ≡ volume.old) }
{
    match cut {
        Ok(()) => volume.empty(VolumeStatus::Append),
        Err(AdoptFault::Device) => volume.empty(VolumeStatus::Error),
        Err(_) => {}
    }
}
