// A new volume on a device.
ghost use Rattle.std.specs.Prelude.{◌≡◌, ◌≢◌, ℕ, List, ◌++◌, ◌≤◌, ◌⊎◌, length, IfOk, IfErr, OnOk, OnErr, IsErrOf, IsSome, None, Some};
ghost use Rattle.sd_base.specs.Limits.{most_block};
ghost use Rattle.sd_block.specs.Image.{IsBlockImage};
ghost use Rattle.sd_driver.specs.Meaning.{IsHonest, Unchanged};
ghost use Rattle.sd_driver.specs.Shelf.{MayCreate, StillLasts};
ghost use Rattle.sd_label.specs.Label.{IsVolumeLabel, volume_label_bytes};
ghost use Rattle.sd_volume.specs.Device.{Counted, CallsAtMost, Writes, OthersStay};
ghost use Rattle.sd_volume.specs.Image.{no_session, label_block};
ghost use Rattle.sd_volume.specs.Label.{new_volume, Stores, Labels, MayCreateEmpty};

use crate::fault::LabelFault;
use crate::volume::{Volume, VolumeStatus};
use sd_base::{SessionKey, VolName};
use sd_block::seal;
use sd_driver::Driver;
use sd_label::{VolumeLabel, put_volume_label, volume_label_length};
use std::alloc::{AllocError, Global};

// A label block is of no session.
pub(crate) const NO_SESSION: SessionKey = SessionKey { time: 0, id: 0 };

/// A new volume with this label, which lasts once it is there. Calls create, append, sync and unload, in this
/// order, and takes its memory before.
pub fn label_new<D: Driver>(
    alloc: Global,
    driver: &mut D,
    label: &VolumeLabel,
) -> Result<Volume, LabelFault>
    requires { (D.meaning driver.old).loaded ≡ None }
    ensures volume { IfOk result (λ volume. volume ≡ new_volume label.now) }
    ensures unloaded { (D.meaning driver.new).loaded ≡ None }
    ensures counted { Counted (IsErrOf result LabelFault.Device) (IsErrOf result LabelFault.NoRoom)
        (D.meaning driver.old) (D.meaning driver.new) }
    ensures calls { CallsAtMost 4 (D.meaning driver.old) (D.meaning driver.new) }
    ensures lasts { StillLasts (D.meaning driver.old).shelf (D.meaning driver.new).shelf }

    ensures ok { IsHonest (D.meaning driver.old) → OnOk result
        (Labels label.now (D.meaning driver.old).shelf (D.meaning driver.new).shelf) }
    ensures err { IsHonest (D.meaning driver.old) → OnErr result
        (MayCreate label.now.name (D.meaning driver.old).shelf (D.meaning driver.new).shelf) }
    ensures memory { IsHonest (D.meaning driver.old) → IsErrOf result LabelFault.Memory
        → MayCreateEmpty label.now.name (D.meaning driver.old).shelf (D.meaning driver.new).shelf }
    ensures already { IsHonest (D.meaning driver.old) → IsErrOf result LabelFault.AlreadyLabelled
        → IsSome ((D.meaning driver.old).shelf.volume label.now.name) }
    ensures taken { IsHonest (D.meaning driver.old)
        → IsSome ((D.meaning driver.old).shelf.volume label.now.name)
        → IfErr result (λ fault. fault ≢ LabelFault.NoRoom) }
{
    let image = label_image(alloc, label)?;
    store(driver, &label.name, &image)?;
    let end = image.len() as u64;
    Ok(Volume {
        name: label.name.copy(),
        pool: label.pool.copy(),
        media: label.media.copy(),
        status: VolumeStatus::Append,
        end,
        next_number: 1,
        first: end,
        last: 0,
    })
}

// The label block of a volume.
fn label_image(alloc: Global, label: &VolumeLabel) -> Result<Vec<u8>, AllocError>
    ensures label { OnOk result (IsVolumeLabel label.now) }
    ensures image { IfOk result
        (λ image. IsBlockImage most_block image.items no_session 0 (volume_label_bytes label.now)) }
{
    let mut record = Vec::with_capacity(alloc, volume_label_length(label))?;
    put_volume_label(&mut record, label)?;
    seal(alloc, NO_SESSION, 0, &record)
}

// A new volume of these bytes, which lasts once it is there.
fn store<D: Driver>(driver: &mut D, name: &VolName, bytes: &[u8]) -> Result<(), LabelFault>
    requires { (D.meaning driver.old).loaded ≡ None }
    ensures unloaded { (D.meaning driver.new).loaded ≡ None }
    ensures counted { Counted (IsErrOf result LabelFault.Device) (IsErrOf result LabelFault.NoRoom)
        (D.meaning driver.old) (D.meaning driver.new) }
    ensures calls { CallsAtMost 4 (D.meaning driver.old) (D.meaning driver.new) }
    ensures lasts { StillLasts (D.meaning driver.old).shelf (D.meaning driver.new).shelf }

    ensures ok { IsHonest (D.meaning driver.old) → OnOk result
        (Stores name.now bytes.now (D.meaning driver.old).shelf (D.meaning driver.new).shelf) }
    ensures err { IsHonest (D.meaning driver.old) → OnErr result
        (MayCreate name.now (D.meaning driver.old).shelf (D.meaning driver.new).shelf) }
    ensures memory { IsHonest (D.meaning driver.old) → IsErrOf result LabelFault.Memory
        → MayCreateEmpty name.now (D.meaning driver.old).shelf (D.meaning driver.new).shelf }
    ensures already { IsHonest (D.meaning driver.old) → IsErrOf result LabelFault.AlreadyLabelled
        → IsSome ((D.meaning driver.old).shelf.volume name.now) }
    ensures taken { IsHonest (D.meaning driver.old)
        → IsSome ((D.meaning driver.old).shelf.volume name.now)
        → IfErr result (λ fault. fault ≢ LabelFault.NoRoom) }
{
    driver.create(name)?;
    let written = write(driver, bytes);
    driver.unload();
    written
}

// Adds bytes at the end of the loaded volume, and makes all of it last.
fn write<D: Driver>(driver: &mut D, bytes: &[u8]) -> Result<(), LabelFault>
    requires { IsSome (D.meaning driver.old).loaded }
    ensures loaded { (D.meaning driver.new).loaded ≡ (D.meaning driver.old).loaded }
    ensures counted { Counted (IsErrOf result LabelFault.Device) (IsErrOf result LabelFault.NoRoom)
        (D.meaning driver.old) (D.meaning driver.new) }
    ensures calls { CallsAtMost 2 (D.meaning driver.old) (D.meaning driver.new) }
    ensures lasts { StillLasts (D.meaning driver.old).shelf (D.meaning driver.new).shelf }
    ensures faults { IfErr result (λ fault. fault ≢ LabelFault.AlreadyLabelled) }
    ensures memory { IsErrOf result LabelFault.Memory
        → Unchanged (D.meaning driver.old) (D.meaning driver.new) }

    ensures ok { IsHonest (D.meaning driver.old) → OnOk result (Writes bytes.now
        (D.meaning driver.old).loaded (D.meaning driver.old).shelf (D.meaning driver.new).shelf) }
    ensures err { IsHonest (D.meaning driver.old) → OthersStay
        (D.meaning driver.old).loaded (D.meaning driver.old).shelf (D.meaning driver.new).shelf }
{
    driver.append(bytes)?;
    driver.sync()?;
    Ok(())
}
