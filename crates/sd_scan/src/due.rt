// The block that is due at a place.
ghost use Rattle.std.specs.Prelude.{◌≡◌, ◌≢◌, ◌+◌, ◌≤◌, length, drop, IfOk, IfErr, IfSome, IfNone, IsErrOf, None, Some};
ghost use Rattle.sd_base.specs.Limits.{least_block, block_header};
ghost use Rattle.sd_driver.specs.Meaning.{IsHonest};
ghost use Rattle.sd_driver.specs.Shelf.{Held};
ghost use Rattle.sd_volume.specs.Device.{OnlyReads};
ghost use Rattle.sd_volume.specs.Image.{BeginsWithBlock, NoBlockNext};
ghost use Rattle.sd_volume.specs.Reader.{Shows, IsBlockOf};

use sd_block::Head;
use sd_driver::{Driver, DriverFault};
use sd_volume::{VolumeReader, next_block};

/// The block with that number at a place of a volume of that size, which the reader shows then; or
/// `None` if no such block is there whole.
pub(crate) fn due_block<D: Driver>(
    driver: &mut D,
    reader: &mut VolumeReader,
    at: u64,
    number: u64,
    size: u64,
) -> Result<Option<Head>, DriverFault>
    requires { at ≤ size }
    ensures name { reader.new.name ≡ reader.old.name }
    ensures device { OnlyReads (IsErrOf result DriverFault.Device)
        (D.meaning driver.old) (D.meaning driver.new) }
    ensures faults { IfErr result
        (λ fault. (fault ≢ DriverFault.Exists) × (fault ≢ DriverFault.NoRoom)) }
    ensures block { IfOk result (λ found. IfSome found (IsBlockOf reader.new.shown)) }
    ensures within { IfOk result (λ found. IfSome found
        (λ head. (least_block ≤ head.size) × (at + head.size ≤ size))) }
    ensures number { IfOk result (λ found. IfSome found (λ head. head.number ≡ number)) }

    ensures there { IsHonest (D.meaning driver.old) → Shows reader.old (D.meaning driver.old).shelf
        → (held : Held) → (D.meaning driver.old).shelf.volume reader.old.name ≡ Some held
        → IfOk result (λ found. IfSome found (λ head. BeginsWithBlock (drop at held.bytes)
        head.key number (drop block_header reader.new.shown))) }
    ensures none { IsHonest (D.meaning driver.old) → Shows reader.old (D.meaning driver.old).shelf
        → (held : Held) → (D.meaning driver.old).shelf.volume reader.old.name ≡ Some held
        → size ≡ length held.bytes
        → IfOk result (λ found. IfNone found (NoBlockNext number (drop at held.bytes))) }
    ensures shows { IsHonest (D.meaning driver.old) → Shows reader.old (D.meaning driver.old).shelf
        → Shows reader.new (D.meaning driver.new).shelf }
    ensures not_there { IsHonest (D.meaning driver.old) → IsErrOf result DriverFault.NotThere
        → (D.meaning driver.old).shelf.volume reader.old.name ≡ None }
{
    let Some(head) = next_block(driver, reader, at)? else {
        return Ok(None);
    };
    if head.number as u64 != number {
        return Ok(None);
    }
    if head.size as u64 > size - at {
        return Ok(None);
    }
    Ok(Some(head))
}
