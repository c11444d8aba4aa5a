// The block at a place of a volume.
ghost use Rattle.std.specs.Prelude.{◌≡◌, ◌≢◌, ℕ, List, IfOk, IfErr, IfSome, IfNone, IsErrOf, None};
ghost use Rattle.sd_base.specs.Limits.{most_block};
ghost use Rattle.sd_base.specs.declared.number.SessionKey.{SessionKey as SpecKey};
ghost use Rattle.sd_block.specs.Image.{IsBlockImage};
ghost use Rattle.sd_driver.specs.Meaning.{IsHonest};
ghost use Rattle.sd_volume.specs.Device.{OnlyReads};
ghost use Rattle.sd_volume.specs.Reader.{Shows, ShowsPart, IsBlockOf, NoBlockAt};

use crate::reader::VolumeReader;
use sd_base::{BLOCK_HEADER, MOST_BLOCK};
use sd_block::{Head, open_block, read_head};
use sd_driver::{Driver, DriverFault};

/// The block at a place of the reader's volume, whatever its number, or `None` if no whole block is
/// there. The label block is at 0. After `Some` the reader shows the block, all of it.
pub fn next_block<D: Driver>(
    driver: &mut D,
    reader: &mut VolumeReader,
    at: u64,
) -> Result<Option<Head>, DriverFault>
    ensures name { reader.new.name ≡ reader.old.name }
    ensures device { OnlyReads (IsErrOf result DriverFault.Device)
        (D.meaning driver.old) (D.meaning driver.new) }
    ensures faults { IfErr result
        (λ fault. (fault ≢ DriverFault.Exists) × (fault ≢ DriverFault.NoRoom)) }
    ensures block { IfOk result (λ found. IfSome found (IsBlockOf reader.new.shown)) }

    ensures there { IsHonest (D.meaning driver.old) → Shows reader.old (D.meaning driver.old).shelf
        → IfOk result (λ found. IfSome found
        (λ head. ShowsPart at head.size reader.new (D.meaning driver.new).shelf)) }
    ensures none { IsHonest (D.meaning driver.old) → Shows reader.old (D.meaning driver.old).shelf
        → IfOk result (λ found. IfNone found
        (NoBlockAt at reader.old.name (D.meaning driver.old).shelf)) }
    ensures shows { IsHonest (D.meaning driver.old) → Shows reader.old (D.meaning driver.old).shelf
        → Shows reader.new (D.meaning driver.new).shelf }
    ensures not_there { IsHonest (D.meaning driver.old) → IsErrOf result DriverFault.NotThere
        → (D.meaning driver.old).shelf.volume reader.old.name ≡ None }
{
    reader.fill(driver, at, BLOCK_HEADER)?;
    let Ok(head) = read_head(reader.shown(), MOST_BLOCK) else {
        return Ok(None);
    };
    reader.fill(driver, at, head.size)?;
    Ok(block_of(reader.shown()))
}

// The block that these bytes are.
fn block_of(bytes: &[u8]) -> Option<Head>
    ensures block { IfSome result (IsBlockOf bytes.now) }
    ensures none { IfNone result ((key : SpecKey) (number : ℕ) (body : List ℕ)
        → ¬ IsBlockImage most_block bytes.now key number body) }
{
    let Ok(block) = open_block(bytes, MOST_BLOCK) else {
        return None;
    };
    Some(Head {
        key: block.key,
        number: block.number,
        size: bytes.len(),
    })
}
