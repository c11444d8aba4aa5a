// What is at a place where the next block is due.
ghost use Rattle.std.specs.Prelude.{◌≡◌, ◌≢◌, ◌≤◌, length, drop, IfOk, IfErr, IsErrOf, None, Some, ◌⊎◌};
ghost use Rattle.sd_base.specs.Limits.{most_block};
ghost use Rattle.sd_block.specs.Image.{IsImage};
ghost use Rattle.sd_driver.specs.Meaning.{IsHonest};
ghost use Rattle.sd_driver.specs.Shelf.{Held};
ghost use Rattle.sd_volume.specs.Device.{OnlyReads};
ghost use Rattle.sd_volume.specs.Reader.{Shows};
ghost use Rattle.sd_scan.specs.Kind.{IsKind, kind_of};
ghost use Rattle.sd_scan.specs.declared.kind.Kind.TheVariants.{BadNumber, BadSum};

use sd_base::{BLOCK_HEADER, MOST_BLOCK};
use sd_block::{BlockFault, open_block, read_head};
use sd_driver::{Driver, DriverFault};
use sd_volume::VolumeReader;
use std::fmt;

/// What is wrong at a place where a block is due.
#[derive(Clone, Copy, Debug, PartialEq, Eq)]
pub enum Kind {
    /// Fewer bytes are left than a header has, or than the header says.
    Short,
    /// The header names no block.
    BadId,
    /// The header says a size that no block has.
    BadSize,
    /// The checksum is not that of the bytes.
    BadSum,
    /// It is a whole block, but not the one that is due.
    BadNumber,
}

/// Displays the word for it.
impl fmt::Display for Kind {
    ghost use Rattle.std.specs.Prelude.{Some};
    ghost use Rattle.sd_scan.specs.Words.{kind_text};

    ghost output = { λ k. Some (kind_text k) };

    fn fmt<W: fmt::Write>(&self, f: &mut fmt::Formatter<W>) -> fmt::Result {
        f.write_str(match self {
            Kind::Short => "short",
            Kind::BadId => "id",
            Kind::BadSize => "size",
            Kind::BadSum => "checksum",
            Kind::BadNumber => "number",
        })
    }
}

/// What is wrong at a place of the reader's volume, which has that size. There is no whole block
/// there with the number that is due.
pub(crate) fn kind_at<D: Driver>(
    driver: &mut D,
    reader: &mut VolumeReader,
    at: u64,
    size: u64,
) -> Result<Kind, DriverFault>
    requires { at ≤ size }
    ensures name { reader.new.name ≡ reader.old.name }
    ensures device { OnlyReads (IsErrOf result DriverFault.Device)
        (D.meaning driver.old) (D.meaning driver.new) }
    ensures faults { IfErr result
        (λ fault. (fault ≢ DriverFault.Exists) × (fault ≢ DriverFault.NoRoom)) }
    ensures kind { IsHonest (D.meaning driver.old) → Shows reader.old (D.meaning driver.old).shelf
        → (held : Held) → (D.meaning driver.old).shelf.volume reader.old.name ≡ Some held
        → size ≡ length held.bytes
        → IfOk result (IsKind (drop at held.bytes)) }
    ensures shows { IsHonest (D.meaning driver.old) → Shows reader.old (D.meaning driver.old).shelf
        → Shows reader.new (D.meaning driver.new).shelf }
    ensures not_there { IsHonest (D.meaning driver.old) → IsErrOf result DriverFault.NotThere
        → (D.meaning driver.old).shelf.volume reader.old.name ≡ None }
{
    reader.fill(driver, at, BLOCK_HEADER)?;
    let head = match read_head(reader.shown(), MOST_BLOCK) {
        Ok(head) => head,
        Err(fault) => return Ok(kind_of(fault)),
    };
    if head.size as u64 > size - at {
        return Ok(Kind::Short);
    }
    reader.fill(driver, at, head.size)?;
    Ok(kind_of_whole(reader.shown()))
}

// What is wrong with the bytes of a block, by whether they are one: another is due, or the checksum
// is wrong.
fn kind_of_whole(bytes: &[u8]) -> Kind
    ensures { ((result ≡ BadNumber) × IsImage most_block bytes.now)
        ⊎ ((result ≡ BadSum) × ¬ IsImage most_block bytes.now) }
{
    match open_block(bytes, MOST_BLOCK) {
        Ok(_) => Kind::BadNumber,
        Err(_) => Kind::BadSum,
    }
}

fn kind_of(fault: BlockFault) -> Kind
    ensures { result ≡ kind_of fault }
{
    match fault {
        BlockFault::Short => Kind::Short,
        BlockFault::BadId => Kind::BadId,
        BlockFault::BadSize => Kind::BadSize,
        BlockFault::BadSum => Kind::BadSum,
    }
}
