// The next whole block after a damaged place.
ghost use Rattle.std.specs.Prelude.{◌≡◌, ◌≢◌, ◌+◌, ◌≤◌, ◌<◌, ℕ, length, drop, None, Some, IfOk, IfErr, IfSome, IfNone, OnOk, IsErrOf};
ghost use Rattle.sd_base.specs.Limits.{block_header, most_block};
ghost use Rattle.sd_block.specs.Head.{IsHeadOf};
ghost use Rattle.sd_block.specs.declared.head.Head.{Head as SpecHead};
ghost use Rattle.sd_driver.specs.Meaning.{IsHonest};
ghost use Rattle.sd_driver.specs.Shelf.{Held};
ghost use Rattle.sd_volume.specs.Device.{OnlyReads};
ghost use Rattle.sd_volume.specs.Image.{BeginsWithBlock};
ghost use Rattle.sd_volume.specs.Reader.{IsBlockOf, Shows};
ghost use Rattle.sd_scan.specs.Run.{IsFirstWhole, NoneBetween};

use sd_base::{BLOCK_HEADER, MOST_BLOCK};
use sd_block::{Head, read_head};
use sd_driver::{Driver, DriverFault};
use sd_volume::{VolumeReader, next_block};

/// A whole block: where it lies, and its head.
#[derive(Clone, Copy, Debug, PartialEq, Eq)]
pub struct Whole {
    pub at: u64,
    pub head: Head,
}

/// The first whole block from `from` on, whatever its number, that begins before `size`. The reader
/// shows it then.
pub fn next_whole<D: Driver>(
    driver: &mut D,
    reader: &mut VolumeReader,
    from: u64,
    size: u64,
) -> Result<Option<Whole>, DriverFault>
    ensures name { reader.new.name ≡ reader.old.name }
    ensures device { OnlyReads (IsErrOf result DriverFault.Device)
        (D.meaning driver.old) (D.meaning driver.new) }
    ensures faults { IfErr result
        (λ fault. (fault ≢ DriverFault.Exists) × (fault ≢ DriverFault.NoRoom)) }
    ensures within { IfOk result (λ found. IfSome found
        (λ whole. (from ≤ whole.at) × (whole.at < size))) }
    ensures found { IsHonest (D.meaning driver.old) → Shows reader.old (D.meaning driver.old).shelf
        → (held : Held) → (D.meaning driver.old).shelf.volume reader.old.name ≡ Some held
        → IfOk result (λ found. IfSome found
        (λ whole. IsFirstWhole held.bytes from whole.at whole.head.number)) }
    ensures block { IfOk result (λ found. IfSome found
        (λ whole. IsBlockOf reader.new.shown whole.head)) }
    ensures there { IsHonest (D.meaning driver.old) → Shows reader.old (D.meaning driver.old).shelf
        → (held : Held) → (D.meaning driver.old).shelf.volume reader.old.name ≡ Some held
        → IfOk result (λ found. IfSome found (λ whole. BeginsWithBlock (drop whole.at held.bytes)
        whole.head.key whole.head.number (drop block_header reader.new.shown))) }
    ensures none { IsHonest (D.meaning driver.old) → Shows reader.old (D.meaning driver.old).shelf
        → (held : Held) → (D.meaning driver.old).shelf.volume reader.old.name ≡ Some held
        → IfOk result (λ found. IfNone found (NoneBetween held.bytes from size)) }
    ensures shows { IsHonest (D.meaning driver.old) → Shows reader.old (D.meaning driver.old).shelf
        → OnOk result (Shows reader.new (D.meaning driver.new).shelf) }
{
    let mut at = from;
    while at < size {
        reader.fill(driver, at, MOST_BLOCK)?;
        at = at.saturating_add(headless(reader.shown()) as u64);
        if at >= size {
            return Ok(None);
        }
        if let Some(head) = next_block(driver, reader, at)? {
            return Ok(Some(Whole { at, head }));
        }
        at += 1;
    }
    Ok(None)
}

// How many of the first places in the bytes have no header of a block there, each with a whole
// header's bytes after it.
fn headless(bytes: &[u8]) -> usize
    ensures within { result ≤ length bytes.now }
    ensures none { (at : ℕ) → at < result → (at + block_header ≤ length bytes.now)
        × ((head : SpecHead) → ¬ IsHeadOf most_block (drop at bytes.now) head) }
{
    let mut at = 0;
    while bytes.len() - at >= BLOCK_HEADER {
        if let Ok(_) = read_head(&bytes[at..], MOST_BLOCK) {
            return at;
        }
        at += 1;
    }
    at
}
