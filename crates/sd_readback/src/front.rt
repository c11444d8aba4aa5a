// The block at a place of a span.
ghost use Rattle.std.specs.Prelude.{◌≡◌, ◌+◌, ◌≤◌, ◌↔◌, ℕ, List, Option, length, IsTrue, IfOk, IfErr, OnOk, OnErr, IsErrOf};
ghost use Rattle.sd_base.specs.Limits.{most_block};
ghost use Rattle.sd_block.specs.Head.{IsHeadOf};
ghost use Rattle.sd_block.specs.Image.{IsBlockImage};
ghost use Rattle.sd_block.specs.declared.head.Head.{Head as SpecHead};
ghost use Rattle.sd_volume.specs.Device.{OnlyReads};
ghost use Rattle.sd_readback.specs.Device.{IsReading, ShowsBlock, stretch};
ghost use Rattle.sd_readback.specs.Faults.{ComesNext, BeginsWithNoBlock, HasBadBlock, IsOfSpans};

use crate::fault::ReadFault;
use sd_base::{BLOCK_HEADER, LEAST_BLOCK, MOST_BLOCK};
use sd_block::{Opened, open_block, read_head};
use sd_driver::Driver;
use sd_volume::VolumeReader;

/// Has the reader show the block that begins at `at` of its volume, and is to end at `end` or before. The
/// tests are made in this order: enough bytes for a block, its header, enough bytes for this block.
pub(crate) fn show_block<D: Driver>(
    driver: &mut D,
    volume: &mut VolumeReader,
    at: u64,
    end: u64,
) -> Result<(), ReadFault>
    requires { at ≤ end }
    ensures device { OnlyReads (IsErrOf result ReadFault.Device)
        (D.meaning driver.old) (D.meaning driver.new) }
    ensures within { OnOk result (at + length volume.new.shown ≤ end) }

    ensures still { (bytes : List ℕ)
        → IsReading (D.meaning driver.old) volume.old end bytes
        → IsReading (D.meaning driver.new) volume.new end bytes }
    ensures shown { (bytes : List ℕ)
        → IsReading (D.meaning driver.old) volume.old end bytes
        → OnOk result (ShowsBlock (stretch at end bytes) volume.new.shown) }
    ensures none { (bytes : List ℕ)
        → IsReading (D.meaning driver.old) volume.old end bytes
        → IfErr result (λ fault. IsOfSpans fault
        → (last : Option ℕ) → BeginsWithNoBlock fault last (stretch at end bytes)) }
{
    let left = end - at;
    if left < LEAST_BLOCK as u64 {
        return Err(ReadFault::BadSpan);
    }
    volume.fill(driver, at, BLOCK_HEADER)?;
    let head = read_head(volume.shown(), MOST_BLOCK)?;
    if head.size as u64 > left {
        return Err(ReadFault::BadSpan);
    }
    volume.fill(driver, at, head.size)?;
    Ok(())
}

/// The block that these bytes are, which is to come after the block with the number `last`. Its checksum is
/// tested before its number.
pub(crate) fn next_block(bytes: &[u8], last: Option<u32>) -> Result<Opened<'_>, ReadFault>
    ensures block { IfOk result (λ block.
        IsBlockImage most_block bytes.now block.key block.number block.body.now) }
    ensures next { IfOk result (λ block. ComesNext last block.number) }
    ensures damaged { IfErr result (λ fault. fault ≡ ReadFault.DamagedBlock) }
    ensures why { OnErr result ((head : SpecHead)
        → IsHeadOf most_block bytes.now head → head.size ≡ length bytes.now
        → HasBadBlock last bytes.now head) }
{
    let block = open_block(bytes, MOST_BLOCK)?;
    if !comes_next(last, block.number) {
        return Err(ReadFault::DamagedBlock);
    }
    Ok(block)
}

fn comes_next(last: Option<u32>, number: u32) -> bool
    ensures { IsTrue result ↔ ComesNext last number }
{
    match last {
        None => true,
        Some(last) => u64::from(number) == u64::from(last) + 1,
    }
}
