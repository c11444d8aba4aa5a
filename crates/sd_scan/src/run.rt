// Blocks that lie one after another.
ghost use Rattle.std.specs.Prelude.{◌≡◌, ◌+◌, ◌<◌, ◌≤◌, ◌^◌, ℕ, List, [], ◌∷◌, ◌++◌, length, drop, Some, IfOk, OnOk, IsErrOf};
ghost use Rattle.sd_base.specs.Limits.{block_header};
ghost use Rattle.sd_driver.specs.Meaning.{IsHonest};
ghost use Rattle.sd_driver.specs.Shelf.{Held};
ghost use Rattle.sd_scan.specs.Found.{Found};
ghost use Rattle.sd_scan.specs.Sessions.{Keeps};
ghost use Rattle.sd_volume.specs.Device.{OnlyReads};
ghost use Rattle.sd_volume.specs.Image.{Block};
ghost use Rattle.sd_volume.specs.Reader.{IsBlockOf, Shows};
ghost use Rattle.sd_scan.specs.Run.{RunTo, found_from};

use crate::block::FoundBlock;
use crate::chain::Chain;
use crate::due::due_block;
use crate::fault::ScanFault;
use crate::sessions::Sessions;
use sd_base::{BLOCK_HEADER, VolName};
use sd_block::Head;
use sd_driver::Driver;
use sd_volume::VolumeReader;
use std::alloc::AllocError;

/// Takes the blocks of a volume of that size that lie one after another from a place on, the first
/// of them with that number and each of the others with the next one. Says where they end. The chain is told of each.
pub(crate) fn take_run<D: Driver>(
    driver: &mut D,
    reader: &mut VolumeReader,
    name: &VolName,
    start: u64,
    first: u64,
    size: u64,
    chain: &mut Chain,
    sessions: &mut Sessions,
) -> Result<u64, ScanFault>
    requires start { start ≤ size }
    requires first { first ≤ 2 ^ 32 }
    requires chain { chain.old.so_far.end ≡ start }
    ensures name { reader.new.name ≡ reader.old.name }
    ensures device { OnlyReads (IsErrOf result ScanFault.Device)
        (D.meaning driver.old) (D.meaning driver.new) }
    ensures within { IfOk result (λ end. (start ≤ end) × (end ≤ size)) }
    ensures takes { IfOk result (λ end. (more : List Found)
        × ((found : List Found) → Keeps found sessions.old → Keeps (found ++ more) sessions.new)
        × (IsHonest (D.meaning driver.old) → Shows reader.old (D.meaning driver.old).shelf
        → (held : Held) → (D.meaning driver.old).shelf.volume reader.old.name ≡ Some held
        → size ≡ length held.bytes
        → (blocks : List Block) × (more ≡ found_from name.now start blocks)
        × RunTo held.bytes start first blocks end)) }
    ensures shows { IsHonest (D.meaning driver.old) → Shows reader.old (D.meaning driver.old).shelf
        → OnOk result (Shows reader.new (D.meaning driver.new).shelf) }
{
    let mut end = start;
    let mut number = first;
    while let Some(head) = due_block(driver, reader, end, number, size)? {
        take_shown(sessions, name, end, &head, reader.shown())?;
        chain.pass(&head);
        end += head.size as u64;
        number += 1;
    }
    Ok(end)
}

// Takes the block that these bytes are.
fn take_shown(
    sessions: &mut Sessions,
    name: &VolName,
    start: u64,
    head: &Head,
    block: &[u8],
) -> Result<(), AllocError>
    requires block { IsBlockOf block.now head.now }
    requires fits { start + head.now.size < 2 ^ 64 }
    ensures { OnOk result ((found : List Found) → Keeps found sessions.old
        → Keeps (found ++ record {
          volume = name.now;
          start = start;
          block = record { key = head.now.key; body = drop block_header block.now };
        } ∷ []) sessions.new) }
{
    let (_, body) = block.split_at(BLOCK_HEADER);
    sessions.take(&FoundBlock {
        key: head.key,
        volume: name,
        start,
        body,
    })
}
