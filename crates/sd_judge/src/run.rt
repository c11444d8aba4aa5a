// Blocks that stand one after another.
ghost use Rattle.std.specs.Prelude.{◌≡◌, ◌≢◌, ◌+◌, ◌≤◌, ◌^◌, ℕ, List, length, IfOk, IfErr, OnOk, IsErrOf, None};
ghost use Rattle.sd_driver.specs.Shelf.{Held};
ghost use Rattle.sd_judge.specs.Reading.{IsAt};
ghost use Rattle.sd_judge.specs.Run.{RunsTo};
ghost use Rattle.sd_volume.specs.Device.{OnlyReads};

use sd_driver::{Driver, DriverFault};
use sd_volume::{VolumeReader, numbered_block};

/// Where blocks that stand one after another end, and which number is due there.
#[derive(Clone, Copy)]
pub(crate) struct RunEnd {
    pub(crate) end: u64,
    pub(crate) next: u64,
}

/// Where the blocks of a volume of that size end that stand one after another from a place on, the first of them with that
/// number.
pub(crate) fn end_of_run<D: Driver>(
    driver: &mut D,
    reader: &mut VolumeReader,
    start: u64,
    number: u64,
    size: u64,
) -> Result<RunEnd, DriverFault>
    requires start { start ≤ size }
    requires number { number ≤ 2 ^ 32 }
    ensures name { reader.new.name ≡ reader.old.name }
    ensures device { OnlyReads (IsErrOf result DriverFault.Device)
        (D.meaning driver.old) (D.meaning driver.new) }
    ensures faults { IfErr result
        (λ fault. (fault ≢ DriverFault.Exists) × (fault ≢ DriverFault.NoRoom)) }
    ensures from { IfOk result (λ run. start ≤ run.end) }
    ensures within { IfOk result (λ run. run.end ≤ size) }
    ensures most { IfOk result (λ run. run.next ≤ 2 ^ 32) }

    ensures at { (held : Held) → IsAt held reader.old (D.meaning driver.old)
        → IsAt held reader.new (D.meaning driver.new) }
    ensures run { (held : Held) → IsAt held reader.old (D.meaning driver.old)
        → size ≡ length held.bytes
        → IfOk result (λ run. RunsTo held.bytes start number run.end run.next) }
{
    let mut end = start;
    let mut next = number;
    while let Some(head) = numbered_block(driver, reader, end, next, size)? {
        end += head.size as u64;
        next += 1;
    }
    Ok(RunEnd { end, next })
}
