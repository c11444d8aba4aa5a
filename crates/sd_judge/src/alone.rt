// A volume of which no note counts.
ghost use Rattle.std.specs.Prelude.{◌≡◌, ◌≢◌, ◌↔◌, ◌+◌, ◌-◌, ◌*◌, ◌<◌, ◌≤◌, ◌^◌, ℕ, List, length, drop, IfOk, IfErr, IsErrOf, IsTrue, None};
ghost use Rattle.sd_base.specs.Limits.{least_block};
ghost use Rattle.sd_driver.specs.Shelf.{Held};
ghost use Rattle.sd_judge.specs.Alone.{HasOwnBehind, IsOwnHead, JudgesAlone};
ghost use Rattle.sd_judge.specs.Reading.{IsAt};
ghost use Rattle.sd_judge.specs.Run.{RunsTo};
ghost use Rattle.sd_volume.specs.Device.{OnlyReads};

use crate::run::{RunEnd, end_of_run};
use crate::volume::Judgement;
use sd_base::{LEAST_BLOCK, SessionKey};
use sd_block::Head;
use sd_driver::{Driver, DriverFault};
use sd_scan::next_whole;
use sd_volume::VolumeReader;

// Whose the label's block is.
const NO_SESSION: SessionKey = SessionKey { time: 0, id: 0 };

/// What a volume of that size is whose blocks begin at `first`: damaged at the first place where no block is that is due,
/// if one of its own stands behind that.
pub(crate) fn judge_alone<D: Driver>(
    driver: &mut D,
    reader: &mut VolumeReader,
    first: u64,
    size: u64,
) -> Result<Judgement, DriverFault>
    requires { first ≤ size }
    ensures device { OnlyReads (IsErrOf result DriverFault.Device)
        (D.meaning driver.old) (D.meaning driver.new) }
    ensures faults { IfErr result
        (λ fault. (fault ≢ DriverFault.Exists) × (fault ≢ DriverFault.NoRoom)) }
    ensures judges { (held : Held) → IsAt held reader.old (D.meaning driver.old)
        → size ≡ length held.bytes → IfOk result (JudgesAlone held.bytes first) }
{
    let run = end_of_run(driver, reader, first, 1, size)?;
    if has_own_behind(driver, reader, run, size)? {
        Ok(Judgement::Damaged { at: run.end })
    } else {
        Ok(Judgement::Whole)
    }
}

// Whether a whole block of the volume itself stands behind the end of its run.
fn has_own_behind<D: Driver>(
    driver: &mut D,
    reader: &mut VolumeReader,
    run: RunEnd,
    size: u64,
) -> Result<bool, DriverFault>
    requires { run.next ≤ 2 ^ 32 }
    ensures device { OnlyReads (IsErrOf result DriverFault.Device)
        (D.meaning driver.old) (D.meaning driver.new) }
    ensures faults { IfErr result
        (λ fault. (fault ≢ DriverFault.Exists) × (fault ≢ DriverFault.NoRoom)) }
    ensures own { (held : Held) → IsAt held reader.old (D.meaning driver.old)
        → size ≡ length held.bytes
        → IfOk result (λ has. IsTrue has ↔ HasOwnBehind held.bytes run.end run.next) }
{
    let mut from = run.end;
    while let Some(whole) = next_whole(driver, reader, from, size)? {
        if is_own(&whole.head, whole.at, run) {
            return Ok(true);
        }
        from = whole.at + 1;
    }
    Ok(false)
}

// Whether a block with this head, at a place behind the end of a run, may be the volume's own: it is of a session, its number
// comes after the one that is due, and there is room for the blocks between.
fn is_own(head: &Head, at: u64, run: RunEnd) -> bool
    requires at { run.end ≤ at }
    requires next { run.next ≤ 2 ^ 32 }
    ensures { IsTrue result ↔ IsOwnHead head.now at run.end run.next }
{
    let number = head.number as u64;
    head.key != NO_SESSION
        && number > run.next
        && (number - run.next) * LEAST_BLOCK as u64 <= at - run.end
}
