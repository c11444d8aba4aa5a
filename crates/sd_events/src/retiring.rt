// A drive goes offline for good.
ghost use Rattle.std.specs.Prelude.{◌≢◌, ◌≤◌, ◌↔◌, ℕ, Some, IsTrue, length};
ghost use Rattle.sd_base.specs.Limits.{most_lanes};
ghost use Rattle.sd_machine.specs.declared.event.Event.TheVariants.{Retire};
ghost use Rattle.sd_world.specs.Drives.{IsInUse};
ghost use Rattle.sd_world.specs.Moves.{Moves};
ghost use Rattle.sd_world.specs.Rules.{IsWorld, NumbersRise};
ghost use Rattle.sd_world.specs.World.{busy_lanes};
ghost use Rattle.sd_events.specs.View.{reply_of, world_of};

use crate::bay::LaneSlot;
use crate::entry::SessionEntry;
use crate::lanes::free_lanes;
use crate::parts::Parts;
use crate::place::online;
use sd_base::{DriveNo, Refusal};
use sd_drive::Drive;
use sd_driver::Driver;
use sd_lane::Lanes;
use sd_machine::Reply;
use sd_spool::SpoolStore;

/// Takes the drive offline for good. In use, while a lane of it isn't free, a volume is loaded, or a piece is in its
/// hand or in the queue before it.
pub fn retire<D: Driver + Drop, Q: Lanes, S: SpoolStore + Drop>(
    parts: &mut Parts<D, Q, S>,
    drive: DriveNo,
) -> Result<Reply, Refusal>
    requires world { IsWorld (world_of parts.old) }
    ensures moves { Moves (λ d. D.meaning d) (world_of parts.old) (Retire drive)
        (reply_of result) (world_of parts.new) }
{
    let place = online(parts, drive)?;
    let bay = &mut parts.bays[place];
    let Some(at) = &bay.drive else {
        unreachable!();
    };
    if is_used(&parts.sessions, at, &bay.lanes, &bay.queue) {
        return Err(Refusal::InUse);
    }
    bay.drive = None;
    Ok(Reply::Retired)
}

// Whether a lane of the drive isn't free, a volume is loaded, or a piece is in its hand or in the queue.
fn is_used<D: Driver, Q: Lanes, S: SpoolStore + Drop>(
    sessions: &[SessionEntry<S>],
    drive: &Drive<D>,
    lanes: &[LaneSlot<S>],
    queue: &Q,
) -> bool
    requires rise { (time : ℕ) × (next : ℕ) × NumbersRise time 1 next sessions.now }
    requires most { length lanes.now ≤ most_lanes }
    ensures { IsTrue result ↔ IsInUse sessions.now drive.now lanes.now (Q.held queue.now) }
{
    let None = drive.loaded() else {
        return true;
    };
    let None = drive.hand() else {
        return true;
    };
    if !queue.is_empty() {
        return true;
    }
    has_busy_lane(sessions, drive, lanes)
}

// Whether a lane of the drive isn't free.
fn has_busy_lane<D: Driver, S: SpoolStore + Drop>(
    sessions: &[SessionEntry<S>],
    drive: &Drive<D>,
    lanes: &[LaneSlot<S>],
) -> bool
    requires rise { (time : ℕ) × (next : ℕ) × NumbersRise time 1 next sessions.now }
    requires most { length lanes.now ≤ most_lanes }
    ensures { IsTrue result ↔ (busy_lanes sessions.now (Some drive.now) lanes.now ≢ 0) }
{
    let free = free_lanes(sessions, drive, lanes);
    free.as_slice().contains(&false)
}
