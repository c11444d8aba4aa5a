// Which lanes of a drive are free.
ghost use Rattle.std.specs.Prelude.{◌≡◌, ◌≤◌, ℕ, length};
ghost use Rattle.sd_base.specs.Limits.{most_lanes};
ghost use Rattle.sd_world.specs.Rules.{NumbersRise};
ghost use Rattle.sd_world.specs.World.{free_lanes, lane_is_free, is_done};

use crate::bay::LaneSlot;
use crate::entry::{SessionEntry, find};
use arrayvec::ArrayVec;
use sd_base::{MOST_LANES, Ticket};
use sd_drive::Drive;
use sd_driver::Driver;
use sd_session::{Session, Status};
use sd_spool::SpoolStore;

/// For how many lanes there is room.
const LANES: usize = MOST_LANES as usize;

/// Of each lane of a drive whether it is free. Takes no memory.
pub fn free_lanes<D: Driver, S: SpoolStore + Drop>(
    sessions: &[SessionEntry<S>],
    drive: &Drive<D>,
    lanes: &[LaneSlot<S>],
) -> ArrayVec<bool, LANES>
    requires rise { (time : ℕ) × (next : ℕ) × NumbersRise time 1 next sessions.now }
    requires most { length lanes.now ≤ most_lanes }
    ensures { result.items ≡ free_lanes sessions.now drive.now.journal lanes.now }
{
    let mut free = ArrayVec::new();
    for slot in lanes {
        free.push(is_free(sessions, drive, slot.holder));
    }
    free
}

// Whether a lane is free that this session used last, if one did: the session no longer keeps it.
fn is_free<D: Driver, S: SpoolStore + Drop>(
    sessions: &[SessionEntry<S>],
    drive: &Drive<D>,
    holder: Option<Ticket>,
) -> bool
    requires rise { (time : ℕ) × (next : ℕ) × NumbersRise time 1 next sessions.now }
    ensures { result ≡ lane_is_free sessions.now drive.now.journal holder }
{
    let Some(ticket) = holder else {
        return true;
    };
    let Some(at) = find(sessions, ticket) else {
        return true;
    };
    let entry = &sessions[at];
    is_done(&entry.session, drive)
}

/// Whether the session no longer keeps its lane at the drive.
pub fn is_done<D: Driver, S: SpoolStore + Drop>(session: &Session<S>, drive: &Drive<D>) -> bool
    ensures { result ≡ is_done drive.now.journal session.now }
{
    match session.status() {
        Status::Active | Status::Ended => false,
        Status::Closed | Status::Purged => true,
        Status::Cancelled | Status::Failed => {
            session.sent() == drive.progress(session.key()).placed
        }
    }
}
