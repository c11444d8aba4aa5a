// The sessions that lose blocks by a sync that failed.
ghost use Rattle.std.specs.Prelude.{◌≡◌, ℕ, Bool, true, false, ◌&&◌};
ghost use Rattle.sd_journal.specs.Journal.{fails};
ghost use Rattle.sd_session.specs.Session.{FailsSession};
ghost use Rattle.sd_world.specs.Drives.{FailExactly};
ghost use Rattle.sd_world.specs.Rules.{NumbersRise};
ghost use Rattle.sd_events.specs.Losing.{is_holder, holds_lane, has_lost};

use crate::bay::LaneSlot;
use crate::entry::{SessionEntry, find};
use sd_base::Ticket;
use sd_drive::Drive;
use sd_driver::Driver;
use sd_session::Session;
use sd_spool::SpoolStore;

/// Of the sessions that used these lanes last, those fail that go on and lost a block at the drive. Looks at no other
/// session.
pub(crate) fn fail_lost<D: Driver, S: SpoolStore + Drop>(
    sessions: &mut Vec<SessionEntry<S>>,
    lanes: &[LaneSlot<S>],
    drive: &Drive<D>,
)
    requires rise { (time : ℕ) × (next : ℕ) × NumbersRise time 1 next sessions.old.items }
    ensures { FailExactly (λ e. holds_lane lanes.now e && has_lost drive.now.journal e)
        sessions.old.items sessions.new.items }
{
    for lane in lanes {
        fail_holder(sessions, lane.holder, drive);
    }
}

// The session that used a lane last, if one did, fails if it goes on and lost a block at the drive.
fn fail_holder<D: Driver, S: SpoolStore + Drop>(
    sessions: &mut Vec<SessionEntry<S>>,
    holder: Option<Ticket>,
    drive: &Drive<D>,
)
    requires rise { (time : ℕ) × (next : ℕ) × NumbersRise time 1 next sessions.old.items }
    ensures { FailExactly (λ e. is_holder holder e && has_lost drive.now.journal e)
        sessions.old.items sessions.new.items }
{
    let Some(ticket) = holder else {
        return;
    };
    let Some(at) = find(sessions, ticket) else {
        return;
    };
    let entry = &mut sessions[at];
    fail_if_lost(&mut entry.session, drive);
}

// The session fails if a block of it was lost.
fn fail_if_lost<D: Driver, S: SpoolStore + Drop>(session: &mut Session<S>, drive: &Drive<D>)
    ensures lost { fails session.old.key drive.now.journal ≡ true
        → FailsSession session.old session.new }
    ensures kept { fails session.old.key drive.now.journal ≡ false → session.new ≡ session.old }
{
    if drive.progress(session.key()).failed {
        session.fail();
    }
}
