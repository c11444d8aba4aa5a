// A session is opened.
ghost use Rattle.std.specs.Prelude.{◌≡◌, ◌≤◌, ◌<◌, ℕ, OnOk, OnErr, IfErr, vec_len, vec_capacity};
ghost use Rattle.sd_drive.specs.Limits.{AreLimits};
ghost use Rattle.sd_journal.specs.Journal.{with_key};
ghost use Rattle.sd_machine.specs.declared.event.Event.TheVariants.{Open};
ghost use Rattle.sd_world.specs.Moves.{Moves};
ghost use Rattle.sd_world.specs.Rules.{IsWorld, NumbersRise};
ghost use Rattle.sd_events.specs.View.{reply_of, world_of};
ghost use Rattle.sd_events.specs.Opening.{CanTakeStore, OpensAt, OpensNotAt};

use crate::bay::LaneSlot;
use crate::choosing::{choose_drive, choose_lane};
use crate::entry::SessionEntry;
use crate::parts::Parts;
use crate::place::index_of;
use crate::starting::start;
use sd_base::{DriveNo, JobId, MediaName, PoolName, Refusal, SessionKey, Ticket};
use sd_drive::{Drive, Limits};
use sd_driver::Driver;
use sd_lane::Lanes;
use sd_machine::Reply;
use sd_session::Opening;
use sd_spool::SpoolStore;
use std::alloc::{AllocError, Global};

/// A job begins a session of this pool and media: on the drive that may take it, by the lowest of its lanes that is
/// free. The refusals, in this order: no session number is left; no drive of the media; drive offline; no free lane;
/// out of memory; spool fault, if the lane's store could not be cleared. A refused session uses up no number.
pub fn open<D: Driver, Q: Lanes, S: SpoolStore + Drop>(
    parts: &mut Parts<D, Q, S>,
    job: JobId,
    pool: PoolName,
    media: MediaName,
    moment: i64,
) -> Result<Reply, Refusal>
    requires world { IsWorld (world_of parts.old) }
    ensures moves { Moves (λ d. D.meaning d) (world_of parts.old)
        (Open job pool media moment) (reply_of result)
        (world_of parts.new) }
{
    let Some(ticket) = Ticket::new(parts.next) else {
        return Err(Refusal::NoSessionNumberLeft);
    };
    let drive = choose_drive(parts, &pool, &media)?;
    let place = index_of(drive);
    let bay = &mut parts.bays[place];
    let Some(at) = &mut bay.drive else {
        unreachable!();
    };
    let lane = choose_lane(&parts.sessions, at, &bay.lanes);
    let opening = Opening {
        key: SessionKey {
            time: parts.limits.time,
            id: ticket.get(),
        },
        lane,
        job,
        pool,
        media,
        moment,
    };
    let slot = &mut bay.lanes[lane.get() as usize - 1];
    open_at(
        parts.alloc,
        &parts.limits,
        &mut parts.sessions,
        at,
        slot,
        ticket,
        drive,
        opening,
    )?;
    parts.next += 1;
    Ok(Reply::Opened { ticket, drive })
}

// A session is opened on a drive, by a lane of it that is free. All room is made first.
fn open_at<D: Driver, S: SpoolStore + Drop>(
    alloc: Global,
    limits: &Limits,
    sessions: &mut Vec<SessionEntry<S>>,
    at: &mut Drive<D>,
    lane: &mut LaneSlot<S>,
    ticket: Ticket,
    drive: DriveNo,
    opening: Opening,
) -> Result<(), Refusal>
    requires limits { AreLimits limits.now }
    requires rise { (time : ℕ) × (next : ℕ) × NumbersRise time 1 next sessions.old.items }
    requires stored { CanTakeStore lane.old sessions.old.items }
    ensures ok { OnOk result (OpensAt limits.now ticket drive opening lane.old sessions.old.items at.old
        lane.new sessions.new.items at.new) }
    ensures err { IfErr result (λ why. OpensNotAt limits.now opening.key lane.old
        sessions.old.items at.old why lane.new sessions.new.items at.new) }
{
    let Ok(()) = make_room(sessions, at, opening.key) else {
        return Err(Refusal::Memory);
    };
    let pool = opening.pool.copy();
    let session = start(alloc, limits, sessions, lane, ticket, opening)?;
    at.set_pool(&pool);
    sessions.push_reserved(SessionEntry { session, drive });
    Ok(())
}

// Room for one session more, and for its first placement.
fn make_room<D: Driver, S: SpoolStore + Drop>(
    sessions: &mut Vec<SessionEntry<S>>,
    drive: &mut Drive<D>,
    key: SessionKey,
) -> Result<(), AllocError>
    ensures drive { OnOk result (drive.new ≡ record drive.old {
      ready = with_key key drive.old.ready;
    }) }
    ensures err { OnErr result (drive.new ≡ drive.old) }
    ensures items { sessions.new.items ≡ sessions.old.items }
    ensures ok { OnOk result (vec_len sessions.new < vec_capacity sessions.new) }
{
    sessions.reserve(1)?;
    drive.ready(key)
}
