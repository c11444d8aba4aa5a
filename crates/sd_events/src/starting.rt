// A session begins on its lane's store.
ghost use Rattle.std.specs.Prelude.{◌≡◌, ◌≤◌, ℕ, None, IfOk, IfErr, vec_len, vec_capacity};
ghost use Rattle.sd_drive.specs.Limits.{AreLimits};
ghost use Rattle.sd_spool.specs.Job.{state_of};
ghost use Rattle.sd_world.specs.Rules.{NumbersRise};
ghost use Rattle.sd_world.specs.Sessions.{TakesStore};
ghost use Rattle.sd_events.specs.Opening.{CanTakeStore, StartsInLane, StartsNot};

use crate::bay::LaneSlot;
use crate::entry::{SessionEntry, find};
use sd_base::{Refusal, Ticket};
use sd_drive::Limits;
use sd_session::{Opening, Session};
use sd_spool::SpoolStore;
use std::alloc::Global;

// A new session of this ticket on the store of its lane. If none begins, the store lies in the lane.
pub fn start<S: SpoolStore + Drop>(
    alloc: Global,
    limits: &Limits,
    sessions: &mut Vec<SessionEntry<S>>,
    lane: &mut LaneSlot<S>,
    ticket: Ticket,
    opening: Opening,
) -> Result<Session<S>, Refusal>
    requires limits { AreLimits limits.now }
    requires rise { (time : ℕ) × (next : ℕ) × NumbersRise time 1 next sessions.old.items }
    requires stored { CanTakeStore lane.old sessions.old.items }
    ensures ok { IfOk result (λ session. StartsInLane limits.now ticket opening lane.old
        sessions.old.items
        session lane.new sessions.new.items) }
    ensures err { IfErr result (λ why. StartsNot limits.now lane.old sessions.old.items why lane.new
        sessions.new.items) }
    ensures len { vec_len sessions.new ≡ vec_len sessions.old }
    ensures capacity { vec_capacity sessions.new ≡ vec_capacity sessions.old }
{
    let store = take_store(sessions, lane);
    match Session::open(alloc, opening, store, limits.block, limits.spool) {
        Ok(session) => {
            lane.holder = Some(ticket);
            Ok(session)
        }
        Err(kept) => {
            lane.store = Some(kept.store);
            Err(kept.why)
        }
    }
}

// The store of a lane that is free: it lies in the lane, or the session that used the lane last gives it back.
fn take_store<S: SpoolStore + Drop>(
    sessions: &mut Vec<SessionEntry<S>>,
    lane: &mut LaneSlot<S>,
) -> S
    requires rise { (time : ℕ) × (next : ℕ) × NumbersRise time 1 next sessions.old.items }
    requires stored { CanTakeStore lane.old sessions.old.items }
    ensures takes { TakesStore lane.old sessions.old.items
        (state_of (S.meaning result)) sessions.new.items }
    ensures lane { lane.new ≡ record lane.old { store = None } }
    ensures len { vec_len sessions.new ≡ vec_len sessions.old }
    ensures capacity { vec_capacity sessions.new ≡ vec_capacity sessions.old }
{
    if let Some(store) = lane.store.take() {
        return store;
    }
    let ticket = lane.holder.unwrap();
    let at = find(sessions, ticket).unwrap();
    let entry = &mut sessions[at];
    entry.session.give_back().unwrap()
}
