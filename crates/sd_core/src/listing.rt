// Which sessions of a world are on their way.
ghost use Rattle.std.specs.Prelude.{◌≡◌, ◌⊎◌, ◌↔◌, ℕ, IfOk, IfSome, IfNone, OnOk, IsTrue};
ghost use Rattle.sd_world.specs.Rules.{NumbersRise};
ghost use Rattle.sd_core.specs.Listing.{AreRunning, EndsBelow, GoesOn, IsListed, KeepLanes, ListsHolder, ListsLanes, StayListed, TicketsRise};
ghost use Rattle.sd_core.specs.View.{running_tickets};

use sd_base::Ticket;
use sd_driver::Driver;
use sd_events::{Bay, LaneSlot, SessionEntry, find};
use sd_lane::Lanes;
use sd_session::Status;
use sd_spool::SpoolStore;
use std::alloc::{AllocError, Global};

/// The tickets of the sessions that go on, by rising number. Each of them keeps a lane, so only the lanes' sessions are
/// looked at.
pub(crate) fn list_running<D: Driver, Q: Lanes, S: SpoolStore + Drop>(
    alloc: Global,
    sessions: &[SessionEntry<S>],
    bays: &[Bay<D, Q, S>],
) -> Result<Vec<Ticket>, AllocError>
    requires rise { (time : ℕ) × (next : ℕ) × NumbersRise time 1 next sessions.now }
    requires keep { KeepLanes sessions.now bays.now }
    ensures { IfOk result (λ tickets. tickets.items ≡ running_tickets sessions.now) }
{
    let mut tickets = Vec::new(alloc);
    for bay in bays {
        list_lanes(sessions, &bay.lanes, &mut tickets)?;
    }
    Ok(tickets)
}

// Lists those that keep one of these lanes.
fn list_lanes<S: SpoolStore + Drop>(
    sessions: &[SessionEntry<S>],
    lanes: &[LaneSlot<S>],
    tickets: &mut Vec<Ticket>,
) -> Result<(), AllocError>
    requires rise { (time : ℕ) × (next : ℕ) × NumbersRise time 1 next sessions.now }
    requires running { AreRunning sessions.now tickets.old.items }
    ensures running { OnOk result (AreRunning sessions.now tickets.new.items) }
    ensures stay { OnOk result (StayListed tickets.old.items tickets.new.items) }
    ensures lists { OnOk result (ListsLanes sessions.now lanes.now tickets.new.items) }
{
    for lane in lanes {
        list_holder(sessions, lane.holder, tickets)?;
    }
    Ok(())
}

// Lists the session that used a lane last, if it goes on.
fn list_holder<S: SpoolStore + Drop>(
    sessions: &[SessionEntry<S>],
    holder: Option<Ticket>,
    tickets: &mut Vec<Ticket>,
) -> Result<(), AllocError>
    requires rise { (time : ℕ) × (next : ℕ) × NumbersRise time 1 next sessions.now }
    requires running { AreRunning sessions.now tickets.old.items }
    ensures running { OnOk result (AreRunning sessions.now tickets.new.items) }
    ensures stay { OnOk result (StayListed tickets.old.items tickets.new.items) }
    ensures lists { OnOk result (ListsHolder sessions.now holder tickets.new.items) }
{
    let Some(ticket) = holder else {
        return Ok(());
    };
    if !goes_on(sessions, ticket) {
        return Ok(());
    }
    list_ticket(ticket, tickets)
}

// Whether the session of a ticket goes on.
fn goes_on<S: SpoolStore + Drop>(sessions: &[SessionEntry<S>], ticket: Ticket) -> bool
    requires rise { (time : ℕ) × (next : ℕ) × NumbersRise time 1 next sessions.now }
    ensures { IsTrue result ↔ GoesOn sessions.now ticket }
{
    let Some(at) = find(sessions, ticket) else {
        return false;
    };
    let entry = &sessions[at];
    let session = &entry.session;
    match session.status() {
        Status::Active | Status::Ended => true,
        Status::Closed | Status::Cancelled | Status::Failed | Status::Purged => false,
    }
}

// Lists a ticket after all lower ones, unless it is there.
fn list_ticket(ticket: Ticket, tickets: &mut Vec<Ticket>) -> Result<(), AllocError>
    requires rise { TicketsRise 0 tickets.old.items }
    ensures rise { OnOk result (TicketsRise 0 tickets.new.items) }
    ensures listed { OnOk result ((t : ℕ)
        → IsListed t tickets.new.items ↔ ((ticket ≡ t) ⊎ IsListed t tickets.old.items)) }
{
    let Some(at) = place_for(ticket, tickets) else {
        return Ok(());
    };
    tickets.insert(at, ticket)?;
    Ok(())
}

// Where a ticket goes, after all lower ones; none if it is listed.
fn place_for(ticket: Ticket, tickets: &[Ticket]) -> Option<usize>
    requires rise { TicketsRise 0 tickets.now }
    ensures at { IfSome result (EndsBelow tickets.now ticket) }
    ensures listed { IfNone result (IsListed ticket tickets.now) }
{
    let at = tickets.partition_point(|other| other.get() < ticket.get());
    if at < tickets.len() && tickets[at].get() == ticket.get() {
        None
    } else {
        Some(at)
    }
}
