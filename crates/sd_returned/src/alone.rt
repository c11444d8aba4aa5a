// Whether each session that is read is told of by one end alone, and is in the world.
ghost use Rattle.std.specs.Prelude.{◌≡◌, ◌≢◌, ◌<◌, ℕ, length, true, false, Some, IsSome, slice_get};
ghost use Rattle.sd_drive.specs.Receipt.{ReceiptIs};
ghost use Rattle.sd_jobs.specs.Jobs.{JobEndIs};
ghost use Rattle.sd_line.specs.Ends.{ToldSession};
ghost use Rattle.sd_returned.specs.Listed.{IsAlone, lane_ends};
ghost use Rattle.sd_returned.specs.declared.asked.Asked.{Asked as SpecAsked};
ghost use Rattle.sd_returned.specs.declared.asked.Wanted.{Wanted as SpecWanted};
ghost use Rattle.sd_world.specs.World.{session_at};

use crate::asked::Asked;
use sd_base::Ticket;
use sd_core::World;
use sd_driver::Driver;
use sd_jobs::JobEnd;
use sd_lane::Lanes;
use sd_line::{Naming, Told};
use sd_spool::SpoolStore;

/// Whether of these ends no other than a job's own tells of a session of the number that its receipt has.
pub(crate) fn are_alone<N: Naming, S: SpoolStore + Drop>(ends: &[JobEnd<N, S>]) -> bool
    ensures { result ≡ true → (place : ℕ) (end : JobEndIs) (r : ReceiptIs)
        → slice_get ends.now place ≡ Some end → end.receipt ≡ Some r
        → IsAlone (lane_ends ends.now) place r.key.id }
{
    for at in 0..ends.len() {
        if !stands_alone(ends, at) {
            return false;
        }
    }
    true
}

// Whether no other tells of one of the number of this one's receipt, if it has one.
fn stands_alone<N: Naming, S: SpoolStore + Drop>(ends: &[JobEnd<N, S>], place: usize) -> bool
    requires { place < length ends.now }
    ensures { result ≡ true → (end : JobEndIs) (r : ReceiptIs)
        → slice_get ends.now place ≡ Some end → end.receipt ≡ Some r
        → IsAlone (lane_ends ends.now) place r.key.id }
{
    let end = &ends[place];
    match &end.receipt {
        Some(receipt) => is_alone(ends, place, receipt.key().id),
        None => true,
    }
}

// Whether none but the end at this place tells of a session of this number.
fn is_alone<N: Naming, S: SpoolStore + Drop>(
    ends: &[JobEnd<N, S>],
    place: usize,
    number: u32,
) -> bool
    ensures { result ≡ true → IsAlone (lane_ends ends.now) place number }
{
    for at in 0..ends.len() {
        let end = &ends[at];
        if at != place && has_number(end.lane_end.sessions(), number) {
            return false;
        }
    }
    true
}

// Whether one of these sessions has this number.
fn has_number<S: SpoolStore + Drop>(sessions: &[Told<S>], number: u32) -> bool
    ensures { result ≡ false → (k : ℕ) (s : ToldSession) → slice_get sessions.now k ≡ Some s
        → s.session.key.id ≢ number }
{
    for at in 0..sessions.len() {
        let told = &sessions[at];
        if told.session.key().id == number {
            return true;
        }
    }
    false
}

/// Whether the world has a session of each number that is asked for.
pub(crate) fn are_there<D: Driver, Q: Lanes, S: SpoolStore + Drop>(
    world: &World<D, Q, S>,
    all: &[Asked],
) -> bool
    ensures { result ≡ true → (place : ℕ) (asked : SpecAsked) (wanted : SpecWanted)
        → slice_get all.now place ≡ Some asked → asked.of ≡ Some wanted
        → IsSome (session_at wanted.key.id world.now.sessions) }
{
    for at in 0..all.len() {
        if !finds(world, &all[at]) {
            return false;
        }
    }
    true
}

// Whether the world has one of the number that is asked for, if one is.
fn finds<D: Driver, Q: Lanes, S: SpoolStore + Drop>(world: &World<D, Q, S>, asked: &Asked) -> bool
    ensures { result ≡ true → (wanted : SpecWanted) → asked.now.of ≡ Some wanted
        → IsSome (session_at wanted.key.id world.now.sessions) }
{
    match &asked.of {
        Some(wanted) => is_there(world, wanted.key.id),
        None => true,
    }
}

// Whether the world has a session of this number.
fn is_there<D: Driver, Q: Lanes, S: SpoolStore + Drop>(world: &World<D, Q, S>, number: u32) -> bool
    ensures { result ≡ true → IsSome (session_at number world.now.sessions) }
{
    match Ticket::new(number) {
        Some(ticket) => world.status(ticket).is_some(),
        None => false,
    }
}
