// What the drives of a world keep, for the proofs of who holds them.
ghost use Rattle.std.specs.Prelude.{◌<◌, ◌^◌, ℕ, IfSome};
ghost use Rattle.sd_drive.specs.Shelf.{Kept};
ghost use Rattle.sd_world.specs.Rules.{NumbersRise};
ghost use Rattle.sd_world.specs.Deeds.{CountsFit};
ghost use Rattle.sd_world.specs.Steps.{DrivesKeep};
ghost use Rattle.sd_core.specs.Numbers.{NumbersAreTickets};

use sd_base::{SessionKey, Ticket};
use sd_driver::Driver;
use sd_events::{Bay, SessionEntry, find};
use sd_lane::Lanes;
use sd_session::Session;
use sd_spool::SpoolStore;

/// What every drive keeps. Does nothing.
pub(crate) fn know_drives<D: Driver, Q: Lanes, S: SpoolStore>(bays: &[Bay<D, Q, S>])
    ensures { DrivesKeep (λ d. D.meaning d) bays.now }
{
    for bay in bays {
        know_drive(bay);
    }
}

// What the drive in this bay keeps, if there is one.
fn know_drive<D: Driver, Q: Lanes, S: SpoolStore>(bay: &Bay<D, Q, S>)
    ensures { IfSome bay.now.drive (λ d. Kept (D.meaning d.device) d.volumes d.loaded d.journal) }
{
    if let Some(drive) = &bay.drive {
        drive.know();
    }
}

/// How wide the counts of a session are. Does nothing.
pub(crate) fn know_counts<S: SpoolStore + Drop>(sessions: &[SessionEntry<S>], key: SessionKey)
    requires rise { (time : ℕ) × (next : ℕ) × NumbersRise time 1 next sessions.now }
    requires most { NumbersAreTickets sessions.now }
    ensures { CountsFit sessions.now key }
{
    let Some(ticket) = Ticket::new(key.id) else {
        return;
    };
    let Some(at) = find(sessions, ticket) else {
        return;
    };
    let entry = &sessions[at];
    know_numbers(&entry.session);
}

// How wide the counts of this session are.
fn know_numbers<S: SpoolStore + Drop>(session: &Session<S>)
    ensures count { session.now.count < 2 ^ 64 }
    ensures bytes { session.now.bytes < 2 ^ 64 }
{
    let _count = session.records();
    let _bytes = session.bytes();
}
