// The numbers of a settled world: of its one drive, and of its sessions.
ghost use Rattle.std.specs.Prelude.{◌≡◌, IsPermutation};
ghost use Rattle.std.specs.List.Sorted.{IsNonDecreasingBy};
ghost use Rattle.sd_hub.specs.Tickets.{HaveTickets};
ghost use Rattle.sd_hub.specs.Worlds.{last_ticket, next_number};

use sd_base::{DriveNo, Ticket};
use sd_line::Told;
use sd_spool::SpoolStore;

/// The number of the one drive.
pub(crate) fn only_drive() -> DriveNo
    ensures { result ≡ 1 }
{
    DriveNo::new(1).unwrap()
}

/// The ticket of the last of these sessions.
pub(crate) fn last_ticket<S: SpoolStore + Drop>(sessions: &[Told<S>]) -> Option<Ticket>
    requires { HaveTickets sessions.now }
    ensures { result ≡ last_ticket sessions.now }
{
    match sessions.last() {
        Some(last) => Ticket::new(number(last)),
        None => None,
    }
}

/// The number after that of the last of these sessions, which is the greatest; 1 if there is none.
pub(crate) fn next_number<S: SpoolStore + Drop>(sessions: &[Told<S>]) -> u32
    requires { HaveTickets sessions.now }
    ensures { result ≡ next_number sessions.now }
{
    match sessions.last() {
        Some(last) => number(last) + 1,
        None => 1,
    }
}

/// The sessions by their numbers, the least first. Takes no memory.
pub(crate) fn sorted<S: SpoolStore + Drop>(mut sessions: Vec<Told<S>>) -> Vec<Told<S>>
    ensures all { IsPermutation sessions.items result.items }
    ensures rise { IsNonDecreasingBy (λ s. s.session.key.id) result.items }
{
    sessions.sort_unstable_by_key(|told| number(told));
    sessions
}

fn number<S: SpoolStore + Drop>(told: &Told<S>) -> u32
    ensures { result ≡ told.now.session.key.id }
{
    told.session.key().id
}
