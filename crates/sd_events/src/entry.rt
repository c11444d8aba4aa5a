// A session of a world, and how it is found.
ghost use Rattle.std.specs.Prelude.{ℕ, IfSome, IfNone, IfOk, IfErr, ◌≡◌, None};
ghost use Rattle.sd_base.specs.declared.refusal.Refusal.TheVariants.{SessionNotOpen};
ghost use Rattle.sd_world.specs.World.{session_at};
ghost use Rattle.sd_world.specs.Rules.{NumbersRise};
ghost use Rattle.sd_events.specs.Found.{IsFoundAt};

use sd_base::{DriveNo, Refusal, Ticket};
use sd_session::Session;
use sd_spool::SpoolStore;
use std::marker::Model;

/// A session, and the drive to which it sends. In a contract it is a `WorldSession`.
#[derive(Drop)]
pub struct SessionEntry<S: SpoolStore> {
    pub session: Session<S>,
    pub drive: DriveNo,
}

impl<S: SpoolStore> Model for SessionEntry<S> {
    ghost use Rattle.sd_world.specs.World.{WorldSession};

    ghost Value = { WorldSession };

    ghost view = { λ e. record { session = e.session; drive = e.drive } };
}

impl<S: SpoolStore + Drop> SessionEntry<S> {
    /// The number of the session, which is its ticket.
    pub fn number(&self) -> u32
        ensures { result ≡ self.now.session.key.id }
    {
        let session = &self.session;
        session.key().id
    }
}

/// Where the session of the ticket is, by halving: whatever the number of sessions, few of them are looked at.
pub fn find<S: SpoolStore + Drop>(sessions: &[SessionEntry<S>], ticket: Ticket) -> Option<usize>
    requires rise { (time : ℕ) × (next : ℕ) × NumbersRise time 1 next sessions.now }
    ensures found { IfSome result (IsFoundAt ticket sessions.now) }
    ensures unknown { IfNone result (session_at ticket sessions.now ≡ None) }
{
    let at = sessions.partition_point(|entry| entry.number() < ticket.get());
    if at < sessions.len() && sessions[at].number() == ticket.get() {
        Some(at)
    } else {
        None
    }
}

/// Where the session of the ticket is. If there is none it isn't open.
pub fn opened<S: SpoolStore + Drop>(
    sessions: &[SessionEntry<S>],
    ticket: Ticket,
) -> Result<usize, Refusal>
    requires rise { (time : ℕ) × (next : ℕ) × NumbersRise time 1 next sessions.now }
    ensures ok { IfOk result (IsFoundAt ticket sessions.now) }
    ensures err { IfErr result (λ why. (why ≡ SessionNotOpen)
        × (session_at ticket sessions.now ≡ None)) }
{
    find(sessions, ticket).ok_or(Refusal::SessionNotOpen)
}
