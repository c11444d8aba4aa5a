// The events that touch one session and nothing else.
ghost use Rattle.std.specs.Prelude.{◌≡◌};
ghost use Rattle.sd_machine.specs.declared.event.Event.TheVariants.{Append, End, Cancel, Spool};
ghost use Rattle.sd_world.specs.Moves.{Moves};
ghost use Rattle.sd_world.specs.Rules.{IsWorld};
ghost use Rattle.sd_events.specs.View.{reply_of, world_of};

use crate::entry::opened;
use crate::parts::Parts;
use sd_base::{Rec, Refusal, Ticket};
use sd_driver::Driver;
use sd_lane::Lanes;
use sd_machine::Reply;
use sd_session::Spooling;
use sd_spool::SpoolStore;

/// A record is added to a session. No other session is looked at, but to find it.
pub fn append<D: Driver, Q: Lanes, S: SpoolStore + Drop>(
    parts: &mut Parts<D, Q, S>,
    ticket: Ticket,
    rec: &Rec,
) -> Result<Reply, Refusal>
    requires world { IsWorld (world_of parts.old) }
    ensures moves { Moves (λ d. D.meaning d) (world_of parts.old) (Append ticket rec.now)
        (reply_of result) (world_of parts.new) }
{
    let at = opened(&parts.sessions, ticket)?;
    let entry = &mut parts.sessions[at];
    let count = entry.session.append(rec)?;
    Ok(Reply::Taken { count })
}

/// A session gets its end label.
pub fn end<D: Driver, Q: Lanes, S: SpoolStore + Drop>(
    parts: &mut Parts<D, Q, S>,
    ticket: Ticket,
    moment: i64,
) -> Result<Reply, Refusal>
    requires world { IsWorld (world_of parts.old) }
    ensures moves { Moves (λ d. D.meaning d) (world_of parts.old) (End ticket moment)
        (reply_of result) (world_of parts.new) }
{
    let at = opened(&parts.sessions, ticket)?;
    let entry = &mut parts.sessions[at];
    entry.session.end(moment)?;
    Ok(Reply::Ended)
}

/// A session is given up: what it has not sent is dropped.
pub fn cancel<D: Driver, Q: Lanes, S: SpoolStore + Drop>(
    parts: &mut Parts<D, Q, S>,
    ticket: Ticket,
) -> Result<Reply, Refusal>
    requires world { IsWorld (world_of parts.old) }
    ensures moves { Moves (λ d. D.meaning d) (world_of parts.old) (Cancel ticket)
        (reply_of result) (world_of parts.new) }
{
    let at = opened(&parts.sessions, ticket)?;
    let entry = &mut parts.sessions[at];
    entry.session.cancel()?;
    Ok(Reply::Cancelled)
}

/// The body of a session that has waited longest goes to its spool, if it has one with room.
pub fn spool<D: Driver, Q: Lanes, S: SpoolStore + Drop>(
    parts: &mut Parts<D, Q, S>,
    ticket: Ticket,
) -> Result<Reply, Refusal>
    requires world { IsWorld (world_of parts.old) }
    ensures moves { Moves (λ d. D.meaning d) (world_of parts.old) (Spool ticket)
        (reply_of result) (world_of parts.new) }
{
    let at = opened(&parts.sessions, ticket)?;
    let entry = &mut parts.sessions[at];
    match entry.session.spool_step()? {
        Spooling::Spooled => Ok(Reply::Spooled),
        Spooling::SpoolFull => Ok(Reply::SpoolFull),
        Spooling::Nothing => Ok(Reply::Nothing),
        Spooling::NoSpool => Ok(Reply::NoSpool),
    }
}
