// What a session's client asks once all is sent: whether it lasts, and where it lies.
ghost use Rattle.sd_machine.specs.declared.event.Event.TheVariants.{Close, Media};
ghost use Rattle.sd_world.specs.Moves.{Moves};
ghost use Rattle.sd_world.specs.Rules.{IsWorld};
ghost use Rattle.sd_events.specs.View.{reply_of, world_of};

use crate::entry::opened;
use crate::parts::Parts;
use crate::place::{index_of, online};
use sd_base::{Refusal, Ticket};
use sd_driver::Driver;
use sd_lane::Lanes;
use sd_machine::Reply;
use sd_spool::SpoolStore;
use std::alloc::AllocError;

/// Closes a session, exactly if it is ended and nothing of it is outstanding.
pub fn close<D: Driver, Q: Lanes, S: SpoolStore + Drop>(
    parts: &mut Parts<D, Q, S>,
    ticket: Ticket,
) -> Result<Reply, Refusal>
    requires world { IsWorld (world_of parts.old) }
    ensures moves { Moves (λ d. D.meaning d) (world_of parts.old) (Close ticket)
        (reply_of result) (world_of parts.new) }
{
    let at = opened(&parts.sessions, ticket)?;
    let entry = &mut parts.sessions[at];
    // One that goes on has its drive online.
    entry.session.running()?;
    let place = index_of(entry.drive);
    let bay = &parts.bays[place];
    let drive = bay.drive.as_ref().unwrap();
    let key = entry.session.key();
    let progress = drive.progress(key);
    entry.session.may_close(&progress)?;
    let Ok(spans) = drive.spans(key) else {
        return Err(Refusal::Memory);
    };
    entry.session.close(&progress)?;
    Ok(Reply::Closed { key, spans })
}

/// Where a session's blocks lie, as far as it was placed.
pub fn media<D: Driver, Q: Lanes, S: SpoolStore + Drop>(
    parts: &Parts<D, Q, S>,
    ticket: Ticket,
) -> Result<Reply, Refusal>
    requires world { IsWorld (world_of parts.now) }
    ensures moves { Moves (λ d. D.meaning d) (world_of parts.now) (Media ticket)
        (reply_of result) (world_of parts.now) }
{
    let at = opened(&parts.sessions, ticket)?;
    let entry = &parts.sessions[at];
    let place = online(parts, entry.drive)?;
    let bay = &parts.bays[place];
    let Some(drive) = &bay.drive else {
        unreachable!();
    };
    let session = &entry.session;
    match drive.spans(session.key()) {
        Ok(spans) => Ok(Reply::Media { spans }),
        Err(AllocError) => Err(Refusal::Memory),
    }
}
