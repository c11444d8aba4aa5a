// A step of sending.
ghost use Rattle.std.specs.Prelude.{◌≡◌, ◌≤◌, IfOk, IfErr, OnErr};
ghost use Rattle.sd_machine.specs.declared.event.Event.TheVariants.{Despool};
ghost use Rattle.sd_world.specs.Moves.{Moves};
ghost use Rattle.sd_world.specs.Rules.{IsWorld};
ghost use Rattle.sd_world.specs.Sessions.{SendsStep};
ghost use Rattle.sd_events.specs.View.{reply_of, world_of};
ghost use Rattle.sd_session.specs.Sending.{DespoolRefused};

use crate::entry::opened;
use crate::parts::Parts;
use crate::place::index_of;
use sd_base::{Refusal, Ticket};
use sd_driver::Driver;
use sd_lane::Lanes;
use sd_machine::Reply;
use sd_session::{Despooled, Session};
use sd_spool::SpoolStore;

/// The next body of a session goes to the queue before its drive, if there is room.
pub fn despool<D: Driver, Q: Lanes, S: SpoolStore + Drop>(
    parts: &mut Parts<D, Q, S>,
    ticket: Ticket,
) -> Result<Reply, Refusal>
    requires world { IsWorld (world_of parts.old) }
    ensures moves { Moves (λ d. D.meaning d) (world_of parts.old) (Despool ticket)
        (reply_of result) (world_of parts.new) }
{
    let at = opened(&parts.sessions, ticket)?;
    let entry = &mut parts.sessions[at];
    let place = index_of(entry.drive);
    let bay = &mut parts.bays[place];
    match send(&mut entry.session, &mut bay.queue)? {
        Despooled::Sent => Ok(Reply::Sent),
        Despooled::LaneFull => Ok(Reply::LaneFull),
        Despooled::Nothing => Ok(Reply::Nothing),
        Despooled::NotDue => Ok(Reply::NotDue),
    }
}

// A session's step of sending, by a lane of the queue before its drive.
fn send<Q: Lanes, S: SpoolStore + Drop>(
    session: &mut Session<S>,
    queue: &mut Q,
) -> Result<Despooled, Refusal>
    requires least { 1 ≤ session.old.lane }
    requires most { session.old.lane ≤ Q.lanes queue.old }
    ensures ok { IfOk result (λ answer. SendsStep answer
        session.old
        (record {
          lanes = Q.lanes queue.old;
          capacity = Q.capacity queue.old;
          held = Q.held queue.old;
        })
        session.new
        (record {
          lanes = Q.lanes queue.new;
          capacity = Q.capacity queue.new;
          held = Q.held queue.new;
        })) }
    ensures err { IfErr result (λ why. DespoolRefused session.old why session.new) }
    ensures refused { OnErr result (queue.new ≡ queue.old) }
{
    session.despool_step(queue)
}
