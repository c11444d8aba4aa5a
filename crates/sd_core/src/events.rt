// What an event does to the parts of a world.
ghost use Rattle.std.specs.Prelude.{◌≡◌};
ghost use Rattle.sd_world.specs.Moves.{Moves};
ghost use Rattle.sd_world.specs.Rules.{IsWorld};
ghost use Rattle.sd_events.specs.View.{reply_of, world_of};
ghost use Rattle.sd_events.specs.Noted.{IsTrueAt};
ghost use Rattle.sd_machine.specs.declared.event.Event.TheVariants.{Adopt, Append};
ghost use Rattle.sd_world.specs.Steps.{DrivesKeep};

use crate::kept::know_drives;
use sd_base::{DriveNo, Rec, Refusal, Ticket, VolName};
use sd_driver::Driver;
use sd_events::{
    Parts, append, cancel, close, despool, end, media, open, operate, operate_noted, purge, retire,
    spool,
};
use sd_lane::Lanes;
use sd_machine::{Event, Reply};
use sd_note::Note;
use sd_spool::SpoolStore;

/// Answers one event; and what is known then of the drives.
pub(crate) fn answer_event<D: Driver + Drop, Q: Lanes, S: SpoolStore + Drop>(
    parts: &mut Parts<D, Q, S>,
    event: Event,
) -> Reply
    requires world { IsWorld (world_of parts.old) }
    ensures moves { Moves (λ d. D.meaning d) (world_of parts.old) event result
        (world_of parts.new) }
    ensures drives { DrivesKeep (λ d. D.meaning d) (world_of parts.new).bays }
{
    let reply = reply_of(apply(parts, event));
    know_drives(&parts.bays);
    reply
}

/// Answers the event `Append`, of a record that stays with the caller; and what is known then of the drives.
pub(crate) fn answer_append<D: Driver + Drop, Q: Lanes, S: SpoolStore + Drop>(
    parts: &mut Parts<D, Q, S>,
    ticket: Ticket,
    rec: &Rec,
) -> Reply
    requires world { IsWorld (world_of parts.old) }
    ensures moves { Moves (λ d. D.meaning d) (world_of parts.old) (Append ticket rec.now) result
        (world_of parts.new) }
    ensures drives { DrivesKeep (λ d. D.meaning d) (world_of parts.new).bays }
{
    let reply = reply_of(append(parts, ticket, rec));
    know_drives(&parts.bays);
    reply
}

/// Answers the event `Adopt` by the volume's note, which is to be true; and what is known then of the drives.
pub(crate) fn answer_noted<D: Driver + Drop, Q: Lanes, S: SpoolStore + Drop>(
    parts: &mut Parts<D, Q, S>,
    drive: DriveNo,
    name: &VolName,
    note: &Note,
) -> Reply
    requires world { IsWorld (world_of parts.old) }
    requires known { IsTrueAt (λ d. D.meaning d) (world_of parts.old) drive name.now note.now }
    ensures moves { Moves (λ d. D.meaning d) (world_of parts.old) (Adopt drive name.now) result
        (world_of parts.new) }
    ensures drives { DrivesKeep (λ d. D.meaning d) (world_of parts.new).bays }
{
    let reply = reply_of(operate_noted(parts, drive, name, note));
    know_drives(&parts.bays);
    reply
}

// The reply: a refusal is one too.
fn reply_of(answer: Result<Reply, Refusal>) -> Reply
    ensures { result ≡ reply_of answer }
{
    match answer {
        Ok(reply) => reply,
        Err(why) => Reply::Refused(why),
    }
}

// What the event does.
fn apply<D: Driver + Drop, Q: Lanes, S: SpoolStore + Drop>(
    parts: &mut Parts<D, Q, S>,
    event: Event,
) -> Result<Reply, Refusal>
    requires world { IsWorld (world_of parts.old) }
    ensures moves { Moves (λ d. D.meaning d) (world_of parts.old) event
        (reply_of result) (world_of parts.new) }
{
    match event {
        Event::Open {
            job,
            pool,
            media,
            moment,
        } => open(parts, job, pool, media, moment),
        Event::Append { ticket, rec } => append(parts, ticket, &rec),
        Event::End { ticket, moment } => end(parts, ticket, moment),
        Event::Close { ticket } => close(parts, ticket),
        Event::Cancel { ticket } => cancel(parts, ticket),
        Event::Spool { ticket } => spool(parts, ticket),
        Event::Despool { ticket } => despool(parts, ticket),
        Event::Take { drive }
        | Event::Place { drive }
        | Event::Sync { drive }
        | Event::Label { drive, .. }
        | Event::Adopt { drive, .. }
        | Event::Mount { drive, .. }
        | Event::Unmount { drive }
        | Event::Seek { drive } => operate(parts, drive, &event),
        Event::Retire { drive } => retire(parts, drive),
        Event::Purge { drive, name } => purge(parts, drive, &name),
        Event::Media { ticket } => media(parts, ticket),
    }
}
