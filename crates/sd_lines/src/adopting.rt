// A volume of an earlier run is taken over by the operator.
ghost use Rattle.std.specs.Prelude.{ℕ, IfOk};
ghost use Rattle.sd_console.specs.Replies.{reply_line};
ghost use Rattle.sd_lines.specs.Console.{IsDone};
ghost use Rattle.sd_machine.specs.declared.event.Event.TheVariants.{Adopt};
ghost use Rattle.sd_machine.specs.declared.reply.Reply.TheVariants.{Adopted};

use crate::hub::{Hub, Post};
use crate::notes::Notes;
use crate::noting::give_unnoted;
use sd_base::{DriveNo, Items, Refusal, VolName};
use sd_bnet::Payload;
use sd_console::AdoptedLine;
use sd_driver::Driver;
use sd_line::Naming;
use sd_machine::{Event, Reply};
use sd_spool::SpoolStore;
use std::sync::Wait;
use std::time::Clock;

/// Takes over a volume at a drive, and counts that.
pub(crate) fn adopt<D: Driver, N: Naming, R: Wait + Clock + Drop, S: SpoolStore + Drop, P: Notes>(
    hub: &Hub<D, N, R, S>,
    notes: &P,
    drive: DriveNo,
    name: &VolName,
) -> Result<Items<Payload>, Refusal>
    ensures { IfOk result (λ lines. (end : ℕ) × (next : ℕ) × IsDone (λ d. D.meaning d) drive
        (Adopt drive name.now) (Adopted end next) (reply_line (Adopted end next)) lines) }
{
    let answer = try_adopt(hub, notes, drive, name);
    hub.answers.adoptions.count(answer.is_ok());
    answer
}

// Takes over a volume at a drive, and claims its name for the time of that: it is claimed if the drive has the volume then.
fn try_adopt<D: Driver, N: Naming, R: Wait + Clock + Drop, S: SpoolStore + Drop, P: Notes>(
    hub: &Hub<D, N, R, S>,
    notes: &P,
    drive: DriveNo,
    name: &VolName,
) -> Result<Items<Payload>, Refusal>
    ensures { IfOk result (λ lines. (end : ℕ) × (next : ℕ) × IsDone (λ d. D.meaning d) drive
        (Adopt drive name.now) (Adopted end next) (reply_line (Adopted end next)) lines) }
{
    let Some(post) = hub.post(drive) else {
        return Err(Refusal::NoSuchDrive);
    };
    let Ok(room) = AdoptedLine::new(hub.alloc) else {
        return Err(Refusal::Memory);
    };
    if let Err(why) = hub.begin_claim(name, drive) {
        return Err(refusal_before(&hub.rt, post, why));
    }
    let event = Event::Adopt {
        drive,
        name: name.copy(),
    };
    let reply = give_unnoted(&hub.rt, post, notes, drive, name, event);
    hub.end_claim(post, name, &reply);
    post.station.wait_for_rest(&hub.rt);
    match reply {
        Reply::Adopted { end, next } => Ok(room.tell(end, next)),
        Reply::Refused(why) => Err(why),
        _ => Err(Refusal::BadCommand),
    }
}

// Why a volume isn't taken over at a drive, whose name can't be claimed for this cause: out of memory comes after a
// volume that is loaded, and a claimed name before it.
fn refusal_before<D: Driver, N: Naming, R: Wait + Clock + Drop>(
    rt: &R,
    post: &Post<D, N, R>,
    why: Refusal,
) -> Refusal {
    if why == Refusal::Memory && post.is_loaded(rt) {
        return Refusal::InUse;
    }
    why
}
