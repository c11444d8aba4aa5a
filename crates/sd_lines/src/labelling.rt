// A new volume is labelled by the operator.
ghost use Rattle.std.specs.Prelude.{IfOk, codes};
ghost use Rattle.sd_lines.specs.Console.{IsDone};
ghost use Rattle.sd_machine.specs.declared.event.Event.TheVariants.{Label};
ghost use Rattle.sd_machine.specs.declared.reply.Reply.TheVariants.{Labelled};

use crate::hub::{Hub, Post};
use crate::notes::Notes;
use crate::noting::give_unnoted;
use sd_base::{DriveNo, Items, MediaName, PoolName, Refusal, VolName};
use sd_bnet::Payload;
use sd_console::one_line;
use sd_driver::Driver;
use sd_line::Naming;
use sd_machine::{Event, Reply};
use sd_spool::SpoolStore;
use std::sync::Wait;
use std::time::Clock;

/// Labels a new volume at a drive, and counts that.
pub(crate) fn label<D: Driver, N: Naming, R: Wait + Clock + Drop, S: SpoolStore + Drop, P: Notes>(
    hub: &Hub<D, N, R, S>,
    notes: &P,
    drive: DriveNo,
    name: &VolName,
    pool: &PoolName,
    media: &MediaName,
    moment: i64,
) -> Result<Items<Payload>, Refusal>
    ensures { IfOk result (λ lines. IsDone (λ d. D.meaning d) drive
        (Label drive name.now pool.now media.now moment) Labelled (codes "ok labelled") lines) }
{
    let answer = try_label(hub, notes, drive, name, pool, media, moment);
    hub.answers.labels.count(answer.is_ok());
    answer
}

// Labels a new volume at a drive, and claims its name for the time of that: it is claimed if the drive has the volume then. A
// name that is claimed is refused after what the drive would refuse before it.
fn try_label<D: Driver, N: Naming, R: Wait + Clock + Drop, S: SpoolStore + Drop, P: Notes>(
    hub: &Hub<D, N, R, S>,
    notes: &P,
    drive: DriveNo,
    name: &VolName,
    pool: &PoolName,
    media: &MediaName,
    moment: i64,
) -> Result<Items<Payload>, Refusal>
    ensures { IfOk result (λ lines. IsDone (λ d. D.meaning d) drive
        (Label drive name.now pool.now media.now moment) Labelled (codes "ok labelled") lines) }
{
    let Some(post) = hub.post(drive) else {
        return Err(Refusal::NoSuchDrive);
    };
    let done = one_line(hub.alloc, "ok labelled")?;
    if let Err(why) = hub.begin_claim(name, drive) {
        return Err(refusal_before(&hub.rt, post, media, why));
    }
    let event = Event::Label {
        drive,
        name: name.copy(),
        pool: pool.copy(),
        media: media.copy(),
        moment,
    };
    let reply = give_unnoted(&hub.rt, post, notes, drive, name, event);
    hub.end_claim(post, name, &reply);
    post.station.wait_for_rest(&hub.rt);
    match reply {
        Reply::Labelled => Ok(done),
        Reply::Refused(why) => Err(why),
        _ => Err(Refusal::BadCommand),
    }
}

// Why a volume of this media isn't labelled at a drive, whose name can't be claimed for this cause.
fn refusal_before<D: Driver, N: Naming, R: Wait + Clock + Drop>(
    rt: &R,
    post: &Post<D, N, R>,
    media: &MediaName,
    why: Refusal,
) -> Refusal {
    if !media.is_same(post.station.line().media()) {
        return Refusal::OtherPoolOrMedia;
    }
    if post.is_loaded(rt) {
        return Refusal::InUse;
    }
    why
}
