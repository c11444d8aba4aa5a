// An event of a drive.
ghost use Rattle.std.specs.Prelude.{◌≡◌};
ghost use Rattle.sd_machine.specs.declared.event.Event.TheVariants.{Adopt};
ghost use Rattle.sd_world.specs.Drives.{IsOfDrive};
ghost use Rattle.sd_world.specs.Moves.{Moves};
ghost use Rattle.sd_world.specs.Rules.{IsWorld};
ghost use Rattle.sd_events.specs.View.{reply_of, world_of};
ghost use Rattle.sd_events.specs.AtStations.{MovesHere, IsStation};
ghost use Rattle.sd_events.specs.Losing.{is_device_fault};
ghost use Rattle.sd_events.specs.Noted.{IsTrueAt};

use crate::adopting::{adopt, adopt_noted};
use crate::labelling::label;
use crate::losing::fail_lost;
use crate::mounting::mount;
use crate::parts::Parts;
use crate::place::online;
use crate::placing::place;
use crate::seeking::seek;
use crate::syncing::{sync, unmount};
use crate::taking::take;
use sd_base::{DriveNo, Refusal, VolName};
use sd_desk::Desk;
use sd_drive::Drive;
use sd_driver::Driver;
use sd_lane::Lanes;
use sd_machine::{Event, Reply};
use sd_note::Note;
use sd_spool::SpoolStore;

/// Answers an event of this drive, but its retirement: no such drive, or drive offline, before any other refusal. If a
/// sync of the loaded volume failed, those sessions of the drive fail that go on and had a block on it that wasn't
/// synced.
pub fn operate<D: Driver, Q: Lanes, S: SpoolStore + Drop>(
    parts: &mut Parts<D, Q, S>,
    drive: DriveNo,
    event: &Event,
) -> Result<Reply, Refusal>
    requires world { IsWorld (world_of parts.old) }
    requires own { IsOfDrive event.now drive }
    ensures moves { Moves (λ d. D.meaning d) (world_of parts.old) event.now
        (reply_of result) (world_of parts.new) }
{
    let place = online(parts, drive)?;
    let bay = &mut parts.bays[place];
    let Some(at) = &mut bay.drive else {
        unreachable!();
    };
    let reply = operate_on(at, &mut bay.queue, &mut parts.desk, drive, event);
    if !is_device_fault(&reply) {
        return Ok(reply);
    }
    fail_lost(&mut parts.sessions, &bay.lanes, at);
    Ok(reply)
}

/// Answers the event `Adopt` as `operate` does, by the volume's note: the drive reads on from where that says. What the
/// note says is to be true.
pub fn operate_noted<D: Driver, Q: Lanes, S: SpoolStore + Drop>(
    parts: &mut Parts<D, Q, S>,
    drive: DriveNo,
    name: &VolName,
    note: &Note,
) -> Result<Reply, Refusal>
    requires world { IsWorld (world_of parts.old) }
    requires known { IsTrueAt (λ d. D.meaning d) (world_of parts.old) drive name.now note.now }
    ensures moves { Moves (λ d. D.meaning d) (world_of parts.old) (Adopt drive name.now)
        (reply_of result) (world_of parts.new) }
{
    let place = online(parts, drive)?;
    let bay = &mut parts.bays[place];
    let Some(at) = &mut bay.drive else {
        unreachable!();
    };
    let reply = adopt_noted(at, &mut parts.desk, drive, name, note);
    if !is_device_fault(&reply) {
        return Ok(reply);
    }
    fail_lost(&mut parts.sessions, &bay.lanes, at);
    Ok(reply)
}

// Whether the event was refused with a fault of the device, as it is if a sync failed.
fn is_device_fault(reply: &Reply) -> bool
    ensures { result ≡ is_device_fault reply.now }
{
    matches!(reply, Reply::Refused(Refusal::DeviceFault))
}

// Answers the event at the drive, the queue before it and the desk.
fn operate_on<D: Driver, Q: Lanes>(
    at: &mut Drive<D>,
    queue: &mut Q,
    desk: &mut Desk,
    drive: DriveNo,
    event: &Event,
) -> Reply
    requires own { IsOfDrive event.now drive }
    requires station { IsStation drive at.old (Q.held queue.old) desk.old }
    ensures { MovesHere (λ d. D.meaning d) drive event.now
        at.old (record {
          lanes = Q.lanes queue.old;
          capacity = Q.capacity queue.old;
          held = Q.held queue.old;
        }) desk.old result
        at.new (record {
          lanes = Q.lanes queue.new;
          capacity = Q.capacity queue.new;
          held = Q.held queue.new;
        }) desk.new }
{
    match event {
        Event::Take { .. } => take(at, queue),
        Event::Place { .. } => place(at),
        Event::Sync { .. } => sync(at),
        Event::Label {
            name,
            pool,
            media,
            moment,
            ..
        } => label(at, desk, drive, name, pool, media, *moment),
        Event::Adopt { name, .. } => adopt(at, desk, drive, name),
        Event::Mount { name, .. } => mount(at, desk, drive, name),
        Event::Unmount { .. } => unmount(at),
        Event::Seek { .. } => seek(at, desk, drive),
        _ => unreachable!(),
    }
}
