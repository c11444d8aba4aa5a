// A volume is used anew.
ghost use Rattle.std.specs.Prelude.{◌≡◌, ℕ, None, Some, All, OnOk, IfErr};
ghost use Rattle.sd_drive.specs.Moves.{purge_due};
ghost use Rattle.sd_machine.specs.declared.event.Event.TheVariants.{Purge};
ghost use Rattle.sd_world.specs.Drives.{is_kept, purge_due_in, is_on, keeps_volume, purged_if_on, purged_sessions};
ghost use Rattle.sd_world.specs.Moves.{Moves};
ghost use Rattle.sd_world.specs.Rules.{IsWorld};
ghost use Rattle.sd_events.specs.View.{reply_of, world_of};
ghost use Rattle.sd_events.specs.Purging.{Empties, is_emptied, NoneGoesOn};

use crate::entry::SessionEntry;
use crate::lanes::is_done;
use crate::parts::Parts;
use crate::place::online;
use sd_base::{DriveNo, Refusal, VolName};
use sd_drive::Drive;
use sd_driver::Driver;
use sd_lane::Lanes;
use sd_machine::Reply;
use sd_spool::SpoolStore;

/// Takes all blocks from a full volume of the drive, for good, so that it takes blocks again. Refused as the drive
/// says; and as in use, while a session of the drive that keeps its lane from being free has a block on the volume. The
/// sessions of the drive that had a block on it are purged, also if the device failed. Looks at all sessions.
pub fn purge<D: Driver, Q: Lanes, S: SpoolStore + Drop>(
    parts: &mut Parts<D, Q, S>,
    drive: DriveNo,
    name: &VolName,
) -> Result<Reply, Refusal>
    requires world { IsWorld (world_of parts.old) }
    ensures moves { Moves (λ d. D.meaning d) (world_of parts.old) (Purge drive name.now)
        (reply_of result) (world_of parts.new) }
{
    let place = online(parts, drive)?;
    let bay = &mut parts.bays[place];
    let Some(at) = &mut bay.drive else {
        unreachable!();
    };
    may_purge(&parts.sessions, drive, at, name)?;
    let reply = empty(at, name);
    if !is_emptied(&reply) {
        return Ok(reply);
    }
    purge_sessions(&mut parts.sessions, drive, at, name);
    parts.desk.purged(name);
    Ok(reply)
}

// The drive empties its volume of the name, if that isn't refused beforehand.
fn empty<D: Driver>(at: &mut Drive<D>, name: &VolName) -> Reply
    requires due { purge_due at.old name.now ≡ None }
    ensures { Empties (λ d. D.meaning d) name.now result at.old at.new }
{
    match at.purge(name) {
        Ok(()) => Reply::Purged,
        Err(why) => Reply::Refused(why),
    }
}

// Whether the volume has no block any more; also if the device failed.
fn is_emptied(reply: &Reply) -> bool
    ensures { result ≡ is_emptied reply.now }
{
    match reply {
        Reply::Purged | Reply::Refused(Refusal::DeviceFault) => true,
        _ => false,
    }
}

// Whether the volume may be purged, before the device is asked.
fn may_purge<D: Driver, S: SpoolStore + Drop>(
    sessions: &[SessionEntry<S>],
    drive: DriveNo,
    at: &Drive<D>,
    name: &VolName,
) -> Result<(), Refusal>
    ensures due { IfErr result (λ why. purge_due_in sessions.now drive at.now name.now ≡ Some why) }
    ensures none { OnOk result (purge_due_in sessions.now drive at.now name.now ≡ None) }
{
    at.may_purge(name)?;
    if is_kept(sessions, drive, at, name) {
        return Err(Refusal::InUse);
    }
    Ok(())
}

// Whether a session of the drive that keeps its lane from being free has a block on the volume.
fn is_kept<D: Driver, S: SpoolStore + Drop>(
    sessions: &[SessionEntry<S>],
    drive: DriveNo,
    at: &Drive<D>,
    name: &VolName,
) -> bool
    ensures { result ≡ is_kept drive name.now at.now.journal sessions.now }
{
    for entry in sessions {
        if keeps_volume(entry, drive, at, name) {
            return true;
        }
    }
    false
}

// Whether this one does.
fn keeps_volume<D: Driver, S: SpoolStore + Drop>(
    entry: &SessionEntry<S>,
    drive: DriveNo,
    at: &Drive<D>,
    name: &VolName,
) -> bool
    ensures { result ≡ keeps_volume drive name.now at.now.journal entry.now }
{
    is_on(entry, drive, at, name) && !is_done(&entry.session, at)
}

// Whether the session is of the drive, and had a block on the volume.
fn is_on<D: Driver, S: SpoolStore + Drop>(
    entry: &SessionEntry<S>,
    drive: DriveNo,
    at: &Drive<D>,
    name: &VolName,
) -> bool
    ensures { result ≡ is_on drive name.now at.now.journal entry.now }
{
    entry.drive.get() == drive.get() && at.has_on(entry.session.key(), name)
}

// The sessions of the drive that had a block on the volume are purged; none of them goes on.
fn purge_sessions<D: Driver, S: SpoolStore + Drop>(
    sessions: &mut [SessionEntry<S>],
    drive: DriveNo,
    at: &Drive<D>,
    name: &VolName,
)
    requires over { All (NoneGoesOn drive name.now at.now.journal) sessions.old }
    ensures { sessions.new ≡ purged_sessions drive name.now at.now.journal sessions.old }
{
    for place in 0..sessions.len() {
        purge_if_on(&mut sessions[place], drive, at, name);
    }
}

// Purges the session if it is of the drive and had a block on the volume; such a session doesn't go on.
fn purge_if_on<D: Driver, S: SpoolStore + Drop>(
    entry: &mut SessionEntry<S>,
    drive: DriveNo,
    at: &Drive<D>,
    name: &VolName,
)
    requires over { NoneGoesOn drive name.now at.now.journal entry.old }
    ensures { entry.new ≡ purged_if_on drive name.now at.now.journal entry.old }
{
    if is_on(entry, drive, at, name) {
        entry.session.purge();
    }
}
