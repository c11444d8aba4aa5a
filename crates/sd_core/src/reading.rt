// Reading a session back through the drive that has its volumes.
ghost use Rattle.std.specs.Prelude.{◌≡◌, ◌≢◌, ◌==◌, ◌&&◌, ◌||◌, not, ℕ};
ghost use Rattle.sd_base.specs.declared.refusal.Refusal.TheVariants.{NoSuchDrive, VolumeNotOnShelf};
ghost use Rattle.sd_events.specs.View.{world_of};
ghost use Rattle.sd_world.specs.Rules.{IsWorld, NumbersRise};
ghost use Rattle.sd_world.specs.Drives.{was_purged};
ghost use Rattle.sd_world.specs.World.{session_at};
ghost use Rattle.sd_world.specs.Deeds.{CountsFit};
ghost use Rattle.sd_world.specs.Reading.{ReadsWorld, are_at_drive, is_at_drive, is_purged_session, any_purged_at};
ghost use Rattle.sd_world.specs.Steps.{DrivesKeep};
ghost use Rattle.sd_desk.specs.Desk.{claimed_by};
ghost use Rattle.sd_core.specs.Numbers.{NumbersAreTickets};

use crate::kept::{know_counts, know_drives};
use sd_base::{DriveNo, Refusal, SessionKey, Ticket, VolName};
use sd_desk::Desk;
use sd_driver::Driver;
use sd_events::{Parts, SessionEntry, find, online};
use sd_lane::Lanes;
use sd_readback::{ReadEnd, Sink};
use sd_session::Status;
use sd_span::Span;
use sd_spool::SpoolStore;
use sd_world::read_drive;

/// Reads a session back from its spans; and what is known then of the drives, and of the session's counts.
pub(crate) fn read_knowing<D: Driver, Q: Lanes, S: SpoolStore + Drop, K: Sink>(
    parts: &mut Parts<D, Q, S>,
    key: SessionKey,
    spans: &[Span],
    sink: &mut K,
) -> Result<ReadEnd, Refusal>
    requires world { IsWorld (world_of parts.old) }
    ensures reads { ReadsWorld (λ d. D.meaning d) key spans.now (K.got sink.old) (K.got sink.new)
        result (world_of parts.old) (world_of parts.new) }
    ensures drives { DrivesKeep (λ d. D.meaning d) (world_of parts.new).bays }
    ensures fit { CountsFit (world_of parts.old).sessions key }
{
    know_counts(&parts.sessions, key);
    let result = read_parts(parts, key, spans, sink);
    know_drives(&parts.bays);
    result
}

// Reads a session back from its spans.
fn read_parts<D: Driver, Q: Lanes, S: SpoolStore + Drop, K: Sink>(
    parts: &mut Parts<D, Q, S>,
    key: SessionKey,
    spans: &[Span],
    sink: &mut K,
) -> Result<ReadEnd, Refusal>
    requires world { IsWorld (world_of parts.old) }
    ensures reads { ReadsWorld (λ d. D.meaning d) key spans.now (K.got sink.old) (K.got sink.new)
        result (world_of parts.old) (world_of parts.new) }
{
    let Some(first) = spans.first() else {
        return Err(Refusal::BadSpan);
    };
    let Some(number) = parts.desk.drive_of(&first.volume) else {
        return Err(Refusal::VolumeNotOnShelf);
    };
    let all = are_at_drive(&parts.desk, number, spans);
    let gone = is_gone(&parts.sessions, parts.limits.time, &parts.desk, key, spans);
    let place = match online(parts, number) {
        Ok(place) => place,
        Err(why) => return Err(unread(why)),
    };
    let bay = &mut parts.bays[place];
    let Some(drive) = &mut bay.drive else {
        unreachable!();
    };
    if gone {
        return Err(Refusal::VolumePurged);
    }
    if !all {
        return Err(Refusal::VolumeNotOnShelf);
    }
    read_drive(drive, key, spans, sink)
}

// Why nothing is read if the drive of the first volume isn't online: a volume of no drive is on no shelf.
fn unread(why: Refusal) -> Refusal
    ensures nowhere { why ≡ NoSuchDrive → result ≡ VolumeNotOnShelf }
    ensures other { why ≢ NoSuchDrive → result ≡ why }
{
    match why {
        Refusal::NoSuchDrive => Refusal::VolumeNotOnShelf,
        other => other,
    }
}

// Whether what is read was purged: the session is purged; or it is of another run, and the volume of a span was purged in
// this one.
fn is_gone<S: SpoolStore + Drop>(
    sessions: &[SessionEntry<S>],
    time: u32,
    desk: &Desk,
    key: SessionKey,
    spans: &[Span],
) -> bool
    requires rise { (run : ℕ) × (next : ℕ) × NumbersRise run 1 next sessions.now }
    requires most { NumbersAreTickets sessions.now }
    ensures { result ≡ (is_purged_session key (session_at key.id sessions.now)
        || (not (key.time == time) && any_purged_at desk.now spans.now)) }
{
    is_purged_session(sessions, key) || (key.time != time && any_purged_at(desk, spans))
}

// Whether the session of the key is there, and purged.
fn is_purged_session<S: SpoolStore + Drop>(sessions: &[SessionEntry<S>], key: SessionKey) -> bool
    requires rise { (run : ℕ) × (next : ℕ) × NumbersRise run 1 next sessions.now }
    requires most { NumbersAreTickets sessions.now }
    ensures { result ≡ is_purged_session key (session_at key.id sessions.now) }
{
    let Some(ticket) = Ticket::new(key.id) else {
        return false;
    };
    let Some(at) = find(sessions, ticket) else {
        return false;
    };
    let entry = &sessions[at];
    let session = &entry.session;
    key == session.key() && was_purged(session.status())
}

// Whether a session of this status was purged.
fn was_purged(status: Status) -> bool
    ensures { result ≡ was_purged status }
{
    matches!(status, Status::Purged)
}

// Whether the volume of a span was purged in this run.
fn any_purged_at(desk: &Desk, spans: &[Span]) -> bool
    ensures { result ≡ any_purged_at desk.now spans.now }
{
    spans.iter().any(|span| desk.is_purged(&span.volume))
}

// Whether every span is on a volume of the drive.
fn are_at_drive(desk: &Desk, drive: DriveNo, spans: &[Span]) -> bool
    ensures { result ≡ are_at_drive desk.now drive spans.now }
{
    spans
        .iter()
        .all(|span| is_at_drive(desk, drive, &span.volume))
}

// Whether the volume is at the drive.
fn is_at_drive(desk: &Desk, drive: DriveNo, volume: &VolName) -> bool
    ensures { result ≡ is_at_drive drive (claimed_by desk.now volume.now) }
{
    match desk.drive_of(volume) {
        Some(other) => other.get() == drive.get(),
        None => false,
    }
}
