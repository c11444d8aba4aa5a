// What keeps the sessions of a line from being settled; it is found without memory.
ghost use Rattle.std.specs.Prelude.{◌≡◌, ◌↔◌, ◌<◌, IfSome, IfNone, IsTrue, length};
ghost use Rattle.sd_base.specs.Choice.{NoneOf};
ghost use Rattle.sd_base.specs.Key.{is_key};
ghost use Rattle.sd_hub.specs.Settles.{AreDistinct, AreSettled, HasUnsettled, IsUnsettled, times_of, sessions_to};

use crate::ends::sessions_at;
use sd_base::{DriveNo, SessionKey};
use sd_drive::Drive;
use sd_driver::Driver;
use sd_line::{LaneEnd, Naming, Told};
use sd_session::Status;
use sd_span::Progress;
use sd_spool::SpoolStore;

/// A key that two sessions of these lanes have.
pub(crate) fn double_key<N: Naming, S: SpoolStore + Drop>(
    no: DriveNo,
    lanes: u32,
    ends: &[LaneEnd<N, S>],
) -> Option<SessionKey>
    ensures some { IfSome result (λ key. 1 < times_of key (sessions_to no lanes ends.now)) }
    ensures none { IfNone result (AreDistinct (sessions_to no lanes ends.now)) }
{
    for at in 0..lanes {
        if let Some(key) = double_in(no, lanes, ends, sessions_at(no, at + 1, ends)) {
            return Some(key);
        }
    }
    None
}

// A key of one of these sessions that two sessions of the lanes have.
fn double_in<N: Naming, S: SpoolStore + Drop>(
    no: DriveNo,
    lanes: u32,
    ends: &[LaneEnd<N, S>],
    sessions: &[Told<S>],
) -> Option<SessionKey>
    ensures some { IfSome result (λ key. 1 < times_of key (sessions_to no lanes ends.now)) }
    ensures none { IfNone result (NoneOf (λ s. 1
        < times_of s.session.key (sessions_to no lanes ends.now)) sessions.now) }
{
    for told in sessions {
        let key = key_of(told);
        if times(no, lanes, ends, key) > 1 {
            return Some(key);
        }
    }
    None
}

// How many sessions of these lanes have the key. Their number fits, since each lane's does.
fn times<N: Naming, S: SpoolStore + Drop>(
    no: DriveNo,
    lanes: u32,
    ends: &[LaneEnd<N, S>],
    key: SessionKey,
) -> u128
    ensures { result ≡ times_of key (sessions_to no lanes ends.now) }
{
    let mut all = 0;
    for at in 0..lanes {
        all += count(sessions_at(no, at + 1, ends), key) as u128;
    }
    all
}

// How many of these sessions have the key.
fn count<S: SpoolStore + Drop>(sessions: &[Told<S>], key: SessionKey) -> usize
    ensures { result ≡ times_of key sessions.now }
{
    let mut many = 0;
    for told in sessions {
        if is_of(told, key) {
            many += 1;
        }
    }
    many
}

/// How many sessions these lanes have. Their number fits, since each lane's does.
pub(crate) fn count_all<N: Naming, S: SpoolStore + Drop>(
    no: DriveNo,
    lanes: u32,
    ends: &[LaneEnd<N, S>],
) -> u128
    ensures { result ≡ length (sessions_to no lanes ends.now) }
{
    let mut all = 0;
    for at in 0..lanes {
        all += sessions_at(no, at + 1, ends).len() as u128;
    }
    all
}

// Whether the session has the key.
fn is_of<S: SpoolStore + Drop>(told: &Told<S>, key: SessionKey) -> bool
    ensures { result ≡ is_key told.now.session.key key }
{
    told.session.key() == key
}

fn key_of<S: SpoolStore + Drop>(told: &Told<S>) -> SessionKey
    ensures { result ≡ told.now.session.key }
{
    told.session.key()
}

/// The key of a session of these lanes that is closed, while not all that it sent is placed and synced.
pub(crate) fn unsynced<D: Driver, N: Naming, S: SpoolStore + Drop>(
    drive: &Drive<D>,
    no: DriveNo,
    lanes: u32,
    ends: &[LaneEnd<N, S>],
) -> Option<SessionKey>
    ensures some { IfSome result (λ key. HasUnsettled drive.now.journal
        (sessions_to no lanes ends.now) key) }
    ensures none { IfNone result (AreSettled drive.now.journal
        (sessions_to no lanes ends.now)) }
{
    for at in 0..lanes {
        if let Some(key) = unsynced_in(drive, sessions_at(no, at + 1, ends)) {
            return Some(key);
        }
    }
    None
}

// The key of such a session among these.
fn unsynced_in<D: Driver, S: SpoolStore + Drop>(
    drive: &Drive<D>,
    sessions: &[Told<S>],
) -> Option<SessionKey>
    ensures some { IfSome result (λ key. HasUnsettled drive.now.journal sessions.now key) }
    ensures none { IfNone result (AreSettled drive.now.journal sessions.now) }
{
    for told in sessions {
        if is_unsettled(drive, told) {
            return Some(key_of(told));
        }
    }
    None
}

// Whether the session is closed, and the drive has not just as many blocks of it, all synced, as it sent.
fn is_unsettled<D: Driver, S: SpoolStore + Drop>(drive: &Drive<D>, told: &Told<S>) -> bool
    ensures { IsTrue result ↔ IsUnsettled drive.now.journal told.now }
{
    let session = &told.session;
    match session.status() {
        Status::Closed => !has_all(drive.progress(session.key()), session.sent()),
        _ => false,
    }
}

// Whether so many blocks are placed, and so many synced.
fn has_all(progress: Progress, sent: u64) -> bool
    ensures { IsTrue result ↔ ((progress.placed ≡ sent) × (progress.synced ≡ sent)) }
{
    progress.placed == sent && progress.synced == sent
}
