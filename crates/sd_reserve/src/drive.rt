// The drive that takes a new session.
ghost use Rattle.std.specs.Prelude.{◌≡◌, ◌+◌, ◌≤◌, ◌<◌, ◌↔◌, length, slice_get, IfOk, IfSome, IsErrOf, IsTrue, MatchBool, MatchOption, None, Some};
ghost use Rattle.sd_base.specs.Choice.{FirstOf, NoneOf};
ghost use Rattle.sd_base.specs.Limits.{most_drives};
ghost use Rattle.sd_reserve.specs.Better.{IsBetter};
ghost use Rattle.sd_reserve.specs.Reserve.{TakesMedia, IsOnline, IsCandidate, Precedes};

use sd_base::{DriveNo, MediaName, PoolName, Refusal};

/// What of a drive decides whether it takes a session: its media; whether it is online; the pool of its
/// loaded volume; the pool of the session last reserved on it; how many of its lanes aren't free; its lanes.
#[derive(Drop)]
pub struct DriveView {
    pub media: MediaName,
    pub online: bool,
    pub loaded: Option<PoolName>,
    pub pool: Option<PoolName>,
    pub sessions: u32,
    pub lanes: u32,
}

/// Why no drive takes a session. The tests are made in this order, and the first that leaves no drive is
/// the answer.
#[derive(Clone, Copy, Debug, PartialEq, Eq)]
pub enum ReserveFault {
    /// No drive takes the media.
    NoDriveOfMedia,
    /// All drives of the media are offline.
    DriveOffline,
    /// Of those online none has a free lane and no session, or sessions of the pool.
    NoFreeLane,
}

impl ReserveFault {
    ghost use Rattle.sd_reserve.specs.Refusals.{refusal_of_reserve};

    /// The refusal that every interface says.
    pub fn refusal(self) -> Refusal
        ensures { result ≡ refusal_of_reserve self }
    {
        match self {
            ReserveFault::NoDriveOfMedia => Refusal::NoDriveOfMedia,
            ReserveFault::DriveOffline => Refusal::DriveOffline,
            ReserveFault::NoFreeLane => Refusal::NoFreeLane,
        }
    }
}

/// The drive that takes a new session of this pool and media, out of the drives 1, 2 and so on: of those
/// that may take it the one with a volume of the pool loaded comes first, then the one with fewest
/// sessions, then the one with the lowest number. Looks at each drive once or twice.
pub fn reserve(
    drives: &[DriveView],
    pool: &PoolName,
    media: &MediaName,
) -> Result<DriveNo, ReserveFault>
    requires { length drives.now ≤ most_drives }
    ensures ok { IfOk result (λ drive. (place : _) × (drive ≡ place + 1)
        × FirstOf (IsCandidate pool.now media.now) (Precedes pool.now) drives.now place) }
    ensures no_drive { IsErrOf result ReserveFault.NoDriveOfMedia
        ↔ NoneOf (TakesMedia media.now) drives.now }
    ensures offline { IsErrOf result ReserveFault.DriveOffline
        ↔ ((NoneOf (TakesMedia media.now) drives.now → ⊥)
        × NoneOf (IsOnline media.now) drives.now) }
    ensures no_lane { IsErrOf result ReserveFault.NoFreeLane
        ↔ ((NoneOf (IsOnline media.now) drives.now → ⊥)
        × NoneOf (IsCandidate pool.now media.now) drives.now) }
{
    if !any_takes(drives, media) {
        return Err(ReserveFault::NoDriveOfMedia);
    }
    if !any_online(drives, media) {
        return Err(ReserveFault::DriveOffline);
    }
    let Some(place) = first_candidate(drives, pool, media) else {
        return Err(ReserveFault::NoFreeLane);
    };
    Ok(DriveNo::new(place as u32 + 1).unwrap())
}

// Whether some drive takes the media.
fn any_takes(drives: &[DriveView], media: &MediaName) -> bool
    ensures { MatchBool result (NoneOf (TakesMedia media.now) drives.now → ⊥)
        (NoneOf (TakesMedia media.now) drives.now) }
{
    for drive in drives {
        if drive.media.is_same(media) {
            return true;
        }
    }
    false
}

// Whether some drive of the media is online.
fn any_online(drives: &[DriveView], media: &MediaName) -> bool
    ensures { MatchBool result (NoneOf (IsOnline media.now) drives.now → ⊥)
        (NoneOf (IsOnline media.now) drives.now) }
{
    for drive in drives {
        if is_online(drive, media) {
            return true;
        }
    }
    false
}

// The place of the first candidate.
fn first_candidate(drives: &[DriveView], pool: &PoolName, media: &MediaName) -> Option<usize>
    ensures place { MatchOption result (NoneOf (IsCandidate pool.now media.now) drives.now)
        (FirstOf (IsCandidate pool.now media.now) (Precedes pool.now) drives.now) }
    ensures within { IfSome result (λ place. place < length drives.now) }
{
    let mut best: Option<usize> = None;
    for place in 0..drives.len() {
        if is_candidate(&drives[place], pool, media) {
            best = Some(better(drives, best, place, pool));
        }
    }
    best
}

// The better of two places: the new one only if its drive comes before the best one so far.
fn better(drives: &[DriveView], best: Option<usize>, place: usize, pool: &PoolName) -> usize
    requires place { place < length drives.now }
    requires best { IfSome best (λ other. other < length drives.now) }
    ensures { IsBetter (Precedes pool.now) drives.now best place result }
{
    match best {
        Some(other) if !precedes(&drives[place], &drives[other], pool) => other,
        _ => place,
    }
}

// Whether the drive takes the media, and isn't retired.
fn is_online(drive: &DriveView, media: &MediaName) -> bool
    ensures { IsTrue result ↔ IsOnline media.now drive.now }
{
    drive.media.is_same(media) && drive.online
}

// Whether the drive may take a session of this pool and media.
fn is_candidate(drive: &DriveView, pool: &PoolName, media: &MediaName) -> bool
    ensures { IsTrue result ↔ IsCandidate pool.now media.now drive.now }
{
    is_online(drive, media)
        && drive.sessions < drive.lanes
        && (drive.sessions == 0 || is_pool(&drive.pool, pool))
}

// Whether the pool is this one.
fn is_pool(pool: &Option<PoolName>, wanted: &PoolName) -> bool
    ensures { IsTrue result ↔ (pool.now ≡ Some wanted.now) }
{
    match pool {
        None => false,
        Some(pool) => pool.is_same(wanted),
    }
}

// Whether the one drive comes before the other.
fn precedes(drive: &DriveView, other: &DriveView, pool: &PoolName) -> bool
    ensures { IsTrue result ↔ Precedes pool.now drive.now other.now }
{
    let loaded = is_pool(&drive.loaded, pool);
    let other_loaded = is_pool(&other.loaded, pool);
    if loaded == other_loaded {
        drive.sessions < other.sessions
    } else {
        loaded
    }
}
