// The drive that a new session gets.
ghost use Rattle.std.specs.Prelude.{◌≡◌, ◌+◌, ◌≤◌, ◌↔◌, length, take, slice_get, IfErr, IfOk, IsTrue};
ghost use Rattle.sd_base.specs.Limits.{most_drives};
ghost use Rattle.sd_board.specs.Opening.{IsFirst, NoneTakes, loaded_in, pool_in, view_of, views_of};

use crate::lanes::DriveLanes;
use crate::seen::DriveSeen;
use sd_base::{DriveNo, MOST_DRIVES, MediaName, PoolName, Refusal};
use sd_line::Naming;
use sd_reserve::{DriveView, reserve};
use sd_spool::SpoolStore;
use std::array;

/// For how many drives there is room.
const DRIVES: usize = MOST_DRIVES as usize;

/// The drive that takes a new session of this pool and media, by what was seen of each.
pub(crate) fn choose<N: Naming, S: SpoolStore + Drop>(
    drives: &[DriveLanes<N, S>],
    seen: &[DriveSeen],
    pool: &PoolName,
    media: &MediaName,
) -> Result<DriveNo, Refusal>
    requires { length drives.now ≤ most_drives }
    ensures ok { IfOk result (λ drive. (place : _) × (drive ≡ place + 1)
        × IsFirst (views_of drives.now seen.now) pool.now media.now place) }
    ensures err { IfErr result
        (λ why. NoneTakes (views_of drives.now seen.now) pool.now media.now why) }
{
    let views = views(drives, seen, media);
    match reserve(&views[..drives.len()], pool, media) {
        Ok(drive) => Ok(drive),
        Err(fault) => Err(fault.refusal()),
    }
}

/// Whether this is the drive that takes it.
pub(crate) fn is_choice<N: Naming, S: SpoolStore + Drop>(
    drives: &[DriveLanes<N, S>],
    seen: &[DriveSeen],
    pool: &PoolName,
    media: &MediaName,
    drive: DriveNo,
) -> bool
    requires { length drives.now ≤ most_drives }
    ensures { IsTrue result ↔ ((place : _) × (drive ≡ place + 1)
        × IsFirst (views_of drives.now seen.now) pool.now media.now place) }
{
    match choose(drives, seen, pool, media) {
        Ok(first) => first.get() == drive.get(),
        Err(_) => false,
    }
}

// What decides of each drive whether it takes a session, and after them others that take none, up to the most that
// there may be.
fn views<N: Naming, S: SpoolStore + Drop>(
    drives: &[DriveLanes<N, S>],
    seen: &[DriveSeen],
    media: &MediaName,
) -> [DriveView; DRIVES]
    requires { length drives.now ≤ most_drives }
    ensures { take (length drives.now) result ≡ views_of drives.now seen.now }
{
    let mut views = array::from_fn(|_| DriveView {
        media: media.copy(),
        online: false,
        loaded: None,
        pool: None,
        sessions: 0,
        lanes: 0,
    });
    for place in 0..drives.len() {
        views[place] = view(&drives[place], seen, place);
    }
    views
}

// What decides whether the drive at this place takes a session.
fn view<N: Naming, S: SpoolStore + Drop>(
    drive: &DriveLanes<N, S>,
    seen: &[DriveSeen],
    place: usize,
) -> DriveView
    ensures { result ≡ view_of drive.now (slice_get seen.now place) }
{
    DriveView {
        media: drive.media().copy(),
        online: true,
        loaded: loaded_at(seen, place),
        pool: pool_at(seen, place),
        sessions: drive.busy(),
        lanes: drive.count(),
    }
}

// The pool of the volume that was seen loaded in the drive at this place.
fn loaded_at(seen: &[DriveSeen], place: usize) -> Option<PoolName>
    ensures { result ≡ loaded_in (slice_get seen.now place) }
{
    let drive = seen.get(place)?;
    PoolName::copy_of(&drive.loaded)
}

// The pool of the session that was seen reserved last at the drive at this place.
fn pool_at(seen: &[DriveSeen], place: usize) -> Option<PoolName>
    ensures { result ≡ pool_in (slice_get seen.now place) }
{
    let drive = seen.get(place)?;
    PoolName::copy_of(&drive.pool)
}
