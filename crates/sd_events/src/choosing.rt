// The drive that takes a new session, and its lane.
ghost use Rattle.std.specs.Prelude.{◌≡◌, ◌+◌, ◌<◌, ◌≤◌, ℕ, Some, None, false, not, length, map, take, slice_get, IfOk, IfErr, IsTrue};
ghost use Rattle.std.specs.List.{count_by};
ghost use Rattle.sd_base.specs.Choice.{FirstOf};
ghost use Rattle.sd_base.specs.Limits.{most_drives, most_lanes};
ghost use Rattle.sd_reserve.specs.Reserve.{IsCandidate, Precedes};
ghost use Rattle.sd_world.specs.Rules.{IsWorld, NumbersRise};
ghost use Rattle.sd_world.specs.Sessions.{NoneReserved};
ghost use Rattle.sd_world.specs.World.{drives_for, bay_for, loaded_pool, free_lanes};
ghost use Rattle.sd_events.specs.View.{world_of};

use crate::bay::{Bay, LaneSlot};
use crate::entry::SessionEntry;
use crate::lanes::free_lanes;
use crate::parts::Parts;
use sd_base::{DriveNo, LaneNo, MOST_DRIVES, MediaName, PoolName, Refusal};
use sd_drive::Drive;
use sd_driver::Driver;
use sd_lane::Lanes;
use sd_reserve::{DriveView, lowest_free_lane, reserve};
use sd_spool::SpoolStore;
use std::array;

/// For how many drives there is room.
const DRIVES: usize = MOST_DRIVES as usize;

// The drive that takes a new session of this pool and media.
pub fn choose_drive<D: Driver, Q: Lanes, S: SpoolStore + Drop>(
    parts: &Parts<D, Q, S>,
    pool: &PoolName,
    media: &MediaName,
) -> Result<DriveNo, Refusal>
    requires world { IsWorld (world_of parts.now) }
    ensures ok { IfOk result (λ drive. (place : _) × (drive ≡ place + 1)
        × FirstOf (IsCandidate pool.now media.now) (Precedes pool.now)
        (drives_for (world_of parts.now)) place) }
    ensures err { IfErr result (λ why. NoneReserved (world_of parts.now) pool.now media.now why) }
{
    let drives = drives_of(&parts.sessions, &parts.bays, media);
    match reserve(&drives[..parts.bays.len()], pool, media) {
        Ok(drive) => Ok(drive),
        Err(fault) => Err(fault.refusal()),
    }
}

// What decides of each drive whether it takes a session, and after them others that take none, up to the most that
// there may be.
fn drives_of<D: Driver, Q: Lanes, S: SpoolStore + Drop>(
    sessions: &[SessionEntry<S>],
    bays: &[Bay<D, Q, S>],
    media: &MediaName,
) -> [DriveView; DRIVES]
    requires rise { (time : ℕ) × (next : ℕ) × NumbersRise time 1 next sessions.now }
    requires bays_most { length bays.now ≤ most_drives }
    requires lanes_most { (at : ℕ) (bay : _) → slice_get bays.now at ≡ Some bay
        → length bay.lanes ≤ most_lanes }
    ensures { take (length bays.now) result ≡ map (bay_for sessions.now) bays.now }
{
    let mut drives = array::from_fn(|_| offline(media, 0));
    for place in 0..bays.len() {
        drives[place] = drive_in(sessions, &bays[place]);
    }
    drives
}

// What decides whether the drive in this bay takes a session.
fn drive_in<D: Driver, Q: Lanes, S: SpoolStore + Drop>(
    sessions: &[SessionEntry<S>],
    bay: &Bay<D, Q, S>,
) -> DriveView
    requires rise { (time : ℕ) × (next : ℕ) × NumbersRise time 1 next sessions.now }
    requires most { length bay.now.lanes ≤ most_lanes }
    ensures { result ≡ bay_for sessions.now bay.now }
{
    let lanes = bay.lanes.len() as u32;
    let Some(drive) = &bay.drive else {
        return offline(&bay.media, lanes);
    };
    DriveView {
        media: bay.media.copy(),
        online: true,
        loaded: pool_loaded(drive),
        pool: last_pool(drive),
        sessions: count_busy(sessions, drive, &bay.lanes),
        lanes,
    }
}

// A drive that is retired.
fn offline(media: &MediaName, lanes: u32) -> DriveView
    ensures { result ≡ record {
      media = media.now;
      online = false;
      loaded = None;
      pool = None;
      sessions = 0;
      lanes = lanes;
    } }
{
    DriveView {
        media: media.copy(),
        online: false,
        loaded: None,
        pool: None,
        sessions: 0,
        lanes,
    }
}

// The pool of the drive's loaded volume.
fn pool_loaded<D: Driver>(drive: &Drive<D>) -> Option<PoolName>
    ensures { result ≡ loaded_pool drive.now }
{
    let place = drive.loaded()?;
    let volume = drive.volumes().get(place)?;
    Some(volume.pool().copy())
}

// The pool of the session that was reserved at the drive last.
fn last_pool<D: Driver>(drive: &Drive<D>) -> Option<PoolName>
    ensures { result ≡ drive.now.pool }
{
    let pool = drive.pool()?;
    Some(pool.copy())
}

// How many lanes of the drive aren't free.
fn count_busy<D: Driver, S: SpoolStore + Drop>(
    sessions: &[SessionEntry<S>],
    drive: &Drive<D>,
    lanes: &[LaneSlot<S>],
) -> u32
    requires rise { (time : ℕ) × (next : ℕ) × NumbersRise time 1 next sessions.now }
    requires most { length lanes.now ≤ most_lanes }
    ensures { result ≡ count_by not (free_lanes sessions.now drive.now.journal lanes.now) }
{
    let frees = free_lanes(sessions, drive, lanes);
    let mut busy = 0;
    for is_free in frees.as_slice() {
        if !*is_free {
            busy += 1;
        }
    }
    busy
}

// The lowest lane of the drive that is free.
pub fn choose_lane<D: Driver, S: SpoolStore + Drop>(
    sessions: &[SessionEntry<S>],
    drive: &Drive<D>,
    lanes: &[LaneSlot<S>],
) -> LaneNo
    requires rise { (time : ℕ) × (next : ℕ) × NumbersRise time 1 next sessions.now }
    requires most { length lanes.now ≤ most_lanes }
    requires free { count_by not (free_lanes sessions.now drive.now.journal lanes.now) < length
        lanes.now }
    ensures lowest { (place : _) × (result ≡ place + 1)
        × FirstOf IsTrue (λ _ _. ⊥) (free_lanes sessions.now drive.now.journal lanes.now) place }
{
    let frees = free_lanes(sessions, drive, lanes);
    lowest_free_lane(frees.as_slice()).unwrap()
}
