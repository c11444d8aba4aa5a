// What others may know of a drive without its lock: whoever changes the drive writes it here before he gives that lock back.
ghost use Rattle.std.specs.Prelude.{◌≡◌, IfOk, OnErr, OnOk, map};
ghost use Rattle.sd_stations.specs.Shows.{shown};

use crate::row::{VolumeRow, blocks_at};
use sd_base::{LaneNo, MOST_LANES, PoolName, SessionKey, VolName};
use sd_drive::Drive;
use sd_driver::Driver;
use sd_volume::{Volume, VolumeStatus};
use std::alloc::{AllocError, Global};

const LANES: usize = MOST_LANES as usize;

// A volume, and whether the drive's worker passes it over, since it couldn't be loaded.
#[derive(Drop)]
struct Shown {
    row: VolumeRow,
    is_passed_over: bool,
}

impl Shown {
    // A volume that came to the drive.
    fn of(volume: &Volume) -> Self
        ensures { result ≡ shown volume.now }
    {
        Shown {
            row: VolumeRow::of(volume),
            is_passed_over: false,
        }
    }

    // Whether the worker would load it for blocks of this pool.
    fn takes(&self, pool: &PoolName) -> bool {
        self.row.status == VolumeStatus::Append
            && !self.is_passed_over
            && self.row.pool.is_same(pool)
    }
}

/// How far the blocks of a session are.
#[derive(Clone, Copy)]
pub(crate) struct Reached {
    key: SessionKey,
    /// How many of them are placed.
    pub(crate) placed: u64,
    /// Whether the drive lost one of them.
    pub(crate) has_failed: bool,
}

/// The volume that a drive's worker loads next.
#[derive(Drop)]
pub(crate) struct NextVolume {
    pub(crate) name: VolName,
    /// Whether no volume before it is passed over, so that a seek finds it.
    pub(crate) is_sought: bool,
}

/// What is published of a drive.
#[derive(Drop)]
pub(crate) struct DriveStatus {
    // Its volumes, in the drive's order.
    volumes: Vec<Shown>,
    loaded: Option<usize>,
    // The pool of the session that began last.
    pool: Option<PoolName>,
    // The pool of the session that got its number last, which is the same but for the moment until that begins.
    numbered: Option<PoolName>,
    // Whether a volume is being mounted by an event that looks at the pool.
    is_mounting: bool,
    // Whether the worker found no volume for that pool, and none came since.
    is_waiting: bool,
    // Of each lane the session that began last there.
    lanes: [Option<Reached>; LANES],
}

impl DriveStatus {
    /// Of a drive that has no volume yet, and served no session. Takes no memory.
    pub(crate) fn new(alloc: Global) -> Self {
        DriveStatus {
            volumes: Vec::new(alloc),
            loaded: None,
            pool: None,
            numbered: None,
            is_mounting: false,
            is_waiting: false,
            lanes: [None; LANES],
        }
    }

    /// Makes room for one volume more.
    pub(crate) fn make_room(&mut self) -> Result<(), AllocError> {
        self.volumes.reserve(1)
    }

    /// Shows the volumes that a drive has from the start, each of which was labelled or adopted. If out of memory, nothing
    /// changes.
    pub(crate) fn publish<D: Driver>(
        &mut self,
        alloc: Global,
        drive: &Drive<D>,
    ) -> Result<(), AllocError>
        ensures volumes { OnOk result
            (self.new.volumes.items ≡ map shown drive.now.volumes) }
        ensures loaded { OnOk result (self.new.loaded ≡ drive.now.loaded) }
        ensures err { OnErr result (self.new ≡ self.old) }
    {
        self.volumes = shown_of(alloc, drive.volumes())?;
        self.loaded = drive.loaded();
        Ok(())
    }

    /// Looks at a drive in which the volume at this place was loaded before a turn or an event, by which a sync failed for
    /// which blocks waited, or may have failed. No other volume changes by that but the one that is loaded then; and one may
    /// have come, for which there is room.
    pub(crate) fn look<D: Driver>(
        &mut self,
        drive: &Drive<D>,
        was_loaded: Option<usize>,
        has_failed: bool,
    ) {
        self.look_at(drive, was_loaded, has_failed);
        if drive.loaded() != was_loaded {
            self.look_at(drive, drive.loaded(), has_failed);
        }
        self.look_for_more(drive);
        self.loaded = drive.loaded();
        if self.is_waiting {
            self.is_waiting = !self.takes_own();
        }
    }

    // Looks at the volume at this place.
    fn look_at<D: Driver>(&mut self, drive: &Drive<D>, place: Option<usize>, has_failed: bool) {
        let Some(at) = place else {
            return;
        };
        if let (Some(shown), Some(volume)) = (self.volumes.get_mut(at), drive.volumes().get(at)) {
            let blocks = blocks_at(drive, at, volume.status(), has_failed);
            shown.row.look(volume, blocks);
        }
    }

    // Looks for a volume that came.
    fn look_for_more<D: Driver>(&mut self, drive: &Drive<D>) {
        if let Some(volume) = drive.volumes().get(self.volumes.len()) {
            let _ = self.volumes.push(Shown::of(volume));
        }
    }

    /// Whether a volume takes blocks of the drive's pool that isn't passed over. Most often the loaded one does, and no other
    /// is looked at.
    pub(crate) fn takes_own(&self) -> bool {
        match &self.pool {
            Some(pool) => self.takes(pool),
            None => false,
        }
    }

    fn takes(&self, pool: &PoolName) -> bool {
        match self.shown_loaded() {
            Some(shown) if shown.takes(pool) => true,
            _ => self.first_for(pool).is_some(),
        }
    }

    fn shown_loaded(&self) -> Option<&Shown> {
        self.volumes.get(self.loaded?)
    }

    // The place of the first volume that takes blocks of the pool.
    fn first_for(&self, pool: &PoolName) -> Option<usize> {
        for at in 0..self.volumes.len() {
            if self.volumes[at].takes(pool) {
                return Some(at);
            }
        }
        None
    }

    /// The volume that the worker loads next for this pool, if there is one.
    pub(crate) fn next(&self, pool: &PoolName) -> Option<NextVolume> {
        let at = self.first_for(pool)?;
        Some(NextVolume {
            name: self.volumes.get(at)?.row.name.copy(),
            is_sought: !self.passes_before(at),
        })
    }

    // Whether a volume before this place is passed over.
    fn passes_before(&self, at: usize) -> bool {
        for shown in self.volumes.iter().take(at) {
            if shown.is_passed_over {
                return true;
            }
        }
        false
    }

    /// The worker passes the volume over from now on, or no longer.
    pub(crate) fn pass_over(&mut self, name: &VolName, is_passed_over: bool) {
        for shown in self.volumes.iter_mut() {
            if shown.row.name.is_same(name) {
                shown.is_passed_over = is_passed_over;
            }
        }
    }

    /// The worker found no volume.
    pub(crate) fn waits(&mut self) {
        self.is_waiting = true;
    }

    /// Nobody needs one any more.
    pub(crate) fn rests(&mut self) {
        self.is_waiting = false;
    }

    pub(crate) fn is_waiting(&self) -> bool {
        self.is_waiting
    }

    /// A session of this pool gets its number, unless a volume is being mounted for another pool than its own. Whether it does.
    pub(crate) fn numbers(&mut self, pool: &PoolName) -> bool {
        if is_pool(&self.numbered, pool) {
            return true;
        }
        if self.is_mounting {
            return false;
        }
        self.numbered = Some(pool.copy());
        true
    }

    /// The session that got its number last is of this pool.
    pub(crate) fn was_numbered(&mut self, pool: Option<PoolName>) {
        self.numbered = pool;
    }

    /// Whether no session has a number and another pool than the drive, at which it is about to begin.
    pub(crate) fn is_settled(&self) -> bool {
        match &self.numbered {
            Some(pool) => is_pool(&self.pool, pool),
            None => true,
        }
    }

    /// A volume is being mounted from now on, if the drive's pool is settled. Whether it is.
    pub(crate) fn mounts(&mut self) -> bool {
        self.is_mounting = self.is_settled();
        self.is_mounting
    }

    /// An event has ended. Whether it mounted a volume, or tried to.
    pub(crate) fn ends_mount(&mut self) -> bool {
        let was_mounting = self.is_mounting;
        self.is_mounting = false;
        was_mounting
    }

    /// Whether a volume is being mounted.
    pub(crate) fn is_mounting(&self) -> bool {
        self.is_mounting
    }

    /// A session begins at a lane.
    pub(crate) fn begins(&mut self, key: SessionKey, lane: LaneNo, pool: &PoolName) {
        let at = lane.get() as usize - 1;
        if at < LANES {
            self.lanes[at] = Some(Reached {
                key,
                placed: 0,
                has_failed: false,
            });
        }
        if !is_pool(&self.pool, pool) {
            self.pool = Some(pool.copy());
            self.is_waiting = false;
        }
    }

    /// A block of a session was placed.
    pub(crate) fn placed(&mut self, key: SessionKey) {
        for lane in self.lanes.iter_mut() {
            if let Some(reached) = lane {
                if reached.key == key {
                    reached.placed = reached.placed.saturating_add(1);
                    return;
                }
            }
        }
    }

    /// A sync failed: looks which sessions lost a block by it.
    pub(crate) fn look_for_failed<D: Driver>(&mut self, drive: &Drive<D>) {
        for lane in self.lanes.iter_mut() {
            if let Some(reached) = lane {
                reached.has_failed = drive.progress(reached.key).failed;
            }
        }
    }

    /// How far the blocks of a session are; none if it never began here, or another began at its lane since.
    pub(crate) fn reached(&self, key: SessionKey) -> Option<Reached> {
        for lane in self.lanes.iter() {
            if let Some(reached) = lane {
                if reached.key == key {
                    return Some(*reached);
                }
            }
        }
        None
    }

    /// The volumes, in the drive's order.
    pub(crate) fn rows(&self, alloc: Global) -> Result<Vec<VolumeRow>, AllocError> {
        let mut rows = Vec::with_capacity(alloc, self.volumes.len())?;
        for shown in self.volumes.iter() {
            rows.push(shown.row.copy())?;
        }
        Ok(rows)
    }

    /// The volume that is loaded.
    pub(crate) fn loaded(&self) -> Option<VolumeRow> {
        Some(self.shown_loaded()?.row.copy())
    }

    /// Whether the device failed with the volume at this place.
    pub(crate) fn has_failed(&self, place: Option<usize>) -> Option<VolName> {
        let shown = self.volumes.get(place?)?;
        if shown.row.status == VolumeStatus::Error {
            Some(shown.row.name.copy())
        } else {
            None
        }
    }
}

// What is shown of these volumes, each of which was labelled or adopted.
fn shown_of(alloc: Global, volumes: &[Volume]) -> Result<Vec<Shown>, AllocError>
    ensures { IfOk result (λ rows. rows.items ≡ map shown volumes.now) }
{
    let mut rows = Vec::with_capacity(alloc, volumes.len())?;
    for volume in volumes {
        rows.push(Shown::of(volume))?;
    }
    Ok(rows)
}

// Whether the pool is this one.
fn is_pool(own: &Option<PoolName>, pool: &PoolName) -> bool {
    match own {
        Some(own) => own.is_same(pool),
        None => false,
    }
}
