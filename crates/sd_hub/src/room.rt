// Room for a settled world.
ghost use Rattle.std.specs.Prelude.{◌≡◌, ◌≤◌, ◌<◌, [], IfOk, length};
ghost use Rattle.std.specs.Vec.{vec_capacity};
ghost use Rattle.sd_base.specs.Limits.{most_lanes};
ghost use Rattle.sd_hub.specs.Claimed.{AreClaimed};
ghost use Rattle.sd_hub.specs.Settles.{sessions_of};

use crate::checked::Checked;
use crate::claiming::claim_all;
use sd_base::MOST_LANES;
use sd_desk::Desk;
use sd_driver::Driver;
use sd_events::{Bay, LaneSlot, SessionEntry};
use sd_line::{Naming, Told};
use sd_ruled::RuledLanes;
use sd_spool::SpoolStore;
use std::alloc::{AllocError, Global};
use std::sync::Wait;

/// Room for all that a settled world has, so that to make it takes no memory; and its desk.
#[derive(Drop)]
pub(crate) struct Room<D: Driver, R: Wait + Copy + Drop, S: SpoolStore> {
    pub(crate) told: Vec<Told<S>>,
    pub(crate) entries: Vec<SessionEntry<S>>,
    pub(crate) slots: Vec<LaneSlot<S>>,
    pub(crate) bays: Vec<Bay<D, RuledLanes<R>, S>>,
    pub(crate) desk: Desk,
}

impl<D: Driver + Drop, R: Wait + Copy + Drop, S: SpoolStore + Drop> Room<D, R, S> {
    /// Room for the world that this line becomes; at the desk the names of its drive's volumes are claimed. With more
    /// sessions than a `usize` counts, it is out of memory.
    pub(crate) fn with_desk<N: Naming>(
        alloc: Global,
        checked: &Checked<D, N, R, S>,
    ) -> Result<Self, AllocError>
        ensures told { IfOk result (λ r. (r.told.items ≡ [])
            × (length (sessions_of checked.now) ≤ vec_capacity r.told)) }
        ensures entries { IfOk result (λ r. (r.entries.items ≡ [])
            × (length (sessions_of checked.now) ≤ vec_capacity r.entries)) }
        ensures slots { IfOk result (λ r. (r.slots.items ≡ [])
            × (most_lanes ≤ vec_capacity r.slots)) }
        ensures bays { IfOk result (λ r. (r.bays.items ≡ []) × (0 < vec_capacity r.bays)) }
        ensures claimed { IfOk result (λ r. AreClaimed checked.now.side.drive.volumes r.desk) }
    {
        let Ok(count) = usize::try_from(checked.count()) else {
            return Err(AllocError);
        };
        let drive = checked.drive();
        drive.know();
        Ok(Room {
            told: Vec::with_capacity(alloc, count)?,
            entries: Vec::with_capacity(alloc, count)?,
            slots: Vec::with_capacity(alloc, MOST_LANES as usize)?,
            bays: Vec::with_capacity(alloc, 1)?,
            desk: claim_all(alloc, drive.volumes())?,
        })
    }
}
