// The ends of the lanes are taken apart, in order.
ghost use Rattle.std.specs.Prelude.{◌≡◌, ◌≢◌, ◌≤◌, ℕ, [], Some, IsSome, IfOk};
ghost use Rattle.std.specs.Vec.{vec_capacity};
ghost use Rattle.sd_hub.specs.Settles.{AllThere, AreTaken, end_at};

use crate::ends::index_of;
use crate::settled::SettledLane;
use sd_base::DriveNo;
use sd_line::{EndParts, LaneEnd, Naming};
use sd_ruled::LaneSeat;
use sd_spool::SpoolStore;
use std::alloc::{AllocError, Global};

/// The seats and the lanes of a line.
#[derive(Drop)]
pub(crate) struct Gathered<S: SpoolStore> {
    pub(crate) seats: Vec<LaneSeat>,
    pub(crate) lanes: Vec<SettledLane<S>>,
}

impl<S: SpoolStore> Gathered<S> {
    /// None yet, with room for so many.
    pub(crate) fn with_room(alloc: Global, lanes: u32) -> Result<Self, AllocError>
        ensures none { IfOk result (λ all. (all.seats.items ≡ []) × (all.lanes.items ≡ [])) }
        ensures room { IfOk result (λ all. (lanes ≤ vec_capacity all.seats)
            × (lanes ≤ vec_capacity all.lanes)) }
    {
        Ok(Gathered {
            seats: Vec::with_capacity(alloc, lanes as usize)?,
            lanes: Vec::with_capacity(alloc, lanes as usize)?,
        })
    }
}

/// Takes the ends of the lanes 1 to `lanes` apart, which are there. Other ends are dropped.
pub(crate) fn gather<N: Naming, S: SpoolStore + Drop>(
    no: DriveNo,
    lanes: u32,
    mut ends: Vec<LaneEnd<N, S>>,
    room: Gathered<S>,
) -> Gathered<S>
    requires there { AllThere no lanes ends.items }
    requires none { (room.seats.items ≡ []) × (room.lanes.items ≡ []) }
    requires room { (lanes ≤ vec_capacity room.seats) × (lanes ≤ vec_capacity room.lanes) }
    ensures { AreTaken N.table N.time no lanes ends.items result.seats.items result.lanes.items }
{
    let Gathered {
        mut seats,
        lanes: mut settled,
    } = room;
    for at in 0..lanes {
        let EndParts {
            seat,
            store,
            sessions,
            whole: _,
        } = take_end(no, at + 1, &mut ends).into_parts();
        seats.push_reserved(seat.into_seat());
        settled.push_reserved(SettledLane { store, sessions });
    }
    Gathered {
        seats,
        lanes: settled,
    }
}

// Takes the end of this lane out of the others; it is among them.
fn take_end<N: Naming, S: SpoolStore>(
    no: DriveNo,
    lane: u32,
    ends: &mut Vec<LaneEnd<N, S>>,
) -> LaneEnd<N, S>
    requires there { IsSome (end_at no lane ends.old.items) }
    ensures end { end_at no lane ends.old.items ≡ Some result }
    ensures others { (other : ℕ) → other ≢ lane
        → end_at no other ends.new.items ≡ end_at no other ends.old.items }
{
    match index_of(no, lane, ends.as_slice()) {
        Some(at) => ends.remove(at),
        None => unreachable!(),
    }
}
