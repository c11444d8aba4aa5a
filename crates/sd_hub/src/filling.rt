// What the world of a settled line is made of.
ghost use Rattle.std.specs.Prelude.{◌≡◌, ◌≤◌, ◌<◌, List, [], length};
ghost use Rattle.std.specs.Vec.{vec_capacity};
ghost use Rattle.sd_hub.specs.Claimed.{AreClaimed, ClaimsOwn};
ghost use Rattle.sd_hub.specs.Tickets.{LanesHaveTickets};
ghost use Rattle.sd_line.specs.Ends.{ToldSession};
ghost use Rattle.sd_events.specs.View.{world_of};
ghost use Rattle.sd_hub.specs.Worlds.{BecomesWorld, lane_sessions};

use crate::entering::enter_all;
use crate::leaving::leave_lanes;
use crate::numbers::{next_number, sorted};
use crate::room::Room;
use crate::settled::Settled;
use sd_driver::Driver;
use sd_events::{Bay, Parts};
use sd_ruled::RuledLanes;
use sd_spool::SpoolStore;
use std::alloc::Global;
use std::sync::Wait;

/// The parts of the world of a settled line, for which there is room. Takes no memory.
pub(crate) fn world_parts<D: Driver, R: Wait + Copy + Drop, S: SpoolStore + Drop>(
    alloc: Global,
    settled: Settled<D, R, S>,
    room: Room<D, R, S>,
) -> Parts<D, RuledLanes<R>, S>
    requires tickets { LanesHaveTickets settled.lanes }
    requires told { (room.told.items ≡ [])
        × (length (lane_sessions settled.lanes) ≤ vec_capacity room.told) }
    requires entries { (room.entries.items ≡ [])
        × (length (lane_sessions settled.lanes) ≤ vec_capacity room.entries) }
    requires slots { (room.slots.items ≡ []) × (length settled.lanes ≤ vec_capacity room.slots) }
    requires bays { (room.bays.items ≡ []) × (0 < vec_capacity room.bays) }
    requires claimed { AreClaimed settled.drive.volumes room.desk }
    ensures becomes { (told : List ToldSession) × BecomesWorld settled told (world_of result) }
    ensures claimed { ClaimsOwn (world_of result) }
{
    let Room {
        mut told,
        mut entries,
        mut slots,
        mut bays,
        desk,
    } = room;
    let Settled {
        drive,
        queue,
        lanes,
    } = settled;
    leave_lanes(lanes, &mut told, &mut slots);
    let sessions = sorted(told);
    let next = next_number(&sessions);
    enter_all(&drive, sessions, &mut entries);
    let limits = drive.limits().copy();
    let capacity = queue.capacity();
    let media = drive.media().copy();
    bays.push_reserved(Bay {
        media,
        drive: Some(drive),
        lanes: slots,
        queue,
    });
    Parts {
        alloc,
        limits,
        queue: capacity,
        next,
        sessions: entries,
        bays,
        desk,
    }
}
