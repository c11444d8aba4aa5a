// A line is settled.
ghost use Rattle.std.specs.Prelude.{◌≡◌, ◌≤◌, ◌<◌, [], IfErr, IfOk, length};
ghost use Rattle.std.specs.Vec.{vec_capacity};
ghost use Rattle.sd_base.specs.Limits.{most_lanes};
ghost use Rattle.sd_hub.specs.Claimed.{AreClaimed, ClaimsOwn};
ghost use Rattle.sd_hub.specs.Machines.{MatchesTold};
ghost use Rattle.sd_hub.specs.Settles.{SettlesNot, line_of, sessions_of};
ghost use Rattle.sd_hub.specs.Worlds.{IsSettledFrom};
ghost use Rattle.sd_world.specs.Steps.{IsSound};

use crate::checked::Checked;
use crate::checking::check;
use crate::fault::NotSettled;
use crate::filling::world_parts;
use crate::room::Room;
use sd_core::World;
use sd_drive::Receipt;
use sd_driver::Driver;
use sd_line::{LaneEnd, Line, Naming};
use sd_ruled::RuledLanes;
use sd_spool::SpoolStore;
use std::alloc::{AllocError, Global};
use std::sync::Wait;

/// A world of the one drive of a line that no thread uses any more, numbered 1: with the pieces that are still on their way,
/// and with the sessions of its lanes, which go on there. One that goes on while the drive lost a block of it has failed.
/// The next session's number is one above the greatest of them; 1 if there is none.
///
/// The end of each lane has to be there, no two sessions may have one key, of a closed session all that it sent has to be
/// placed and synced, and each receipt has to be one that the drive gives; the first of these faults, in this order, is
/// answered, and all that was handed in comes back with it. Out of memory comes after the first three. Ends of other
/// drives, a second one of a lane, and ones that forgot sessions count as absent; if the line is settled, they are dropped.
pub fn settle<D: Driver + Drop, N: Naming, R: Wait + Copy + Drop, S: SpoolStore + Drop>(
    alloc: Global,
    line: Line<D, N, R>,
    ends: Vec<LaneEnd<N, S>>,
    receipts: Vec<Receipt>,
) -> Result<World<D, RuledLanes<R>, S>, NotSettled<D, N, R, S>>
    ensures settled { IfOk result (λ w. IsSettledFrom (λ d. D.meaning d) N.table N.time line
        ends.items receipts.items w) }
    ensures matches { IfOk result (λ w. MatchesTold (λ d. D.meaning d) N.table N.time line
        ends.items receipts.items w) }
    ensures claimed { IfOk result (λ w. ClaimsOwn w) }
    ensures sound { IfOk result (λ w. IsSound (λ d. D.meaning d) w) }
    ensures err { IfErr result (λ back. (line_of back.parts.no back.parts.media back.parts.limits back.parts.queue ≡ line)
        × (back.ends.items ≡ ends.items) × SettlesNot (λ d. D.meaning d) N.table N.time line back.parts.side
        ends.items receipts.items back.fault back.receipts.items) }
{
    match check(alloc, line, ends, receipts) {
        Ok(checked) => match Room::with_desk(alloc, &checked) {
            Ok(room) => Ok(make_world(alloc, checked, room)),
            Err(AllocError) => Err(checked.give_back()),
        },
        Err(back) => Err(back),
    }
}

// The world of a line that may be settled. Takes no memory.
fn make_world<D: Driver + Drop, N: Naming, R: Wait + Copy + Drop, S: SpoolStore + Drop>(
    alloc: Global,
    checked: Checked<D, N, R, S>,
    room: Room<D, R, S>,
) -> World<D, RuledLanes<R>, S>
    requires told { (room.told.items ≡ [])
        × (length (sessions_of checked) ≤ vec_capacity room.told) }
    requires entries { (room.entries.items ≡ [])
        × (length (sessions_of checked) ≤ vec_capacity room.entries) }
    requires slots { (room.slots.items ≡ []) × (most_lanes ≤ vec_capacity room.slots) }
    requires bays { (room.bays.items ≡ []) × (0 < vec_capacity room.bays) }
    requires claimed { AreClaimed checked.side.drive.volumes room.desk }
    ensures matches { MatchesTold (λ d. D.meaning d) N.table N.time checked.line checked.ends
        checked.receipts result }
    ensures claimed { ClaimsOwn result }
    ensures sound { IsSound (λ d. D.meaning d) result }
{
    let settled = checked.take_apart();
    settled.drive.know();
    World::of_parts(world_parts(alloc, settled, room))
}
