// Whether a line may be settled, and what keeps it from being.
ghost use Rattle.std.specs.Prelude.{◌≡◌, ◌≤◌, [], List, IfErr, IfNone, IfOk, IfSome};
ghost use Rattle.std.specs.Vec.{vec_capacity};
ghost use Rattle.sd_drive.specs.Receipt.{ReceiptIs};
ghost use Rattle.sd_line.specs.Side.{LineIs};
ghost use Rattle.sd_hub.specs.Settles.{FaultOf, HasSynced, Passes, SettlesNot, checked_of, line_of};

use crate::checked::Checked;
use crate::checks::{double_key, unsynced};
use crate::ends::missing_lane;
use crate::fault::{NotSettled, SettleFault};
use crate::gather::Gathered;
use crate::receipts::foreign;
use sd_base::DriveNo;
use sd_drive::Receipt;
use sd_driver::Driver;
use sd_line::{DriveSide, LaneEnd, Line, Naming};
use sd_spool::SpoolStore;
use std::alloc::Global;
use std::sync::Wait;

/// Looks whether a line may be settled. The end of each lane has to be there, no two sessions may have one key, of a closed
/// session all that it sent has to be placed and synced, and each receipt has to be one that the drive gives; the first
/// of these faults, in this order, is answered, and all that was handed in comes back with it. Out of memory comes
/// after the first three. Ends of other drives, a second one of a lane, and ones that forgot sessions count as absent.
pub fn check<D: Driver, N: Naming, R: Wait + Drop, S: SpoolStore + Drop>(
    alloc: Global,
    line: Line<D, N, R>,
    ends: Vec<LaneEnd<N, S>>,
    mut receipts: Vec<Receipt>,
) -> Result<Checked<D, N, R, S>, NotSettled<D, N, R, S>>
    ensures ok { IfOk result (λ c. (c.line ≡ line) × (c.ends ≡ ends.items)
        × (c.receipts ≡ receipts.items)) }
    ensures err { IfErr result (λ back. (line_of back.parts.no back.parts.media back.parts.limits back.parts.queue ≡ line)
        × (back.ends.items ≡ ends.items) × SettlesNot (λ d. D.meaning d) N.table N.time line back.parts.side
        ends.items receipts.items back.fault back.receipts.items) }
{
    let parts = line.into_parts();
    parts.side.know();
    match look(alloc, parts.no, &parts.side, ends.as_slice(), &mut receipts) {
        Ok(room) => Ok(Checked {
            parts,
            ends,
            receipts,
            room,
        }),
        Err(fault) => Err(NotSettled {
            parts,
            ends,
            receipts,
            fault,
        }),
    }
}

// The first fault of a line of this number; else there is room for what it is taken apart into. A receipt that is foreign is
// taken out of the others.
fn look<D: Driver, N: Naming, S: SpoolStore + Drop>(
    alloc: Global,
    no: DriveNo,
    side: &DriveSide<D, N>,
    ends: &[LaneEnd<N, S>],
    receipts: &mut Vec<Receipt>,
) -> Result<Gathered<S>, SettleFault>
    ensures passes { IfOk result (λ _. (line : LineIs) → line.no ≡ no
        → Passes (checked_of line side.now ends.now receipts.old.items)) }
    ensures same { IfOk result (λ _. receipts.new.items ≡ receipts.old.items) }
    ensures none { IfOk result (λ all. (all.seats.items ≡ []) × (all.lanes.items ≡ [])) }
    ensures room { IfOk result (λ all. (side.now.seat.lanes ≤ vec_capacity all.seats)
        × (side.now.seat.lanes ≤ vec_capacity all.lanes)) }
    ensures fault { IfErr result (λ fault. (line : LineIs) → line.no ≡ no → FaultOf
        (checked_of line side.now ends.now receipts.old.items) fault receipts.new.items) }
{
    if let Some(fault) = fault_of_lanes(no, side, ends) {
        return Err(fault);
    }
    let Ok(room) = Gathered::with_room(alloc, side.lanes()) else {
        return Err(SettleFault::Memory);
    };
    let Ok(found) = foreign(side.drive(), receipts.as_slice()) else {
        return Err(SettleFault::Memory);
    };
    match found {
        Some(at) => Err(SettleFault::Foreign(receipts.remove(at))),
        None => Ok(room),
    }
}

// The first fault of the lanes and of their sessions, whatever receipts there are.
fn fault_of_lanes<D: Driver, N: Naming, S: SpoolStore + Drop>(
    no: DriveNo,
    side: &DriveSide<D, N>,
    ends: &[LaneEnd<N, S>],
) -> Option<SettleFault>
    ensures fault { IfSome result (λ fault. (line : LineIs) (receipts : List ReceiptIs) → line.no ≡ no
        → FaultOf (checked_of line side.now ends.now receipts) fault receipts) }
    ensures none { IfNone result ((line : LineIs) (receipts : List ReceiptIs) → line.no ≡ no
        → HasSynced (checked_of line side.now ends.now receipts)) }
{
    let lanes = side.lanes();
    let own = side.no().get();
    let wanted = no.get();
    if own != wanted {
        return Some(SettleFault::MissingLane(1));
    }
    if let Some(lane) = missing_lane(no, lanes, ends) {
        return Some(SettleFault::MissingLane(lane));
    }
    if let Some(key) = double_key(no, lanes, ends) {
        return Some(SettleFault::DoubleKey(key));
    }
    if let Some(key) = unsynced(side.drive(), no, lanes, ends) {
        return Some(SettleFault::Unsynced(key));
    }
    None
}
