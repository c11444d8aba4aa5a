// What keeps a line from being settled once its jobs have ended.
use crate::jobs::{Case, Ran};
use sd_core::World;
use sd_drive::Receipt;
use sd_hub::{NotSettled, SettleFault, settle};
use sd_jobs::JobEnd;
use sd_line::{LaneEnd, Line, Naming};
use sd_memdrive::MemDrive;
use sd_ruled::RuledLanes;
use sd_spool::MemSpool;
use std::alloc::Global;
use std::sync::Wait;

/// The world of a settled line.
pub type Settled<R> = World<MemDrive, RuledLanes<R>, MemSpool>;

/// A line whose jobs have ended, with what is handed in beside it.
#[derive(Drop)]
pub struct Left<N: Naming, R: Wait + Drop> {
    pub line: Line<MemDrive, N, R>,
    pub ends: Vec<LaneEnd<N, MemSpool>>,
    pub receipts: Vec<Receipt>,
    /// The receipts of the line's jobs, once more.
    pub kept: Vec<Receipt>,
}

/// Why a line is not settled, with the number of the lane or of the session.
#[derive(Clone, Copy, Debug, PartialEq)]
pub enum Fault {
    MissingLane(u32),
    DoubleKey(u32),
    Unsynced(u32),
    Foreign(u32),
    Memory,
    /// Not all that was handed in came back.
    Lost,
}

impl Fault {
    fn of(fault: &SettleFault) -> Self {
        match fault {
            SettleFault::MissingLane(lane) => Fault::MissingLane(*lane),
            SettleFault::DoubleKey(key) => Fault::DoubleKey(key.id),
            SettleFault::Unsynced(key) => Fault::Unsynced(key.id),
            SettleFault::Foreign(receipt) => Fault::Foreign(receipt.key().id),
            SettleFault::Memory => Fault::Memory,
        }
    }
}

/// The next line, that of the lowest number first, with the ends and the receipts of its jobs.
pub fn next_left<N: Naming, R: Wait + Drop>(
    alloc: Global,
    case: &Case,
    ran: &mut Ran<N, R>,
) -> Option<Left<N, R>> {
    let mut left = Left {
        line: ran.lines.pop()?,
        ends: Vec::new(alloc),
        receipts: Vec::new(alloc),
        kept: Vec::new(alloc),
    };
    for _lane in 0..case.lanes {
        let end = ran.ends.pop()?;
        add_end(&mut left, end)?;
    }
    Some(left)
}

// Adds what a job came to.
fn add_end<N: Naming, R: Wait + Drop>(
    left: &mut Left<N, R>,
    end: JobEnd<N, MemSpool>,
) -> Option<()> {
    let JobEnd {
        lane_end,
        taken: _,
        receipt,
        stop: _,
    } = end;
    left.ends.push(lane_end).ok()?;
    let Some(receipt) = receipt else {
        return Some(());
    };
    let same = receipt_again(&left.line, &receipt)?;
    left.kept.push(same).ok()?;
    left.receipts.push(receipt).ok()
}

fn receipt_again<N: Naming, R: Wait + Drop>(
    line: &Line<MemDrive, N, R>,
    receipt: &Receipt,
) -> Option<Receipt> {
    let side = line.lock();
    side.drive().receipt(receipt.key(), receipt.blocks()).ok()?
}

/// Settles a line: its world; else the fault, and all that was handed in.
pub fn try_settle<N: Naming, R: Wait + Copy + Drop>(
    alloc: Global,
    left: Left<N, R>,
) -> Result<Settled<R>, (Fault, Left<N, R>)> {
    let Left {
        line,
        ends,
        receipts,
        kept,
    } = left;
    let (many_ends, many_receipts) = (ends.len(), receipts.len());
    let back = match settle(alloc, line, ends, receipts) {
        Ok(world) => return Ok(world),
        Err(back) => back,
    };
    let NotSettled {
        parts,
        ends,
        receipts,
        fault,
    } = back;
    let foreign = usize::from(matches!(&fault, SettleFault::Foreign(_)));
    let all = ends.len() == many_ends && receipts.len().wrapping_add(foreign) == many_receipts;
    let fault = if all { Fault::of(&fault) } else { Fault::Lost };
    let left = Left {
        line: Line::of_parts(parts),
        ends,
        receipts,
        kept,
    };
    Err((fault, left))
}
