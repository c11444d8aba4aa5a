// Why a line is not settled.
use sd_base::SessionKey;
use sd_drive::Receipt;
use sd_driver::Driver;
use sd_line::{LaneEnd, LineParts, Naming};
use sd_spool::SpoolStore;
use std::sync::Wait;

/// Why a line is not settled.
#[derive(Drop)]
pub enum SettleFault {
    /// The end of this lane is not there, or forgot sessions; those of the lanes before it are there. It is one of the lanes that
    /// the queue has.
    MissingLane(u32),
    /// Two sessions of the lanes have this key.
    DoubleKey(SessionKey),
    /// The session of this key is closed, and not all that it sent is placed and synced, or more is.
    Unsynced(SessionKey),
    /// The drive doesn't give this receipt.
    Foreign(Receipt),
    /// Out of memory.
    Memory,
}

/// A line that is not settled, taken apart, with all else that was handed in, and why: of just these parts the fault was
/// found. `Line::of_parts` makes the line of them again. A receipt that is foreign is in the fault.
#[derive(Drop)]
pub struct NotSettled<D: Driver, N: Naming, R: Wait + Drop, S: SpoolStore> {
    pub parts: LineParts<D, N, R>,
    pub ends: Vec<LaneEnd<N, S>>,
    pub receipts: Vec<Receipt>,
    pub fault: SettleFault,
}
