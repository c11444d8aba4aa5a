//! A queue before a drive that threads share without a lock. Each lane pushes by a seat of its own, and the drive
//! takes by its seat.
#![tactic(auto)]

mod lane_ref;
mod rule;
mod ruled;
mod seats;
mod split;

pub use lane_ref::LaneRef;
pub use ruled::RuledLanes;
pub use seats::{DriveSeat, LaneQueue, LaneSeat};
pub use split::{NotSplit, Split};
