//! Which drive takes a new session, and which lane of it (as: Bacula Main manual, storage daemon, reservation of
//! drives).
#![tactic(auto)]

mod drive;
mod lane;

pub use drive::{DriveView, ReserveFault, reserve};
pub use lane::lowest_free_lane;
