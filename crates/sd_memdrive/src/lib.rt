//! A device in memory, with a plan of calls that fail and a log of changes from which a stop is made.
#![tactic(auto)]

mod change_log;
mod drive;
mod stop;
mod store;
mod stored;

pub use drive::MemDrive;
pub use sd_plan::{Call, DriveFail as Fail, When};
