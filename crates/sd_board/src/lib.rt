//! What is under the lock of a daemon's desk: the desk, unused lanes' ends, and the numbers of sessions, with a line for
//! each. None of its calls touches a device (as: Bacula Main manual, storage daemon, reservation of drives).
#![tactic(auto)]

mod adding;
mod board;
mod choosing;
mod desking;
mod finding;
mod lanes;
mod leaving;
mod lines;
mod names;
mod opening;
mod place;
mod posted;
mod posting;
mod resting;
mod seen;
mod sends;
mod sent;
mod slot;

pub use adding::NotAdded;
pub use board::Board;
pub use lines::Numbered;
pub use names::{Claiming, VolumePlace};
pub use opening::Chosen;
pub use posted::Posted;
pub use seen::DriveSeen;
pub use sends::board_sends;
pub use sent::Sent;
