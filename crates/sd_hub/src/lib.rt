//! Turns a line that no thread uses any more into a world of its one drive. Nothing of the line is lost on the way,
//! no receipt is believed unasked, and by a law that world is a state of the core. It has what a user of lines
//! needs, too.
#![tactic(auto)]

mod checked;
mod checking;
mod checks;
mod claiming;
mod ends;
mod entering;
mod fault;
mod filling;
mod gather;
mod laws;
mod leaving;
mod numbers;
mod receipts;
mod room;
mod settled;
mod settling;

pub use checked::Checked;
pub use checking::check;
pub use fault::{NotSettled, SettleFault};
pub use laws::settled_world;
pub use sd_line::{DriveWorker, Gate, LaneEnd, Line, Naming, Point, SessionPart};
pub use settled::{Settled, SettledLane};
pub use settling::settle;
