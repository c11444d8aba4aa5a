//! Collects the records that are whole in the bodies of a session of which some are lost.
#![tactic(auto)]

mod body;
mod collector;
mod due;
mod laws;
mod sink;

pub use body::take_body;
pub use collector::Collector;
pub use due::Due;
pub use laws::{session_is_whole, whole_are_one_list};
pub use sink::Salvaged;
