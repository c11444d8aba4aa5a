//! The operator's desk: where each volume is, which one a drive takes next, and which drives asked for one (as:
//! Bacula Main manual, storage daemon, volume requests).
#![tactic(auto)]

mod claim;
mod desk;
mod next;
mod request;

pub use desk::{ClaimFault, Desk};
pub use next::next_volume;
pub use request::Request;
