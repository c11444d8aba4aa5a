//! Jobs in threads, the settling of their line and the reading of what they closed, in one: what was taken comes back.
#![tactic(auto)]

mod alone;
mod asked;
mod back;
mod handing;
mod laws;
mod reading;
mod returned;
#[cfg(test)]
mod trial;

pub use back::{JobBack, ReadBack};
pub use laws::{lists_are_read, reading_keeps_lists, settled_jobs_read};
pub use returned::jobs_come_back;
