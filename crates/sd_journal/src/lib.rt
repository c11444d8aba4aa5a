//! The journal of a drive: which blocks it placed where, and which of them are synced. They are in the order in
//! which they were noted, and counted for each session.
#![tactic(auto)]

mod cells;
mod counts;
mod journal;
mod laws;
mod lying;
mod mark;
mod names;
mod noted;
mod share;
mod shares;
mod stretch;
mod told;

pub use counts::Counts;
pub use journal::Journal;
pub use laws::{noting_appends, purging_marks, settling_marks, synced_within_placed, syncs_fail};
pub use mark::Mark;
