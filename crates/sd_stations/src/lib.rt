//! How a drive's worker and the talks wait for one another, and the session that a talk goes on with there.
#![tactic(auto)]

mod closing;
mod live;
mod meter;
mod patience;
mod row;
mod sending;
mod station;
mod status;
mod watch;

pub use closing::Shut;
pub use live::Live;
pub use meter::Metered;
pub use patience::Patience;
pub use row::{Extent, VolumeRow};
pub use station::{Station, Worked};
pub use watch::{Backlog, Moves, Waited};
