//! The core of the storage daemon: a world of sessions and drives, changed by one event at a time. What a session
//! was told is taken comes back, once and in order (as: Bacula Developer's Guide, storage daemon). A round moves all
//! that is on its way one step on.
#![tactic(auto)]

mod conf;
mod drivers;
mod events;
mod headway;
mod kept;
mod listing;
mod new_bays;
mod new_drives;
mod reading;
mod rounds;
mod sending;
mod status;
mod tries;
mod turns;
mod world;

pub use conf::{NotMade, WorldConf};
pub use headway::Round;
pub use rounds::{drain, round};
pub use sd_machine::{DriveLine, Event, Loaded, Reply, SessionLine, View, VolumeLine};
pub use sd_readback::{ReadEnd, Sink};
pub use sd_session::Status;
pub use sd_span::Span;
pub use tries::answer;
pub use world::World;
