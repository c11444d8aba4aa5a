//! The list machine: what the daemon is to its clients. Its sessions only append records to their own lists; it has
//! no blocks, volumes, drives, spools or queues (as: Bacula Developer's Guide, daemon protocol).
#![tactic(auto)]

mod event;
mod laws;
mod reply;
mod view;

pub use event::Event;
pub use laws::{closed_keep_their_records, closed_keep_their_status};
pub use reply::Reply;
pub use view::{DriveLine, Loaded, SessionLine, View, VolumeLine};
