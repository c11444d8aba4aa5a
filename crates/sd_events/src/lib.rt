//! What an event does to the parts of a world: its sessions, its drives with their lanes and queues, the desk, and the
//! next number (as: Bacula Developer's Guide, storage daemon).
#![tactic(auto)]

mod adopting;
mod bay;
mod choosing;
mod closing;
mod entry;
mod labelling;
mod lanes;
mod losing;
mod mounting;
mod opening;
mod operating;
mod parts;
mod place;
mod placing;
mod purging;
mod records;
mod retiring;
mod seeking;
mod sending;
mod starting;
mod syncing;
mod taking;

pub use bay::{Bay, LaneSlot};
pub use closing::{close, media};
pub use entry::{SessionEntry, find};
pub use lanes::{free_lanes, is_done};
pub use opening::open;
pub use operating::{operate, operate_noted};
pub use parts::Parts;
pub use place::online;
pub use purging::purge;
pub use records::{append, cancel, end, spool};
pub use retiring::retire;
pub use sending::despool;
