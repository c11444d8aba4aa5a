//! Packs a session's labels and records into the bodies of blocks (as: Bacula Developer's Guide, storage media
//! output format).
#![tactic(auto)]

mod body;
mod frame;
mod laws;
mod open_body;
mod packer;
mod record_parts;

pub use body::Body;
pub use laws::packed_bodies_hold;
pub use packer::Packer;
