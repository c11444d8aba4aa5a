//! The queue before a drive, which brings it the closed bodies of its sessions in order (as: Bacula Developer's
//! Guide, storage daemon).
#![tactic(auto)]

mod lane;
mod piece;
mod plain;

pub use lane::{Lane, Lanes};
pub use piece::{Piece, Queued};
pub use plain::PlainLanes;
