//! Takes the records of a session out of the bodies of its blocks (as: Bacula Developer's Guide, storage media
//! output format).
#![tactic(auto)]

mod batch;
mod damage;
mod fragments;
mod laws;
mod stage;
mod unpacker;

pub use damage::{AddFault, Damage};
pub use laws::{cutting_is_unpacked, unpacked_are_whole};
pub use unpacker::Unpacker;
