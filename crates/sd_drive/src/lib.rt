//! A drive: its device, its volumes, one piece in hand, and the journal of the blocks that it placed (as: Bacula
//! Main manual, storage daemon).
#![tactic(auto)]

mod adopt;
mod drive;
mod label;
mod limits;
mod mount;
mod place;
mod purge;
mod read;
mod receipt;
mod sync;

pub use adopt::Adopted;
pub use drive::{Drive, NotMade};
pub use limits::Limits;
pub use place::Placed;
pub use receipt::Receipt;
