//! The notes of volumes as files: beside each volume, in its folder, one with a `~` after its name.
//!
//! What the system does with a file can't be known. So it is said here where a note lies, what is written there and what
//! its bytes mean, and that volumes are listed in their order.
#![tactic(auto)]

mod key;
mod listing;
mod order;
mod path;
mod reading;
mod writing;

pub use listing::{Listing, list_folder};
pub use reading::{NoteRead, load_note};
pub use writing::{remove_note, store_note};
