//! Finds which sessions are on volumes, where, whether they are whole, and what is damaged. It reads whole volumes,
//! block by block.
#![tactic(auto)]

mod behind;
mod block;
mod chain;
mod due;
mod expected;
mod fault;
mod folder;
mod fragment;
mod indexes;
mod json;
mod kind;
mod labels;
mod line;
mod moment;
mod notes;
mod order;
mod outcome;
mod print;
mod report;
mod run;
mod search;
mod session;
mod sessions;
mod start;
mod told;
mod verify;
mod volumes;
mod write;

pub use block::FoundBlock;
pub use chain::{BlocksEnd, Chain, Fit};
pub use fault::ScanFault;
pub use folder::{scan_folder, scan_named};
pub use indexes::{Indexes, indexes_in};
pub use kind::Kind;
pub use line::ScanLine;
pub use moment::Moment;
pub use notes::NoteFolder;
pub use outcome::Outcome;
pub use report::{Report, Start};
pub use search::{Whole, next_whole};
pub use sessions::Sessions;
pub use start::start_label_in;
pub use told::{Told, ToldLine};
pub use verify::verify_folder;
pub use volumes::{Scanned, scan};
pub use write::{TextFolder, TextLine};
