//! A folder in memory, with a plan of calls that fail, names and bytes that last only once they are synced, and a record
//! of what a stop left at each moment.
#![tactic(auto)]

mod call;
mod files;
mod folder;
mod left;
mod stored;

pub use call::{Call, Fail};
pub use folder::{MemoryFile, MemoryFolder};
