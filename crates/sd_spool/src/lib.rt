//! The spool of a session: bodies go into a store of bytes and come back in order.
#![tactic(auto)]

mod call;
mod entry;
mod file;
mod job;
mod memory;
mod opened;
mod spool_file;
mod store;

pub use call::{SpoolCall, SpoolFail};
pub use file::{FileSpool, FolderSpool, lane_files_differ};
pub use job::{JobSpool, NotCleared, PutFault};
pub use memory::MemSpool;
pub use sd_plan::When;
pub use store::{SpoolStore, SpoolStoreFault};
