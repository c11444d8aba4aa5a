//! The file system as this daemon uses it: one folder, the files in it, and what a stop leaves of them.
//!
//! The trait says what each call does in a folder that is honest: docs/engineering/FILES.md has these promises beside
//! Linux's manual, and says where they promise more. `SystemFolder` hands each call on to the system and claims nothing.
#![tactic(auto)]

mod folder;
mod system;

pub use folder::{Access, Folder, FolderFault};
pub use system::{SystemFile, SystemFolder};
