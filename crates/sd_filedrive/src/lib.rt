//! A device that is a folder of files: each volume is a file of its name.
//!
//! It is honest exactly if its folder is (`sd_folder`; docs/engineering/FILES.md). Whatever the folder is, its calls are safe,
//! its failures are counted, and the loaded name and the count of its `NoRoom` answers are exact.
#![tactic(auto)]

mod drive;
mod files;
mod steps;
mod tally;
mod volumes;

pub use drive::{FileDrive, FolderDrive};
