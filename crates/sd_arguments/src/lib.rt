//! The programs' command lines, and the exit status of those that ask for help or are wrong.
#![tactic(auto)]

mod adopting;
mod arguments;
mod building;
mod daemon;
mod misuse;
mod status;
mod tool;

pub use daemon::{DaemonTask, Serving, daemon_task};
pub use status::status_of;
pub use tool::{ToolTask, tool_task};
