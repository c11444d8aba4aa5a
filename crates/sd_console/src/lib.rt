//! The console of the daemon: what an operator's line asks for, the words of the answer, and its packets. It keeps
//! which records a sink got, too, for every port of a talk.
#![tactic(auto)]

mod adopted;
mod answer;
mod commands;
mod lines;
mod reply;
mod requests;
mod status;
mod watched;

pub use adopted::AdoptedLine;
pub use answer::tell;
pub use commands::command;
pub use lines::{one_line, show};
pub use reply::{ReplyLine, reply_text};
pub use requests::requests_text;
pub use sd_script::ConsoleCmd;
pub use status::status_text;
pub use watched::{Before, WatchedSink};
