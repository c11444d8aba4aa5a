//! One session: its records become bodies, which go through its spool, if it has one, to the queue before its drive
//! (as: Bacula Developer's Guide, storage daemon; Main manual, data spooling).
#![tactic(auto)]

mod answer;
mod dropping;
mod opening;
mod sending;
mod session;
mod spooling;
mod status;

pub use answer::{Despooled, Spooling};
pub use opening::{NotOpened, Opening};
pub use session::Session;
pub use status::Status;
