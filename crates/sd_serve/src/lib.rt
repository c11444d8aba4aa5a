//! Takes connections, holds a talk for each in a thread of its own, and writes the log. It has the time of a run,
//! and the moments of talks, by the clock.
#![tactic(auto)]

mod client;
mod clock;
mod connection;
mod connection_table;
mod connections;
mod fault;
mod heard;
mod listener;
mod log;
mod log_line;
mod logged;
mod naming_line;
mod server;
mod shown;
mod talk;

pub use client::ClientPatience;
pub use clock::{moment_now, moment_of, since_1970, time_of};
pub use connection_table::{ConnectionTable, MOST_OPEN, OpenConnection, Seat};
pub use connections::{ConnectionFigures, Connections, Holder};
pub use fault::FaultPlace;
pub use listener::{Listening, QUIET_SECONDS};
pub use log::Log;
pub use log_line::{LogLine, TakenAmount};
pub use logged::LoggedPort;
pub use naming_line::NamingAct;
pub use server::{Serving, TalkHolder, serve_each};
pub use shown::{NoFolder, ShownPath, UnheededNote};
pub use talk::{TURNS, hold_talk};
