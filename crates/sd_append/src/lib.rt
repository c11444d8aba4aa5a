//! The conversation of a client with the daemon: packets in, events to a port, packets out (as: Bacula
//! Developer's Guide, daemon protocol; the words of commands, headers and replies are this daemon's own).
#![tactic(auto)]

mod answers;
mod command;
mod conversation;
mod data;
mod end;
mod exchanges;
mod granted;
mod header;
mod laws;
mod line;
mod number;
mod obey;
mod outbox;
mod port;
mod read;
mod reading;
mod shown;
mod signal;
mod spans;
mod stage;
mod standing;
mod take;
mod text;
mod turn;

pub use command::{Command, CommandFault};
pub use conversation::{READ_BYTES, Talked, talk};
pub use end::TalkEnd;
pub use exchanges::Exchanges;
pub use header::{Header, read_header};
pub use laws::{appended_is_taken, replies_answer_turns, sessions_are_over};
pub use line::ReplyLine;
pub use port::{ReadBack, SessionPort};
pub use read::read_command;
pub use shown::Shown;
