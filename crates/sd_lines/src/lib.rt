//! The port of a talk in the daemon, over drives that all talks share. Each talk is in a thread of its own.
#![tactic(auto)]

mod adding;
mod adopting;
mod amount;
mod answers;
mod arrivals;
mod claiming;
mod console;
mod counted;
mod figures;
mod front;
mod held;
mod hub;
mod labelling;
mod laws;
mod notes;
mod noting;
mod numbering;
mod opening;
mod over;
mod port;
mod ports;
mod reading;
mod receipts;
mod shared;
mod standings;
mod status;
mod tally;
mod unused;
mod working;

pub use adding::AddFault;
pub use amount::{Amount, AmountCounter};
pub use answers::{AnswerCounter, RefusedJobs, Tries, TryCounter};
pub use figures::{DriveFigures, Figures};
pub use front::Front;
pub use hub::{Hub, Post};
pub use laws::replies_are_allowed;
pub use notes::{Notes, Taken};
pub use over::EndedSession;
pub use port::LinePort;
pub use receipts::Receipts;
pub use shared::shares_hub;
pub use standings::Standings;
pub use tally::{Tally, VolumeFaults};
pub use unused::UnusedDrive;
