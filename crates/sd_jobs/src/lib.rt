//! Jobs in threads of their own, and a worker for each line. A job gives records to the part of a session until
//! that is closed; a worker places what they send.
#![tactic(auto)]

mod adding;
mod finishing;
mod job;
mod jobs;
mod place;
mod running;
mod sends;
mod starting;
mod steps;
mod working;

pub use job::{Job, JobEnd};
pub use jobs::{have_lines, run_jobs};
pub use sd_line::Stop;
