// What comes back of a job.
use sd_base::{Rec, Refusal, SessionKey};
use sd_core::ReadEnd;
use sd_line::Stop;

/// What the session of a key was read to, and how the read ended.
#[derive(Drop)]
pub struct ReadBack {
    pub key: SessionKey,
    pub end: Result<ReadEnd, Refusal>,
    pub recs: Vec<Rec>,
}

/// What comes back of a job.
#[derive(Drop)]
pub struct JobBack {
    pub stop: Stop,
    /// How many of its records were taken.
    pub taken: u64,
    /// Whether its session spools.
    pub spools: bool,
    /// There exactly if the job is done.
    pub read: Option<ReadBack>,
}
