//! A program for tests: jobs in threads over a folder in memory, which is stopped at many moments while they run.
//!
//! A stop is made with the drive's lock held, whatever the other threads are at. In a later run over what it left, the volumes are
//! taken over, and each session that a client was told closed before the stop is read: it has to give the records that were
//! told to be taken. What a stop leaves, and what a later run reads, is what `sd_theorem::leave_side` and `read_told_again` say.
#![tactic(auto)]

mod jobs;
mod later;
mod records;
mod stops;

use jobs::{JOBS, play};
use std::alloc::AllocError;
use std::io;

/// How often the jobs are run, each time with other records.
const RUNS: u32 = 6;

fn main(rt: HostRuntime) -> io::Result<()> {
    let (mut closed, mut read, mut wrong) = (0u32, 0u32, 0u32);
    for run in 0..RUNS {
        let Some(came) = play(rt, rt.alloc(), run) else {
            return Err(AllocError.into());
        };
        closed = closed.saturating_add(came.closed);
        read = read.saturating_add(came.read_last);
        wrong = wrong.saturating_add(came.wrong);
        let (stops, told) = (came.stops, came.told);
        eprintln!(rt; "run {run}: {stops} stops, {told} sessions told closed before one")?;
    }
    let jobs = RUNS.saturating_mul(JOBS);
    println!(rt;
        "{jobs} jobs in threads over a folder in memory: {closed} told closed, of which {read} read to their records after the last stop"
    )?;
    println!(rt; "{wrong} told closed before some stop don't read to their records after it")
}
