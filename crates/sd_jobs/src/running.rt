// A job from its first step to its last.
ghost use Rattle.std.specs.Prelude.{◌≡◌};
ghost use Rattle.sd_jobs.specs.Jobs.{EndsJob};
ghost use Rattle.sd_line.specs.Parts.{end_of};

use crate::adding::add_all;
use crate::finishing::finish;
use crate::job::{Job, JobEnd};
use sd_drive::Receipt;
use sd_driver::Driver;
use sd_line::{Gate, Line, Naming, SessionPart, Stop};
use sd_spool::SpoolStore;
use std::sync::Wait;
use std::time::Clock;

/// Does the job, in at most so many turns.
pub(crate) fn run<D: Driver, N: Naming, R: Wait + Clock + Drop, S: SpoolStore + Drop, G: Gate>(
    rt: &R,
    line: &Line<D, N, R>,
    job: Job<N, S>,
    gate: &G,
    turns: u64,
) -> JobEnd<N, S>
    requires { job.part.seat.no ≡ line.now.no }
    ensures { EndsJob job result }
{
    let Job {
        line: _,
        mut part,
        recs,
        moment,
    } = job;
    let mut left = turns;
    let (taken, stopped) = add_all(rt, line, &mut part, &recs, gate, &mut left);
    match stopped {
        Some(stop) => end(part, taken, None, stop),
        None => match finish(rt, line, &mut part, moment, gate, &mut left) {
            Ok(receipt) => end(part, taken, Some(receipt), Stop::Done),
            Err(stop) => end(part, taken, None, stop),
        },
    }
}

// What a job came to, whose part is left.
fn end<N: Naming, S: SpoolStore + Drop>(
    part: SessionPart<N, S>,
    taken: usize,
    receipt: Option<Receipt>,
    stop: Stop,
) -> JobEnd<N, S>
    ensures { result ≡ record {
      lane_end = end_of part;
      taken = taken;
      receipt = receipt;
      stop = stop;
    } }
{
    JobEnd {
        lane_end: part.leave(),
        taken: taken as u64,
        receipt,
        stop,
    }
}

/// Gives up a job for which there is no thread: its session is cancelled.
pub(crate) fn give_up<N: Naming, S: SpoolStore + Drop>(job: Job<N, S>) -> JobEnd<N, S>
    ensures { EndsJob job result }
{
    let Job {
        line: _,
        mut part,
        recs: _,
        moment: _,
    } = job;
    let _ = part.cancel();
    end(part, 0, None, Stop::NoThread)
}
