// The thread of a job.
ghost use Rattle.std.specs.Prelude.{◌≡◌};
ghost use Rattle.sd_jobs.specs.Jobs.{EndsJob};

use crate::job::{Job, JobEnd};
use crate::place::LinePlace;
use crate::running::give_up;
use crate::sends::{end_sends, job_sends};
use sd_driver::Driver;
use sd_line::{Gate, Naming};
use sd_spool::SpoolStore;
use std::marker::Model;
use std::snapshot::Snapshot;
use std::sync::Wait;
use std::sync::atomic::{AtomicU64, Ordering};
use std::thread::{Promise, PromisedHandle, Scope, SpawnError, Threads};
use std::time::Clock;

/// That a thread does this job.
#[derive(Drop)]
pub(crate) struct JobDid<N: Naming, S: SpoolStore>(Snapshot<Job<N, S>>);

impl<N: Naming, S: SpoolStore> Promise<JobEnd<N, S>> for JobDid<N, S> {
    ghost use Rattle.sd_jobs.specs.Jobs.{EndsJob};

    ghost kept_by = { λ p end. EndsJob p.0.value end };
}

/// A job that was started: its thread; or what it came to, if none could be made. In a contract it is the job.
#[derive(Drop)]
pub(crate) struct Started<N: Naming, S: SpoolStore> {
    job: Snapshot<Job<N, S>>,
    thread: Result<PromisedHandle<JobEnd<N, S>, JobDid<N, S>>, JobEnd<N, S>>,
}

impl<N: Naming, S: SpoolStore> Model for Started<N, S> {
    ghost use Rattle.std.specs.Prelude.{◌≡◌, MatchResult};
    ghost use Rattle.sd_jobs.specs.Jobs.{JobIs, EndsJob};

    ghost Value = { JobIs };

    ghost view = { λ s. s.job.value };

    ghost invariant = { λ s. MatchResult s.thread (λ h. h.promise.0.value ≡ s.job.value)
        (λ end. EndsJob s.job.value end) };
}

/// Starts a thread for the job, in which it is done. If no thread can be made, it is given up here; its number, which
/// no other job has, is written down for that.
pub(crate) fn start<
    's,
    E,
    D: Driver + 's,
    N: Naming + Send + Sync + 's,
    R: Wait + Clock + Sync + Drop + 's,
    S: SpoolStore + Send + Drop + 's,
    G: Gate + 's,
>(
    scope: &Scope<'s, E>,
    place: &'s LinePlace<'s, D, N, R, G>,
    refused: &'s AtomicU64,
    number: u64,
    job: Job<N, S>,
) -> Started<N, S>
    requires { job.part.seat.no ≡ place.now }
    ensures { result ≡ job }
{
    job_sends::<N, S>();
    end_sends::<N, S>();
    let kept = Snapshot::of(&job);
    let promise = JobDid(Snapshot::of(&job));
    let run = move || -> JobEnd<N, S>
        requires { job.part.seat.no ≡ place.now }
        ensures { EndsJob job result }
    {
        if refused.load(Ordering::SeqCst) == number {
            place.leave_job();
            give_up(job)
        } else {
            place.do_job(job)
        }
    };
    let thread = match scope.spawn_with(promise, run) {
        Ok(handle) => Ok(handle),
        Err(SpawnError { value }) => {
            refused.store(number, Ordering::SeqCst);
            Err(value())
        }
    };
    Started { job: kept, thread }
}

/// What the job came to, once its thread has ended.
pub(crate) fn join<N: Naming, S: SpoolStore, R: Threads>(
    rt: &R,
    started: Started<N, S>,
) -> JobEnd<N, S>
    ensures { EndsJob started result }
{
    let Started { job: _, thread } = started;
    match thread {
        Ok(handle) => handle.join(rt),
        Err(end) => end,
    }
}
