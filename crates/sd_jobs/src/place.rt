// Where the jobs of a line are done, beside its worker.
ghost use Rattle.std.specs.Prelude.{◌≡◌};
ghost use Rattle.sd_jobs.specs.Jobs.{EndsJob};

use crate::job::{Job, JobEnd};
use crate::running::run;
use crate::working::work;
use sd_driver::Driver;
use sd_line::{Gate, Line, Naming};
use sd_spool::SpoolStore;
use std::marker::Model;
use std::sync::Wait;
use std::sync::atomic::{AtomicU64, Ordering};
use std::time::Clock;

/// The place of a line's jobs. In a contract it is the number of the line's drive.
#[derive(Drop)]
pub(crate) struct LinePlace<'s, D: Driver, N: Naming, R: Wait + Drop, G> {
    pub(crate) rt: &'s R,
    pub(crate) line: &'s Line<D, N, R>,
    pub(crate) gate: &'s G,
    /// How many turns the worker and each job have.
    pub(crate) turns: u64,
    /// How many of the line's jobs have not ended.
    pub(crate) running: AtomicU64,
}

impl<'s, D: Driver, N: Naming, R: Wait + Drop, G> Model for LinePlace<'s, D, N, R, G> {
    ghost use Rattle.std.specs.Prelude.{ℕ};

    ghost Value = { ℕ };

    ghost view = { λ p. p.line.now.no };
}

impl<'s, D: Driver, N: Naming, R: Wait + Clock + Drop, G: Gate> LinePlace<'s, D, N, R, G> {
    /// The line's worker, while its jobs run.
    pub(crate) fn work(&self) {
        work(self.rt, self.line, &self.running, self.gate, self.turns);
    }

    /// Does the job, and counts it off.
    pub(crate) fn do_job<S: SpoolStore + Drop>(&self, job: Job<N, S>) -> JobEnd<N, S>
        requires { job.part.seat.no ≡ self.now }
        ensures { EndsJob job result }
    {
        let end = run(self.rt, self.line, job, self.gate, self.turns);
        self.leave_job();
        end
    }

    /// Counts one more of the line's jobs.
    pub(crate) fn add_job(&self) {
        self.running.fetch_add(1, Ordering::SeqCst);
    }

    /// Counts off a job.
    pub(crate) fn leave_job(&self) {
        self.running.fetch_sub(1, Ordering::SeqCst);
    }
}
