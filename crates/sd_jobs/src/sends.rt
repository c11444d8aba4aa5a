// That a job and what it came to may go to another thread, for the proofs of who sends them: beside all else that a thread
// is lent, the prover doesn't find it.
ghost use Rattle.std.specs.Thread.{IsSend};
ghost use Rattle.sd_jobs.specs.contracts.job.Job as job;
ghost use Rattle.sd_jobs.specs.contracts.job.JobEnd as job_end;

use crate::job::{Job, JobEnd};
use sd_line::Naming;
use sd_spool::SpoolStore;

// Values of the type may.
fn sends<T: Send>()
    ensures { IsSend T.row }
{}

/// A job may. Does nothing.
pub(crate) fn job_sends<N: Naming + Send, S: SpoolStore + Send>()
    ensures { IsSend (job.the_row N.row S.row N.Naming S.SpoolStore) }
{
    sends::<Job<N, S>>();
}

/// What a job came to may. Does nothing.
pub(crate) fn end_sends<N: Naming + Send, S: SpoolStore + Send>()
    ensures { IsSend (job_end.the_row N.row S.row N.Naming S.SpoolStore) }
{
    sends::<JobEnd<N, S>>();
}
