// What a thread is to do with the part of a session, and what it came to.
use sd_base::Rec;
use sd_drive::Receipt;
use sd_line::{LaneEnd, Naming, SessionPart, Stop};
use sd_spool::SpoolStore;
use std::marker::Model;

/// What a thread is to do: to give these records to the part, to end its session, and to close it. In a contract it is a
/// `JobIs`.
#[derive(Drop)]
pub struct Job<N: Naming, S: SpoolStore> {
    /// The place of the part's line among the lines.
    pub line: usize,
    pub part: SessionPart<N, S>,
    pub recs: Vec<Rec>,
    /// The moment of the session's end label.
    pub moment: i64,
}

impl<N: Naming, S: SpoolStore> Model for Job<N, S> {
    ghost use Rattle.sd_jobs.specs.Jobs.{JobIs};

    ghost Value = { JobIs };

    ghost view = { λ j. record {
      line = j.line;
      part = j.part;
      recs = j.recs.items;
      moment = j.moment;
    } };
}

/// What a job came to. In a contract it is a `JobEndIs`.
#[derive(Drop)]
pub struct JobEnd<N: Naming, S: SpoolStore> {
    /// The end of its lane, with its session after those before it.
    pub lane_end: LaneEnd<N, S>,
    /// How many of its records were taken.
    pub taken: u64,
    /// There exactly if the job is done.
    pub receipt: Option<Receipt>,
    pub stop: Stop,
}

impl<N: Naming, S: SpoolStore> Model for JobEnd<N, S> {
    ghost use Rattle.sd_jobs.specs.Jobs.{JobEndIs};

    ghost Value = { JobEndIs };

    ghost view = { λ e. record {
      lane_end = e.lane_end;
      taken = e.taken;
      receipt = e.receipt;
      stop = e.stop;
    } };
}
