// What is told of a session.
ghost use Rattle.std.specs.Prelude.{◌≡◌};

use jiff::civil::DateTime;
use sd_base::{Items, JobId, PoolName, SessionKey};
use sd_span::Span;

/// What the start label of a session says of it.
#[derive(Drop)]
pub struct Start {
    pub job: JobId,
    pub pool: PoolName,
    /// What a clock of UTC shows at its moment; none if no date has that.
    pub moment: Option<DateTime>,
}

/// What was found of a session: its job, pool and moment, if the first of its bodies begins with a start
/// label; whether all of it is there, up to its end label; whether it is broken, since one of its
/// bodies can't follow those before it; how many records are whole in the bodies before the first
/// that can't follow, and their data bytes; and the spans of its blocks.
#[derive(Drop)]
pub struct Report {
    pub key: SessionKey,
    pub start: Option<Start>,
    pub ended: bool,
    pub broken: bool,
    pub records: u64,
    pub bytes: u64,
    pub spans: Items<Span>,
}

impl Start {
    /// A copy of the start, if there is one; takes no memory.
    pub fn copy_of(start: &Option<Start>) -> Option<Start>
        ensures { result ≡ start.now }
    {
        let start = start.as_ref()?;
        Some(Start {
            job: start.job,
            pool: start.pool.copy(),
            moment: start.moment,
        })
    }
}
