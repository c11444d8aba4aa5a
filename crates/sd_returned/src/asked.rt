// What is asked of jobs that ended, before their line is settled, which takes all that they came to.
ghost use Rattle.std.specs.Prelude.{◌≡◌, map, IfOk};
ghost use Rattle.sd_returned.specs.Backs.{asked_of, wanted_by};
ghost use Rattle.sd_returned.specs.Listed.{last_spools};

use sd_base::{Items, SessionKey};
use sd_drive::Receipt;
use sd_jobs::JobEnd;
use sd_line::{Naming, Stop, Told};
use sd_span::Span;
use sd_spool::SpoolStore;
use std::alloc::{AllocError, Global};

/// A session, and the spans by which it is read.
#[derive(Drop)]
pub(crate) struct Wanted {
    pub(crate) key: SessionKey,
    pub(crate) spans: Items<Span>,
}

/// What is asked of a job.
#[derive(Drop)]
pub(crate) struct Asked {
    pub(crate) stop: Stop,
    pub(crate) taken: u64,
    pub(crate) spools: bool,
    /// There exactly if the job has a receipt.
    pub(crate) of: Option<Wanted>,
}

/// What is asked of jobs that came to these, in order.
pub(crate) fn ask_all<N: Naming, S: SpoolStore>(
    alloc: Global,
    ends: &[JobEnd<N, S>],
) -> Result<Vec<Asked>, AllocError>
    ensures { IfOk result (λ all. all.items ≡ map asked_of ends.now) }
{
    let mut all = Vec::with_capacity(alloc, ends.len())?;
    for at in 0..ends.len() {
        all.push(ask(alloc, &ends[at])?)?;
    }
    Ok(all)
}

// What is asked of a job that came to this.
fn ask<N: Naming, S: SpoolStore>(alloc: Global, end: &JobEnd<N, S>) -> Result<Asked, AllocError>
    ensures { IfOk result (λ asked. asked ≡ asked_of end.now) }
{
    let of = match &end.receipt {
        Some(receipt) => Some(want(alloc, receipt)?),
        None => None,
    };
    Ok(Asked {
        stop: end.stop,
        taken: end.taken,
        spools: last_spools(end.lane_end.sessions()),
        of,
    })
}

// Whether the last of these sessions spools.
fn last_spools<S: SpoolStore>(sessions: &[Told<S>]) -> bool
    ensures { result ≡ last_spools sessions.now }
{
    match sessions.last() {
        Some(told) => told.spools,
        None => false,
    }
}

// What is read by a receipt.
fn want(alloc: Global, receipt: &Receipt) -> Result<Wanted, AllocError>
    ensures { IfOk result (λ wanted. wanted ≡ wanted_by receipt.now) }
{
    Ok(Wanted {
        key: receipt.key(),
        spans: copy_all(alloc, receipt.spans())?,
    })
}

// The spans, once more.
fn copy_all(alloc: Global, own: &[Span]) -> Result<Items<Span>, AllocError>
    ensures { IfOk result (λ spans. spans ≡ own.now) }
{
    let mut spans = Vec::with_capacity(alloc, own.len())?;
    for at in 0..own.len() {
        spans.push(copy_of(&own[at]))?;
    }
    Ok(Items::from_vec(spans))
}

fn copy_of(span: &Span) -> Span
    ensures { result ≡ span.now }
{
    Span {
        volume: span.volume.copy(),
        vol_index: span.vol_index,
        first: span.first,
        last: span.last,
        start: span.start,
        end: span.end,
    }
}
