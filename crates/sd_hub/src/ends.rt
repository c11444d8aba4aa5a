// The ends of the lanes of a line, which are looked for among all that were handed in.
ghost use Rattle.std.specs.Prelude.{◌≡◌, ◌<◌, None, IfSome, IfNone, is_some, length};
ghost use Rattle.sd_hub.specs.Settles.{AllThere, IsMissing, StandsAt, end_at, is_end, sessions_at};

use sd_base::DriveNo;
use sd_line::{LaneEnd, Naming, Told};
use sd_spool::SpoolStore;

/// The place of the first end that is of this drive and of this lane, and whole.
pub(crate) fn index_of<N: Naming, S: SpoolStore>(
    no: DriveNo,
    lane: u32,
    ends: &[LaneEnd<N, S>],
) -> Option<usize>
    ensures some { IfSome result (λ at. StandsAt no lane ends.now at) }
    ensures none { IfNone result (end_at no lane ends.now ≡ None) }
    ensures within { IfSome result (λ at. at < length ends.now) }
{
    for at in 0..ends.len() {
        if is_end(no, lane, &ends[at]) {
            return Some(at);
        }
    }
    None
}

// Whether the end is of this drive and of this lane, and whole.
fn is_end<N: Naming, S: SpoolStore>(no: DriveNo, lane: u32, end: &LaneEnd<N, S>) -> bool
    ensures { result ≡ is_end no lane end.now }
{
    end.no().get() == no.get() && end.lane().get() == lane && end.is_whole()
}

// Whether the end of this lane is there.
fn is_there<N: Naming, S: SpoolStore>(no: DriveNo, lane: u32, ends: &[LaneEnd<N, S>]) -> bool
    ensures { result ≡ is_some (end_at no lane ends.now) }
{
    index_of(no, lane, ends).is_some()
}

/// The lowest lane whose end is not there.
pub(crate) fn missing_lane<N: Naming, S: SpoolStore>(
    no: DriveNo,
    lanes: u32,
    ends: &[LaneEnd<N, S>],
) -> Option<u32>
    ensures some { IfSome result (λ lane. IsMissing no lanes ends.now lane) }
    ensures none { IfNone result (AllThere no lanes ends.now) }
{
    for at in 0..lanes {
        let lane = at + 1;
        if !is_there(no, lane, ends) {
            return Some(lane);
        }
    }
    None
}

/// The sessions of the end that is of this drive and of this lane, and whole; none if there is no such end.
pub(crate) fn sessions_at<N: Naming, S: SpoolStore>(
    no: DriveNo,
    lane: u32,
    ends: &[LaneEnd<N, S>],
) -> &[Told<S>]
    ensures { result.now ≡ sessions_at no lane ends.now }
{
    match index_of(no, lane, ends) {
        Some(at) => ends[at].sessions(),
        None => &[],
    }
}
