// The stretches of placements on one volume, and the spans of a session.
ghost use Rattle.std.specs.Prelude.{◌≡◌, All, IfOk, OnOk, OnErr};
ghost use Rattle.sd_base.specs.FileIndex.{first_nonzero};
ghost use Rattle.sd_span.specs.Spans.{EndFits, stretch_of, stretch_with, grown, numbered_from, spans_of};

use crate::placement::Placement;
use crate::span::Span;
use sd_base::{Items, SessionKey};
use std::alloc::{AllocError, Global};

/// The spans of the session `key`: the longest stretches of its own placements that are on one volume,
/// numbered 1, 2 and on.
pub fn spans_of(
    alloc: Global,
    placements: &[Placement],
    key: SessionKey,
) -> Result<Items<Span>, AllocError>
    requires { All EndFits placements.now }
    ensures { IfOk result (λ spans. spans ≡ spans_of key placements.now) }
{
    let mut stretches = Vec::new(alloc);
    for placement in placements {
        if key == placement.key {
            grow(&mut stretches, placement)?;
        }
    }
    numbered(alloc, &stretches)
}

/// Adds one placement after stretches: the last of them grows if it is on the placement's volume, else a
/// stretch begins. After an Err they are as before.
pub fn grow(stretches: &mut Vec<Span>, placement: &Placement) -> Result<(), AllocError>
    requires { EndFits placement.now }
    ensures ok { OnOk result (stretches.new.items ≡ grown stretches.old.items placement.now) }
    ensures err { OnErr result (stretches.new.items ≡ stretches.old.items) }
{
    let count = stretches.len();
    if count > 0 && stretches[count - 1].volume.is_same(&placement.volume) {
        stretches[count - 1].go_on(placement);
        return Ok(());
    }
    stretches.push(Span::begun_by(placement))?;
    Ok(())
}

/// The stretches as spans: numbered from 1 on.
pub fn numbered(alloc: Global, stretches: &[Span]) -> Result<Items<Span>, AllocError>
    ensures { IfOk result (λ spans. spans ≡ numbered_from 1 stretches.now) }
{
    let mut spans = Vec::new(alloc);
    for (index, stretch) in stretches.iter().enumerate() {
        spans.push(Span {
            volume: stretch.volume.copy(),
            vol_index: index as u64 + 1,
            first: stretch.first,
            last: stretch.last,
            start: stretch.start,
            end: stretch.end,
        })?;
    }
    Ok(Items::from_vec(spans))
}

impl Span {
    /// The stretch of one block, not numbered yet.
    pub fn begun_by(placement: &Placement) -> Self
        requires { EndFits placement.now }
        ensures { result ≡ stretch_of placement.now }
    {
        Span {
            volume: placement.volume.copy(),
            vol_index: 0,
            first: placement.first,
            last: placement.last,
            start: placement.start,
            end: placement.start + placement.length,
        }
    }

    /// Goes on to the end of one block more.
    pub fn go_on(&mut self, placement: &Placement)
        requires { EndFits placement.now }
        ensures { self.new ≡ stretch_with self.old placement.now }
    {
        self.first = first_of(self.first, placement.first);
        self.last = first_of(placement.last, self.last);
        self.end = placement.start + placement.length;
    }
}

/// The first of two FileIndexes that is not 0, if one is.
fn first_of(index: u32, other: u32) -> u32
    ensures { result ≡ first_nonzero index other }
{
    if index == 0 { other } else { index }
}
