// The spans themselves, before their blocks are read.
ghost use Rattle.std.specs.Prelude.{◌≡◌, ◌<◌, ◌↔◌, IsTrue};
ghost use Rattle.sd_readback.specs.Faults.{AreSpans};

use sd_span::Span;

/// Whether there are spans, numbered from 1 on, and each begins below its end.
pub(crate) fn are_spans(spans: &[Span]) -> bool
    ensures { IsTrue result ↔ AreSpans spans.now }
{
    for (i, span) in spans.iter().enumerate() {
        if span.vol_index != i as u64 + 1 || span.start >= span.end {
            return false;
        }
    }
    !spans.is_empty()
}
