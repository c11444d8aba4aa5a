//! Where the blocks of sessions are: placements, spans, and the JobMedia text that tells them.
#![tactic(auto)]

mod jobmedia;
mod laws;
mod placement;
mod progress;
mod span;
mod stretches;

pub use jobmedia::{JobMediaFault, SessionSpans, read_jobmedia};
pub use laws::{jobmedia_is_one, jobmedia_texts_apart, stretches_grow};
pub use placement::Placement;
pub use progress::Progress;
pub use span::{Span, put_jobmedia};
pub use stretches::{grow, numbered, spans_of};
