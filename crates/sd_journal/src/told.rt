// What was done to a journal.
use crate::mark::Mark;
use sd_base::VolName;
use sd_span::Placement;

/// A step of a journal, as its contracts see it.
#[derive(Drop)]
pub(crate) enum Told {
    /// A block was placed there.
    Noted(Placement),
    /// A call on the volume gave its entries this mark.
    Marked(Mark, VolName),
}
