//! Judges a volume by its note, before it is adopted: whether it is damaged, and where. It only reads.
//!
//! An adoption cuts a volume at the first place where there is no whole block. That is right for what a stop left, and
//! wrong for rot. Where blocks stood once, the note tells; where no note tells, a block behind that place does.
#![tactic(auto)]

mod alone;
mod fault;
mod noted;
mod run;
mod volume;

pub use fault::JudgeFault;
pub use volume::{Judged, Judgement, judge};
