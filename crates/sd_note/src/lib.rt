//! The note of a volume: what the daemon knew of it when it last looked, in a few bytes beside it. A start reads on
//! from there, and tells rot from what a stop left.
//!
//! | At | Bytes | Field | What it says |
//! |---|---|---|---|
//! | 0 | 4 | CheckSum | the CRC-32 of the note from byte 4 to its end |
//! | 4 | 4 | Form | `SN01` |
//! | 8 | 8 | Moment | the moment in the volume's label |
//! | 16 | 8 | End | where the whole blocks that the disk had ended |
//! | 24 | 8 | Last | where the last of them begins, 0 if there is the label's block alone |
//! | 32 | 4 | NextNumber | the number of the block that comes at End |
//! | 36 | 4 | Time | the greatest VolSessionTime of a block below End, 0 if there is none |
//! | 40 | 8 | Torn | the length that the disk had when a sync failed, all ones if none did |
//!
//! Each field has its highest byte first. Later forms have other letters, so an older daemon passes them over.
#![tactic(auto)]

mod layout;
mod note;
mod reading;
mod writing;

pub use layout::NOTE_LENGTH;
pub use note::{Note, NoteFault};
pub use reading::read_note;
pub use writing::note_bytes;
