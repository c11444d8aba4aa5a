//! A labelled volume on any device: its label, its blocks, and what may follow them.
#![tactic(auto)]

mod adoption;
mod append;
mod block;
mod fault;
mod label;
mod laws;
mod noted;
mod purging;
mod reader;
mod survey;
mod volume;

pub use adoption::{adopt, adopt_by, adopt_noted};
pub use append::{Appended, append_block};
pub use block::next_block;
pub use fault::{AdoptFault, LabelFault};
pub use label::label_new;
pub use laws::{
    kept_blocks_stand, one_block_more, one_whole_image, placed_block_stands, stands_by_its_bytes,
    true_note_stays, whole_image_goes_on,
};
pub use purging::purge;
pub use reader::VolumeReader;
pub use survey::{Labelled, numbered_block, read_label};
pub use volume::{Volume, VolumeStatus};
