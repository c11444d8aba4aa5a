//! Reads a session back from its spans, block by block, on any device.
#![tactic(auto)]

mod fault;
mod front;
mod laws;
mod read;
mod reader;
mod sink;
mod spans;

pub use fault::ReadFault;
pub use laws::{
    fault_is_no_reading, handed_over_are_first, kept_spans_read, one_first_fault, reads_to_one_list,
};
pub use read::{ReadEnd, read_session};
pub use sd_base::Seen;
pub use sink::Sink;
