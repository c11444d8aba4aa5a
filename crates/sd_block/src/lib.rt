//! The blocks of a volume, in the form BB02 (as: Bacula Developer's Guide, storage media output format). A block is
//! a header of 24 bytes and then the body, which is of one session alone.
//!
//! | At | Field | What it says |
//! |---|---|---|
//! | 0 | CheckSum | the CRC-32 of the block from byte 4 to its end |
//! | 4 | BlockSize | the bytes of the block, the header included |
//! | 8 | BlockNumber | where on the volume the block lies |
//! | 12 | Id | the form of the block, `BB02` |
//! | 16 | VolSessionId | the session's number |
//! | 20 | VolSessionTime | the time of the run that the session was in |
//!
//! Each field has four bytes, the highest first. That CheckSum is this CRC-32 is the daemon's own choice.
#![tactic(auto)]

mod fault;
mod framed;
mod head;
mod laws;
mod layout;
mod opened;
mod sealed;

pub use fault::BlockFault;
pub use framed::FramedBody;
pub use head::{Head, read_head};
pub use laws::{head_of_an_image, length_of_an_image, one_block_of_an_image, one_image_at_a_place};
pub use opened::{Opened, open_block};
pub use sealed::seal;
