//! The names, numbers, records and refusals that every layer uses, and the big-endian fields of packets and blocks.
#![tactic(auto)]

mod fields;
mod items;
mod limits;
mod name;
mod number;
mod record;
mod refusal;
mod seen;

pub use fields::{Short, get_i32, get_i64, get_u32, get_u64, put_i32, put_i64, put_u32, put_u64};
pub use items::{Bytes, Items};
pub use limits::{
    BLOCK_HEADER, LEAST_BLOCK, LEAST_BLOCK_LIMIT, LEAST_BODY, MOST_BLOCK, MOST_BODY, MOST_DRIVES,
    MOST_LANES, MOST_QUEUE, MOST_VOLUME, block_limits, world_limits,
};
pub use name::{BadName, HostName, MediaName, NAME_LENGTH, Name, PoolName, VolName};
pub use number::{DriveNo, JobId, LaneNo, MOST_NUMBER, Number, SessionKey, Ticket, number_limits};
pub use record::{MOST_DATA, Rec};
pub use refusal::Refusal;
pub use seen::Seen;
