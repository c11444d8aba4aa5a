//! Record headers and the data after them, as a block's body has them (as: Bacula Developer's Guide, storage media
//! output format).
#![tactic(auto)]

mod fragment;
mod laws;

pub use fragment::{Fragment, FragmentFault, HEADER_LENGTH, next_fragment, put_fragment};
pub use laws::{body_is_one_list, fragments_are_of_one_record};
