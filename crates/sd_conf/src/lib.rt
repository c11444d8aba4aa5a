//! Reads the daemon's configuration, or finds the first fault in it, and prints either. The configuration is a TOML
//! text that comes to limits, folders and drives.
#![tactic(auto)]

mod check;
mod conf;
mod conf_line;
mod drives;
mod fault;
mod keys;
mod laws;
mod place;
mod read;
mod text;
mod values;

pub use check::{CheckFault, Checked, check_conf, conf_in, print_conf_fault, print_place};
pub use conf::{Conf, DriveConf};
pub use conf_line::ConfLine;
pub use fault::{ConfFault, FaultKind};
pub use laws::first_fault_is_one;
pub use place::{Place, place_of};
pub use read::read_conf;
pub use text::Text;
