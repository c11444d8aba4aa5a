//! Salvages a session from its spans on any device: all its records that are whole, past damage; and prints them.
#![tactic(auto)]

mod event;
mod file;
mod line;
mod printer;
mod salvager;
mod session;
mod span;

pub use event::Event;
pub use file::{Salvage, salvage_back};
pub use line::SalvageLine;
pub use printer::SalvagePrinter;
pub use session::{SalvageEnd, salvage};
