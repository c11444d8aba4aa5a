//! A world as the port of talks, one after another. An event waits for rounds, a console's line is obeyed, and all
//! that the world is given is one run.
#![tactic(auto)]

mod console;
mod laws;
mod port;
mod ports;
mod reading;

pub use laws::{answers_lead, cancels_give_up, port_leads};
pub use port::WorldPort;
