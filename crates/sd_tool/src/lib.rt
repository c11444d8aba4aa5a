//! Plays scripts of `sdtool run` over drives in memory, and prints what each line comes to. The settings at the
//! head of a script say which drives.
#![tactic(auto)]

mod acting;
mod came;
mod draining;
mod drives;
mod events;
mod fits;
mod line;
mod lines;
mod making;
mod printed;
mod reading;
mod record;
mod replies;
mod restart;
mod run;
mod settings;
mod stage;
mod tail;
mod told;
mod values;

pub use drives::memory_drives;
pub use fits::Misfit;
pub use lines::{LONGEST_LINE, Lines, Next};
pub use run::{Ran, run_lines, run_script};
pub use settings::{Settings, read_settings};
pub use values::Values;
