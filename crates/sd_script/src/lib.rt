//! Reads the lines of the script language of `sdtool run`. A line's bytes come to the line as a value, or to the
//! refusal that it prints. A console has some of these lines too.
#![tactic(auto)]

mod command;
mod console;
mod forms;
mod laws;
mod line;
mod read;
mod settings;

pub use console::ConsoleCmd;
pub use laws::{lines_have_one_form, lines_have_one_shape};
pub use line::{LineFault, Part, ScriptLine, Setting, Tail};
pub use read::{read_console, read_line};
pub use sd_plan::{Call, DriveFail as Fail, When};
