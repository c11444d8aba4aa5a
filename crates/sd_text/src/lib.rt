//! The words and decimal numbers of a text's lines, with one blank between them, and a printer that writes on any writer.
//! If the writer fails, what it holds is a front of what was to be printed, and nothing more is written. Whoever else
//! writes takes the printer's loop (`write_all`) and its lines (`line_of`).
#![tactic(auto)]

mod ascii;
mod line;
mod lines;
mod printer;
mod text;
mod words;
mod write;

pub use ascii::ascii_text;
pub use line::line_of;
pub use lines::Lines;
pub use printer::Printer;
pub use text::Text;
pub use words::{BadField, Words};
pub use write::{WriteFault, write_all};
