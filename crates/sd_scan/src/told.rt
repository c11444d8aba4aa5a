// What is told of a scan, and how.
use crate::json::JsonLine;
use crate::line::ScanLine;
use std::fmt;

/// What is told of the sessions that are found, and how.
#[derive(Clone, Copy, Debug, PartialEq, Eq)]
pub enum Told {
    /// Each, with the JobMedia text that it is read by.
    All,
    /// Those that are cut, without that text.
    Unsound,
    /// The same, each line as a JSON object.
    UnsoundJson,
}

/// A line of a scan, and how it is told. Displays it without the newline.
#[derive(Drop)]
pub struct ToldLine {
    pub told: Told,
    pub line: ScanLine,
}

impl fmt::Display for ToldLine {
    ghost use Rattle.std.specs.Prelude.{Some};
    ghost use Rattle.sd_scan.specs.Lines.{told_text};

    ghost output = { λ l. Some (told_text l.told l.line) };

    fn fmt<W: fmt::Write>(&self, f: &mut fmt::Formatter<W>) -> fmt::Result {
        match self.told {
            Told::All | Told::Unsound => write!(f, "{}", &self.line),
            Told::UnsoundJson => write!(f, "{}", JsonLine(&self.line)),
        }
    }
}
