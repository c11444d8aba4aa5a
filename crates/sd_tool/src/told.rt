// The lines that are no reply's.
use crate::fits::Misfit;
use std::fmt;

/// A line of a run. Displays it without the newline.
#[derive(Drop)]
pub enum Told {
    /// So many blocks were placed.
    Drained(u64),
    /// A new world has started.
    Restarted,
    /// The input can't be read.
    NoInput,
    /// A setting doesn't go with the others.
    Unfit(Misfit),
}

impl fmt::Display for Told {
    ghost use Rattle.std.specs.Prelude.{Some};
    ghost use Rattle.sd_tool.specs.Told.{told_text};

    ghost output = { λ t. Some (told_text t) };

    fn fmt<W: fmt::Write>(&self, f: &mut fmt::Formatter<W>) -> fmt::Result {
        match self {
            Told::Drained(placed) => write!(f, "ok drained {placed}"),
            Told::Restarted => write!(f, "ok restarted"),
            Told::NoInput => write!(f, "fault input"),
            Told::Unfit(misfit) => {
                let word = misfit.word();
                write!(f, "fault {word} range")
            }
        }
    }
}
