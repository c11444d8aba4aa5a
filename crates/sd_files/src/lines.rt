// The lines of a reading.
use crate::end::EndLine;
use sd_base::Refusal;
use sd_readback::ReadEnd;
use std::fmt;

/// A line of a reading. Displays it without the newline.
#[derive(Drop)]
pub enum FileLine {
    /// A record whose bytes come after the line.
    Record {
        index: u32,
        stream: u32,
        size: usize,
    },
    /// What the session was read to.
    End(ReadEnd),
    /// The file of the spans can't be read.
    NoFile,
    /// The reading is given up.
    Refused(Refusal),
}

impl fmt::Display for FileLine {
    ghost use Rattle.std.specs.Prelude.{Some};
    ghost use Rattle.sd_files.specs.Lines.{line_text};

    ghost output = { λ l. Some (line_text l) };

    fn fmt<W: fmt::Write>(&self, f: &mut fmt::Formatter<W>) -> fmt::Result {
        match self {
            FileLine::Record {
                index,
                stream,
                size,
            } => write!(f, "rec {index} {stream} {size}"),
            FileLine::End(end) => write!(f, "{}", EndLine(*end)),
            FileLine::NoFile => write!(f, "fault file"),
            FileLine::Refused(why) => write!(f, "{why}"),
        }
    }
}
