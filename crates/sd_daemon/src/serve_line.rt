// The lines of what can't be served or settled, but for those of a configuration.
use sd_base::Refusal;
use std::fmt;

/// A line of why nothing is served, or of a drive that can't be settled. Displays it without the newline.
#[derive(Drop)]
pub enum ServeLine {
    /// The file of the configuration can't be read.
    NoFile,
    /// The clock's time is no time of a run.
    NoTime,
    /// The port can't be had.
    NoPort,
    NoMemory,
    /// The line of this drive can't be settled.
    Unsettled(u32),
}

impl fmt::Display for ServeLine {
    ghost use Rattle.std.specs.Prelude.{Some};
    ghost use Rattle.sd_daemon.specs.Serve.{serve_text};

    ghost output = { λ l. Some (serve_text l) };

    fn fmt<W: fmt::Write>(&self, f: &mut fmt::Formatter<W>) -> fmt::Result {
        match self {
            ServeLine::NoFile => write!(f, "fault file"),
            ServeLine::NoTime => write!(f, "fault time range"),
            ServeLine::NoPort => write!(f, "fault port"),
            ServeLine::NoMemory => write!(f, "{}", Refusal::Memory),
            ServeLine::Unsettled(drive) => write!(f, "fault settle {drive}"),
        }
    }
}
