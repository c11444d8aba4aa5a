// The lines of a configuration that are short, whatever it says.
use sd_base::{HostName, Refusal};
use std::fmt;

/// A line about a configuration. Displays it without the newline.
#[derive(Drop)]
pub enum ConfLine {
    Block(usize),
    Volume(u64),
    Spool(u64),
    Queue(usize),
    Port(u16),
    Host(HostName),
    /// The text is no TOML document.
    NoDocument,
    /// The input can't be read.
    NoInput,
    Refused(Refusal),
}

impl fmt::Display for ConfLine {
    ghost use Rattle.std.specs.Prelude.{Some};
    ghost use Rattle.sd_conf.specs.Check.{line_text};

    ghost output = { λ l. Some (line_text l) };

    fn fmt<W: fmt::Write>(&self, f: &mut fmt::Formatter<W>) -> fmt::Result {
        match self {
            ConfLine::Block(limit) => write!(f, "block {limit}"),
            ConfLine::Volume(limit) => write!(f, "volume {limit}"),
            ConfLine::Spool(limit) => write!(f, "spool {limit}"),
            ConfLine::Queue(blocks) => write!(f, "queue {blocks}"),
            ConfLine::Port(port) => write!(f, "port {port}"),
            ConfLine::Host(host) => {
                let host = host.as_str();
                write!(f, "host {host}")
            }
            ConfLine::NoDocument => write!(f, "fault text"),
            ConfLine::NoInput => write!(f, "fault input"),
            ConfLine::Refused(why) => write!(f, "{why}"),
        }
    }
}
