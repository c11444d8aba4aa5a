// Where a device or a spool failed.
use sd_base::VolName;
use std::fmt;

/// Where a fault was met. Displays it.
#[derive(Clone, Copy)]
pub enum FaultPlace<'a> {
    /// A session, at its drive.
    Session { ticket: u32, drive: u32 },
    /// A session that is read back, from this volume on.
    Reading { id: u32, volume: &'a VolName },
    /// A line of a console.
    Line(&'a str),
    /// Nothing is known of where.
    Nowhere,
}

impl fmt::Display for FaultPlace<'_> {
    fn fmt<W: fmt::Write>(&self, f: &mut fmt::Formatter<W>) -> fmt::Result {
        match self {
            FaultPlace::Session { ticket, drive } => {
                write!(f, "session {ticket} on drive {drive}")
            }
            FaultPlace::Reading { id, volume } => {
                let volume = volume.as_str();
                write!(f, "reading session {id} from {volume}")
            }
            FaultPlace::Line(line) => write!(f, "{line}"),
            FaultPlace::Nowhere => write!(f, "a request"),
        }
    }
}
