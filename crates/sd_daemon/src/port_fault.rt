// Why a port can't be had.
use std::fmt;
use std::io::ErrorKind;

/// A port that can't be had. Displays it, and why.
#[derive(Clone, Copy, Debug)]
pub struct PortFault {
    pub port: u16,
    pub why: ErrorKind,
}

impl fmt::Display for PortFault {
    fn fmt<W: fmt::Write>(&self, f: &mut fmt::Formatter<W>) -> fmt::Result {
        let (port, why) = (self.port, self.why);
        write!(f, "port {port} of 127.0.0.1: {why}")
    }
}
