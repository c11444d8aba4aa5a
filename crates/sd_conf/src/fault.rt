// What is wrong with a configuration.
use crate::text::Text;
use sd_base::Refusal;
use std::fmt;
use thiserror::Error;

/// What is wrong with a key.
#[derive(Clone, Copy, Debug, PartialEq, Eq)]
pub enum FaultKind {
    /// No key of this name is known there.
    Unknown,
    /// The key is required, and missing.
    Missing,
    /// Its value is of another type than the key asks for.
    Kind,
    /// Its value is outside the limits of the key.
    Range,
}

/// Why a configuration is not read. Each prints as what the program says of it after `fault `, but
/// out of memory as that refusal's line.
#[derive(Debug, Drop, Error)]
pub enum ConfFault {
    /// The text is no TOML document.
    #[error("text")]
    Text,
    /// The first key with a fault. A key in the table of a drive is named alone.
    #[error("{key} {kind}")]
    Key { key: Text, kind: FaultKind },
    /// No memory was left for what is read, or for the name of the key.
    #[error("{}", Refusal::Memory)]
    Memory,
}

impl fmt::Display for FaultKind {
    fn fmt<W: fmt::Write>(&self, f: &mut fmt::Formatter<W>) -> fmt::Result {
        f.write_str(match self {
            FaultKind::Unknown => "unknown",
            FaultKind::Missing => "missing",
            FaultKind::Kind => "kind",
            FaultKind::Range => "range",
        })
    }
}
