// The keys that a configuration may have.
ghost use Rattle.std.specs.Prelude.{◌≡◌, MatchOption};
ghost use Rattle.toml.specs.View.{table_view};
ghost use Rattle.sd_conf.specs.FirstFault.{UnknownKey};
ghost use Rattle.sd_conf.specs.Keys.{AllKnown, IsFirstUnknown, is_known};
ghost use Rattle.sd_conf.specs.Told.{Tells};

use crate::fault::{ConfFault, FaultKind};
use crate::values::fault_at;
use std::alloc::Global;
use toml::Table;

/// Where a key is: in the configuration itself, or in the table of a drive.
#[derive(Clone, Copy, Debug, PartialEq, Eq)]
pub enum Level {
    Daemon,
    Drive,
}

impl Level {
    /// Whether the key is known there.
    fn knows(self, key: &str) -> bool
        ensures { result ≡ is_known self key.now }
    {
        match self {
            Level::Daemon => {
                key == "block"
                    || key == "volume"
                    || key == "spool"
                    || key == "queue"
                    || key == "port"
                    || key == "host"
                    || key == "spool_folder"
                    || key == "drive"
            }
            Level::Drive => key == "media" || key == "folder" || key == "lanes",
        }
    }
}

/// Refuses a table with a key that isn't known there, by the least such key.
pub fn only_known(alloc: Global, table: &Table, level: Level) -> Result<(), ConfFault>
    ensures { Tells (UnknownKey level (table_view table.now)) tt result }
{
    match first_unknown(table, level) {
        None => Ok(()),
        Some(key) => Err(fault_at(alloc, key, FaultKind::Unknown)),
    }
}

// The least key of the table that isn't known there.
fn first_unknown(table: &Table, level: Level) -> Option<&str>
    ensures { MatchOption result (AllKnown level (table_view table.now))
        (λ key. IsFirstUnknown level (table_view table.now) key.now) }
{
    for key in table.keys() {
        if !level.knows(key.as_str()) {
            return Some(key.as_str());
        }
    }
    None
}
