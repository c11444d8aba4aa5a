// Where in its text a configuration is at fault.
ghost use Rattle.std.specs.Prelude.{◌≡◌, ◌≤◌, length, map, codes, IfSome, IfOk, MatchOption};
ghost use Rattle.toml.specs.View.{table_view};
ghost use Rattle.sd_conf.specs.FirstFault.{TablesFault};
ghost use Rattle.sd_conf.specs.Place.{IsFaultyTable, IsOfDrive, IsPlaceIn, line_number};

use crate::drives::{drive, tables};
use crate::fault::ConfFault;
use crate::read::own;
use std::alloc::Global;
use std::{fmt, str};
use toml::Table;

/// Where in its text a configuration is at fault. Displays it without the newline.
#[derive(Clone, Copy, Debug, PartialEq, Eq)]
pub enum Place {
    /// The text is no TOML at this line, from 1.
    Line(usize),
    /// The key is in the table of this drive, from 1.
    Drive(usize),
}

impl fmt::Display for Place {
    ghost use Rattle.std.specs.Prelude.{Some};
    ghost use Rattle.sd_conf.specs.Place.{place_text};

    ghost output = { λ p. Some (place_text p) };

    fn fmt<W: fmt::Write>(&self, f: &mut fmt::Formatter<W>) -> fmt::Result {
        match self {
            Place::Line(number) => write!(f, "the text is no TOML at line {number}"),
            Place::Drive(number) => write!(f, "the key is in the table of drive {number}"),
        }
    }
}

/// Where the text is at fault. `None` where it is not, where a key that is no drive's is at fault, and where memory runs
/// out.
pub fn place_of(alloc: Global, bytes: &[u8]) -> Option<Place>
    ensures { IfSome result (IsPlaceIn bytes.now) }
{
    let text = match str::from_utf8(bytes) {
        Ok(text) => text,
        Err(fault) => return Some(Place::Line(line_at(bytes, fault.valid_up_to()))),
    };
    match toml::table_from_str(alloc, text) {
        Ok(table) => match drive_at_fault(alloc, &table) {
            Some(number) => Some(Place::Drive(number)),
            None => None,
        },
        Err(fault) => match fault.span() {
            Some(span) => Some(Place::Line(line_at(bytes, span.start))),
            None => None,
        },
    }
}

// The line of a place in a text.
fn line_at(bytes: &[u8], at: usize) -> usize
    requires { at ≤ length bytes.now }
    ensures { result ≡ line_number bytes.now at }
{
    let front = &bytes[..at];
    let mut line = 1;
    for byte in front {
        if *byte == b'\n' {
            line += 1;
        }
    }
    line
}

// The drive in whose table the first fault is, if it is in one.
fn drive_at_fault(alloc: Global, table: &Table) -> Option<usize>
    ensures { IfSome result (IsOfDrive (table_view table.now)) }
{
    let Ok(_) = own(alloc, table) else {
        return None;
    };
    let Ok(tables) = tables(alloc, table) else {
        return None;
    };
    faulty(alloc, &tables)
}

// The number of the first table of a drive with a fault, if one has any.
fn faulty(alloc: Global, tables: &[&Table]) -> Option<usize>
    ensures { IfSome result (IsFaultyTable (map (λ t. table_view t.now) tables.now)) }
{
    let mut number = 0;
    for table in tables {
        number += 1;
        match drive(alloc, table) {
            Ok(_) => {}
            Err(ConfFault::Key { .. }) => return Some(number),
            Err(_) => return None,
        }
    }
    None
}
