// A record: what a client sends under one FileIndex and Stream, the unit that comes back.
ghost use Rattle.std.specs.Prelude.{◌≡◌, ◌↔◌, IsSome, IfSome};
ghost use Rattle.sd_base.specs.Record.{IsRecord};

use crate::Bytes;
use crate::number::MOST_NUMBER;
use std::marker::Model;

/// The most data bytes of a record, and of the payload of a packet.
pub const MOST_DATA: usize = 4_000_000;

/// One record of a session (as: Bacula Developer's Guide, daemon protocol). FileIndex and Stream are
/// 1 to 2,147,483,647, and there are at most `MOST_DATA` bytes of data; a value that breaks this can't
/// be made. In a contract it is the `Record` of its parts.
#[derive(Debug, Drop)]
pub struct Rec {
    pub index: u32,
    pub stream: u32,
    pub bytes: Bytes,
}

impl Model for Rec {
    ghost use Rattle.sd_base.specs.Record.{Record, IsRecord};

    ghost Value = { Record };

    ghost view = { λ r. record { index = r.index; stream = r.stream; bytes = r.bytes } };

    ghost invariant = { λ r.
        IsRecord (record { index = r.index; stream = r.stream; bytes = r.bytes }) };
}

impl Rec {
    /// The record of these parts, or `None` if one of them is past its limit.
    pub fn new(index: u32, stream: u32, bytes: Bytes) -> Option<Self>
        ensures within { IsSome result
            ↔ IsRecord (record { index = index; stream = stream; bytes = bytes }) }
        ensures parts { IfSome result
            (λ rec. rec ≡ record { index = index; stream = stream; bytes = bytes }) }
    {
        let numbered = index >= 1 && index <= MOST_NUMBER && stream >= 1 && stream <= MOST_NUMBER;
        if !numbered || bytes.len() > MOST_DATA {
            return None;
        }
        Some(Rec {
            index,
            stream,
            bytes,
        })
    }
}
