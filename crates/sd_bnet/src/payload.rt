// The payload of a packet is a type of its own, so that no packet is longer than a reader takes.
ghost use Rattle.std.specs.Prelude.{◌≡◌, ◌≤◌, ◌↔◌, [], length, IsTrue, IsSome, IfSome};
ghost use Rattle.sd_base.specs.Limits.{most_data};

use sd_base::{Bytes, MOST_DATA};
use std::marker::Model;

/// The payload of a packet: at most `MOST_DATA` bytes. In a contract it is the list of its bytes.
#[derive(Debug, Drop)]
pub struct Payload {
    bytes: Bytes,
}

impl Model for Payload {
    ghost use Rattle.std.specs.Prelude.{List, ℕ, ◌≤◌, length};
    ghost use Rattle.sd_base.specs.Limits.{most_data};

    ghost Value = { List ℕ };

    ghost view = { λ p. p.bytes };

    ghost invariant = { λ p. length p.bytes ≤ most_data };
}

impl Payload {
    /// The payload of these bytes, or `None` if they are more than `MOST_DATA`; takes no memory.
    pub fn new(bytes: Bytes) -> Option<Self>
        ensures within { IsSome result ↔ (length bytes ≤ most_data) }
        ensures bytes { IfSome result (λ payload. payload ≡ bytes) }
    {
        if bytes.len() > MOST_DATA {
            return None;
        }
        Some(Payload { bytes })
    }

    /// The payload of bytes that are known to be few enough.
    pub(crate) fn within(bytes: Bytes) -> Self
        requires { length bytes ≤ most_data }
        ensures { result ≡ bytes }
    {
        Payload { bytes }
    }

    pub fn as_slice(&self) -> &[u8]
        ensures bytes { result.now ≡ self.now }
        ensures most { length result.now ≤ most_data }
    {
        self.bytes.as_slice()
    }

    /// The bytes on the heap; takes no memory.
    pub fn into_bytes(self) -> Bytes
        ensures bytes { result ≡ self }
        ensures most { length result ≤ most_data }
    {
        let Payload { bytes } = self;
        bytes
    }

    pub fn len(&self) -> usize
        ensures length { result ≡ length self.now }
        ensures most { result ≤ most_data }
    {
        self.bytes.len()
    }

    pub fn is_empty(&self) -> bool
        ensures { IsTrue result ↔ (self.now ≡ []) }
    {
        self.bytes.is_empty()
    }
}
