// A stream may be cut anywhere, also inside of a length.
ghost use Rattle.std.specs.Prelude.{◌≡◌, ◌<◌, ◌≤◌, [], ◌++◌, length};

use std::marker::Model;

/// How many bytes a length has.
const LENGTH_BYTES: usize = 4;

/// The bytes of a length as far as they have come. In a contract it is their list.
#[derive(Debug, Drop)]
pub(crate) struct LengthBytes {
    bytes: [u8; LENGTH_BYTES],
    count: usize,
}

impl Model for LengthBytes {
    ghost use Rattle.std.specs.Prelude.{List, ℕ, ◌≤◌, take};

    ghost Value = { List ℕ };

    ghost view = { λ l. take l.count l.bytes };

    ghost invariant = { λ l. l.count ≤ 4 };
}

impl LengthBytes {
    pub(crate) fn new() -> Self
        ensures { result ≡ [] }
    {
        LengthBytes {
            bytes: [0; LENGTH_BYTES],
            count: 0,
        }
    }

    pub(crate) fn as_slice(&self) -> &[u8]
        ensures bytes { result.now ≡ self.now }
        ensures most { length result.now ≤ 4 }
    {
        &self.bytes[..self.count]
    }

    /// The length with as much of `piece` as it lacks, and what is left of `piece`.
    pub(crate) fn with<'a>(&self, piece: &'a [u8]) -> (LengthBytes, &'a [u8])
        ensures joined { result.0 ++ result.1.now ≡ self.now ++ piece.now }
        ensures full { length result.0 < 4 → result.1.now ≡ [] }
    {
        let count = piece.len().min(LENGTH_BYTES - self.count);
        let (part, rest) = piece.split_at(count);
        let mut bytes = self.bytes;
        bytes[self.count..self.count + count].copy_from_slice(part);
        let filled = LengthBytes {
            bytes,
            count: self.count + count,
        };
        (filled, rest)
    }
}
