// What a feeder waits for, between two pieces.
ghost use Rattle.std.specs.Prelude.{◌≡◌, ◌+◌, ◌≤◌, ◌++◌, length, max, vec_len, vec_capacity, IfOk, OnOk, OnErr};

use crate::length::LengthBytes;
use std::alloc::{AllocError, Global};

/// For how many bytes of a payload room is made ahead of what has come of it, so that a peer that
/// announces a megabyte and sends none costs none.
pub(crate) const MOST_AHEAD: usize = 64 * 1024;

/// What comes next on the stream.
#[derive(Debug, Drop)]
pub(crate) enum Due {
    /// A length, of which these bytes have come.
    Length(LengthBytes),
    /// The rest of a payload.
    Payload(Pending),
    /// A length above `MOST_DATA` was here, and nothing is taken any more.
    TooLong,
}

/// A payload of `size` bytes, as far as it has come.
#[derive(Debug, Drop)]
pub(crate) struct Pending {
    pub(crate) size: usize,
    pub(crate) bytes: Vec<u8>,
}

impl Pending {
    pub(crate) fn begin(alloc: Global, size: usize, part: &[u8]) -> Result<Self, AllocError>
        requires { length part.now ≤ size }
        ensures size { IfOk result (λ pending. pending.size ≡ size) }
        ensures bytes { IfOk result (λ pending. pending.bytes.items ≡ part.now) }
    {
        let mut pending = Pending {
            size,
            bytes: Vec::new(alloc),
        };
        pending.add(part)?;
        Ok(pending)
    }

    /// How many bytes are still to come.
    pub(crate) fn missing(&self) -> usize
        requires { vec_len self.now.bytes ≤ self.now.size }
        ensures { vec_len self.now.bytes + result ≡ self.now.size }
    {
        self.size - self.bytes.len()
    }

    /// Adds what has come.
    pub(crate) fn add(&mut self, part: &[u8]) -> Result<(), AllocError>
        requires { vec_len self.old.bytes + length part.now ≤ self.old.size }
        ensures size { self.new.size ≡ self.old.size }
        ensures ok { OnOk result (self.new.bytes.items ≡ self.old.bytes.items ++ part.now) }
        ensures err { OnErr result (self.new.bytes.items ≡ self.old.bytes.items) }
    {
        self.make_room(part.len())?;
        self.bytes.extend_from_slice(part)
    }

    /// Makes room for `come` bytes, and, if that takes memory, for some of those that are to come
    /// after them, so that few growths move what is there.
    fn make_room(&mut self, come: usize) -> Result<(), AllocError>
        requires { vec_len self.old.bytes + come ≤ self.old.size }
        ensures size { self.new.size ≡ self.old.size }
        ensures bytes { self.new.bytes.items ≡ self.old.bytes.items }
        ensures room { OnOk result (vec_len self.old.bytes + come ≤ vec_capacity self.new.bytes) }
        ensures enough { vec_len self.old.bytes + come ≤ vec_capacity self.old.bytes
            → vec_capacity self.new.bytes ≡ vec_capacity self.old.bytes }
        ensures ahead { vec_capacity self.new.bytes
            ≤ max (vec_capacity self.old.bytes) (vec_len self.old.bytes + come + 65536) }
    {
        if self.bytes.capacity() - self.bytes.len() >= come {
            return Ok(());
        }
        let ahead = self.missing().min(come.saturating_add(MOST_AHEAD));
        self.bytes.reserve_exact(ahead)
    }
}
