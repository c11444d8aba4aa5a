// The body of a block with room in front of it for the header, so that it becomes the block where it is.
ghost use Rattle.std.specs.Prelude.{◌≡◌, ◌≤◌, ◌++◌, length, drop, IfOk};
ghost use Rattle.sd_base.specs.Limits.{block_header, least_body, most_body, most_block};
ghost use Rattle.sd_block.specs.Image.{IsBlockImage};

use crate::sealed::seal_in_place;
use sd_base::{BLOCK_HEADER, SessionKey};
use sd_crc::crc32;
use std::alloc::{AllocError, Global};
use std::marker::Model;

/// The bytes of a block's body, on the heap, with room in front of them for the block's header: sealing the block
/// moves none of them and takes no memory. Their checksum is taken once, as the body is made, so that sealing it reads
/// none of them. In a contract it is a `Framed`.
#[derive(Debug, Drop)]
pub struct FramedBody {
    frame: Vec<u8>,
    /// The checksum of the bytes of the body.
    sum: u32,
}

impl Model for FramedBody {
    ghost use Rattle.std.specs.Prelude.{◌≡◌, take, drop};
    ghost use Rattle.sd_base.specs.Limits.{block_header};
    ghost use Rattle.sd_crc.specs.Crc32.{crc32_of};
    ghost use Rattle.sd_block.specs.Framed.{Framed};

    ghost Value = { Framed };

    ghost view = { λ b. record {
      room = take block_header b.frame.items;
      bytes = drop block_header b.frame.items;
    } };

    ghost invariant = { λ b. b.sum ≡ crc32_of (drop block_header b.frame.items) };
}

impl FramedBody {
    /// The body that begins at byte `BLOCK_HEADER` of `frame`, whatever is before it; takes no memory.
    pub fn from_frame(frame: Vec<u8>) -> Self
        ensures { result.bytes ≡ drop block_header frame.items }
    {
        let sum = crc32(body_of(&frame));
        FramedBody { frame, sum }
    }

    /// A body of these bytes, on memory of its own.
    pub fn from_slice(alloc: Global, bytes: &[u8]) -> Result<Self, AllocError>
        ensures { IfOk result (λ body. body.bytes ≡ bytes.now) }
    {
        let mut frame = Vec::with_capacity(alloc, BLOCK_HEADER.saturating_add(bytes.len()))?;
        frame.extend_from_slice(&[0; BLOCK_HEADER])?;
        frame.extend_from_slice(bytes)?;
        Ok(FramedBody::from_frame(frame))
    }

    /// The bytes of the body.
    pub fn as_slice(&self) -> &[u8]
        ensures { result.now ≡ self.now.bytes }
    {
        body_of(&self.frame)
    }

    /// How many bytes the body has.
    pub fn len(&self) -> usize
        ensures { result ≡ length self.now.bytes }
    {
        self.frame.len().saturating_sub(BLOCK_HEADER)
    }

    /// Writes the header of the block `number` of a volume, with this body of the session `key`, in front of the
    /// body.
    pub fn seal(&mut self, key: SessionKey, number: u32)
        requires least { least_body ≤ length self.old.bytes }
        requires most { length self.old.bytes ≤ most_body }
        ensures image { IsBlockImage most_block
            (self.new.room ++ self.new.bytes) key number self.old.bytes }
        ensures body { self.new.bytes ≡ self.old.bytes }
    {
        seal_in_place(&mut self.frame, key, number, self.sum);
    }

    /// The room and the body: once it was sealed, the block.
    pub fn as_block(&self) -> &[u8]
        ensures { result.now ≡ self.now.room ++ self.now.bytes }
    {
        &self.frame
    }

    /// The room and the body as a `Vec`; takes no memory.
    pub fn into_block(self) -> Vec<u8>
        ensures { result.items ≡ self.room ++ self.bytes }
    {
        let FramedBody { frame, sum: _ } = self;
        frame
    }
}

// The bytes after the room for the header.
fn body_of(frame: &[u8]) -> &[u8]
    ensures { result.now ≡ drop block_header frame.now }
{
    match frame.split_at_checked(BLOCK_HEADER) {
        Some((_, body)) => body,
        None => &[],
    }
}
