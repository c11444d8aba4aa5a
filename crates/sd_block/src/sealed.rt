// A block made ready for a volume: the header in front of the body, with the checksum of both.
ghost use Rattle.std.specs.Prelude.{◌≡◌, ◌+◌, ◌≤◌, length, drop, IfOk};
ghost use Rattle.sd_base.specs.Limits.{block_header, least_body, most_body, most_block};
ghost use Rattle.sd_crc.specs.Crc32.{crc32_of};
ghost use Rattle.sd_block.specs.Image.{header_fields, FitsHeader, IsBlockImage};

use crate::framed::FramedBody;
use crate::layout::{
    BLOCK_ID, BLOCK_ID_AT, NUMBER_AT, SESSION_ID_AT, SESSION_TIME_AT, SIZE_AT, SUM_AT, SUMMED_AT,
};
use sd_base::{BLOCK_HEADER, SessionKey, put_u32};
use sd_crc::{combine, crc32};
use std::alloc::{AllocError, Global};

/// The bytes of the block `number` of a volume, with `body` of the session `key`. They are made in one
/// piece of memory.
pub fn seal(alloc: Global, key: SessionKey, number: u32, body: &[u8]) -> Result<Vec<u8>, AllocError>
    requires least { least_body ≤ length body.now }
    requires most { length body.now ≤ most_body }
    ensures { IfOk result (λ image. IsBlockImage most_block image.items key number body.now) }
{
    let mut block = FramedBody::from_slice(alloc, body)?;
    block.seal(key, number);
    Ok(block.into_block())
}

/// Makes a block of the body that lies in `block` after the room for its header, whatever that room holds. The body has
/// the checksum `sum`, and none of its bytes is read.
pub(crate) fn seal_in_place(block: &mut [u8], key: SessionKey, number: u32, sum: u32)
    requires least { block_header + least_body ≤ length block.old }
    requires most { length block.old ≤ most_block }
    requires sum { sum ≡ crc32_of (drop block_header block.old) }
    ensures image { IsBlockImage most_block block.new key number (drop block_header block.old) }
    ensures body { drop block_header block.new ≡ drop block_header block.old }
    ensures length { length block.new ≡ length block.old }
{
    let mut header = unsummed_header(key, number, block.len() as u32);
    let behind = (block.len() - BLOCK_HEADER) as u32;
    let whole = combine(crc32(&header[SUMMED_AT..]), sum, behind);
    put_u32(&mut header, SUM_AT, whole);
    block[..BLOCK_HEADER].copy_from_slice(&header);
}

// A header whose checksum is still to come.
fn unsummed_header(key: SessionKey, number: u32, size: u32) -> [u8; BLOCK_HEADER]
    ensures fields { drop 4 result ≡ header_fields key number size }
    ensures fits { FitsHeader key number size }
{
    let mut header = [0; BLOCK_HEADER];
    put_u32(&mut header, SIZE_AT, size);
    put_u32(&mut header, NUMBER_AT, number);
    header[BLOCK_ID_AT..SESSION_ID_AT].copy_from_slice(&BLOCK_ID);
    put_u32(&mut header, SESSION_ID_AT, key.id);
    put_u32(&mut header, SESSION_TIME_AT, key.time);
    header
}
