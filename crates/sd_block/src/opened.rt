// A block that was read: its bytes are tested, then taken apart.
ghost use Rattle.std.specs.Prelude.{◌≡◌, ℕ, ◌↔◌, List, IfOk, IsOkAnd, IsErrOf, IsTrue};
ghost use Rattle.sd_base.specs.declared.number.SessionKey.{SessionKey};
ghost use Rattle.sd_block.specs.Image.{IsBlockImage};
ghost use Rattle.sd_block.specs.Head.{HasHeader, HasId};
ghost use Rattle.sd_block.specs.Fault.{IsShort, HasBadId, HasWrongSize, HasRightSize, HasSum, HasBadSum};

use crate::fault::BlockFault;
use crate::head::read_head;
use crate::layout::{SUM_AT, SUMMED_AT};
use sd_base::{BLOCK_HEADER, SessionKey, get_u32};
use sd_crc::crc32;

/// A whole block: whose it is, its number on the volume, and its body, which stays where it was read.
#[derive(Clone, Copy, Debug)]
pub struct Opened<'a> {
    pub key: SessionKey,
    pub number: u32,
    pub body: &'a [u8],
}

/// The block that `bytes` are, all of them, if they are at most `max`.
pub fn open_block(bytes: &[u8], max: usize) -> Result<Opened<'_>, BlockFault>
    ensures block { IfOk result
        (λ block. IsBlockImage max bytes.now block.key block.number block.body.now) }
    ensures found { (key : SessionKey) (number : ℕ) (body : List ℕ)
        → IsBlockImage max bytes.now key number body
        → IsOkAnd result
        (λ block. (block.key ≡ key) × (block.number ≡ number) × (block.body.now ≡ body)) }

    ensures short { IsErrOf result BlockFault.Short ↔ IsShort bytes.now }
    ensures bad_id { IsErrOf result BlockFault.BadId ↔ (HasHeader bytes.now × HasBadId bytes.now) }
    ensures bad_size { IsErrOf result BlockFault.BadSize
        ↔ (HasHeader bytes.now × HasId bytes.now × HasWrongSize max bytes.now) }
    ensures bad_sum { IsErrOf result BlockFault.BadSum
        ↔ (HasHeader bytes.now × HasId bytes.now × HasRightSize max bytes.now
        × HasBadSum bytes.now) }
{
    let head = read_head(bytes, max)?;
    if head.size != bytes.len() {
        return Err(BlockFault::BadSize);
    }
    if !is_sum_right(bytes) {
        return Err(BlockFault::BadSum);
    }
    Ok(Opened {
        key: head.key,
        number: head.number,
        body: &bytes[BLOCK_HEADER..],
    })
}

fn is_sum_right(bytes: &[u8]) -> bool
    requires { HasHeader bytes.now }
    ensures { IsTrue result ↔ HasSum bytes.now }
{
    get_u32(bytes, SUM_AT).unwrap() == crc32(&bytes[SUMMED_AT..])
}
