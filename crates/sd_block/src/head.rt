// What the header of a block says. The checksum is the whole block's, and is left to `open_block`.
ghost use Rattle.std.specs.Prelude.{◌≡◌, ◌≢◌, ◌↔◌, IsOk, IfOk, IsErrOf};
ghost use Rattle.sd_block.specs.declared.head.Head.{Head};
ghost use Rattle.sd_block.specs.Head.{HasHeader, HasId, SaysFields, IsHeadOf};
ghost use Rattle.sd_block.specs.Fault.{IsShort, HasBadId, HasBadSize};

use crate::fault::BlockFault;
use crate::layout::{BLOCK_ID, BLOCK_ID_AT, NUMBER_AT, SESSION_ID_AT, SESSION_TIME_AT, SIZE_AT};
use sd_base::{LEAST_BLOCK, SessionKey, Short, get_u32};

/// What a header says: whose block it is, its number on the volume, and its bytes, the header included.
#[derive(Clone, Copy, Debug, PartialEq, Eq)]
pub struct Head {
    pub key: SessionKey,
    pub number: u32,
    pub size: usize,
}

/// The header at the front of `bytes`, of a block of at most `max` bytes. What comes after the header
/// is not looked at: the block may go on past `bytes`, or end before they do.
pub fn read_head(bytes: &[u8], max: usize) -> Result<Head, BlockFault>
    ensures head { IfOk result (IsHeadOf max bytes.now) }
    ensures found { (head : Head) → IsHeadOf max bytes.now head → result ≡ Ok head }

    ensures short { IsErrOf result BlockFault.Short ↔ IsShort bytes.now }
    ensures bad_id { IsErrOf result BlockFault.BadId ↔ (HasHeader bytes.now × HasBadId bytes.now) }
    ensures bad_size { IsErrOf result BlockFault.BadSize
        ↔ (HasHeader bytes.now × HasId bytes.now × HasBadSize max bytes.now) }
    ensures no_sum { result ≢ Err BlockFault.BadSum }
{
    let Ok(head) = fields_of(bytes) else {
        return Err(BlockFault::Short);
    };
    if &bytes[BLOCK_ID_AT..SESSION_ID_AT] != BLOCK_ID.as_slice() {
        return Err(BlockFault::BadId);
    }
    if head.size < LEAST_BLOCK || head.size > max {
        return Err(BlockFault::BadSize);
    }
    Ok(head)
}

// The fields of a header, whatever they say.
fn fields_of(bytes: &[u8]) -> Result<Head, Short>
    ensures there { IsOk result ↔ HasHeader bytes.now }
    ensures fields { IfOk result (SaysFields bytes.now) }
{
    let time = get_u32(bytes, SESSION_TIME_AT)?;
    let id = get_u32(bytes, SESSION_ID_AT)?;
    Ok(Head {
        key: SessionKey { time, id },
        number: get_u32(bytes, NUMBER_AT)?,
        size: get_u32(bytes, SIZE_AT)? as usize,
    })
}
