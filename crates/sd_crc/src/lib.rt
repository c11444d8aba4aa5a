//! CRC-32, the CheckSum of a block.
//!
//! It is zlib's: reflected, polynomial EDB88320, start and final exclusive or FFFFFFFF. Nothing
//! here allocates, and no input is refused.
#![tactic(auto)]

ghost use Rattle.std.specs.Prelude.{◌≡◌};
ghost use Rattle.sd_crc.specs.Crc32.{crc32_of};

mod parts;
mod sums;
mod table;

pub use parts::combine;
use sums::Sums;
pub use table::crc32_by_table;

/// The CRC-32 of `bytes`.
pub fn crc32(bytes: &[u8]) -> u32
    ensures { result ≡ crc32_of bytes.now }
{
    let Some((front, last)) = bytes.split_last_chunk() else {
        return crc32_by_table(bytes);
    };
    Sums::after(front).finish(last) ^ u32::MAX
}
