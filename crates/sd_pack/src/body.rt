// A body as it goes from the packer to a block.
ghost use Rattle.std.specs.Prelude.{◌≡◌};

use sd_block::FramedBody;
use std::marker::Model;

/// The body of one block (as: Bacula Developer's Guide, storage media output format), of `sd_base::LEAST_BODY` to
/// `sd_base::MOST_BODY` bytes; `first` and `last` are the first and the last FileIndex of the records or parts in
/// it, 0 and 0 if none. In a contract it is the `PackedBody` of its parts.
#[derive(Debug, Drop)]
pub struct Body {
    pub bytes: FramedBody,
    pub first: u32,
    pub last: u32,
}

impl Model for Body {
    ghost use Rattle.sd_pack.specs.Body.{PackedBody, IsBody};

    ghost Value = { PackedBody };

    ghost view = { λ b. record { bytes = b.bytes.bytes; first = b.first; last = b.last } };

    ghost invariant = { λ b. IsBody (record { bytes = b.bytes.bytes; first = b.first; last = b.last }) };
}
