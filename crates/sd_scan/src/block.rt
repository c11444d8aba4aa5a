// A block that was found on a volume.
use sd_base::{SessionKey, VolName};
use std::marker::Model;

/// A block that was found: whose it is, its volume, where its image starts there, and its body. In
/// a contract it is the `Found` of specs.
#[derive(Drop)]
pub struct FoundBlock<'a> {
    pub key: SessionKey,
    pub volume: &'a VolName,
    pub start: u64,
    pub body: &'a [u8],
}

impl<'a> Model for FoundBlock<'a> {
    ghost use Rattle.sd_scan.specs.Found.{Found};

    ghost Value = { Found };

    ghost view = { λ f. record {
      volume = f.volume.now;
      start = f.start;
      block = record { key = f.key; body = f.body.now };
    } };
}
