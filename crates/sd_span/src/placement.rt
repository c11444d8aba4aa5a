// Where one block lies.
use sd_base::{SessionKey, VolName};

/// One block on a volume: whose it is, where it begins, its bytes with its header, and the first and the
/// last FileIndex in its body, 0 and 0 if none.
#[derive(Drop)]
pub struct Placement {
    pub key: SessionKey,
    pub volume: VolName,
    pub start: u64,
    pub length: u64,
    pub first: u32,
    pub last: u32,
}
