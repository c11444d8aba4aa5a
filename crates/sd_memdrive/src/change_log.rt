// The log of the calls that changed a volume, from which a stop in the past is made.
use sd_base::{Bytes, VolName};

/// A call that changed a volume: how many of its bytes were stable before, and the stable bytes that the
/// call cut off.
#[derive(Drop)]
pub struct Change {
    pub name: VolName,
    pub stable: usize,
    pub lost: Bytes,
}
