// Which drives asked for a volume.
use sd_base::{DriveNo, MediaName, PoolName};

/// A drive that needs a volume: of this pool and media.
#[derive(Drop)]
pub struct Request {
    pub drive: DriveNo,
    pub pool: PoolName,
    pub media: MediaName,
}
