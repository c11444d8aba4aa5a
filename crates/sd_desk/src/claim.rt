// What is known of the name of a volume.
use sd_base::DriveNo;

/// At which drive the volume of a name is, and whether it was purged since it came there.
#[derive(Clone, Copy, Debug, PartialEq, Eq)]
pub struct Claim {
    pub drive: DriveNo,
    pub purged: bool,
}
