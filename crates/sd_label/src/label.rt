// The labels as data. Their record headers have negative indexes, which no record of a client has.
use sd_base::{HostName, JobId, MediaName, PoolName, VolName};

/// The FileIndex of a volume label.
pub const VOLUME_LABEL: i32 = -2;

/// The FileIndex of a session label that starts the session.
pub const START_LABEL: i32 = -4;

/// The FileIndex of a session label that ends the session.
pub const END_LABEL: i32 = -5;

/// The Stream of a volume label. A session label has its JobId there.
pub const VOLUME_STREAM: i32 = 1;

/// The text that every label begins with: what sets this profile's volumes apart from others.
pub const PROFILE: &str = "sd-profile\n";

/// The version that a volume label without a host says.
pub const VOLUME_LABEL_VERSION: u32 = 1;

/// The version that a volume label with its host says. No other of a volume label is read.
pub const HOST_LABEL_VERSION: u32 = 2;

/// The version that a session label says. No other of a session label is read.
pub const SESSION_LABEL_VERSION: u32 = 1;

/// The job status of an end label: `T`, a job that ended.
pub const ENDED_STATUS: u32 = 84;

/// The label of a volume: its name, its pool, its media type, when it was labelled, in microseconds,
/// and the host whose daemon did so, if it says one (as: Bacula Developer's Guide, storage media
/// output format).
#[derive(Drop)]
pub struct VolumeLabel {
    pub name: VolName,
    pub pool: PoolName,
    pub media: MediaName,
    pub moment: i64,
    pub host: Option<HostName>,
}

/// What a session stored: its records, and the data bytes of them all.
#[derive(Clone, Copy, Debug, PartialEq, Eq)]
pub struct Totals {
    pub records: u64,
    pub bytes: u64,
}

/// The label of a session, at its start with no totals and at its end with them. The moment is in
/// microseconds (as: Bacula Developer's Guide, storage media output format).
#[derive(Drop)]
pub struct SessionLabel {
    pub job: JobId,
    pub pool: PoolName,
    pub media: MediaName,
    pub moment: i64,
    pub totals: Option<Totals>,
}

/// Bytes that are no label of this profile, or not of the kind that was asked for.
#[derive(Clone, Copy, Debug, PartialEq, Eq)]
pub struct NotOurs;
