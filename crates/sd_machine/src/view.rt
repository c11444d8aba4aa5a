// The parts of a status.
use sd_base::{DriveNo, Items, MediaName, PoolName, Ticket, VolName};
use sd_session::Status;
use sd_volume::VolumeStatus;

/// What a daemon has at one moment, in the order in which a status tells it.
#[derive(Drop)]
pub struct View {
    /// The drives, by rising number, those that were retired too.
    pub drives: Items<DriveLine>,
    /// The volumes of the drives that are online, in the order of drives, and of labelling and adoption.
    pub volumes: Items<VolumeLine>,
    /// The sessions, by rising ticket.
    pub sessions: Items<SessionLine>,
}

/// A drive.
#[derive(Drop)]
pub struct DriveLine {
    pub drive: DriveNo,
    pub media: MediaName,
    pub loaded: Loaded,
    /// How many lanes of the drive aren't free.
    pub sessions: usize,
}

/// What is loaded in a drive.
#[derive(Drop)]
pub enum Loaded {
    /// The drive was retired.
    Offline,
    Nothing,
    Volume(VolName),
}

/// A volume of a drive.
#[derive(Drop)]
pub struct VolumeLine {
    pub name: VolName,
    pub pool: PoolName,
    pub media: MediaName,
    pub status: VolumeStatus,
    /// The byte after its last block.
    pub end: u64,
}

/// A session.
#[derive(Clone, Copy, Debug, PartialEq, Eq)]
pub struct SessionLine {
    pub ticket: Ticket,
    pub status: Status,
    /// How many records it took.
    pub records: u64,
}
