// What a configuration says.
use crate::text::Text;
use sd_base::{HostName, Items, MediaName};

/// The configuration of a daemon, each number within its limits.
#[derive(Drop)]
pub struct Conf {
    /// The most bytes of a block, 1,024 to 1,048,576.
    pub block: usize,
    /// The most bytes of a volume, from twice `block` to 68,719,476,736.
    pub volume: u64,
    /// The most bytes that a session spools, `block` to 68,719,476,736, or 0 for no spooling.
    pub spool: u64,
    /// How many blocks wait before a drive, 1 to 1,024.
    pub queue: usize,
    /// The port to listen on, 1 to 65,535.
    pub port: u16,
    /// The host that the labels of new volumes say.
    pub host: HostName,
    /// The folder of the spools: there with spooling, else it may be missing.
    pub spool_folder: Option<Text>,
    /// The drives 1, 2 and so on, 1 to 8 of them.
    pub drives: Items<DriveConf>,
}

/// What a configuration says in its own keys, but for its drives.
#[derive(Drop)]
pub struct OwnConf {
    pub block: usize,
    pub volume: u64,
    pub spool: u64,
    pub queue: usize,
    pub port: u16,
    pub host: HostName,
    pub spool_folder: Option<Text>,
}

/// A drive of the configuration.
#[derive(Drop)]
pub struct DriveConf {
    pub media: MediaName,
    /// The folder of its volumes.
    pub folder: Text,
    /// How many lanes it has, 1 to 32.
    pub lanes: u32,
}
