// What a world is made with.
use sd_base::{HostName, MediaName};

/// The settings of a world. `IsConf` says what each may be.
#[derive(Drop)]
pub struct WorldConf {
    /// The most bytes of a block, its header included: 1,024 to 1,048,576.
    pub block: usize,
    /// The most bytes of a volume: at least those of two blocks, at most 68,719,476,736.
    pub volume: u64,
    /// The most bytes of a session's spool: 0 if there is none, else at least those of a block, and at most
    /// 68,719,476,736.
    pub spool: u64,
    /// How many pieces the queue before a drive has room for: 1 to 1,024.
    pub queue: usize,
    /// The media and the number of lanes of the drives 1, 2 and on: 1 to 8 drives, of 1 to 32 lanes each.
    pub drives: Vec<(MediaName, u32)>,
    /// The host that the labels of new volumes say, if they say one.
    pub host: Option<HostName>,
}

/// What was to become a world, but there was no memory: the devices, queues and stores, each in their order.
#[derive(Drop)]
pub struct NotMade<D, Q, S> {
    pub drivers: Vec<D>,
    pub lanes: Vec<Q>,
    pub spools: Vec<Vec<S>>,
}
