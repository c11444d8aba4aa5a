// How long a block, a body and a volume may be, and how many drives, lanes and pieces there may be: what more than
// one layer names.
ghost use Rattle.std.specs.Prelude.{◌≡◌};
ghost use Rattle.sd_base.specs.Limits.{block_header, least_body, most_body, least_block, most_block, least_block_limit, most_volume, most_drives, most_lanes, most_queue};

/// The bytes of a block's header.
pub const BLOCK_HEADER: usize = 24;

/// The bytes of a record's header in a body, and the least bytes of a body.
pub const LEAST_BODY: usize = 12;

/// The most bytes of a body.
pub const MOST_BODY: usize = 1_048_552;

/// The least bytes of a block, its header included.
pub const LEAST_BLOCK: usize = 36;

/// The most bytes of a block, its header included.
pub const MOST_BLOCK: usize = 1_048_576;

/// The least block limit of a daemon.
pub const LEAST_BLOCK_LIMIT: usize = 1024;

/// The most bytes of a volume, and the greatest volume limit of a daemon.
pub const MOST_VOLUME: u64 = 68_719_476_736;

/// The most drives of a daemon, which are numbered from 1.
pub const MOST_DRIVES: u32 = 8;

/// The most lanes of a drive, which are numbered from 1.
pub const MOST_LANES: u32 = 32;

/// The most pieces that the queue before a drive has room for.
pub const MOST_QUEUE: usize = 1024;

/// These constants are the limits of blocks, bodies and volumes. A law: it does nothing.
pub fn block_limits()
    ensures header { BLOCK_HEADER ≡ block_header }
    ensures body_least { LEAST_BODY ≡ least_body }
    ensures body_most { MOST_BODY ≡ most_body }
    ensures block_least { LEAST_BLOCK ≡ least_block }
    ensures block_most { MOST_BLOCK ≡ most_block }
    ensures block_limit_least { LEAST_BLOCK_LIMIT ≡ least_block_limit }
    ensures volume_most { MOST_VOLUME ≡ most_volume }
{}

/// And these are those of drives, lanes and queues. A law: it does nothing.
pub fn world_limits()
    ensures drives_most { MOST_DRIVES ≡ most_drives }
    ensures lanes_most { MOST_LANES ≡ most_lanes }
    ensures queue_most { MOST_QUEUE ≡ most_queue }
{}
