// What a drive is told of the daemon's limits, and of its host.
ghost use Rattle.std.specs.Prelude.{◌≡◌};

use sd_base::HostName;

/// The limits that hold for a drive, and the run that it is of. `AreLimits` says what each may be.
#[derive(Drop)]
pub struct Limits {
    /// The most bytes of a block, its header included: 1,024 to 1,048,576.
    pub block: usize,
    /// The most bytes of a volume: at least those of two blocks, at most `sd_base::MOST_VOLUME`.
    pub volume: u64,
    /// The most bytes of a session's spool: 0 if there is none, else at least those of a block, and at most
    /// `sd_base::MOST_VOLUME`.
    pub spool: u64,
    /// The time of the run, in seconds: 1 to 2,147,483,647.
    pub time: u32,
    /// The host that the labels of new volumes say, if they say one.
    pub host: Option<HostName>,
}

impl Limits {
    /// A copy of these limits; takes no memory.
    pub fn copy(&self) -> Limits
        ensures { result ≡ self.now }
    {
        Limits {
            block: self.block,
            volume: self.volume,
            spool: self.spool,
            time: self.time,
            host: HostName::copy_of(&self.host),
        }
    }
}
