// What is seen of a drive that others use too.
use sd_base::PoolName;

/// What was seen of a drive: the pool of its loaded volume, and the pool of the session that was reserved there last.
#[derive(Drop)]
pub struct DriveSeen {
    pub loaded: Option<PoolName>,
    pub pool: Option<PoolName>,
}
