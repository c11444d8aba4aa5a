// A closed body on its way from its session to a volume.
use sd_base::{LaneNo, SessionKey};
use sd_pack::Body;

/// A closed body of the session `key`: the `seq`th that was sent of it, from 1 on.
#[derive(Debug, Drop)]
pub struct Piece {
    pub key: SessionKey,
    pub seq: u64,
    pub body: Body,
}

/// A piece with the lane that it came by.
#[derive(Debug, Drop)]
pub struct Queued {
    pub lane: LaneNo,
    pub piece: Piece,
}
