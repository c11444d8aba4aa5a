// What a session begins with.
use sd_base::{JobId, LaneNo, MediaName, PoolName, Refusal, SessionKey};

/// Whose session it is, by which lane it sends, for which pool and media, and the moment of its start.
#[derive(Drop)]
pub struct Opening {
    pub key: SessionKey,
    pub lane: LaneNo,
    pub job: JobId,
    pub pool: PoolName,
    pub media: MediaName,
    pub moment: i64,
}

/// The store of a session that was not opened, and why it wasn't.
#[derive(Drop)]
pub struct NotOpened<S> {
    pub store: S,
    pub why: Refusal,
}
