// How far a session's blocks are at their drive.

/// How many blocks of a session were placed, how many of them are synced, and whether the session fails:
/// whether one of them lies unsynced on a volume whose sync failed.
#[derive(Clone, Copy, Debug, PartialEq, Eq)]
pub struct Progress {
    pub placed: u64,
    pub synced: u64,
    pub failed: bool,
}
