// Where a session stands.

/// The status of a session.
#[derive(Clone, Copy, Debug, PartialEq, Eq)]
pub enum Status {
    /// It takes records.
    Active,
    /// Its end label is written; its blocks are on their way.
    Ended,
    /// All its blocks are on volumes and synced: what it took comes back.
    Closed,
    /// It was given up.
    Cancelled,
    /// A device lost a part of it.
    Failed,
    /// A volume with a part of it was purged: that part is gone, for good.
    Purged,
}
