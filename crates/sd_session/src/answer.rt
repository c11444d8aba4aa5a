// What the steps of a session did that move its bodies.

/// What became of the body of a session that has waited longest.
#[derive(Clone, Copy, Debug, PartialEq, Eq)]
pub enum Spooling {
    /// It is in the spool.
    Spooled,
    /// The spool has no room for it, or is being emptied.
    SpoolFull,
    /// No closed body waits.
    Nothing,
    /// The session doesn't spool.
    NoSpool,
}

/// What became of the body of a session that is to be sent next.
#[derive(Clone, Copy, Debug, PartialEq, Eq)]
pub enum Despooled {
    /// It is in the drive's queue.
    Sent,
    /// The drive's queue has no room for it.
    LaneFull,
    /// There is no such body.
    Nothing,
    /// The session spools, and fills its spool first.
    NotDue,
}
