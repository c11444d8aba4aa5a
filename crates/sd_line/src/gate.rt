// Where threads can be held on the way of a body.
use sd_base::SessionKey;

/// A point on the way of a body.
#[derive(Clone, Copy, Debug, PartialEq, Eq)]
pub enum Point {
    /// Before a record is added to a session.
    BeforeAppend,
    /// After a body was pushed into the queue.
    AfterPush,
    /// Before the piece in a drive's hand is placed. The drive's lock is held.
    BeforePlace,
    /// After that, whether it was placed or not. The drive's lock is held.
    AfterPlace,
    /// After a session was closed.
    AfterClose,
}

/// What is told of each point that a thread comes to, and may hold the thread there.
pub trait Gate: Sync {
    /// The thread is at this point, with a body or a record of this session.
    fn at(&self, point: Point, key: SessionKey);
}
