// How a talk ends.

/// How a talk with a client ended. Its session, if it went on, was given up.
#[derive(Clone, Copy, Debug, PartialEq, Eq)]
pub enum TalkEnd {
    /// The client ended it, or the input ended between two commands.
    Finished,
    /// The input ended elsewhere.
    Truncated,
    /// A packet was longer than any may be.
    TooLong,
    /// The reader failed.
    ReadFault,
    /// The writer failed, or took no byte.
    WriteFault,
    /// It had its turns.
    OutOfTurns,
}
