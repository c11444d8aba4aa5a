// How many blocks of a session a journal has.

/// How many blocks of a session were placed, and how many of them are synced.
#[derive(Clone, Copy, Debug, PartialEq, Eq)]
pub struct Counts {
    pub placed: u64,
    pub synced: u64,
}
