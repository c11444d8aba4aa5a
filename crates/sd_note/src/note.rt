// What a note says, and why bytes are none.

/// What was known of a volume.
#[derive(Clone, Copy, Debug, PartialEq, Eq)]
pub struct Note {
    /// The moment in the volume's label, in microseconds. A note with another moment is of another volume.
    pub moment: i64,
    /// Where the whole blocks ended that the disk had.
    pub end: u64,
    /// Where the last of them begins, 0 if there is the label's block alone.
    pub last: u64,
    /// The number of the block that comes at `end`.
    pub next_number: u32,
    /// The greatest time of a session with a block below `end`, 0 if there is none.
    pub time: u32,
    /// If a sync failed, how many bytes the disk had by the last one that did not.
    pub torn: Option<u64>,
}

/// Why bytes are no note.
#[derive(Clone, Copy, Debug, PartialEq, Eq)]
pub enum NoteFault {
    /// They name another form, as a later daemon's would.
    OtherForm,
    /// They are too few or too many, or their checksum is not that of the bytes after it.
    Damaged,
}
