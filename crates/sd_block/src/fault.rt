/// Why bytes are no block. The tests are made in this order, and the first that fails is the answer.
#[derive(Clone, Copy, Debug, PartialEq, Eq)]
pub enum BlockFault {
    /// There are fewer bytes than a header has.
    Short,
    /// The header names another form than `BB02`.
    BadId,
    /// BlockSize is below the least block or above what the caller takes, or, if the bytes should be
    /// the whole block, not their number.
    BadSize,
    /// CheckSum is not that of the bytes after it.
    BadSum,
}
