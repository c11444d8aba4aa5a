// Where the header of a block has its fields.

/// The form of a block, which its header names.
pub(crate) const BLOCK_ID: [u8; 4] = *b"BB02";

pub(crate) const SUM_AT: usize = 0;

pub(crate) const SIZE_AT: usize = 4;

pub(crate) const NUMBER_AT: usize = 8;

pub(crate) const BLOCK_ID_AT: usize = 12;

pub(crate) const SESSION_ID_AT: usize = 16;

pub(crate) const SESSION_TIME_AT: usize = 20;

/// The checksum is taken over all bytes from here on.
pub(crate) const SUMMED_AT: usize = 4;
