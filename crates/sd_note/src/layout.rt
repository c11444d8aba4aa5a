// Where a note has its fields.

/// The bytes of a note.
pub const NOTE_LENGTH: usize = 48;

/// The form of a note, `SN01`.
pub(crate) const FORM: u32 = 0x534E_3031;

pub(crate) const SUM_AT: usize = 0;

pub(crate) const FORM_AT: usize = 4;

pub(crate) const MOMENT_AT: usize = 8;

pub(crate) const END_AT: usize = 16;

pub(crate) const LAST_AT: usize = 24;

pub(crate) const NEXT_NUMBER_AT: usize = 32;

pub(crate) const TIME_AT: usize = 36;

pub(crate) const TORN_AT: usize = 40;

/// The checksum is taken over all bytes from here on.
pub(crate) const SUMMED_AT: usize = 4;

/// What Torn holds if no sync failed.
pub(crate) const NOT_TORN: u64 = u64::MAX;
