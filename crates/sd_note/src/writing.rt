// A note made ready for its file.
ghost use Rattle.std.specs.Prelude.{◌≡◌, ◌≤◌, drop, IfSome};
ghost use Rattle.sd_base.specs.Limits.{most_volume};
ghost use Rattle.sd_note.specs.Note.{note_fields, torn_number, FitsNote, IsNote};

use crate::layout::{
    END_AT, FORM, FORM_AT, LAST_AT, MOMENT_AT, NEXT_NUMBER_AT, NOT_TORN, NOTE_LENGTH, SUM_AT,
    SUMMED_AT, TIME_AT, TORN_AT,
};
use crate::note::Note;
use sd_base::{put_i64, put_u32, put_u64};
use sd_crc::crc32;

/// The bytes of a note.
pub fn note_bytes(note: Note) -> [u8; NOTE_LENGTH]
    requires torn { IfSome note.torn (λ length. length ≤ most_volume) }
    ensures { IsNote result note }
{
    let mut bytes = unsummed(note);
    let sum = crc32(&bytes[SUMMED_AT..]);
    put_u32(&mut bytes, SUM_AT, sum);
    bytes
}

// A note whose checksum is still to come.
fn unsummed(note: Note) -> [u8; NOTE_LENGTH]
    requires torn { IfSome note.torn (λ length. length ≤ most_volume) }
    ensures fields { drop 4 result ≡ note_fields note }
    ensures fits { FitsNote note }
{
    let mut bytes = [0; NOTE_LENGTH];
    put_u32(&mut bytes, FORM_AT, FORM);
    put_i64(&mut bytes, MOMENT_AT, note.moment);
    put_u64(&mut bytes, END_AT, note.end);
    put_u64(&mut bytes, LAST_AT, note.last);
    put_u32(&mut bytes, NEXT_NUMBER_AT, note.next_number);
    put_u32(&mut bytes, TIME_AT, note.time);
    put_u64(&mut bytes, TORN_AT, torn_number(note.torn));
    bytes
}

// What Torn holds.
fn torn_number(torn: Option<u64>) -> u64
    ensures { result ≡ torn_number torn }
{
    match torn {
        Some(length) => length,
        None => NOT_TORN,
    }
}
