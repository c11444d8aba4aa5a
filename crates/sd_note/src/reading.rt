// A note that was read: its bytes are tested, then taken apart.
ghost use Rattle.std.specs.Prelude.{◌≡◌, ◌↔◌, ◌≤◌, ◌<◌, IsOk, IfOk, IfSome, IsErrOf, IsTrue, length};
ghost use Rattle.sd_base.specs.Field.{u32_bytes};
ghost use Rattle.sd_note.specs.declared.note.Note.{Note};
ghost use Rattle.sd_note.specs.Note.{note_length, note_form, IsNote, SaysFields, torn_number, not_torn, HasOtherForm, HasSum, IsWhole, IsDamaged};

use crate::layout::{
    END_AT, FORM, FORM_AT, LAST_AT, MOMENT_AT, NEXT_NUMBER_AT, NOT_TORN, NOTE_LENGTH, SUM_AT,
    SUMMED_AT, TIME_AT, TORN_AT,
};
use crate::note::{Note, NoteFault};
use sd_base::{Short, get_i64, get_u32, get_u64};
use sd_crc::crc32;

/// The note that `bytes` are, all of them.
pub fn read_note(bytes: &[u8]) -> Result<Note, NoteFault>
    ensures note { IfOk result (IsNote bytes.now) }
    ensures found { (note : Note) → IsNote bytes.now note → result ≡ Ok note }
    ensures other_form { IsErrOf result NoteFault.OtherForm ↔ HasOtherForm bytes.now }
    ensures damaged { IsErrOf result NoteFault.Damaged ↔ IsDamaged bytes.now }
{
    let Ok(form) = get_u32(bytes, FORM_AT) else {
        return Err(NoteFault::Damaged);
    };
    if !is_form(form) {
        return Err(NoteFault::OtherForm);
    }
    if !is_whole(bytes) {
        return Err(NoteFault::Damaged);
    }
    match fields_of(bytes) {
        Ok(note) => Ok(note),
        Err(Short) => Err(NoteFault::Damaged),
    }
}

// Whether the field says this form.
fn is_form(form: u32) -> bool
    ensures { IsTrue result ↔ (u32_bytes form ≡ note_form) }
{
    form == FORM
}

// Whether these are the bytes of a note that nothing changed.
fn is_whole(bytes: &[u8]) -> bool
    ensures { IsTrue result ↔ IsWhole bytes.now }
{
    bytes.len() == NOTE_LENGTH && is_sum_right(bytes)
}

fn is_sum_right(bytes: &[u8]) -> bool
    requires { note_length ≤ length bytes.now }
    ensures { IsTrue result ↔ HasSum bytes.now }
{
    get_u32(bytes, SUM_AT).unwrap() == crc32(&bytes[SUMMED_AT..])
}

// The fields of a note, whatever its form and checksum are.
fn fields_of(bytes: &[u8]) -> Result<Note, Short>
    ensures there { IsOk result ↔ (note_length ≤ length bytes.now) }
    ensures fields { IfOk result (SaysFields bytes.now) }
{
    Ok(Note {
        moment: get_i64(bytes, MOMENT_AT)?,
        end: get_u64(bytes, END_AT)?,
        last: get_u64(bytes, LAST_AT)?,
        next_number: get_u32(bytes, NEXT_NUMBER_AT)?,
        time: get_u32(bytes, TIME_AT)?,
        torn: torn_of(get_u64(bytes, TORN_AT)?),
    })
}

// What Torn says.
fn torn_of(number: u64) -> Option<u64>
    ensures number { torn_number result ≡ number }
    ensures some { IfSome result (λ length. length < not_torn) }
{
    if number == NOT_TORN {
        None
    } else {
        Some(number)
    }
}
