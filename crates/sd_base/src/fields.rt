// Big-endian fields at a place of a slice. A field is said by its bytes, both ways: what is read are
// the bytes of the answer, and what is written are the bytes of the value, with all others kept.
ghost use Rattle.std.specs.Prelude.{◌≡◌, ℕ, ◌+◌, ◌≤◌, ◌↔◌, ◌++◌, length, take, drop, IsOk, IfOk};
ghost use Rattle.sd_base.specs.Field.{u32_bytes, u64_bytes, i32_bytes, i64_bytes};

use byteorder::{BigEndian, ByteOrder};

/// The slice ends before the field does.
#[derive(Clone, Copy, Debug, PartialEq, Eq)]
pub struct Short;

/// The unsigned number of four bytes at `at`.
pub fn get_u32(bytes: &[u8], at: usize) -> Result<u32, Short>
    ensures there { IsOk result ↔ (at + 4 ≤ length bytes.now) }
    ensures field { IfOk result (λ value. take 4 (drop at bytes.now) ≡ u32_bytes value) }
{
    match field_at(bytes, at, 4) {
        Ok(field) => Ok(BigEndian::read_u32(field)),
        Err(short) => Err(short),
    }
}

/// The signed number of four bytes at `at`.
pub fn get_i32(bytes: &[u8], at: usize) -> Result<i32, Short>
    ensures there { IsOk result ↔ (at + 4 ≤ length bytes.now) }
    ensures field { IfOk result (λ value. take 4 (drop at bytes.now) ≡ i32_bytes value) }
{
    match get_u32(bytes, at) {
        Ok(value) => Ok(value.cast_signed()),
        Err(short) => Err(short),
    }
}

/// The unsigned number of eight bytes at `at`.
pub fn get_u64(bytes: &[u8], at: usize) -> Result<u64, Short>
    ensures there { IsOk result ↔ (at + 8 ≤ length bytes.now) }
    ensures field { IfOk result (λ value. take 8 (drop at bytes.now) ≡ u64_bytes value) }
{
    match field_at(bytes, at, 8) {
        Ok(field) => Ok(BigEndian::read_u64(field)),
        Err(short) => Err(short),
    }
}

/// The signed number of eight bytes at `at`.
pub fn get_i64(bytes: &[u8], at: usize) -> Result<i64, Short>
    ensures there { IsOk result ↔ (at + 8 ≤ length bytes.now) }
    ensures field { IfOk result (λ value. take 8 (drop at bytes.now) ≡ i64_bytes value) }
{
    match get_u64(bytes, at) {
        Ok(value) => Ok(value.cast_signed()),
        Err(short) => Err(short),
    }
}

fn field_at(bytes: &[u8], at: usize, width: usize) -> Result<&[u8], Short>
    ensures there { IsOk result ↔ (at + width ≤ length bytes.now) }
    ensures field { IfOk result (λ field. field.now ≡ take width (drop at bytes.now)) }
{
    if at > bytes.len() {
        return Err(Short);
    }
    let (_, rest) = bytes.split_at(at);
    if rest.len() < width {
        return Err(Short);
    }
    let (field, _) = rest.split_at(width);
    Ok(field)
}

/// Writes an unsigned number in the four bytes at `at`.
pub fn put_u32(into: &mut [u8], at: usize, value: u32)
    requires { at + 4 ≤ length into.old }
    ensures { into.new ≡ take at into.old ++ u32_bytes value ++ drop (at + 4) into.old }
{
    BigEndian::write_u32(&mut into[at..], value);
}

/// Writes a signed number in the four bytes at `at`.
pub fn put_i32(into: &mut [u8], at: usize, value: i32)
    requires { at + 4 ≤ length into.old }
    ensures { into.new ≡ take at into.old ++ i32_bytes value ++ drop (at + 4) into.old }
{
    put_u32(into, at, value.cast_unsigned());
}

/// Writes an unsigned number in the eight bytes at `at`.
pub fn put_u64(into: &mut [u8], at: usize, value: u64)
    requires { at + 8 ≤ length into.old }
    ensures { into.new ≡ take at into.old ++ u64_bytes value ++ drop (at + 8) into.old }
{
    BigEndian::write_u64(&mut into[at..], value);
}

/// Writes a signed number in the eight bytes at `at`.
pub fn put_i64(into: &mut [u8], at: usize, value: i64)
    requires { at + 8 ≤ length into.old }
    ensures { into.new ≡ take at into.old ++ i64_bytes value ++ drop (at + 8) into.old }
{
    put_u64(into, at, value.cast_unsigned());
}
