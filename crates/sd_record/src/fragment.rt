// One header with its part. A body holds nothing else: labels are fragments too, under negative
// indexes.
ghost use Rattle.std.specs.Prelude.{◌≡◌, ◌↔◌, ℕ, ◌+◌, ◌-◌, ◌<◌, ◌≤◌, [], ◌++◌, List, length, take, drop, IfOk, IfSome, IsSome, IsTrue, OnOk, OnErr, Ok, Some, None, Err};
ghost use Rattle.sd_record.specs.Fragment.{Fragment as SpecFragment, fragment_bytes, IsFragment, HasZeroStream, IsZeroStream, IsHeaderAt, GoesOn, StandsAt};
ghost use Rattle.sd_base.specs.Field.{i32_bytes, u32_bytes};

use sd_base::{get_i32, get_u32, put_i32, put_u32};
use std::alloc::AllocError;
use std::marker::Model;

/// The bytes of a record header.
pub const HEADER_LENGTH: usize = 12;

/// A record header (FileIndex, Stream, DataSize) and the data after it. Of data that go on in a later
/// body, the header there has the negated Stream and as size the bytes that remain. Labels have a
/// negative FileIndex. In a contract it is the `Fragment` of specs.
#[derive(Debug, Drop)]
pub struct Fragment<'a> {
    pub index: i32,
    pub stream: i32,
    pub size: u32,
    pub part: &'a [u8],
}

impl<'a> Model for Fragment<'a> {
    ghost use Rattle.sd_record.specs.Fragment.{Fragment as SpecFragment};

    ghost Value = { SpecFragment };

    ghost view = { λ f. record {
      index = f.index;
      stream = f.stream;
      size = f.size;
      part = f.part.now;
    } };
}

/// Why there is no fragment at a place of a body.
#[derive(Clone, Copy, Debug, PartialEq, Eq)]
pub enum FragmentFault {
    /// 1 to 11 bytes are left: no whole header.
    Cut,
    /// The Stream is 0 or -2,147,483,648, which have no negation.
    ZeroStream,
}

/// Adds the header and the part at the end of `body`.
pub fn put_fragment(body: &mut Vec<u8>, fragment: &Fragment<'_>) -> Result<(), AllocError>
    ensures ok { OnOk result (body.new.items ≡ body.old.items ++ fragment_bytes fragment.now) }
    ensures err { OnErr result (body.new.items ≡ body.old.items) }

    // Of a fragment within its limits, and of no other, `next_fragment` reads it back.
    ensures read_back { OnOk result (IsFragment fragment.now
        ↔ StandsAt body.new.items (length body.old.items) fragment.now (length body.new.items)) }
{
    body.reserve(HEADER_LENGTH + fragment.part.len())?;
    let header = header_bytes(fragment.index, fragment.stream, fragment.size);
    body.extend_from_slice(&header)?;
    body.extend_from_slice(fragment.part)?;
    Ok(())
}

fn header_bytes(index: i32, stream: i32, size: u32) -> [u8; HEADER_LENGTH]
    ensures { result ≡ i32_bytes index ++ i32_bytes stream ++ u32_bytes size }
{
    let mut header = [0u8; HEADER_LENGTH];
    put_i32(&mut header, 0, index);
    put_i32(&mut header, 4, stream);
    put_u32(&mut header, 8, size);
    header
}

/// The fragment at `at` and the place after it, or `None` if the body has ended. Its part is as
/// long as its size says, or shorter if the body ends before that.
pub fn next_fragment(body: &[u8], at: usize) -> Result<Option<(Fragment<'_>, usize)>, FragmentFault>
    ensures end { (result ≡ Ok None) ↔ (length body.now ≤ at) }
    ensures cut { (result ≡ Err FragmentFault.Cut)
        ↔ ((at < length body.now) × (length body.now < at + 12)) }
    ensures zero_stream { (result ≡ Err FragmentFault.ZeroStream) ↔ HasZeroStream body.now at }
    ensures found { IfOk result
        (λ next. IfSome next (λ found. StandsAt body.now at found.0 found.1)) }

    // A fragment that is there is found, and no other: one that goes on ends the body.
    ensures read_back { (f : SpecFragment) (rest : List ℕ) → IsFragment f → (GoesOn f → rest ≡ [])
        → drop at body.now ≡ fragment_bytes f ++ rest
        → result ≡ Ok (Some (f, at + 12 + length f.part)) }
{
    if body.len() <= at {
        return Ok(None);
    }
    let Some(header) = header_at(body, at) else {
        return Err(FragmentFault::Cut);
    };
    if is_zero(header.stream) {
        return Err(FragmentFault::ZeroStream);
    }
    Ok(Some(fragment_behind(body, at, header)))
}

#[derive(Clone, Copy)]
struct Header {
    index: i32,
    stream: i32,
    size: u32,
}

fn header_at(body: &[u8], at: usize) -> Option<Header>
    requires { at < length body.now }
    ensures there { IsSome result ↔ (at + 12 ≤ length body.now) }
    ensures header { IfSome result (λ h. IsHeaderAt body.now at h.index h.stream h.size) }
{
    let (_, rest) = body.split_at(at);
    if rest.len() < HEADER_LENGTH {
        return None;
    }
    let index = get_i32(rest, 0).unwrap();
    let stream = get_i32(rest, 4).unwrap();
    let size = get_u32(rest, 8).unwrap();
    Some(Header {
        index,
        stream,
        size,
    })
}

fn is_zero(stream: i32) -> bool
    ensures { IsTrue result ↔ IsZeroStream stream }
{
    stream == 0 || stream == i32::MIN
}

fn fragment_behind(body: &[u8], at: usize, header: Header) -> (Fragment<'_>, usize)
    requires there { at + 12 ≤ length body.now }
    requires header { IsHeaderAt body.now at header.index header.stream header.size }
    requires named { IsZeroStream header.stream → ⊥ }
    ensures { StandsAt body.now at result.0 result.1 }
{
    let (_, rest) = body.split_at(at + HEADER_LENGTH);
    let (part, _) = rest.split_at(rest.len().min(header.size as usize));
    let fragment = Fragment {
        index: header.index,
        stream: header.stream,
        size: header.size,
        part,
    };
    (fragment, at + HEADER_LENGTH + part.len())
}
