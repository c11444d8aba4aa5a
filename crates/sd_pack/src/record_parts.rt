// The fragments of a record, and the bodies that its later ones fill.
ghost use Rattle.std.specs.Prelude.{◌≡◌, ◌+◌, ◌-◌, ◌<◌, ◌≤◌, [], ◌∷◌, ◌++◌, length, take, drop, IfOk};
ghost use Rattle.std.specs.VecDeque.{deque_len, deque_capacity};
ghost use Rattle.sd_base.specs.Limits.{most_body};
ghost use Rattle.sd_pack.specs.RecordParts.{first_fragment, later_fragment, LaterBodies};
ghost use Rattle.sd_pack.specs.KeptPacker.{AreWithin};

use crate::body::Body;
use crate::open_body::OpenBody;
use sd_base::Rec;
use sd_record::{Fragment, HEADER_LENGTH};
use std::alloc::{AllocError, Global};
use std::collections::VecDeque;
use std::mem::replace;

/// The record's first fragment, with the data before `to`.
pub fn first_part(rec: &Rec, to: usize) -> Fragment<'_>
    requires { to ≤ length rec.now.bytes }
    ensures { result ≡ first_fragment rec.now to }
{
    let data = rec.bytes.as_slice();
    Fragment {
        index: rec.index as i32,
        stream: rec.stream as i32,
        size: data.len() as u32,
        part: &data[..to],
    }
}

/// A later fragment of the record, with the data from `from` to `to`.
pub fn later_part(rec: &Rec, from: usize, to: usize) -> Fragment<'_>
    requires ordered { from ≤ to }
    requires within { to ≤ length rec.now.bytes }
    ensures { result ≡ later_fragment rec.now (drop from rec.now.bytes) (to - from) }
{
    let data = rec.bytes.as_slice();
    Fragment {
        index: rec.index as i32,
        stream: -(rec.stream as i32),
        size: (data.len() - from) as u32,
        part: &data[from..to],
    }
}

/// The bodies of the record's fragments after its first `from` bytes of data, one fragment in each; all
/// but the last are full.
pub fn later_bodies(
    alloc: Global,
    room: usize,
    rec: &Rec,
    from: usize,
) -> Result<VecDeque<OpenBody>, AllocError>
    requires room { 12 < room }
    requires within { from ≤ length rec.now.bytes }
    ensures bodies { IfOk result
        (λ later. LaterBodies room rec.now (drop from rec.now.bytes) [] later.items) }
    ensures sizes { IfOk result (λ later. AreWithin room later.items) }
{
    let mut later = VecDeque::new(alloc);
    let mut at = from;
    while at < rec.bytes.len() {
        let count = (rec.bytes.len() - at).min(room - HEADER_LENGTH);
        let body = OpenBody::of_fragment(alloc, room, &later_part(rec, at, at + count))?;
        later.push_back(body)?;
        at += count;
    }
    Ok(later)
}

/// Closes the open body and all of `later` but its last, which is the open one from then on. Takes no
/// memory.
pub fn close_all(
    waiting: &mut VecDeque<Body>,
    open_body: &mut OpenBody,
    mut later: VecDeque<OpenBody>,
)
    requires room { deque_len waiting.old + deque_len later ≤ deque_capacity waiting.old }
    requires bodies { AreWithin most_body (open_body.old ∷ later.items) }
    ensures order { waiting.new.items ++ open_body.new ∷ []
        ≡ (waiting.old.items ++ open_body.old ∷ []) ++ later.items }
    ensures left { deque_capacity waiting.new ≡ deque_capacity waiting.old }
    ensures count { deque_len waiting.new ≡ deque_len waiting.old + deque_len later }
{
    while let Some(body) = later.pop_front() {
        let closed = replace(open_body, body);
        waiting.push_back_reserved(closed.close());
    }
}
