// The line that tells of an adoption.
ghost use Rattle.std.specs.Prelude.{◌≡◌, ◌+◌, ◌≤◌, ◌++◌, ◌∷◌, [], length, vec_capacity, vec_len, IfOk};
ghost use Rattle.sd_machine.specs.declared.reply.Reply.TheVariants.{Adopted};
ghost use Rattle.sd_text.specs.Lines.{line};
ghost use Rattle.sd_console.specs.Replies.{reply_line};

use itoa::Buffer;
use sd_base::{Bytes, Items};
use sd_bnet::Payload;
use std::alloc::{AllocError, Global};

/// For how many bytes of the line there is room: its words and two numbers.
const LINE_BYTES: usize = 128;

/// Room for the line, made before the volume is taken over.
#[derive(Drop)]
pub struct AdoptedLine {
    bytes: Vec<u8>,
    lines: Vec<Payload>,
}

impl AdoptedLine {
    pub fn new(alloc: Global) -> Result<Self, AllocError>
        ensures empty { IfOk result (λ room. room.bytes.items ≡ []) }
        ensures bytes { IfOk result (λ room. 128 ≤ vec_capacity room.bytes) }
        ensures none { IfOk result (λ room. room.lines.items ≡ []) }
        ensures lines { IfOk result (λ room. 1 ≤ vec_capacity room.lines) }
    {
        Ok(AdoptedLine {
            bytes: Vec::with_capacity(alloc, LINE_BYTES)?,
            lines: Vec::with_capacity(alloc, 1)?,
        })
    }

    /// The line: where the volume's blocks end, and the number of its next one. Takes no memory.
    pub fn tell(self, end: u64, next: u32) -> Items<Payload>
        requires empty { self.bytes.items ≡ [] }
        requires bytes { 128 ≤ vec_capacity self.bytes }
        requires none { self.lines.items ≡ [] }
        requires lines { 1 ≤ vec_capacity self.lines }
        ensures { result ≡ line (reply_line (Adopted end next)) ∷ [] }
    {
        let AdoptedLine {
            mut bytes,
            mut lines,
        } = self;
        let mut first = Buffer::new();
        let mut second = Buffer::new();
        put(&mut bytes, b"ok adopted ");
        put(&mut bytes, first.format(end).as_bytes());
        put(&mut bytes, b" ");
        put(&mut bytes, second.format(next).as_bytes());
        put(&mut bytes, b"\n");
        lines.push_reserved(Payload::new(Bytes::from_vec(bytes)).unwrap());
        Items::from_vec(lines)
    }
}

/// Puts bytes for which there is room.
fn put(bytes: &mut Vec<u8>, more: &[u8])
    requires { vec_len bytes.old + length more.now ≤ vec_capacity bytes.old }
    ensures items { bytes.new.items ≡ bytes.old.items ++ more.now }
    ensures len { vec_len bytes.new ≡ vec_len bytes.old + length more.now }
    ensures capacity { vec_capacity bytes.old ≤ vec_capacity bytes.new }
{
    bytes.extend_from_slice(more).unwrap();
}
