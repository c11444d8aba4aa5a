// What goes out to a client: packets one after another. They are gathered and written together; bytes that would fill
// the buffer several times go to the writer from where they lie.
ghost use Rattle.std.specs.Prelude.{◌≡◌, ◌<◌, ◌≤◌, ◌++◌, ℕ, pos, negsuc, List, [], length, None, IfSome, is_some};
ghost use Rattle.sd_base.specs.Field.{i32_bytes};
ghost use Rattle.sd_base.specs.Limits.{most_data};
ghost use Rattle.sd_text.specs.Lines.{line};
ghost use Rattle.sd_bnet.specs.Packet.{packet_bytes};
ghost use Rattle.sd_bnet.specs.declared.packet.Packet.TheVariants.{Bytes, Signal};
ghost use Rattle.sd_append.specs.Out.{PutsOut, PutsBy, out_view};

use arrayvec::ArrayString;
use sd_base::put_i32;
use sd_text::{WriteFault, line_of, write_all};
use std::fmt::{Display, Write as _};
use std::io::Write;

/// For how many bytes there is room before they are written out.
pub(crate) const OUT_BYTES: usize = 64 * 1024;

/// So many bytes at once are not copied into that room, but written from where they lie. What waits is written before
/// them by a call of its own, which costs more than to copy a record of 64 KB.
const DIRECT_BYTES: usize = 4 * OUT_BYTES;

/// For how many bytes of a line there is room: the longest says a span.
const LINE_BYTES: usize = 256;

/// The signals that go out.
const END_OF_DATA: i32 = -1;

const HEARTBEAT_RESPONSE: i32 = -7;

/// Why no more goes out.
#[derive(Clone, Copy, Debug, PartialEq, Eq)]
pub(crate) enum OutFault {
    /// The writer failed, or took no byte.
    Write,
    /// There was no room for what was to go out.
    Memory,
}

/// A writer, and what waits to be written to it. Once it has failed nothing more is written: a packet that
/// was cut off is never begun again.
#[derive(Drop)]
pub(crate) struct Outbox<W> {
    writer: W,
    waiting: Vec<u8>,
    fault: Option<OutFault>,
}

impl<W> Outbox<W> {
    /// Nothing put yet; `waiting` is the buffer.
    pub(crate) fn new(writer: W, waiting: Vec<u8>) -> Self
        ensures writer { result.writer ≡ writer }
        ensures waiting { result.waiting.items ≡ waiting.items }
        ensures fault { result.fault ≡ None }
    {
        Outbox {
            writer,
            waiting,
            fault: None,
        }
    }

    pub(crate) fn fault(&self) -> Option<OutFault>
        ensures { result ≡ self.now.fault }
    {
        self.fault
    }

    /// The writer; what waits is gone.
    pub(crate) fn into_writer(self) -> W
        ensures { result ≡ self.writer }
    {
        let Outbox {
            writer,
            waiting: _,
            fault: _,
        } = self;
        writer
    }
}

impl<W: Write> Outbox<W> {
    /// Puts a packet of these bytes.
    pub(crate) fn packet(&mut self, payload: &[u8])
        requires { length payload.now ≤ most_data }
        ensures { PutsOut (out_view W.contents self.old) (out_view W.contents self.new)
            (packet_bytes (Bytes payload.now)) }
    {
        self.put(&length_field(payload.len()));
        self.put(payload);
    }

    /// Puts the signal that ends data.
    pub(crate) fn end_of_data(&mut self)
        ensures { PutsOut (out_view W.contents self.old) (out_view W.contents self.new)
            (packet_bytes (Signal (negsuc 0))) }
    {
        self.put(&field_of(END_OF_DATA));
    }

    /// Puts the signal that answers a heartbeat.
    pub(crate) fn heartbeat_response(&mut self)
        ensures { PutsOut (out_view W.contents self.old) (out_view W.contents self.new)
            (packet_bytes (Signal (negsuc 6))) }
    {
        self.put(&field_of(HEARTBEAT_RESPONSE));
    }

    /// Puts a packet of this text and a newline.
    pub(crate) fn line<D: Display + Drop>(&mut self, text: D)
        ensures { IfSome (D.output text) (λ said.
            PutsOut (out_view W.contents self.old) (out_view W.contents self.new)
            (packet_bytes (Bytes (line said)))) }
    {
        match line_of::<D, LINE_BYTES>(text) {
            Some(said) => self.packet(said.as_str().as_bytes()),
            None => self.fail(OutFault::Memory),
        }
    }

    /// Puts a packet of this text, without a newline.
    pub(crate) fn text<D: Display + Drop>(&mut self, text: D)
        ensures { IfSome (D.output text) (λ said.
            PutsOut (out_view W.contents self.old) (out_view W.contents self.new)
            (packet_bytes (Bytes said))) }
    {
        match text_of(text) {
            Some(said) => self.packet(said.as_str().as_bytes()),
            None => self.fail(OutFault::Memory),
        }
    }

    /// Writes out what waits.
    pub(crate) fn write_out(&mut self)
        ensures puts { PutsOut (out_view W.contents self.old) (out_view W.contents self.new) [] }
        ensures empty { self.new.waiting.items ≡ [] }
    {
        send(&mut self.writer, &mut self.fault, &self.waiting);
        self.waiting.clear();
    }

    /// Puts bytes.
    fn put(&mut self, bytes: &[u8])
        ensures { PutsOut (out_view W.contents self.old) (out_view W.contents self.new) bytes.now }
    {
        if bytes.len() < DIRECT_BYTES {
            self.gather(bytes);
        } else {
            self.write_out();
            send(&mut self.writer, &mut self.fault, bytes);
        }
    }

    /// Puts bytes into the buffer, which is written out as often as it is full.
    fn gather(&mut self, bytes: &[u8])
        ensures { PutsOut (out_view W.contents self.old) (out_view W.contents self.new) bytes.now }
    {
        let mut rest = bytes;
        while !rest.is_empty() {
            rest = self.put_front(rest);
        }
    }

    /// Puts the first of some bytes, and says which are left.
    fn put_front<'a>(&mut self, bytes: &'a [u8]) -> &'a [u8]
        requires { 0 < length bytes.now }
        ensures puts { (front : List ℕ) × (bytes.now ≡ front ++ result.now)
            × PutsOut (out_view W.contents self.old) (out_view W.contents self.new) front }
        ensures less { length result.now < length bytes.now }
    {
        let room = self.room();
        let (front, rest) = bytes.split_at(room.min(bytes.len()));
        self.keep(front);
        rest
    }

    /// How many bytes fit, at least one: if none do, what waits is written out first.
    fn room(&mut self) -> usize
        ensures least { 0 < result }
        ensures puts { PutsOut (out_view W.contents self.old) (out_view W.contents self.new) [] }
    {
        let room = OUT_BYTES.saturating_sub(self.waiting.len());
        if room > 0 {
            return room;
        }
        self.write_out();
        OUT_BYTES
    }

    fn keep(&mut self, bytes: &[u8])
        ensures { PutsOut (out_view W.contents self.old) (out_view W.contents self.new) bytes.now }
    {
        if self.fault.is_some() {
            return;
        }
        let Ok(()) = self.waiting.extend_from_slice(bytes) else {
            self.fault = Some(OutFault::Memory);
            return;
        };
    }

    /// Nothing more goes out, and nothing of what was to come.
    fn fail(&mut self, fault: OutFault)
        ensures { (bytes : List ℕ)
            → PutsOut (out_view W.contents self.old) (out_view W.contents self.new) bytes }
    {
        self.fault = Some(fault);
    }
}

/// Writes bytes before which none waits, unless writing has failed.
fn send<W: Write>(writer: &mut W, fault: &mut Option<OutFault>, bytes: &[u8])
    ensures { PutsBy (W.contents writer.old) (W.contents writer.new)
        (is_some fault.old) (is_some fault.new) [] [] bytes.now }
{
    if fault.is_some() {
        return;
    }
    if let Err(WriteFault) = write_all(writer, bytes) {
        *fault = Some(OutFault::Write);
    }
}

/// The bytes of a text, if there is room for them.
fn text_of<D: Display + Drop>(text: D) -> Option<ArrayString<LINE_BYTES>>
    ensures { IfSome result (λ said. IfSome (D.output text) (λ bytes. said.bytes ≡ bytes)) }
{
    let mut said = ArrayString::new();
    match said.write(text) {
        Ok(()) => Some(said),
        Err(_) => None,
    }
}

/// The four bytes of a packet's length.
fn length_field(length: usize) -> [u8; 4]
    requires { length ≤ most_data }
    ensures { result ≡ i32_bytes (pos length) }
{
    field_of(length as i32)
}

/// The four bytes of a length or of a signal.
fn field_of(number: i32) -> [u8; 4]
    ensures { result ≡ i32_bytes number }
{
    let mut field = [0; 4];
    put_i32(&mut field, 0, number);
    field
}
