// The line of a record that is read back.
ghost use Rattle.std.specs.Fmt.{decimal};
ghost use Rattle.sd_text.specs.Says.{Says, said_view};
ghost use Rattle.sd_tool.specs.ReplyLines.{record_lines, shown_text};

use itoa::Buffer;
use sd_base::Rec;
use sd_files::PrintRecord;
use sd_text::Printer;
use std::io::Write;

/// Prints the line of each record as it comes, and lets the record go. In a contract it is a `SinkIs`.
pub(crate) type RecordPrinter<K, W> = sd_files::RecordPrinter<K, FirstBytes, W>;

/// Prints of each record its line, with the first of its bytes.
#[derive(Clone, Copy)]
pub(crate) struct FirstBytes;

impl PrintRecord for FirstBytes {
    ghost lines = { record_lines };

    fn print<W: Write>(rec: &Rec, out: &mut Printer<W>) {
        print_record(rec, out);
    }
}

/// The most bytes of a record that its line shows.
const SHOWN: usize = 16;

/// Prints the line of a record: its index, its stream, its size and its first bytes.
pub(crate) fn print_record<W: Write>(rec: &Rec, out: &mut Printer<W>)
    ensures { Says (said_view W.contents out.old) (said_view W.contents out.new)
        (record_lines rec.now) }
{
    let bytes = rec.bytes.as_slice();
    out.bytes(b"rec ");
    print_number(rec.index as usize, out);
    out.bytes(b" ");
    print_number(rec.stream as usize, out);
    out.bytes(b" ");
    print_number(bytes.len(), out);
    out.bytes(b" ");
    print_shown(bytes, out);
    out.bytes(b"\n");
}

fn print_number<W: Write>(number: usize, out: &mut Printer<W>)
    ensures { Says (said_view W.contents out.old) (said_view W.contents out.new)
        (decimal number) }
{
    let mut digits = Buffer::new();
    out.bytes(digits.format(number).as_bytes());
}

// Prints the first bytes, in hexadecimal digits; a dash if there are none.
fn print_shown<W: Write>(bytes: &[u8], out: &mut Printer<W>)
    ensures { Says (said_view W.contents out.old) (said_view W.contents out.new)
        (shown_text bytes.now) }
{
    if bytes.is_empty() {
        return out.bytes(b"-");
    }
    let count = bytes.len().min(SHOWN);
    let mut room = [0u8; 2 * SHOWN];
    let (digits, _) = room.split_at_mut(2 * count);
    if let Ok(()) = hex::encode_to_slice(&bytes[..count], digits) {
        out.bytes(digits);
    }
}
