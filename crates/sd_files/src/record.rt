// A record, printed as it comes.
use crate::lines::FileLine;
use crate::sink::PrintRecord;
use sd_base::Rec;
use sd_text::Printer;
use std::io::Write;

/// Prints of each record its line, its bytes as they are, and a newline.
pub(crate) struct WholeRecords;

impl PrintRecord for WholeRecords {
    ghost use Rattle.sd_files.specs.Lines.{record_lines};

    ghost lines = { record_lines };

    fn print<W: Write>(rec: &Rec, out: &mut Printer<W>) {
        let bytes = rec.bytes.as_slice();
        out.line(FileLine::Record {
            index: rec.index,
            stream: rec.stream,
            size: bytes.len(),
        });
        out.bytes(bytes);
        out.bytes(b"\n");
    }
}
