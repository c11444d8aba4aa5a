// The line of what a session was read to.
use sd_readback::ReadEnd;
use std::fmt;

/// What a session was read to. Displays its line without the newline.
#[derive(Drop)]
pub struct EndLine(pub ReadEnd);

impl fmt::Display for EndLine {
    ghost use Rattle.std.specs.Prelude.{Some};
    ghost use Rattle.sd_files.specs.End.{end_text};

    ghost output = { λ l. Some (end_text l.0) };

    fn fmt<W: fmt::Write>(&self, f: &mut fmt::Formatter<W>) -> fmt::Result {
        let end = self.0;
        if end.ended {
            return write!(f, "ok read {} {} ended", end.records, end.bytes);
        }
        write!(f, "ok read {} {} cut", end.records, end.bytes)
    }
}
