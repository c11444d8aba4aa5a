// What a listing or a reading prints, as it comes.
ghost use Rattle.std.specs.Prelude.{◌≡◌, ◌<◌, ℕ, List, [], length, IfSome, Some, true, false};
ghost use Rattle.sd_text.specs.Lines.{line};
ghost use Rattle.sd_text.specs.Says.{CutsShort, Says, said_view};

use crate::line::line_of;
use crate::write::{WriteFault, write_all};
use std::fmt::Display;
use std::io::Write;

/// For how many bytes of a line there is room: the longest says four names.
const LINE_BYTES: usize = 1024;

/// A writer that is printed to. After something that can't be written, nothing more is: what is in the
/// writer then is a front of what was to be printed.
#[derive(Drop)]
pub struct Printer<W> {
    writer: W,
    failed: bool,
}

impl<W> Printer<W> {
    pub fn new(writer: W) -> Self
        ensures writer { result.writer ≡ writer }
        ensures failed { result.failed ≡ false }
    {
        Printer {
            writer,
            failed: false,
        }
    }

    /// Whether something could not be written.
    pub fn failed(&self) -> bool
        ensures { result ≡ self.now.failed }
    {
        self.failed
    }

    pub fn into_writer(self) -> W
        ensures { result ≡ self.writer }
    {
        let Printer { writer, failed: _ } = self;
        writer
    }
}

impl<W: Write> Printer<W> {
    /// Prints a line. One for which there is no room is not printed, and nothing is from then on.
    pub fn line<D: Display + Drop>(&mut self, text: D)
        ensures says { IfSome (D.output text) (λ said.
            Says (said_view W.contents self.old) (said_view W.contents self.new) (line said)) }
        ensures cut { IfSome (D.output text) (λ said.
            CutsShort (said_view W.contents self.old) (said_view W.contents self.new) (line said)) }
    {
        match line_of::<D, LINE_BYTES>(text) {
            Some(said) => self.bytes(said.as_str().as_bytes()),
            None => self.fail(),
        }
    }

    /// Nothing more is printed, and nothing of what was to come.
    fn fail(&mut self)
        ensures says { (bytes : List ℕ)
            → Says (said_view W.contents self.old) (said_view W.contents self.new) bytes }
        ensures cut { (bytes : List ℕ) → 0 < length bytes
            → CutsShort (said_view W.contents self.old) (said_view W.contents self.new) bytes }
    {
        self.failed = true;
    }

    /// Prints bytes as they are.
    pub fn bytes(&mut self, bytes: &[u8])
        ensures says { Says (said_view W.contents self.old) (said_view W.contents self.new)
            bytes.now }
        ensures cut { CutsShort (said_view W.contents self.old) (said_view W.contents self.new)
            bytes.now }
    {
        if self.failed {
            return;
        }
        if let Err(WriteFault) = write_all(&mut self.writer, bytes) {
            self.failed = true;
        }
    }

    /// Has the writer pass on what it holds back.
    pub fn flush(&mut self)
        ensures { Says (said_view W.contents self.old) (said_view W.contents self.new) [] }
    {
        if self.failed {
            return;
        }
        if self.writer.flush().is_err() {
            self.failed = true;
        }
    }
}
