// The lines of the input, one at a time, in memory that the longest line bounds.
ghost use Rattle.std.specs.Prelude.{◌≡◌, ◌⊎◌, [], IfSome};
ghost use Rattle.std.specs.Io.BufRead.{ends_with_byte};
ghost use Rattle.sd_tool.specs.Lines.{ComesFirst, IsLineOf, came_with};

use sd_base::MOST_DATA;
use sd_readback::Seen;
use std::alloc::Global;
use std::io::{BufRead, ErrorKind, Read};
use std::marker::Model;

/// The bytes of the longest line that has a form: a `rec` line of the greatest numbers and the longest text.
pub const LONGEST_LINE: usize = 37 + MOST_DATA;

/// The longest line, with its newline.
const MOST_READ: u64 = LONGEST_LINE as u64 + 1;

/// How the next line came.
#[derive(Clone, Copy, Debug, PartialEq, Eq)]
pub enum Next {
    /// It is in the bytes.
    Line,
    /// It was longer than any line that has a form, and was passed over.
    TooLong,
    /// There was no memory for it, and it was passed over.
    NoMemory,
    /// The input can't be read.
    Fault,
    /// There is none: the input has ended.
    End,
}

/// The line that was read last. In a contract it is a `LinesView`, which has all lines that were read; but nothing of the
/// earlier ones is held.
#[derive(Drop)]
pub struct Lines {
    bytes: Vec<u8>,
    came: Option<Seen<Vec<u8>>>,
}

impl Model for Lines {
    ghost use Rattle.std.specs.Prelude.{List, ℕ, [], None, Some, map};
    ghost use Rattle.sd_tool.specs.Lines.{LinesView};

    ghost Value = { LinesView };

    ghost view = { λ l. record {
      bytes = l.bytes.items;
      came = elim l.came as (λ _. List (List ℕ)) [ None ↦ [] | Some s ↦ map (λ v. v.items) s ];
    } };
}

impl Lines {
    pub fn new(alloc: Global) -> Self
        ensures bytes { result.bytes ≡ [] }
        ensures came { result.came ≡ [] }
    {
        Lines {
            bytes: Vec::new(alloc),
            came: None,
        }
    }

    /// The bytes of the line, without the newline after it.
    pub fn bytes(&self) -> &[u8]
        ensures { result.now ≡ self.now.bytes }
    {
        &self.bytes
    }

    /// Reads the next line. The last one may lack its newline.
    pub fn read_next<R: BufRead>(&mut self, reader: &mut R) -> Next
        ensures came { self.new.came ≡ came_with result self.old.came self.new.bytes }
        ensures first { IfSome (R.remaining reader.old)
            (λ input. ComesFirst input result self.new.bytes) }
    {
        let next = self.read_bytes(reader);
        if let Next::Line = next {
            self.came = Some(Seen::with(&self.came, &self.bytes));
        }
        next
    }

    fn read_bytes<R: BufRead>(&mut self, reader: &mut R) -> Next
        ensures came { self.new.came ≡ self.old.came }
        ensures first { IfSome (R.remaining reader.old)
            (λ input. ComesFirst input result self.new.bytes) }
    {
        self.bytes.clear();
        let mut limited = Read::take(&mut *reader, MOST_READ);
        match limited.read_until(b'\n', &mut self.bytes) {
            Ok(0) => Next::End,
            Ok(_) => self.without_newline(reader),
            Err(fault) if fault.kind() == ErrorKind::OutOfMemory => pass_over(
                reader,
                Next::NoMemory,
            ),
            Err(_) => Next::Fault,
        }
    }

    // The line whose bytes were read, or that it is too long.
    fn without_newline<R: BufRead>(&mut self, reader: &mut R) -> Next
        ensures came { self.new.came ≡ self.old.came }
        ensures line { IsLineOf self.old.bytes result self.new.bytes }
    {
        let count = self.bytes.len();
        if ends_with_newline(&self.bytes) {
            self.bytes.truncate(count - 1);
            return Next::Line;
        }
        if count > LONGEST_LINE {
            return pass_over(reader, Next::TooLong);
        }
        Next::Line
    }
}

// Whether the bytes end with a newline.
fn ends_with_newline(bytes: &[u8]) -> bool
    ensures { result ≡ ends_with_byte 10 bytes.now }
{
    let count = bytes.len();
    count > 0 && bytes[count - 1] == b'\n'
}

/// Reads on past the next newline, or to the end of the input. A read fault is reported in place of `next`.
fn pass_over<R: BufRead>(reader: &mut R, next: Next) -> Next
    ensures { (result ≡ next) ⊎ (result ≡ Next.Fault) }
{
    match reader.skip_until(b'\n') {
        Ok(_) => next,
        Err(_) => Next::Fault,
    }
}
