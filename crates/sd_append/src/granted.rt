// A reader that is asked for bytes a number of times and no more, and only while nothing waits to go out.
ghost use Rattle.std.specs.Prelude.{◌≡◌, ◌+◌, ◌<◌, [], false};
ghost use Rattle.std.specs.Io.{ReadsAtMost};
ghost use Rattle.std.specs.Io.KnownBytes.{ReadConsumes};
ghost use Rattle.sd_append.specs.Out.{out_view};

use crate::outbox::Outbox;
use std::io::{self, Read, Write};

/// A reader with so many reads left. A talk has nothing else to read by.
#[derive(Drop)]
pub(crate) struct GrantedReader<'r, R> {
    reader: &'r mut R,
    left: u64,
}

impl<'r, R: Read> GrantedReader<'r, R> {
    /// This reader, with so many reads.
    pub(crate) fn new(reader: &'r mut R, reads: u64) -> Self
        ensures same_reader { result.reader.ghost_name ≡ reader.entry.ghost_name }
        ensures reader { result.reader.now ≡ reader.old }
        ensures left { result.left ≡ reads }
    {
        GrantedReader {
            reader,
            left: reads,
        }
    }

    /// How many reads are left.
    pub(crate) fn left(&self) -> u64
        ensures { result ≡ self.now.left }
    {
        self.left
    }

    /// Reads once, which is one of the reads that are left. All that answers the packets so far has been written: in
    /// this outbox nothing waits, and no write has failed.
    pub(crate) fn read<W: Write>(
        &mut self,
        outbox: &Outbox<W>,
        input: &mut [u8],
    ) -> io::Result<usize>
        requires left { 0 < self.old.left }
        requires written { (out_view W.contents outbox.now).waiting ≡ [] }
        requires well { (out_view W.contents outbox.now).failed ≡ false }
        ensures same_reader { self.new.reader.ghost_name ≡ self.old.reader.ghost_name }
        ensures left { self.new.left + 1 ≡ self.old.left }
        ensures bound { ReadsAtMost result input.new }
        ensures bytes { ReadConsumes (R.remaining self.old.reader.now)
            (R.remaining self.new.reader.now) result input.new }
    {
        self.left -= 1;
        self.reader.read(input)
    }
}
