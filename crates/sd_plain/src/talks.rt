// One talk after another.
ghost use Rattle.std.specs.Prelude.{◌≡◌, ℕ, List, Option, IsTrue};
ghost use Rattle.std.specs.Io.KnownBytes.{IsAtEnd, Keeps};
ghost use Rattle.sd_plain.specs.Talks.{HeldTalks};

use sd_append::{SessionPort, TalkEnd, talk};
use std::alloc::Global;
use std::io::{BufRead, Write};

/// How often a talk reads at most, one byte or more each time.
const TURNS: u64 = 1_099_511_627_776;

/// Holds talks by what comes of this reader, one after the other, until nothing more comes; then the answer is true. It
/// is false after a talk that ended otherwise than by its client, or than by the end of the input between two commands,
/// and if it isn't known whether more comes. What one read brings beyond a talk's end is lost to the next talk.
pub(crate) fn hold_talks<R: BufRead, W: Write + Drop, P: SessionPort>(
    alloc: Global,
    reader: &mut R,
    writer: W,
    port: &mut P,
) -> bool
    ensures talks { (held : ℕ) × (rest : Option (List ℕ))
        × HeldTalks (P.clock port.old) held (R.remaining reader.old) rest
        (P.asked port.old) (P.asked port.new)
        × Keeps rest (R.remaining reader.new) × (IsTrue result → IsAtEnd rest) }
    ensures clock { P.clock port.new ≡ P.clock port.old }
{
    let mut writer = writer;
    for _held in 0..u64::MAX {
        match reader.fill_buf() {
            Ok(more) if more.is_empty() => return true,
            Ok(_) => {}
            Err(_) => return false,
        }
        let talked = talk(alloc, reader, writer, port, TURNS);
        if talked.end != Ok(TalkEnd::Finished) {
            return false;
        }
        writer = talked.writer;
    }
    false
}
