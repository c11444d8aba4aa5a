// Where the blocks of a session lie: what a closed session is read by.
ghost use Rattle.std.specs.Prelude.{◌≡◌, ◌++◌, OnOk, OnErr};
ghost use Rattle.std.specs.String.{string_bytes};
ghost use Rattle.sd_span.specs.JobMedia.{jobmedia_text};

use sd_base::{SessionKey, VolName};
use std::alloc::AllocError;
use std::fmt;

/// A stretch of a volume, from byte `start` to before byte `end`, on which blocks of a session lie;
/// `first` and `last` are the first and the last FileIndex in them, 0 and 0 if none. The spans of a
/// session are numbered by `vol_index` from 1 on (as: Bacula Developer's Guide, JobMedia).
#[derive(Drop)]
pub struct Span {
    pub volume: VolName,
    pub vol_index: u64,
    pub first: u32,
    pub last: u32,
    pub start: u64,
    pub end: u64,
}

/// Displays the line of the JobMedia text, without the newline.
impl fmt::Display for Span {
    ghost use Rattle.std.specs.Prelude.{Some};
    ghost use Rattle.sd_span.specs.JobMedia.{span_text};

    ghost output = { λ s. Some (span_text s) };

    fn fmt<W: fmt::Write>(&self, f: &mut fmt::Formatter<W>) -> fmt::Result {
        let volume = self.volume.as_str();
        let index = self.vol_index;
        let first = self.first;
        let last = self.last;
        let start = self.start;
        let end = self.end;
        write!(f, "span {volume} {index} {first} {last} {start} {end}")
    }
}

/// Adds the JobMedia text of a session at the end of `out`: a line that names the session, then a line
/// for each span. After an Err `out` is as before.
pub fn put_jobmedia(out: &mut String, key: SessionKey, spans: &[Span]) -> Result<(), AllocError>
    ensures ok { OnOk result
        (string_bytes out.new ≡ string_bytes out.old ++ jobmedia_text key spans.now) }
    ensures err { OnErr result (string_bytes out.new ≡ string_bytes out.old) }
{
    let alloc = *out.allocator();
    let mut text = format!(in alloc; "session {} {}\n", key.time, key.id)?;
    for span in spans {
        writeln!(text, "{span}")?;
    }
    out.push_str(&text)
}
