// The spans that an input says.
ghost use Rattle.sd_files.specs.Extract.{Input, ReadsSpans};

use sd_span::{JobMediaFault, SessionSpans, read_jobmedia};
use std::alloc::Global;
use std::io::{ErrorKind, Read};
use std::str;

/// Why no spans were read.
#[derive(Clone, Copy, Debug, PartialEq, Eq)]
pub enum SpansFault {
    /// The input can't be read.
    File,
    /// What it holds is no JobMedia text, or there is no memory for it.
    Text(JobMediaFault),
}

/// The session and the spans that the input says, which is read up to its end.
pub(crate) fn read_input<R: Read>(alloc: Global, reader: &mut R) -> Result<SessionSpans, SpansFault>
    ensures { ReadsSpans (R.remaining reader.old) result }
{
    let mut bytes = Vec::new(alloc);
    match reader.read_to_end(&mut bytes) {
        Ok(_) => spans_in(alloc, &bytes),
        Err(fault) if fault.kind() == ErrorKind::OutOfMemory => {
            Err(SpansFault::Text(JobMediaFault::Memory))
        }
        Err(_) => Err(SpansFault::File),
    }
}

// The session and the spans that these bytes say. A JobMedia text is ASCII.
fn spans_in(alloc: Global, bytes: &[u8]) -> Result<SessionSpans, SpansFault>
    ensures { Input bytes.now result }
{
    let Ok(text) = str::from_utf8(bytes) else {
        return Err(SpansFault::Text(JobMediaFault::BadSpan));
    };
    match read_jobmedia(alloc, text) {
        Ok(read) => Ok(read),
        Err(fault) => Err(SpansFault::Text(fault)),
    }
}
