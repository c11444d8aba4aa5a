// A JobMedia text in, the records of its session out.
ghost use Rattle.std.specs.Prelude.{◌≡◌};
ghost use Rattle.sd_files.specs.Extract.{PrintsReading, fault_text, status_of};
ghost use Rattle.sd_files.specs.Lines.{ending_text};
ghost use Rattle.sd_text.specs.Says.{Says, said_view};
ghost use Rattle.sd_text.specs.Lines.{line};

use crate::input::{SpansFault, read_input};
use crate::lines::FileLine;
use crate::session::read_out;
use sd_driver::Driver;
use sd_readback::{ReadEnd, ReadFault};
use sd_text::Printer;
use std::alloc::Global;
use std::io::{Read, Write};
use std::marker::Brand;

/// The status of a session that was read and printed whole.
const DONE: u8 = 0;

/// The status of a reading that was refused, or could not be printed.
const FAILED: u8 = 1;

/// What a reading came to: the printer, and the status.
#[derive(Drop)]
pub struct Extracted<W> {
    pub out: Printer<W>,
    pub status: u8,
}

/// Reads a JobMedia text, up to the end of the input, then the session that it names, from the device: prints each of
/// its records as soon as it is whole, and how the reading ended. The status is 0 if all of it was read and
/// printed, and else 1. What was printed before a fault stays.
///
/// The calls of the device are those of `read_session`; none if the input is refused.
pub fn extract<D: Driver, R: Read, W: Write>(
    alloc: Global,
    driver: &mut D,
    reader: &mut R,
    out: Printer<W>,
) -> Extracted<W>
    ensures { PrintsReading (R.remaining reader.old) (D.meaning driver.old) (D.meaning driver.new)
        (said_view W.contents out) (said_view W.contents result.out) result.status }
{
    match read_input(alloc, reader) {
        Ok(read) => {
            let spans = read.spans.as_slice();
            let read = read_out::<Brand, D, W>(alloc, driver, read.key, spans, out);
            let mut out = read.out;
            print_ending(&read.result, &mut out);
            out.flush();
            let status = status_of(&read.result, out.failed());
            Extracted { out, status }
        }
        Err(fault) => given_up(fault, out),
    }
}

/// A reading that is given up before anything was asked of a device: why, is printed.
pub(crate) fn given_up<W: Write>(fault: SpansFault, mut out: Printer<W>) -> Extracted<W>
    ensures says { Says (said_view W.contents out) (said_view W.contents result.out)
        (line (fault_text fault)) }
    ensures status { result.status ≡ 1 }
{
    print_fault(fault, &mut out);
    out.flush();
    Extracted {
        out,
        status: FAILED,
    }
}

// Prints how a reading ended.
fn print_ending<W: Write>(read: &Result<ReadEnd, ReadFault>, out: &mut Printer<W>)
    ensures { Says (said_view W.contents out.old) (said_view W.contents out.new)
        (line (ending_text read.now)) }
{
    match read {
        Ok(end) => out.line(FileLine::End(*end)),
        Err(fault) => out.line(FileLine::Refused(fault.refusal())),
    }
}

// Prints why there are no spans to read.
fn print_fault<W: Write>(fault: SpansFault, out: &mut Printer<W>)
    ensures { Says (said_view W.contents out.old) (said_view W.contents out.new)
        (line (fault_text fault)) }
{
    match fault {
        SpansFault::File => out.line(FileLine::NoFile),
        SpansFault::Text(fault) => out.line(FileLine::Refused(fault.refusal())),
    }
}

// The status of a reading that ended so.
fn status_of(read: &Result<ReadEnd, ReadFault>, failed: bool) -> u8
    ensures { result ≡ status_of read.now failed }
{
    if read.is_err() || failed {
        return FAILED;
    }
    DONE
}
