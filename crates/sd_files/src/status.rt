// The listing of a volume with what is printed for a fault, and the status that it ends with.
ghost use Rattle.std.specs.Prelude.{◌≡◌};
ghost use Rattle.sd_files.specs.Status.{PrintsListing, fault_lines, status_of};
ghost use Rattle.sd_text.specs.Says.{Says, said_view};

use crate::list_line::ListLine;
use crate::listing::{ListFault, list};
use sd_base::VolName;
use sd_driver::Driver;
use sd_text::Printer;
use std::alloc::Global;
use std::io::Write;

/// The status of a listing that was printed whole.
const DONE: u8 = 0;

/// The status of a listing that was refused, or could not be printed.
pub(crate) const FAILED: u8 = 1;

/// Prints the listing of the volume of that name, and after it the line of what it was given up for, if it was. Answers
/// the status: 0 if all of it was printed, and else 1.
pub fn list_on<D: Driver, W: Write>(
    alloc: Global,
    driver: &mut D,
    name: &VolName,
    out: &mut Printer<W>,
) -> u8
    ensures { PrintsListing name.now (D.meaning driver.old) (D.meaning driver.new)
        (said_view W.contents out.old) (said_view W.contents out.new) result }
{
    let listed = list(alloc, driver, name, out);
    print_fault(&listed, out);
    out.flush();
    status_of(&listed, out.failed())
}

// Prints the line of what a listing was given up for.
fn print_fault<W: Write>(listed: &Result<(), ListFault>, out: &mut Printer<W>)
    ensures { Says (said_view W.contents out.old) (said_view W.contents out.new)
        (fault_lines listed.now) }
{
    if let Err(fault) = listed {
        out.line(ListLine::Refused(fault.refusal()));
    }
}

// The status of a listing that ended so.
fn status_of(listed: &Result<(), ListFault>, failed: bool) -> u8
    ensures { result ≡ status_of listed.now failed }
{
    if listed.is_err() || failed {
        return FAILED;
    }
    DONE
}
