// A session salvaged from the files of a folder.
ghost use Rattle.std.specs.Prelude.{◌≡◌, ◌++◌, ◌<◌, ◌^◌, Bool, List, length, ℕ, IfOk, IsErrOf, false};
ghost use Rattle.sd_base.specs.Record.{Record};
ghost use Rattle.sd_driver.specs.Meaning.{IsHonest};
ghost use Rattle.sd_files.specs.End.{end_text};
ghost use Rattle.sd_files.specs.Lines.{records_lines};
ghost use Rattle.sd_label.specs.Cutting.{total_bytes};
ghost use Rattle.sd_readback.specs.Reading.{Reads, volumes_on};
ghost use Rattle.sd_salvage.specs.Lines.{AreCountable, end_lines, event_lines, places_in, records_in, salvage_status};
ghost use Rattle.sd_salvage.specs.Salvage.{Salvages};
ghost use Rattle.sd_salvage.specs.declared.event.Event.{Event};
ghost use Rattle.sd_text.specs.Lines.{line};
ghost use Rattle.sd_text.specs.Says.{Says, said_view};
ghost use Rattle.sd_volume.specs.Device.{OnlyReads};

use crate::printer::SalvagePrinter;
use crate::session::{SalvageEnd, salvage};
use sd_base::Refusal;
use sd_driver::Driver;
use sd_files::{Before, FileLine, Host, ShownProgress};
use sd_readback::ReadFault;
use sd_span::{SessionSpans, read_jobmedia};
use sd_text::Printer;
use std::alloc::Global;
use std::io::{ErrorKind, Read, Write};
use std::marker::Brand;
use std::str;

/// The status if the session was read and printed whole.
const DONE: u8 = 0;

/// The status if some may be lost, or it was refused, or could not be printed.
const FAILED: u8 = 1;

/// Reads the JobMedia text in the file `spans`, then salvages the session that it names from the volumes in `folder`, each a
/// file of its name: see `salvage`. What it prints of a session of which nothing is lost is what a reading prints. Files are
/// only read, and none is made. Answers the status.
pub fn salvage_back<H: Host + AllocGlobal, W: Write>(
    host: &H,
    spans: &str,
    folder: &str,
    progress: ShownProgress,
    out: Printer<W>,
) -> Salvage<W> {
    let read = match spans_in(host, spans) {
        Ok(read) => read,
        Err(why) => return given_up(why, out),
    };
    let Ok(mut device) = host.open_folder(folder, progress) else {
        return given_up(FileLine::Refused(Refusal::Memory), out);
    };
    let salvaged = salvage_out::<Brand, H::Shelf, W>(host.alloc(), &mut device, &read, out);
    let mut out = salvaged.out;
    out.flush();
    let status = status_of(&salvaged.result, out.failed());
    Salvage { out, status }
}

/// What a salvage came to: the printer, and the status.
#[derive(Drop)]
pub struct Salvage<W> {
    pub out: Printer<W>,
    pub status: u8,
}

// What was printed of a session, and what it came to.
#[derive(Drop)]
struct SalvagedOut<W> {
    out: Printer<W>,
    result: Result<SalvageEnd, ReadFault>,
}

// Salvages a session, and prints what it comes to.
fn salvage_out<K: Before, D: Driver, W: Write>(
    alloc: Global,
    driver: &mut D,
    read: &SessionSpans,
    out: Printer<W>,
) -> SalvagedOut<W>
    requires { said_view W.contents out ≡ K.before }
    ensures device { OnlyReads (IsErrOf result.result ReadFault.Device)
        (D.meaning driver.old) (D.meaning driver.new) }
    ensures salvages { (told : List Event) × (last : List ℕ)
        × Says K.before (said_view W.contents result.out) (event_lines false 0 told ++ last)
        × (AreCountable told → last ≡ end_lines told result.result)
        × (IsHonest (D.meaning driver.old) → IfOk result.result
        (Salvages (volumes_on (D.meaning driver.old).shelf) read.now.key read.now.spans
        (records_in told) (places_in told))) }
    ensures whole { IsHonest (D.meaning driver.old)
        → (records : List Record) (ended : Bool)
        → length records < 2 ^ 64 → total_bytes records < 2 ^ 64
        → Reads (volumes_on (D.meaning driver.old).shelf) read.now.key read.now.spans records ended
        → IfOk result.result (λ _end. Says K.before (said_view W.contents result.out)
        (records_lines records ++ line (end_text (record {
          records = length records;
          bytes = total_bytes records;
          ended = ended;
        })))) }
{
    let mut sink: SalvagePrinter<K, W> = SalvagePrinter::new(out);
    let result = salvage(alloc, driver, read.key, read.spans.as_slice(), &mut sink);
    let out = sink.end(&result);
    SalvagedOut { out, result }
}

// The status of a salvage that ended so.
fn status_of(salvaged: &Result<SalvageEnd, ReadFault>, failed: bool) -> u8
    ensures { result ≡ salvage_status salvaged.now failed }
{
    match salvaged {
        Ok(end) if end.sound && !failed => DONE,
        _ => FAILED,
    }
}

// Prints why nothing is salvaged, or no more.
fn given_up<W: Write>(why: FileLine, mut out: Printer<W>) -> Salvage<W> {
    out.line(why);
    out.flush();
    Salvage {
        out,
        status: FAILED,
    }
}

// The session and the spans that the file at this path says, or the line of why there are none.
fn spans_in<H: Host + AllocGlobal>(host: &H, path: &str) -> Result<SessionSpans, FileLine> {
    let Ok(mut reader) = host.open_text(path) else {
        return Err(FileLine::NoFile);
    };
    let mut bytes = Vec::new(host.alloc());
    match reader.read_to_end(&mut bytes) {
        Ok(_) => {}
        Err(fault) if fault.kind() == ErrorKind::OutOfMemory => {
            return Err(FileLine::Refused(Refusal::Memory));
        }
        Err(_) => return Err(FileLine::NoFile),
    }
    let Ok(text) = str::from_utf8(&bytes) else {
        return Err(FileLine::Refused(Refusal::BadSpan));
    };
    match read_jobmedia(host.alloc(), text) {
        Ok(read) => Ok(read),
        Err(fault) => Err(FileLine::Refused(fault.refusal())),
    }
}
