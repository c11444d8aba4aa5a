// A session that is read back and printed record by record.
ghost use Rattle.std.specs.Prelude.{◌≡◌, List};
ghost use Rattle.sd_base.specs.Record.{Record};
ghost use Rattle.sd_files.specs.Extract.{ReadsSession};
ghost use Rattle.sd_files.specs.Lines.{records_lines};
ghost use Rattle.sd_text.specs.Says.{Says, said_view};

use crate::record::WholeRecords;
use crate::sink::{Before, RecordPrinter};
use sd_base::SessionKey;
use sd_driver::Driver;
use sd_readback::{ReadEnd, ReadFault, read_session};
use sd_span::Span;
use sd_text::Printer;
use std::alloc::Global;
use std::io::Write;

/// What a reading came to.
#[derive(Drop)]
pub(crate) struct ReadOut<W> {
    pub(crate) out: Printer<W>,
    pub(crate) result: Result<ReadEnd, ReadFault>,
}

/// Reads a session back, its records printed as they come.
pub(crate) fn read_out<K: Before, D: Driver, W: Write>(
    alloc: Global,
    driver: &mut D,
    key: SessionKey,
    spans: &[Span],
    out: Printer<W>,
) -> ReadOut<W>
    requires { said_view W.contents out ≡ K.before }
    ensures { (records : List Record)
        × ReadsSession (D.meaning driver.old) (D.meaning driver.new)
        key spans.now records result.result
        × Says K.before (said_view W.contents result.out) (records_lines records) }
{
    let mut sink: RecordPrinter<K, WholeRecords, W> = RecordPrinter::new(out);
    let result = read_session(alloc, driver, key, spans, &mut sink);
    ReadOut {
        out: sink.into_printer(),
        result,
    }
}
