// The records of a session that is read back, printed as they come.
ghost use Rattle.std.specs.Prelude.{◌≡◌, ℕ, List, []};
ghost use Rattle.std.specs.List.{flat_map};
ghost use Rattle.sd_base.specs.Record.{Record};
ghost use Rattle.sd_text.specs.Says.{SaidView, Says, said_view};

use sd_base::{Rec, Seen};
use sd_readback::Sink;
use sd_text::Printer;
use std::alloc::AllocError;
use std::io::Write;
use std::marker::{Brand, Model, PhantomData};

/// What had been printed before a reading.
pub trait Before {
    ghost before: { SaidView };
}

impl Before for Brand {
    ghost use Rattle.std.specs.Prelude.{None, false};

    ghost before = { record { written = None; failed = false } };
}

/// How a record is printed. In a contract `lines` is what is printed of it.
pub trait PrintRecord {
    ghost lines: { Record → List ℕ };

    fn print<W: Write>(rec: &Rec, out: &mut Printer<W>)
        ensures { Says (said_view W.contents out.old) (said_view W.contents out.new)
            (lines rec.now) };
}

/// Prints each record as it comes, and lets it go. Its type keeps that what was printed since the reading began are
/// the lines of the records that it got. In a contract it is a `SinkIs`.
#[derive(Drop)]
pub struct RecordPrinter<K: Before, P: PrintRecord, W: Write> {
    out: Printer<W>,
    handed: Option<Seen<Rec>>,
    of: PhantomData<(K, P)>,
}

impl<K: Before, P: PrintRecord, W: Write> Model for RecordPrinter<K, P, W> {
    ghost use Rattle.std.specs.List.{flat_map};
    ghost use Rattle.sd_base.specs.Seen.{seen_of};
    ghost use Rattle.sd_text.specs.Says.{Says, said_view};
    ghost use Rattle.sd_files.specs.Sink.{SinkIs};

    ghost Value = { SinkIs W };

    ghost view = { λ s. record { out = s.out; got = seen_of s.handed } };

    ghost invariant = { λ s. Says K.before (said_view W.contents s.out)
        (flat_map P.lines (seen_of s.handed)) };
}

impl<K: Before, P: PrintRecord, W: Write> RecordPrinter<K, P, W> {
    /// One that got no record yet.
    pub fn new(out: Printer<W>) -> Self
        requires { said_view W.contents out ≡ K.before }
        ensures { result.got ≡ [] }
    {
        RecordPrinter {
            out,
            handed: None,
            of: PhantomData,
        }
    }

    /// The printer, which printed the lines of what was got.
    pub fn into_printer(self) -> Printer<W>
        ensures { Says K.before (said_view W.contents result) (flat_map P.lines self.got) }
    {
        let RecordPrinter {
            out,
            handed: _,
            of: _,
        } = self;
        out
    }
}

impl<K: Before, P: PrintRecord, W: Write> Sink for RecordPrinter<K, P, W> {
    ghost got = { λ s. s.got };

    /// Once nothing more can be printed, no record is taken.
    fn put(&mut self, rec: Rec) -> Result<(), AllocError> {
        if self.out.failed() {
            return Err(AllocError);
        }
        let handed = Seen::with(&self.handed, &rec);
        P::print(&rec, &mut self.out);
        self.handed = Some(handed);
        Ok(())
    }
}
