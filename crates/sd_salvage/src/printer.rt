// What is salvaged, printed as it comes.
ghost use Rattle.std.specs.Prelude.{◌≡◌, ◌++◌, ◌+◌, ◌<◌, ◌^◌, [], List, ℕ, false};
ghost use Rattle.sd_files.specs.Lines.{record_lines};
ghost use Rattle.sd_salvage.specs.Lines.{AreCountable, counted_lines, end_lines, event_lines, missing_lines};
ghost use Rattle.sd_text.specs.Says.{Says, said_view};

use crate::event::Event;
use crate::line::SalvageLine;
use crate::session::SalvageEnd;
use sd_base::{Rec, Seen, VolName};
use sd_collect::Salvaged;
use sd_files::{Before, FileLine};
use sd_readback::{ReadEnd, ReadFault};
use sd_text::Printer;
use std::alloc::AllocError;
use std::io::Write;
use std::marker::{Model, PhantomData};

/// Prints each record as it comes, and each place from which on some may be lost. Its type keeps that what was printed since
/// the salvage began are the lines of that. In a contract it is a `PrinterIs`.
#[derive(Drop)]
pub struct SalvagePrinter<K: Before, W: Write> {
    out: Printer<W>,
    told: Option<Seen<Event>>,
    /// Whether some may be lost since the last record.
    lost: bool,
    /// The FileIndex of the last record, or 0.
    last: u32,
    counts: Counts,
    of: PhantomData<K>,
}

/// How many records and data bytes were printed, and how many places.
#[derive(Clone, Copy, Debug, PartialEq, Eq)]
pub struct Counts {
    pub records: u64,
    pub bytes: u64,
    pub gaps: u64,
}

impl Counts {
    // With a record of so many bytes more.
    fn with_record(self, size: u64) -> Self
        ensures records { self.records + 1 < 2 ^ 64 → result.records ≡ self.records + 1 }
        ensures bytes { self.bytes + size < 2 ^ 64 → result.bytes ≡ self.bytes + size }
        ensures gaps { result.gaps ≡ self.gaps }
    {
        Counts {
            records: self.records.saturating_add(1),
            bytes: self.bytes.saturating_add(size),
            gaps: self.gaps,
        }
    }

    // With a place more.
    fn with_gap(self) -> Self
        ensures records { result.records ≡ self.records }
        ensures bytes { result.bytes ≡ self.bytes }
        ensures gaps { self.gaps + 1 < 2 ^ 64 → result.gaps ≡ self.gaps + 1 }
    {
        Counts {
            gaps: self.gaps.saturating_add(1),
            ..self
        }
    }
}

impl<K: Before, W: Write> Model for SalvagePrinter<K, W> {
    ghost use Rattle.sd_base.specs.Seen.{seen_of};
    ghost use Rattle.sd_salvage.specs.Printer.{Keeps, PrinterIs};
    ghost use Rattle.sd_text.specs.Says.{said_view};

    ghost Value = { PrinterIs W };

    ghost view = { λ s. record { out = s.out; told = seen_of s.told } };

    ghost invariant = { λ s. Keeps K.before (said_view W.contents s.out) (seen_of s.told)
        s.lost s.last s.counts };
}

impl<K: Before, W: Write> SalvagePrinter<K, W> {
    /// One that got and was told nothing yet.
    pub fn new(out: Printer<W>) -> Self
        requires { said_view W.contents out ≡ K.before }
        ensures { result.told ≡ [] }
    {
        SalvagePrinter {
            out,
            told: None,
            lost: false,
            last: 0,
            counts: Counts {
                records: 0,
                bytes: 0,
                gaps: 0,
            },
            of: PhantomData,
        }
    }

    /// The printer, after how the salvage ended was printed too: as a reading ends, if nothing is lost.
    pub fn end(self, ended: &Result<SalvageEnd, ReadFault>) -> Printer<W>
        ensures { (last : List ℕ) × Says K.before (said_view W.contents result)
            (event_lines false 0 self.told ++ last)
            × (AreCountable self.told → last ≡ end_lines self.told ended.now) }
    {
        let SalvagePrinter {
            mut out,
            told: _,
            lost,
            last,
            counts,
            of: _,
        } = self;
        match ended {
            Ok(end) => {
                print_missing(lost, last, None, &mut out);
                print_end(end, counts, &mut out);
            }
            Err(fault) => out.line(FileLine::Refused(fault.refusal())),
        }
        out
    }
}

// Prints which FileIndexes may be lost before the next record, if some may be.
fn print_missing<W: Write>(lost: bool, last: u32, next: Option<u32>, out: &mut Printer<W>)
    ensures { Says (said_view W.contents out.old) (said_view W.contents out.new)
        (missing_lines lost last next) }
{
    if lost {
        out.line(SalvageLine::Missing {
            first: last.max(1),
            last: next,
        });
    }
}

// Prints a record: its line, its bytes as they are, and a newline.
fn print_record<W: Write>(rec: &Rec, out: &mut Printer<W>)
    ensures { Says (said_view W.contents out.old) (said_view W.contents out.new)
        (record_lines rec.now) }
{
    let bytes = rec.bytes.as_slice();
    out.line(FileLine::Record {
        index: rec.index,
        stream: rec.stream,
        size: bytes.len(),
    });
    out.bytes(bytes);
    out.bytes(b"\n");
}

// Prints what a session came to.
fn print_end<W: Write>(end: &SalvageEnd, counts: Counts, out: &mut Printer<W>)
    ensures { Says (said_view W.contents out.old) (said_view W.contents out.new)
        (counted_lines end.now counts) }
{
    let Counts {
        records,
        bytes,
        gaps,
    } = counts;
    if end.sound {
        let ended = end.ended;
        out.line(FileLine::End(ReadEnd {
            records,
            bytes,
            ended,
        }));
    } else {
        out.line(SalvageLine::Salvaged {
            records,
            bytes,
            gaps,
        });
    }
}

impl<K: Before, W: Write> Salvaged for SalvagePrinter<K, W> {
    ghost use Rattle.sd_salvage.specs.Lines.{places_in, records_in};

    ghost got = { λ s. records_in s.told };

    ghost lost = { λ s. places_in s.told };

    /// After something that can't be printed, no record is taken.
    fn put(&mut self, rec: Rec) -> Result<(), AllocError> {
        if self.out.failed() {
            return Err(AllocError);
        }
        print_missing(self.lost, self.last, Some(rec.index), &mut self.out);
        print_record(&rec, &mut self.out);
        self.lost = false;
        self.last = rec.index;
        self.counts = self.counts.with_record(rec.bytes.len() as u64);
        let event = Event::Record(rec);
        self.told = Some(Seen::with(&self.told, &event));
        Ok(())
    }

    fn lose(&mut self, volume: &VolName, at: u64) {
        self.out.line(SalvageLine::Gap {
            volume: volume.copy(),
            at,
        });
        self.lost = true;
        self.counts = self.counts.with_gap();
        let event = Event::Lost {
            volume: volume.copy(),
            at,
        };
        self.told = Some(Seen::with(&self.told, &event));
    }
}
