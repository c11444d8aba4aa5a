// The lines that read a session back.
ghost use Rattle.std.specs.Prelude.{◌≡◌};
ghost use Rattle.std.specs.Option.{option_copied};
ghost use Rattle.sd_core.specs.View.{status_at};
ghost use Rattle.sd_text.specs.Says.{said_view};
ghost use Rattle.sd_tool.specs.Doing.{ReadsBack, ReadsOn, ReadsOut, ReadsPrinted, ReadsPrintedOn, ReadsUnless, plain_words};
ghost use Rattle.sd_tool.specs.Refused.{unread_refusal};
ghost use Rattle.sd_tool.specs.Script.{Prints, script_view};

use crate::printed::Closed;
use crate::record::RecordPrinter;
use crate::replies::{print_read, print_reply};
use crate::run::Script;
use crate::stage::ScriptStage;
use sd_base::{Refusal, SessionKey, Ticket};
use sd_driver::Driver;
use sd_files::Before;
use sd_lane::Lanes;
use sd_machine::{Event, Reply};
use sd_readback::ReadEnd;
use sd_session::Status;
use sd_span::Span;
use sd_text::Printer;
use std::io::Write;
use std::marker::Brand;

impl<D: Driver + Drop, Q: Lanes + Drop, W: Write + Drop> Script<D, Q, W> {
    /// Reads a closed or a cancelled session back, by its spans as they are now.
    pub(crate) fn read(mut self, ticket: Ticket) -> Self
        ensures { ReadsUnless (λ d. D.meaning d) ticket
            (unread_refusal (status_at ticket self.stage.world.sessions))
            (script_view W.contents self) (script_view W.contents result) }
    {
        let status = self.stage.status(ticket);
        if let Some(why) = unread(status) {
            self.refuse(why);
            return self;
        }
        let key = self.stage.key_of(ticket);
        match self.stage.step(Event::Media { ticket }) {
            Reply::Media { spans } => self.read_spans(key, spans.as_slice()),
            reply => self.told(&reply),
        }
    }

    // A reply is printed.
    fn told(mut self, reply: &Reply) -> Self
        ensures { Prints (script_view W.contents self) (script_view W.contents result)
            (plain_words reply.now) }
    {
        print_reply(reply, &mut self.out);
        self
    }

    /// Reads a session back by what its close printed, in this run or an earlier one.
    pub(crate) fn again(self, key: SessionKey) -> Self
        ensures { ReadsPrinted (λ d. D.meaning d) key (script_view W.contents self)
            (script_view W.contents result) }
    {
        let Script {
            alloc,
            mut stage,
            moment,
            printed,
            out,
        } = self;
        let out = read_printed(&mut stage, key, printed.find(key), out);
        Script {
            alloc,
            stage,
            moment,
            printed,
            out,
        }
    }

    fn read_spans(self, key: SessionKey, spans: &[Span]) -> Self
        ensures { ReadsBack (λ d. D.meaning d) key spans.now
            (script_view W.contents self) (script_view W.contents result) }
    {
        let Script {
            alloc,
            mut stage,
            moment,
            printed,
            out,
        } = self;
        let out = read_back(&mut stage, key, spans, out);
        Script {
            alloc,
            stage,
            moment,
            printed,
            out,
        }
    }
}

// Reads a session back by what was printed of it, if something was.
fn read_printed<D: Driver + Drop, Q: Lanes + Drop, W: Write>(
    stage: &mut ScriptStage<D, Q>,
    key: SessionKey,
    printed: Option<&Closed>,
    mut out: Printer<W>,
) -> Printer<W>
    ensures { ReadsPrintedOn (λ d. D.meaning d) key
        (option_copied printed.entry) stage.old stage.new
        (said_view W.contents out) (said_view W.contents result) }
{
    match printed {
        None => {
            out.line(Refusal::SessionNotOpen);
            out
        }
        Some(closed) => read_back(stage, key, closed.spans.as_slice(), out),
    }
}

// Reads a session back, and prints its records as they come, and how that ended.
fn read_back<D: Driver + Drop, Q: Lanes + Drop, W: Write>(
    stage: &mut ScriptStage<D, Q>,
    key: SessionKey,
    spans: &[Span],
    out: Printer<W>,
) -> Printer<W>
    ensures { ReadsOn (λ d. D.meaning d) key spans.now stage.old stage.new
        (said_view W.contents out) (said_view W.contents result) }
{
    let ReadTo { result, mut out } = read_out::<Brand, D, Q, W>(stage, key, spans, out);
    print_read(&result, &mut out);
    out
}

/// What a session was read to, and what its records were printed to.
#[derive(Drop)]
struct ReadTo<W> {
    result: Result<ReadEnd, Refusal>,
    out: Printer<W>,
}

// Reads a session back, and prints its records as they come.
fn read_out<K: Before, D: Driver + Drop, Q: Lanes + Drop, W: Write>(
    stage: &mut ScriptStage<D, Q>,
    key: SessionKey,
    spans: &[Span],
    out: Printer<W>,
) -> ReadTo<W>
    requires { said_view W.contents out ≡ K.before }
    ensures { ReadsOut (λ d. D.meaning d) key spans.now stage.old stage.new result.result
        K.before (said_view W.contents result.out) }
{
    let mut records: RecordPrinter<K, W> = RecordPrinter::new(out);
    let result = stage.read(key, spans, &mut records);
    ReadTo {
        result,
        out: records.into_printer(),
    }
}

/// Why a session can't be read back, if its status says so.
fn unread(status: Option<Status>) -> Option<Refusal>
    ensures { result ≡ unread_refusal status }
{
    match status {
        None => Some(Refusal::SessionNotOpen),
        Some(Status::Active | Status::Ended) => Some(Refusal::NotYet),
        Some(Status::Failed) => Some(Refusal::SessionFailed),
        Some(Status::Closed | Status::Cancelled | Status::Purged) => None,
    }
}
