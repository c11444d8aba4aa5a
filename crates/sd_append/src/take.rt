// What payloads come to.
ghost use Rattle.std.specs.Prelude.{◌≡◌, ◌⊎◌, ◌++◌, [], true, false, IfSome, IfNone};
ghost use Rattle.sd_append.specs.Does.{Does};
ghost use Rattle.sd_append.specs.Out.{out_view};
ghost use Rattle.sd_append.specs.Talk.{Obeys, TakesBytes, TakesCommand, TakesSpan, is_one_line};
ghost use Rattle.sd_append.specs.Text.{trimmed};
ghost use Rattle.sd_text.specs.Lines.{line};

use crate::answers::refuse;
use crate::command::Command;
use crate::data::{take_header, take_record};
use crate::obey::{close, console, data, end, open};
use crate::outbox::Outbox;
use crate::port::SessionPort;
use crate::read::read_command;
use crate::spans::{SpanText, read_span};
use crate::stage::{Own, TalkStage, is_running, own_with};
use crate::text::trimmed;
use sd_base::Refusal;
use sd_bnet::Payload;
use sd_text::ascii_text;
use std::alloc::Global;
use std::io::Write;

/// Takes a packet where a command is due.
pub(crate) fn take_command<W: Write, P: SessionPort>(
    alloc: Global,
    own: Option<Own>,
    bytes: &[u8],
    port: &mut P,
    outbox: &mut Outbox<W>,
) -> TalkStage
    ensures does { Does (λ asked out. TakesCommand
        (P.clock port.old) own bytes.now asked out result)
        (P.asked port.old) (P.asked port.new)
        (out_view W.contents outbox.old) (out_view W.contents outbox.new) }
    ensures clock { P.clock port.new ≡ P.clock port.old }
{
    match read_command(bytes) {
        Ok(command) => obey(alloc, own, command, port, outbox),
        Err(fault) => {
            refuse(outbox, fault.refusal());
            TalkStage::Command(own)
        }
    }
}

fn obey<W: Write, P: SessionPort>(
    alloc: Global,
    own: Option<Own>,
    command: Command<'_>,
    port: &mut P,
    outbox: &mut Outbox<W>,
) -> TalkStage
    ensures does { Does (λ asked out. Obeys (P.clock port.old) own command.entry asked out result)
        (P.asked port.old) (P.asked port.new)
        (out_view W.contents outbox.old) (out_view W.contents outbox.new) }
    ensures clock { P.clock port.new ≡ P.clock port.old }
{
    let running = is_running(&own);
    match command {
        Command::Open { job, pool, media } => open(running, own, job, pool, media, port, outbox),
        Command::Data(ticket) => data(own_with(own, ticket), outbox),
        Command::End(ticket) => end(own_with(own, ticket), port, outbox),
        Command::Close(ticket) => close(own_with(own, ticket), port, outbox),
        Command::Read(key) => TalkStage::Spans(own, SpanText::new(alloc, key)),
        Command::Console(line) => console(own, line.as_slice(), port, outbox),
    }
}

/// Takes a packet where a span is due. After one that is none, nothing is kept of those that came or come.
fn take_span(alloc: Global, own: Option<Own>, text: SpanText, bytes: &[u8]) -> TalkStage
    ensures { TakesSpan (is_one_line (trimmed bytes.now)) own text (trimmed bytes.now)
        [] [] result }
{
    let Some(line) = one_line(trimmed(bytes)) else {
        return TalkStage::BadSpans(own, Refusal::BadSpan);
    };
    match read_span(alloc, line) {
        Ok(()) => add_span(own, text, line),
        Err(fault) => TalkStage::BadSpans(own, fault.refusal()),
    }
}

/// Adds the line of a span to the text.
fn add_span(own: Option<Own>, text: SpanText, more: &str) -> TalkStage
    ensures { (result ≡ TalkStage.Spans own (text ++ line more.now))
        ⊎ (result ≡ TalkStage.BadSpans own Refusal.Memory) }
{
    match text.with(more) {
        Ok(longer) => TalkStage::Spans(own, longer),
        Err(_) => TalkStage::BadSpans(own, Refusal::Memory),
    }
}

/// The bytes as a text, if they are one line of ASCII.
fn one_line(bytes: &[u8]) -> Option<&str>
    ensures found { IfSome result (λ text.
        (text.now ≡ bytes.now) × (is_one_line bytes.now ≡ true)) }
    ensures none { IfNone result (is_one_line bytes.now ≡ false) }
{
    if !is_one_line(bytes) {
        return None;
    }
    match ascii_text(bytes) {
        Some(text) => Some(text),
        None => None,
    }
}

fn is_one_line(bytes: &[u8]) -> bool
    ensures { result ≡ is_one_line bytes.now }
{
    bytes.iter().all(|byte| *byte < 128 && *byte != b'\n')
}

/// Takes a payload.
pub(crate) fn take_bytes<W: Write, P: SessionPort>(
    alloc: Global,
    stage: TalkStage,
    payload: Payload,
    port: &mut P,
    outbox: &mut Outbox<W>,
) -> TalkStage
    ensures does { Does (λ asked out. TakesBytes (P.clock port.old) stage payload asked out result)
        (P.asked port.old) (P.asked port.new)
        (out_view W.contents outbox.old) (out_view W.contents outbox.new) }
    ensures clock { P.clock port.new ≡ P.clock port.old }
{
    match stage {
        TalkStage::Command(own) => take_command(alloc, own, payload.as_slice(), port, outbox),
        TalkStage::Header(own) => take_header(own, payload.as_slice(), port),
        TalkStage::Records(own, header) => take_record(own, header, payload, port),
        TalkStage::Refused(own, refusal) => TalkStage::Dropped(own, refusal),
        TalkStage::Dropped(own, refusal) => TalkStage::Dropped(own, refusal),
        TalkStage::Spans(own, text) => take_span(alloc, own, text, payload.as_slice()),
        TalkStage::BadSpans(own, refusal) => TalkStage::BadSpans(own, refusal),
        TalkStage::Over(own) => TalkStage::Over(own),
    }
}
