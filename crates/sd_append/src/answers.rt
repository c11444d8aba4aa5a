// The packets that answer a client.
ghost use Rattle.std.specs.Prelude.{◌∷◌, [], map};
ghost use Rattle.sd_bnet.specs.Stream.{stream_of};
ghost use Rattle.sd_bnet.specs.declared.packet.Packet.TheVariants.{Bytes};
ghost use Rattle.sd_append.specs.Out.{PutsOut, out_view};
ghost use Rattle.sd_append.specs.Talk.{close_said, console_said, end_of_data, end_said, open_said, read_end_said, record_said, refused, said, span_said};

use crate::header::Header;
use crate::line::ReplyLine;
use crate::outbox::Outbox;
use crate::stage::refusal_in;
use sd_base::{Items, Rec, Refusal};
use sd_bnet::Payload;
use sd_machine::Reply;
use sd_readback::ReadEnd;
use sd_span::Span;
use std::io::Write;

/// Says a line.
pub(crate) fn say<W: Write>(outbox: &mut Outbox<W>, text: ReplyLine)
    ensures { PutsOut (out_view W.contents outbox.old) (out_view W.contents outbox.new)
        (stream_of (said text ∷ [])) }
{
    outbox.line(text);
}

/// Says a refusal.
pub(crate) fn refuse<W: Write>(outbox: &mut Outbox<W>, refusal: Refusal)
    ensures { PutsOut (out_view W.contents outbox.old) (out_view W.contents outbox.new)
        (stream_of (refused refusal ∷ [])) }
{
    say(outbox, ReplyLine::Refused(refusal));
}

/// Says the reply to an open.
pub(crate) fn say_open<W: Write>(outbox: &mut Outbox<W>, reply: &Reply)
    ensures { PutsOut (out_view W.contents outbox.old) (out_view W.contents outbox.new)
        (stream_of (open_said reply.now)) }
{
    match reply {
        Reply::Opened { ticket, .. } => say(outbox, ReplyLine::Opened(*ticket)),
        _ => refuse(outbox, refusal_in(reply)),
    }
}

/// Says the reply to an end.
pub(crate) fn say_end<W: Write>(outbox: &mut Outbox<W>, reply: &Reply)
    ensures { PutsOut (out_view W.contents outbox.old) (out_view W.contents outbox.new)
        (stream_of (end_said reply.now)) }
{
    match reply {
        Reply::Ended => say(outbox, ReplyLine::Ended),
        _ => refuse(outbox, refusal_in(reply)),
    }
}

/// Says the reply to a close.
pub(crate) fn say_close<W: Write>(outbox: &mut Outbox<W>, reply: &Reply)
    ensures { PutsOut (out_view W.contents outbox.old) (out_view W.contents outbox.new)
        (stream_of (close_said reply.now)) }
{
    match reply {
        Reply::Closed { key, spans } => {
            say(outbox, ReplyLine::Closed);
            say(outbox, ReplyLine::Session(*key));
            say_spans(outbox, spans.as_slice());
            outbox.end_of_data();
        }
        _ => refuse(outbox, refusal_in(reply)),
    }
}

fn say_spans<W: Write>(outbox: &mut Outbox<W>, spans: &[Span])
    ensures { PutsOut (out_view W.contents outbox.old) (out_view W.contents outbox.new)
        (stream_of (map span_said spans.now)) }
{
    for span in spans {
        outbox.line(span);
    }
}

/// Says a console's answer.
pub(crate) fn say_console<W: Write>(
    outbox: &mut Outbox<W>,
    answer: &Result<Items<Payload>, Refusal>,
)
    ensures { PutsOut (out_view W.contents outbox.old) (out_view W.contents outbox.new)
        (stream_of (console_said answer.now)) }
{
    match answer {
        Ok(texts) => {
            say_texts(outbox, texts.as_slice());
            outbox.end_of_data();
        }
        Err(refusal) => refuse(outbox, *refusal),
    }
}

fn say_texts<W: Write>(outbox: &mut Outbox<W>, texts: &[Payload])
    ensures { PutsOut (out_view W.contents outbox.old) (out_view W.contents outbox.new)
        (stream_of (map Bytes texts.now)) }
{
    for text in texts {
        outbox.packet(text.as_slice());
    }
}

/// Says the end of a read.
pub(crate) fn say_read_end<W: Write>(outbox: &mut Outbox<W>, answer: Result<ReadEnd, Refusal>)
    ensures { PutsOut (out_view W.contents outbox.old) (out_view W.contents outbox.new)
        (stream_of (end_of_data ∷ read_end_said answer ∷ [])) }
{
    outbox.end_of_data();
    match answer {
        Ok(end) => say(outbox, ReplyLine::Read(end)),
        Err(refusal) => refuse(outbox, refusal),
    }
}

/// Says a record: its header, its data and their end.
pub(crate) fn say_record<W: Write>(outbox: &mut Outbox<W>, rec: &Rec)
    ensures { PutsOut (out_view W.contents outbox.old) (out_view W.contents outbox.new)
        (stream_of (record_said rec.now)) }
{
    outbox.text(ReplyLine::Header(Header::of(rec)));
    outbox.packet(rec.bytes.as_slice());
    outbox.end_of_data();
}
