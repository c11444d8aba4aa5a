// The lines of replies, of requests, of the status, and of sessions.
ghost use Rattle.std.specs.Prelude.{◌⊎◌};
ghost use Rattle.sd_base.specs.declared.refusal.Refusal.TheVariants.{Memory};
ghost use Rattle.sd_console.specs.Replies.{reply_line};
ghost use Rattle.sd_text.specs.Says.{Says, said_view};
ghost use Rattle.sd_span.specs.JobMedia.{jobmedia_text};
ghost use Rattle.sd_tool.specs.ReplyLines.{closed_words, media_words, mounted_words, read_text, refused_line, requests_text, status_text};
ghost use Rattle.sd_text.specs.Lines.{line};

use crate::line::SessionLine;
use sd_base::{Refusal, SessionKey};
use sd_console::{ReplyLine, requests_text, status_text};
use sd_desk::Request;
use sd_files::EndLine;
use sd_machine::{Reply, View};
use sd_readback::ReadEnd;
use sd_span::Span;
use sd_text::Printer;
use std::alloc::Global;
use std::io::Write;

/// Prints the line of a reply. Of a closed session it is the first of its lines.
pub(crate) fn print_reply<W: Write>(reply: &Reply, out: &mut Printer<W>)
    ensures { Says (said_view W.contents out.old) (said_view W.contents out.new)
        (line (reply_line reply.now)) }
{
    out.line(ReplyLine(reply));
}

/// Prints the JobMedia text of the session with this key if the reply has its spans, and else the reply's line.
pub(crate) fn print_media<W: Write>(key: SessionKey, reply: &Reply, out: &mut Printer<W>)
    ensures { Says (said_view W.contents out.old) (said_view W.contents out.new)
        (media_words key reply.now) }
{
    match reply {
        Reply::Media { spans } => print_jobmedia(key, spans.as_slice(), out),
        other => print_reply(other, out),
    }
}

/// Prints the line of a reply to a mount: one that names the volume itself prints no name.
pub(crate) fn print_mounted<W: Write>(reply: &Reply, out: &mut Printer<W>)
    ensures { Says (said_view W.contents out.old) (said_view W.contents out.new)
        (mounted_words reply.now) }
{
    match reply {
        Reply::Mounted { .. } => out.line("ok mounted"),
        other => print_reply(other, out),
    }
}

/// Prints the line of a reply to a close, and after it the JobMedia text if the session was closed.
pub(crate) fn print_closed<W: Write>(reply: &Reply, out: &mut Printer<W>)
    ensures { Says (said_view W.contents out.old) (said_view W.contents out.new)
        (closed_words reply.now) }
{
    print_reply(reply, out);
    if let Reply::Closed { key, spans } = reply {
        print_jobmedia(*key, spans.as_slice(), out);
    }
}

/// Prints the JobMedia text of a session: a line that names it, then a line for each span.
pub(crate) fn print_jobmedia<W: Write>(key: SessionKey, spans: &[Span], out: &mut Printer<W>)
    ensures { Says (said_view W.contents out.old) (said_view W.contents out.new)
        (jobmedia_text key spans.now) }
{
    out.line(SessionLine(key));
    for span in spans {
        out.line(span);
    }
}

/// Prints the requests for volumes, in the order in which they were asked; or that there is no memory for their text.
pub(crate) fn print_requests<W: Write>(alloc: Global, requests: &[Request], out: &mut Printer<W>)
    ensures { Says (said_view W.contents out.old) (said_view W.contents out.new)
        (requests_text requests.now)
        ⊎ Says (said_view W.contents out.old) (said_view W.contents out.new) (refused_line Memory) }
{
    match requests_text(alloc, requests) {
        Ok(text) => out.bytes(text.as_bytes()),
        Err(_) => out.line(Refusal::Memory),
    }
}

/// Prints the status of a world; or that there is no memory for its text.
pub(crate) fn print_status<W: Write>(alloc: Global, view: &View, out: &mut Printer<W>)
    ensures { Says (said_view W.contents out.old) (said_view W.contents out.new)
        (status_text view.now)
        ⊎ Says (said_view W.contents out.old) (said_view W.contents out.new) (refused_line Memory) }
{
    match status_text(alloc, view) {
        Ok(text) => out.bytes(text.as_bytes()),
        Err(_) => out.line(Refusal::Memory),
    }
}

/// Prints what a session was read to, or the refusal that its reading ended with.
pub(crate) fn print_read<W: Write>(read: &Result<ReadEnd, Refusal>, out: &mut Printer<W>)
    ensures { Says (said_view W.contents out.old) (said_view W.contents out.new)
        (line (read_text read.now)) }
{
    match read {
        Ok(end) => out.line(EndLine(*end)),
        Err(why) => out.line(*why),
    }
}
