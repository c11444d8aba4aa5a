// The lines that the daemon answers, but for those of spans.
ghost use Rattle.std.specs.Prelude.{Some};

use crate::header::Header;
use sd_base::{Refusal, SessionKey, Ticket};
use sd_readback::ReadEnd;
use std::fmt;

/// A line of a reply. Displays it without the newline.
#[derive(Drop)]
pub enum ReplyLine {
    /// The session is open.
    Opened(Ticket),
    /// Records may follow.
    Data,
    /// The records that followed were taken.
    Appended,
    /// The session has its end label.
    Ended,
    /// All of the session lasts.
    Closed,
    /// Which session it is, before its spans.
    Session(SessionKey),
    /// What a session was read to.
    Read(ReadEnd),
    /// The header of a record that was read.
    Header(Header),
    /// The command was refused.
    Refused(Refusal),
}

impl fmt::Display for ReplyLine {
    ghost use Rattle.std.specs.Prelude.{Some};
    ghost use Rattle.sd_append.specs.ReplyLine.{line_text};

    ghost output = { λ l. Some (line_text l) };

    fn fmt<W: fmt::Write>(&self, f: &mut fmt::Formatter<W>) -> fmt::Result {
        match self {
            ReplyLine::Opened(ticket) => {
                let ticket = ticket.get();
                write!(f, "3000 OK open ticket = {ticket}")
            }
            ReplyLine::Data => write!(f, "3000 OK data"),
            ReplyLine::Appended => write!(f, "3000 OK append data"),
            ReplyLine::Ended => write!(f, "3000 OK end"),
            ReplyLine::Closed => write!(f, "3000 OK close Status = 84"),
            ReplyLine::Session(key) => write!(f, "session {} {}", key.time, key.id),
            ReplyLine::Read(end) if end.ended => write!(
                f,
                "3000 OK read Records={} Bytes={} Ended=1",
                end.records, end.bytes
            ),
            ReplyLine::Read(end) => write!(
                f,
                "3000 OK read Records={} Bytes={} Ended=0",
                end.records, end.bytes
            ),
            ReplyLine::Header(header) => write!(f, "{} {} 0", header.index(), header.stream()),
            ReplyLine::Refused(refusal) => write!(f, "{refusal}"),
        }
    }
}
