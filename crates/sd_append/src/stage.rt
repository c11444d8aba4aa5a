// Where a talk stands between two packets.
ghost use Rattle.std.specs.Prelude.{◌≡◌};
ghost use Rattle.sd_append.specs.TalkStage.{by_open, by_reply, goes_on, is_running, is_taken, own_of, own_with, refusal_in, stopped};

use crate::header::Header;
use crate::spans::SpanText;
use sd_base::{Refusal, Ticket};
use sd_machine::Reply;

/// The session that a talk opened last, and whether it goes on, by the replies so far.
#[derive(Clone, Copy)]
pub(crate) struct Own {
    pub(crate) ticket: Ticket,
    pub(crate) runs: bool,
}

/// What is due next, and of which session.
#[derive(Drop)]
pub(crate) enum TalkStage {
    /// A command.
    Command(Option<Own>),
    /// A header of a data phase, or its end.
    Header(Own),
    /// Records under a header, or their end.
    Records(Own, Header),
    /// A header of a data phase whose rest is dropped, or its end.
    Refused(Own, Refusal),
    /// Records of a data phase whose rest is dropped, or their end.
    Dropped(Own, Refusal),
    /// Spans of a session that is to be read, or their end.
    Spans(Option<Own>, SpanText),
    /// Spans of a session, or their end, once the spans can't be read any more; for this they will be refused.
    BadSpans(Option<Own>, Refusal),
    /// Nothing: the client has ended the talk.
    Over(Option<Own>),
}

impl TalkStage {
    /// The session that the talk opened last.
    pub(crate) fn own(&self) -> Option<Own>
        ensures { result ≡ own_of self.now }
    {
        match self {
            TalkStage::Command(own)
            | TalkStage::Spans(own, _)
            | TalkStage::BadSpans(own, _)
            | TalkStage::Over(own) => *own,
            TalkStage::Header(own)
            | TalkStage::Records(own, _)
            | TalkStage::Refused(own, _)
            | TalkStage::Dropped(own, _) => Some(*own),
        }
    }
}

/// Whether a session goes on of which an event was refused so.
fn goes_on(refusal: Refusal) -> bool
    ensures { result ≡ goes_on refusal }
{
    !matches!(refusal, Refusal::SessionFailed | Refusal::SessionCancelled)
}

/// The refusal that a reply is.
pub(crate) fn refusal_in(reply: &Reply) -> Refusal
    ensures { result ≡ refusal_in reply.now }
{
    match reply {
        Reply::Refused(refusal) => *refusal,
        _ => Refusal::BadCommand,
    }
}

/// What is known of a session by one more reply to an event of its own.
pub(crate) fn by_reply(own: Own, reply: &Reply) -> Own
    ensures { result ≡ by_reply own reply.now }
{
    match reply {
        Reply::Closed { .. } => stopped(own),
        Reply::Cancelled => stopped(own),
        Reply::Refused(refusal) => if goes_on(*refusal) { own } else { stopped(own) },
        _ => own,
    }
}

fn stopped(own: Own) -> Own
    ensures { result ≡ stopped own }
{
    Own {
        ticket: own.ticket,
        runs: false,
    }
}

/// The session that a talk opened last, by the reply to an open.
pub(crate) fn by_open(own: Option<Own>, reply: &Reply) -> Option<Own>
    ensures { result ≡ by_open own reply.now }
{
    match reply {
        Reply::Opened { ticket, .. } => Some(Own {
            ticket: *ticket,
            runs: true,
        }),
        _ => own,
    }
}

/// Whether a session goes on, by the replies so far.
pub(crate) fn is_running(own: &Option<Own>) -> bool
    ensures { result ≡ is_running own.now }
{
    match own {
        Some(it) => it.runs,
        None => false,
    }
}

/// The session that a talk opened last, if this is its ticket; or whichever it opened last.
pub(crate) fn own_with(own: Option<Own>, ticket: Option<Ticket>) -> Result<Own, Option<Own>>
    ensures { result ≡ own_with own ticket }
{
    let Some(it) = own else {
        return Err(None);
    };
    match ticket {
        Some(named) if it.ticket.get() == named.get() => Ok(it),
        _ => Err(Some(it)),
    }
}

/// Whether a record was taken.
pub(crate) fn is_taken(reply: &Reply) -> bool
    ensures { result ≡ is_taken reply.now }
{
    matches!(reply, Reply::Taken { .. })
}
