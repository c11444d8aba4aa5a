// What the commands of a client come to.
ghost use Rattle.std.specs.Prelude.{◌≡◌, ◌++◌, List, Ok};
ghost use Rattle.sd_append.specs.Does.{Does};
ghost use Rattle.sd_append.specs.Out.{out_view};
ghost use Rattle.sd_append.specs.Port.{Exchange};
ghost use Rattle.sd_append.specs.Talk.{GivesUp, ObeysClose, ObeysConsole, ObeysData, ObeysEnd, ObeysOpen};

use crate::answers::{refuse, say, say_close, say_console, say_end, say_open};
use crate::line::ReplyLine;
use crate::outbox::Outbox;
use crate::port::SessionPort;
use crate::stage::{Own, TalkStage, by_open, by_reply};
use sd_base::{JobId, MediaName, PoolName, Refusal};
use sd_machine::Event;
use std::io::Write;

/// Opens a session, unless the talk's session is `running`.
pub(crate) fn open<W: Write, P: SessionPort>(
    running: bool,
    own: Option<Own>,
    job: JobId,
    pool: PoolName,
    media: MediaName,
    port: &mut P,
    outbox: &mut Outbox<W>,
) -> TalkStage
    ensures does { Does (λ asked out.
        ObeysOpen (P.clock port.old) running own job pool media asked out result)
        (P.asked port.old) (P.asked port.new)
        (out_view W.contents outbox.old) (out_view W.contents outbox.new) }
    ensures clock { P.clock port.new ≡ P.clock port.old }
{
    if running {
        refuse(outbox, Refusal::BadCommand);
        return TalkStage::Command(own);
    }
    let moment = port.moment();
    let reply = port.step(Event::Open {
        job,
        pool,
        media,
        moment,
    });
    say_open(outbox, &reply);
    TalkStage::Command(by_open(own, &reply))
}

/// Begins the data phase of the session that a command names.
pub(crate) fn data<W: Write>(named: Result<Own, Option<Own>>, outbox: &mut Outbox<W>) -> TalkStage
    ensures { (asked : List Exchange) → Does
        (λ more out. ObeysData named more out result) asked asked
        (out_view W.contents outbox.old) (out_view W.contents outbox.new) }
{
    match named {
        Ok(it) => {
            say(outbox, ReplyLine::Data);
            TalkStage::Header(it)
        }
        Err(own) => {
            refuse(outbox, Refusal::SessionNotOpen);
            TalkStage::Command(own)
        }
    }
}

/// Ends the session that a command names.
pub(crate) fn end<W: Write, P: SessionPort>(
    named: Result<Own, Option<Own>>,
    port: &mut P,
    outbox: &mut Outbox<W>,
) -> TalkStage
    ensures does { Does (λ asked out. ObeysEnd (P.clock port.old) named asked out result)
        (P.asked port.old) (P.asked port.new)
        (out_view W.contents outbox.old) (out_view W.contents outbox.new) }
    ensures clock { P.clock port.new ≡ P.clock port.old }
{
    match named {
        Ok(it) => end_own(it, port, outbox),
        Err(own) => {
            refuse(outbox, Refusal::SessionNotOpen);
            TalkStage::Command(own)
        }
    }
}

fn end_own<W: Write, P: SessionPort>(it: Own, port: &mut P, outbox: &mut Outbox<W>) -> TalkStage
    ensures does { Does (λ asked out. ObeysEnd (P.clock port.old) (Ok it) asked out result)
        (P.asked port.old) (P.asked port.new)
        (out_view W.contents outbox.old) (out_view W.contents outbox.new) }
    ensures clock { P.clock port.new ≡ P.clock port.old }
{
    let moment = port.moment();
    let reply = port.step(Event::End {
        ticket: it.ticket,
        moment,
    });
    say_end(outbox, &reply);
    TalkStage::Command(Some(by_reply(it, &reply)))
}

/// Closes the session that a command names.
pub(crate) fn close<W: Write, P: SessionPort>(
    named: Result<Own, Option<Own>>,
    port: &mut P,
    outbox: &mut Outbox<W>,
) -> TalkStage
    ensures does { Does (λ asked out. ObeysClose named asked out result)
        (P.asked port.old) (P.asked port.new)
        (out_view W.contents outbox.old) (out_view W.contents outbox.new) }
    ensures clock { P.clock port.new ≡ P.clock port.old }
{
    match named {
        Ok(it) => close_own(it, port, outbox),
        Err(own) => {
            refuse(outbox, Refusal::SessionNotOpen);
            TalkStage::Command(own)
        }
    }
}

fn close_own<W: Write, P: SessionPort>(it: Own, port: &mut P, outbox: &mut Outbox<W>) -> TalkStage
    ensures does { Does (λ asked out. ObeysClose (Ok it) asked out result)
        (P.asked port.old) (P.asked port.new)
        (out_view W.contents outbox.old) (out_view W.contents outbox.new) }
    ensures clock { P.clock port.new ≡ P.clock port.old }
{
    let reply = port.step(Event::Close { ticket: it.ticket });
    say_close(outbox, &reply);
    TalkStage::Command(Some(by_reply(it, &reply)))
}

/// Hands a console's line on.
pub(crate) fn console<W: Write, P: SessionPort>(
    own: Option<Own>,
    line: &[u8],
    port: &mut P,
    outbox: &mut Outbox<W>,
) -> TalkStage
    ensures does { Does (λ asked out.
        ObeysConsole (P.clock port.old) own line.now asked out result)
        (P.asked port.old) (P.asked port.new)
        (out_view W.contents outbox.old) (out_view W.contents outbox.new) }
    ensures clock { P.clock port.new ≡ P.clock port.old }
{
    let answer = port.console(line);
    say_console(outbox, &answer);
    TalkStage::Command(own)
}

/// Gives the session up, if it goes on.
pub(crate) fn give_up<P: SessionPort>(own: Own, port: &mut P) -> Own
    ensures asked { (asked : List Exchange) × GivesUp own asked result
        × (P.asked port.new ≡ P.asked port.old ++ asked) }
    ensures clock { P.clock port.new ≡ P.clock port.old }
{
    if !own.runs {
        return own;
    }
    let reply = port.step(Event::Cancel { ticket: own.ticket });
    by_reply(own, &reply)
}
