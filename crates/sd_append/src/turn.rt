// What a packet of a client comes to.
ghost use Rattle.std.specs.Prelude.{◌≡◌};
ghost use Rattle.sd_append.specs.Conversation.{Converses};
ghost use Rattle.sd_append.specs.Does.{Does};
ghost use Rattle.sd_bnet.specs.Stream.{stream_of};
ghost use Rattle.sd_append.specs.Out.{PutsOut, out_view};
ghost use Rattle.sd_append.specs.Talk.{ReadsBack, Takes, TakesEnd, TakesSignal, poll_said};

use crate::answers::{refuse, say, say_read_end};
use crate::line::ReplyLine;
use crate::outbox::Outbox;
use crate::port::SessionPort;
use crate::reading::read_out;
use crate::signal::{Meaning, meaning_of};
use crate::spans::SpanText;
use crate::stage::{Own, TalkStage};
use crate::take::take_bytes;
use sd_base::Refusal;
use sd_bnet::Packet;
use std::alloc::Global;
use std::io::Write;
use std::marker::Brand;

/// Where the talk stands after a packet, and its outbox.
#[derive(Drop)]
pub(crate) struct TalkTurn<W> {
    pub(crate) stage: TalkStage,
    pub(crate) outbox: Outbox<W>,
}

/// Takes a packet.
pub(crate) fn take<W: Write, P: SessionPort>(
    alloc: Global,
    stage: TalkStage,
    packet: Packet,
    port: &mut P,
    mut outbox: Outbox<W>,
) -> TalkTurn<W>
    ensures does { Does (λ asked out. Takes (P.clock port.old) stage packet asked out result.stage)
        (P.asked port.old) (P.asked port.new)
        (out_view W.contents outbox) (out_view W.contents result.outbox) }
    ensures clock { P.clock port.new ≡ P.clock port.old }
{
    match packet {
        Packet::Bytes(payload) => {
            let stage = take_bytes(alloc, stage, payload, port, &mut outbox);
            TalkTurn { stage, outbox }
        }
        Packet::Signal(signal) => take_signal(alloc, meaning_of(signal), stage, port, outbox),
    }
}

fn take_signal<W: Write, P: SessionPort>(
    alloc: Global,
    meaning: Meaning,
    stage: TalkStage,
    port: &mut P,
    outbox: Outbox<W>,
) -> TalkTurn<W>
    ensures does { Does (λ asked out. TakesSignal meaning stage asked out result.stage)
        (P.asked port.old) (P.asked port.new)
        (out_view W.contents outbox) (out_view W.contents result.outbox) }
    ensures clock { P.clock port.new ≡ P.clock port.old }
{
    match meaning {
        Meaning::EndOfData => take_end(alloc, stage, port, outbox),
        Meaning::Terminate => TalkTurn {
            stage: TalkStage::Over(stage.own()),
            outbox,
        },
        Meaning::Poll => {
            let mut outbox = outbox;
            answer_poll(&stage, &mut outbox);
            TalkTurn { stage, outbox }
        }
        Meaning::Other => TalkTurn { stage, outbox },
    }
}

/// Answers a poll or a heartbeat, if a command is due.
fn answer_poll<W: Write>(stage: &TalkStage, outbox: &mut Outbox<W>)
    ensures { PutsOut (out_view W.contents outbox.old) (out_view W.contents outbox.new)
        (stream_of (poll_said stage.now)) }
{
    if let TalkStage::Command(_) = stage {
        outbox.heartbeat_response();
    }
}

/// Takes the end of data.
fn take_end<W: Write, P: SessionPort>(
    alloc: Global,
    stage: TalkStage,
    port: &mut P,
    mut outbox: Outbox<W>,
) -> TalkTurn<W>
    ensures does { Does (λ asked out. TakesEnd stage asked out result.stage)
        (P.asked port.old) (P.asked port.new)
        (out_view W.contents outbox) (out_view W.contents result.outbox) }
    ensures clock { P.clock port.new ≡ P.clock port.old }
{
    match stage {
        TalkStage::Command(own) => TalkTurn {
            stage: TalkStage::Command(own),
            outbox,
        },
        TalkStage::Header(own) => {
            say(&mut outbox, ReplyLine::Appended);
            TalkTurn {
                stage: TalkStage::Command(Some(own)),
                outbox,
            }
        }
        TalkStage::Records(own, _) => TalkTurn {
            stage: TalkStage::Header(own),
            outbox,
        },
        TalkStage::Refused(own, refusal) => {
            refuse(&mut outbox, refusal);
            TalkTurn {
                stage: TalkStage::Command(Some(own)),
                outbox,
            }
        }
        TalkStage::Dropped(own, refusal) => TalkTurn {
            stage: TalkStage::Refused(own, refusal),
            outbox,
        },
        TalkStage::Spans(own, text) => read_back(alloc, own, text, port, outbox),
        TalkStage::BadSpans(own, refusal) => {
            say_read_end(&mut outbox, Err(refusal));
            TalkTurn {
                stage: TalkStage::Command(own),
                outbox,
            }
        }
        TalkStage::Over(own) => TalkTurn {
            stage: TalkStage::Over(own),
            outbox,
        },
    }
}

/// Reads a session back by the spans that have come.
fn read_back<W: Write, P: SessionPort>(
    alloc: Global,
    own: Option<Own>,
    text: SpanText,
    port: &mut P,
    mut outbox: Outbox<W>,
) -> TalkTurn<W>
    ensures does { Does (λ asked out. ReadsBack own text asked out result.stage)
        (P.asked port.old) (P.asked port.new)
        (out_view W.contents outbox) (out_view W.contents result.outbox) }
    ensures clock { P.clock port.new ≡ P.clock port.old }
{
    match text.read(alloc) {
        Ok(read) => {
            let mut out = read_out::<Brand, W, P>(outbox, port, read.key, read.spans.as_slice());
            say_read_end(&mut out.outbox, out.answer);
            TalkTurn {
                stage: TalkStage::Command(own),
                outbox: out.outbox,
            }
        }
        Err(fault) => {
            say_read_end(&mut outbox, Err(fault.refusal()));
            TalkTurn {
                stage: TalkStage::Command(own),
                outbox,
            }
        }
    }
}

/// Takes packets one after another.
pub(crate) fn take_all<W: Write, P: SessionPort>(
    alloc: Global,
    stage: TalkStage,
    packets: Vec<Packet>,
    port: &mut P,
    outbox: Outbox<W>,
) -> TalkTurn<W>
    ensures does { Does (λ asked out. Converses
        (P.clock port.old) stage packets.items asked out result.stage)
        (P.asked port.old) (P.asked port.new)
        (out_view W.contents outbox) (out_view W.contents result.outbox) }
    ensures clock { P.clock port.new ≡ P.clock port.old }
{
    let mut taken = TalkTurn { stage, outbox };
    for packet in packets {
        taken = take_next(alloc, taken, packet, port);
    }
    taken
}

fn take_next<W: Write, P: SessionPort>(
    alloc: Global,
    taken: TalkTurn<W>,
    packet: Packet,
    port: &mut P,
) -> TalkTurn<W>
    ensures does { Does (λ asked out. Takes
        (P.clock port.old) taken.stage packet asked out result.stage)
        (P.asked port.old) (P.asked port.new)
        (out_view W.contents taken.outbox) (out_view W.contents result.outbox) }
    ensures clock { P.clock port.new ≡ P.clock port.old }
{
    let TalkTurn { stage, outbox } = taken;
    take(alloc, stage, packet, port, outbox)
}
