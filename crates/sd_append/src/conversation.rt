// A talk with a client: reads its packets, takes them one after another, and writes what answers them.
ghost use Rattle.std.specs.Prelude.{◌≡◌, ◌⊎◌, ◌+◌, ◌<◌, ◌≤◌, ◌++◌, [], ℕ, List, Option, length, IsNone, IfOk, false};
ghost use Rattle.std.specs.Io.KnownBytes.{Consumes};
ghost use Rattle.sd_bnet.specs.Stream.{stream_of};
ghost use Rattle.sd_append.specs.Conversation.{GivesUpLast, end_says};
ghost use Rattle.sd_append.specs.Out.{PutsOut, out_view};
ghost use Rattle.sd_append.specs.Port.{Exchange};
ghost use Rattle.sd_append.specs.Standing.{Around, Comes, Halts, Stands, around};
ghost use Rattle.sd_append.specs.Talks.{IsCutOff, IsWithin, Talks};

use crate::answers::refuse;
use crate::end::TalkEnd;
use crate::granted::GrantedReader;
use crate::obey::give_up;
use crate::outbox::{OUT_BYTES, Outbox};
use crate::port::SessionPort;
use crate::stage::{Own, TalkStage};
use crate::standing::{Standing, Turned, end_behind, fault_end, input_end, written_end};
use crate::turn::take_all;
use sd_base::Refusal;
use sd_bnet::Feeder;
use std::alloc::{AllocError, Global};
use std::io::{Read, Write};

/// How many bytes a talk asks its reader for at once.
pub const READ_BYTES: usize = 64 * 1024;

/// How a talk ended, and its writer.
#[derive(Drop)]
pub struct Talked<W> {
    /// How it ended. `Err` is out of memory: what was read, done and written until then stays.
    pub end: Result<TalkEnd, AllocError>,
    pub writer: W,
}

/// The room that a talk keeps: for what it reads, and for what it is to write.
#[derive(Drop)]
struct Buffers {
    input: Vec<u8>,
    waiting: Vec<u8>,
}

impl Buffers {
    fn new(alloc: Global) -> Result<Self, AllocError>
        ensures input { IfOk result (λ b. length b.input.items ≡ 65536) }
        ensures waiting { IfOk result (λ b. b.waiting.items ≡ []) }
    {
        Ok(Buffers {
            input: vec![in alloc; 0; READ_BYTES]?,
            waiting: Vec::with_capacity(alloc, OUT_BYTES)?,
        })
    }
}

/// Holds a talk with a client: reads its packets until the talk ends, at most `turns` times, has `port` do
/// what they ask for, and writes the packets that answer them. What waits to be written is written out
/// before each read and at the end; the writer isn't flushed. An `Err` of a read or of a write ends the
/// talk, whatever its kind.
///
/// However a talk ends, its session is cancelled if by the replies so far it is active or ended. Its opens, its ends
/// and its lines of a console bear the moment that the port is set to, which stays.
pub fn talk<R: Read, W: Write, P: SessionPort>(
    alloc: Global,
    reader: &mut R,
    writer: W,
    port: &mut P,
    turns: u64,
) -> Talked<W>
    ensures talks { (bytes : List ℕ)
        × Talks (P.clock port.old) (R.remaining reader.old) (R.remaining reader.new)
        (P.asked port.old) (P.asked port.new) (W.contents writer)
        (W.contents result.writer) result.end bytes
        × IsWithin turns result.end bytes }
    ensures clock { P.clock port.new ≡ P.clock port.old }
{
    let Ok(buffers) = Buffers::new(alloc) else {
        return Talked {
            end: Err(AllocError),
            writer,
        };
    };
    let Buffers { mut input, waiting } = buffers;
    let standing = Standing {
        feeder: Feeder::new(alloc),
        stage: TalkStage::Command(None),
        outbox: Outbox::new(writer, waiting),
    };
    let mut granted = GrantedReader::new(reader, turns);
    take_turns(alloc, &mut granted, input.as_mut_slice(), standing, port)
}

/// Takes turns until the talk ends or no read is left, and ends it.
fn take_turns<R: Read, W: Write, P: SessionPort>(
    alloc: Global,
    granted: &mut GrantedReader<'_, R>,
    input: &mut [u8],
    standing: Standing<W>,
    port: &mut P,
) -> Talked<W>
    requires { length input.old ≡ 65536 }
    ensures talks { (start : Around) → start.out.waiting ≡ [] → start.out.failed ≡ false
        → Stands (P.clock port.old) start
        (around (R.remaining granted.old.reader.now) (P.asked port.old)
        (out_view W.contents standing.outbox))
        standing.feeder standing.stage []
        → (bytes : List ℕ)
        × Talks (P.clock port.old) start.left (R.remaining granted.new.reader.now)
        start.asked (P.asked port.new) start.out.written
        (W.contents result.writer) result.end bytes
        × IsWithin granted.old.left result.end bytes }
    ensures same_reader { granted.new.reader.ghost_name ≡ granted.old.reader.ghost_name }
    ensures clock { P.clock port.new ≡ P.clock port.old }
{
    let mut standing = standing;
    for _done in 0..granted.left() {
        let turned = turn(alloc, granted, input, standing, port);
        standing = turned.standing;
        if let Some(end) = turned.end {
            return finish(standing, end, port);
        }
    }
    finish(standing, Ok(TalkEnd::OutOfTurns), port)
}

/// Writes out what waits, reads at most once, and takes what was read. Nothing is read if something still waits.
fn turn<R: Read, W: Write, P: SessionPort>(
    alloc: Global,
    granted: &mut GrantedReader<'_, R>,
    input: &mut [u8],
    standing: Standing<W>,
    port: &mut P,
) -> Turned<W>
    requires left { 0 < granted.old.left }
    requires room { 0 < length input.old }
    ensures comes { (start : Around) (bytes : List ℕ)
        → Stands (P.clock port.old) start
        (around (R.remaining granted.old.reader.now) (P.asked port.old)
        (out_view W.contents standing.outbox))
        standing.feeder standing.stage bytes
        → (piece : List ℕ) × (length piece ≤ length input.old)
        × (IsNone result.end → 0 < length piece)
        × Comes (P.clock port.old) result.end start
        (around (R.remaining granted.new.reader.now) (P.asked port.new)
        (out_view W.contents result.standing.outbox))
        result.standing.feeder result.standing.stage (bytes ++ piece) }
    ensures one_read { granted.old.left ≤ granted.new.left + 1 }
    ensures same_reader { granted.new.reader.ghost_name ≡ granted.old.reader.ghost_name }
    ensures clock { P.clock port.new ≡ P.clock port.old }
{
    let mut standing = standing;
    standing.outbox.write_out();
    if let Some(fault) = standing.outbox.fault() {
        return Turned {
            standing,
            end: Some(fault_end(fault)),
        };
    }
    match granted.read(&standing.outbox, input) {
        Ok(0) => {
            let end = input_end(&standing.feeder, &standing.stage);
            Turned {
                standing,
                end: Some(Ok(end)),
            }
        }
        Ok(count) => take_piece(alloc, standing, &input[..count], port),
        Err(_) => Turned {
            standing,
            end: Some(Ok(TalkEnd::ReadFault)),
        },
    }
}

/// Takes the packets that a piece of the input completes.
fn take_piece<W: Write, P: SessionPort>(
    alloc: Global,
    standing: Standing<W>,
    piece: &[u8],
    port: &mut P,
) -> Turned<W>
    ensures comes { (start : Around) (left remains : Option (List ℕ)) (bytes : List ℕ)
        → Consumes left remains piece.now
        → Stands (P.clock port.old) start
        (around left (P.asked port.old) (out_view W.contents standing.outbox))
        standing.feeder standing.stage bytes
        → Comes (P.clock port.old) result.end start
        (around remains (P.asked port.new) (out_view W.contents result.standing.outbox))
        result.standing.feeder result.standing.stage (bytes ++ piece.now) }
    ensures clock { P.clock port.new ≡ P.clock port.old }
{
    let Standing {
        mut feeder,
        stage,
        outbox,
    } = standing;
    match feeder.feed(piece) {
        Ok(fed) => {
            let taken = take_all(alloc, stage, fed.packets.into_vec(), port, outbox);
            let end = end_behind(&taken.stage, fed.failed);
            Turned {
                standing: Standing {
                    feeder,
                    stage: taken.stage,
                    outbox: taken.outbox,
                },
                end,
            }
        }
        Err(AllocError) => Turned {
            standing: Standing {
                feeder,
                stage,
                outbox,
            },
            end: Some(Err(AllocError)),
        },
    }
}

/// Gives up the talk's session if it goes on, says what is to be said at this end, and writes out what
/// waits.
fn finish<W: Write, P: SessionPort>(
    standing: Standing<W>,
    end: Result<TalkEnd, AllocError>,
    port: &mut P,
) -> Talked<W>
    ensures talks { (start : Around) (left : Option (List ℕ)) (bytes : List ℕ)
        → start.out.waiting ≡ [] → start.out.failed ≡ false
        → Halts (P.clock port.old) start
        (around left (P.asked port.old) (out_view W.contents standing.outbox)) standing.stage end
        bytes
        → Talks (P.clock port.old) start.left left start.asked (P.asked port.new) start.out.written
        (W.contents result.writer) result.end bytes }
    ensures end { (result.end ≡ end) ⊎ IsCutOff result.end }
    ensures clock { P.clock port.new ≡ P.clock port.old }
{
    let Standing {
        feeder: _,
        stage,
        mut outbox,
    } = standing;
    give_up_last(stage.own(), port);
    say_end(&end, &mut outbox);
    outbox.write_out();
    let end = written_end(outbox.fault(), end);
    Talked {
        end,
        writer: outbox.into_writer(),
    }
}

/// Gives up the session that a talk opened last, if it goes on.
fn give_up_last<P: SessionPort>(own: Option<Own>, port: &mut P)
    ensures asked { (asked : List Exchange) × GivesUpLast own asked
        × (P.asked port.new ≡ P.asked port.old ++ asked) }
    ensures clock { P.clock port.new ≡ P.clock port.old }
{
    if let Some(it) = own {
        let _ = give_up(it, port);
    }
}

/// Says what is to be said at this end of a talk.
fn say_end<W: Write>(end: &Result<TalkEnd, AllocError>, outbox: &mut Outbox<W>)
    ensures { PutsOut (out_view W.contents outbox.old) (out_view W.contents outbox.new)
        (stream_of (end_says end.now)) }
{
    if let Ok(TalkEnd::TooLong) = end {
        refuse(outbox, Refusal::PacketTooLong);
    }
}
