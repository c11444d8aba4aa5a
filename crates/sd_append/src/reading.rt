// A session that is read back goes out record by record.
ghost use Rattle.std.specs.Prelude.{◌≡◌, ◌∷◌, ◌++◌, [], List};
ghost use Rattle.std.specs.List.{flat_map};
ghost use Rattle.sd_base.specs.Record.{Record};
ghost use Rattle.sd_bnet.specs.Stream.{stream_of};
ghost use Rattle.sd_append.specs.Out.{OutView, PutsOut, out_view};
ghost use Rattle.sd_append.specs.Port.{WasRead};
ghost use Rattle.sd_append.specs.Reader.{SinkIs};
ghost use Rattle.sd_append.specs.Talk.{record_said};

use crate::answers::say_record;
use crate::outbox::Outbox;
use crate::port::{ReadBack, SessionPort};
use sd_base::{Rec, Refusal, Seen, SessionKey};
use sd_readback::{ReadEnd, Sink};
use sd_span::Span;
use std::alloc::AllocError;
use std::io::Write;
use std::marker::{Brand, Model, PhantomData};

/// What had gone out before a read.
pub(crate) trait Before {
    ghost before: { OutView };
}

impl Before for Brand {
    ghost use Rattle.std.specs.Prelude.{None, [], false};

    ghost before = { record { written = None; waiting = []; failed = false } };
}

/// Puts the packets of each record as it comes, and lets the record go. Its type keeps that what went out since
/// the read began are the packets of the records that it got.
#[derive(Drop)]
pub(crate) struct RecordPackets<K: Before, W: Write> {
    outbox: Outbox<W>,
    handed: Option<Seen<Rec>>,
    of: PhantomData<K>,
}

impl<K: Before, W: Write> Model for RecordPackets<K, W> {
    ghost use Rattle.std.specs.List.{flat_map};
    ghost use Rattle.sd_base.specs.Seen.{seen_of};
    ghost use Rattle.sd_bnet.specs.Stream.{stream_of};
    ghost use Rattle.sd_append.specs.Out.{PutsOut, out_view};
    ghost use Rattle.sd_append.specs.Reader.{SinkIs};
    ghost use Rattle.sd_append.specs.Talk.{record_said};

    ghost Value = { SinkIs W };

    ghost view = { λ s. record { outbox = s.outbox; got = seen_of s.handed } };

    ghost invariant = { λ s. PutsOut K.before (out_view W.contents s.outbox)
        (stream_of (flat_map record_said (seen_of s.handed))) };
}

impl<K: Before, W: Write> Sink for RecordPackets<K, W> {
    ghost got = { λ s. s.got };

    /// Once nothing more goes out, no record is taken.
    fn put(&mut self, rec: Rec) -> Result<(), AllocError> {
        if self.outbox.fault().is_some() {
            return Err(AllocError);
        }
        let handed = Seen::with(&self.handed, &rec);
        say_record(&mut self.outbox, &rec);
        self.handed = Some(handed);
        Ok(())
    }
}

/// What a read came to.
#[derive(Drop)]
pub(crate) struct ReadOut<W> {
    pub(crate) outbox: Outbox<W>,
    pub(crate) answer: Result<ReadEnd, Refusal>,
}

/// Reads a session back, its records' packets going out as they come.
pub(crate) fn read_out<K: Before, W: Write, P: SessionPort>(
    outbox: Outbox<W>,
    port: &mut P,
    key: SessionKey,
    spans: &[Span],
) -> ReadOut<W>
    requires { out_view W.contents outbox ≡ K.before }
    ensures asked { (records : List Record)
        × (P.asked port.new ≡ P.asked port.old ++ WasRead key spans.now records result.answer ∷ [])
        × PutsOut K.before (out_view W.contents result.outbox)
        (stream_of (flat_map record_said records)) }
    ensures clock { P.clock port.new ≡ P.clock port.old }
{
    let sink: RecordPackets<K, W> = RecordPackets {
        outbox,
        handed: None,
        of: PhantomData,
    };
    let ReadBack { sink, answer } = port.read(key, spans, sink);
    let RecordPackets {
        outbox,
        handed: _,
        of: _,
    } = sink;
    ReadOut { outbox, answer }
}
