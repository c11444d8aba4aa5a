// A session is read back, by a device of the talk's own.
ghost use Rattle.std.specs.Prelude.{◌≡◌, ◌++◌, [], IfErr};
ghost use Rattle.sd_lines.specs.Reading.{IsUnread, ReadsDevice, ReadsTalk};

use crate::counted::Counted;
use crate::hub::Hub;
use sd_append::Shown;
use sd_base::{DriveNo, Rec, Refusal, SessionKey};
use sd_console::{Before, WatchedSink};
use sd_driver::Driver;
use sd_line::Naming;
use sd_readback::{ReadEnd, Sink, read_session};
use sd_span::Span;
use sd_spool::SpoolStore;
use std::alloc::Global;
use std::sync::Wait;
use std::time::Clock;

/// What a reading came to.
#[derive(Drop)]
pub(crate) struct Reading<K> {
    pub(crate) sink: K,
    pub(crate) handed: Shown<Rec>,
    pub(crate) answer: Result<ReadEnd, Refusal>,
}

/// Reads a session back from its spans, and tells which records its sink got; they are counted. All volumes of the spans have to be at one
/// drive, of which this run knows: else the first that isn't is on no shelf.
pub(crate) fn read<
    B: Before,
    D: Driver,
    N: Naming,
    R: Wait + Clock + Drop,
    S: SpoolStore + Drop,
    K: Sink,
>(hub: &Hub<D, N, R, S>, readers: &mut [D], key: SessionKey, spans: &[Span], sink: K) -> Reading<K>
    requires { K.got sink ≡ B.before }
    ensures got { K.got result.sink ≡ B.before ++ result.handed }
    ensures reads { ReadsTalk (λ d. D.meaning d) key spans.now [] result.handed result.answer
        readers.old readers.new }
{
    let counted = Counted {
        sink,
        given: &hub.given,
    };
    let mut watched: WatchedSink<B, Counted<'_, K>> = WatchedSink::new(counted);
    let answer = read_at(hub, readers, key, spans, &mut watched);
    let (counted, handed) = watched.into_parts();
    Reading {
        sink: counted.sink,
        handed,
        answer,
    }
}

// The drive at which the volumes of the spans are.
fn drive_of<D: Driver, N: Naming, R: Wait + Clock + Drop, S: SpoolStore + Drop>(
    hub: &Hub<D, N, R, S>,
    spans: &[Span],
) -> Result<DriveNo, Refusal>
    ensures { IfErr result (IsUnread spans.now) }
{
    let Some(first) = spans.first() else {
        return Err(Refusal::BadSpan);
    };
    let Some(drive) = hub.drive_of(&first.volume)? else {
        return Err(Refusal::VolumeNotOnShelf);
    };
    for span in spans {
        if hub.drive_of(&span.volume)? != Some(drive) {
            return Err(Refusal::VolumeNotOnShelf);
        }
    }
    Ok(drive)
}

// Reads a session back by the device for the drive at which the volumes of the spans are.
fn read_at<D: Driver, N: Naming, R: Wait + Clock + Drop, S: SpoolStore + Drop, K: Sink>(
    hub: &Hub<D, N, R, S>,
    readers: &mut [D],
    key: SessionKey,
    spans: &[Span],
    sink: &mut K,
) -> Result<ReadEnd, Refusal>
    ensures { ReadsTalk (λ d. D.meaning d) key spans.now (K.got sink.old) (K.got sink.new) result
        readers.old readers.new }
{
    let drive = drive_of(hub, spans)?;
    let place = drive.get() as usize - 1;
    if place < readers.len() {
        return read_by(hub.alloc, &mut readers[place], key, spans, sink);
    }
    match hub.post(drive) {
        Some(post) => post.station.line().read(key, spans, sink),
        None => Err(Refusal::VolumeNotOnShelf),
    }
}

// Reads a session back by a device; a fault of the reader becomes its refusal.
fn read_by<D: Driver, K: Sink>(
    alloc: Global,
    device: &mut D,
    key: SessionKey,
    spans: &[Span],
    sink: &mut K,
) -> Result<ReadEnd, Refusal>
    ensures { ReadsDevice key spans.now (K.got sink.old) (K.got sink.new) result
        (D.meaning device.old) (D.meaning device.new) }
{
    match read_session(alloc, device, key, spans, sink) {
        Ok(end) => Ok(end),
        Err(fault) => Err(fault.refusal()),
    }
}
