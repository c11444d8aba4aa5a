// Reading a session back through a drive.
ghost use Rattle.sd_world.specs.Reading.{ReadsDrive};

use sd_base::{Refusal, SessionKey};
use sd_drive::Drive;
use sd_driver::Driver;
use sd_readback::{ReadEnd, Sink};
use sd_span::Span;

/// Reads a session back by a drive; a fault of the reader becomes its refusal.
pub fn read_drive<D: Driver, K: Sink>(
    drive: &mut Drive<D>,
    key: SessionKey,
    spans: &[Span],
    sink: &mut K,
) -> Result<ReadEnd, Refusal>
    ensures { ReadsDrive (λ d. D.meaning d) key spans.now (K.got sink.old) (K.got sink.new)
        result drive.old drive.new }
{
    match drive.read(key, spans, sink) {
        Ok(end) => Ok(end),
        Err(fault) => Err(fault.refusal()),
    }
}
