// A session's spans in, all its whole records out.
ghost use Rattle.std.specs.Prelude.{◌≡◌, ◌⊎◌, ◌++◌, Bool, true, List, [], IfOk, IsErrOf};
ghost use Rattle.sd_base.specs.Record.{Record};
ghost use Rattle.sd_collect.specs.Whole.{Place};
ghost use Rattle.sd_driver.specs.Meaning.{IsHonest};
ghost use Rattle.sd_readback.specs.Reading.{Reads, volumes_on};
ghost use Rattle.sd_salvage.specs.Salvage.{HasNone, Salvages};
ghost use Rattle.sd_volume.specs.Device.{OnlyReads};

use crate::salvager::Salvager;
use crate::span::salvage_span;
use sd_base::SessionKey;
use sd_collect::Salvaged;
use sd_driver::Driver;
use sd_readback::ReadFault;
use sd_span::Span;
use sd_volume::VolumeReader;
use std::alloc::Global;

/// What a salvage came to: whether nothing was lost, and whether the session's end label is there then.
#[derive(Clone, Copy, Debug, PartialEq, Eq)]
pub struct SalvageEnd {
    pub sound: bool,
    pub ended: bool,
}

/// Reads the session `key` from its spans past damage, and hands over all its records that are whole in the blocks that can
/// be read, in order. It tells from which places on some may be lost: where a block is due and there is none, or another one;
/// where a body is no list of fragments; and the first body that can't follow those before it. A volume that isn't there is
/// passed. The device's faults and want of memory end it, and so do spans in which nothing is lost, and no block is the
/// session's.
///
/// Calls len once for each span, and reads each byte of the spans once. Held at a time are a buffer of a block's greatest
/// length, an unfinished record twice, and the records that one block makes whole.
pub fn salvage<D: Driver, S: Salvaged>(
    alloc: Global,
    driver: &mut D,
    key: SessionKey,
    spans: &[Span],
    sink: &mut S,
) -> Result<SalvageEnd, ReadFault>
    ensures device { OnlyReads (IsErrOf result ReadFault.Device)
        (D.meaning driver.old) (D.meaning driver.new) }
    ensures salvages { IsHonest (D.meaning driver.old)
        → IfOk result (λ end. (records : List Record) × (told : List Place)
        × (S.got sink.new ≡ S.got sink.old ++ records)
        × (S.lost sink.new ≡ S.lost sink.old ++ told)
        × Salvages (volumes_on (D.meaning driver.old).shelf) key spans.now records told end) }
    ensures bad_spans { IsHonest (D.meaning driver.old) → IsErrOf result ReadFault.BadSpan
        → (spans.now ≡ []) ⊎ HasNone (volumes_on (D.meaning driver.old).shelf) key spans.now }
    ensures whole { IsHonest (D.meaning driver.old)
        → (records : List Record) (ended : Bool)
        → Reads (volumes_on (D.meaning driver.old).shelf) key spans.now records ended
        → IfOk result (λ end. (end ≡ record { sound = true; ended = ended })
        × (S.got sink.new ≡ S.got sink.old ++ records)
        × (S.lost sink.new ≡ S.lost sink.old)) }
{
    let Some(first) = spans.first() else {
        return Err(ReadFault::BadSpan);
    };
    let mut volume = VolumeReader::new(alloc, &first.volume)?;
    let mut salvager = Salvager::new(alloc, key);
    for span in spans {
        salvage_span(driver, span, &mut volume, &mut salvager, sink)?;
    }
    salvager.end()
}
