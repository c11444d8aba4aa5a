// The piece in a drive's hand becomes a block of its volume.
ghost use Rattle.std.specs.Prelude.{◌≤◌};
ghost use Rattle.sd_base.specs.Limits.{most_volume};
ghost use Rattle.sd_machine.specs.declared.event.Event.TheVariants.{Place};
ghost use Rattle.sd_events.specs.AtStations.{MovesAlone};

use sd_base::Refusal;
use sd_drive::{Drive, Placed};
use sd_driver::Driver;
use sd_machine::Reply;

/// Places the piece in the drive's hand after the last block of its loaded volume. Replies where it lies, or why it
/// still is in the hand.
pub(crate) fn place<D: Driver>(drive: &mut Drive<D>) -> Reply
    requires limit { drive.old.limits.volume ≤ most_volume }
    ensures { MovesAlone (λ d. D.meaning d) (λ own. Place own) drive.old result drive.new }
{
    match drive.place() {
        Ok(Placed::At(placement)) => Reply::Placed {
            volume: placement.volume,
            start: placement.start,
            end: placement.start + placement.length,
        },
        Ok(Placed::NeedVolume) => Reply::NeedVolume,
        Ok(Placed::VolumeFull) => Reply::VolumeFull,
        Ok(Placed::VolumeError) => Reply::VolumeError,
        Ok(Placed::Idle) => Reply::Idle,
        Err(_) => Reply::Refused(Refusal::Memory),
    }
}
