// A volume of a drive is loaded.
ghost use Rattle.sd_machine.specs.declared.event.Event.TheVariants.{Mount};
ghost use Rattle.sd_events.specs.AtStations.{MovesAtDesk, MountsNamed};

use sd_base::{DriveNo, Refusal, VolName};
use sd_desk::Desk;
use sd_drive::Drive;
use sd_driver::Driver;
use sd_machine::Reply;

/// Loads the drive's volume of that name in place of the one that is loaded, and takes the drive's request away. The
/// loaded one is synced before.
pub(crate) fn mount<D: Driver>(
    at: &mut Drive<D>,
    desk: &mut Desk,
    drive: DriveNo,
    name: &VolName,
) -> Reply
    ensures { MovesAtDesk (λ d. D.meaning d) drive (Mount drive name.now)
        at.old desk.old result at.new desk.new }
{
    match mount_named(at, desk, drive, name) {
        Ok(()) => Reply::Mounted { name: name.copy() },
        Err(why) => Reply::Refused(why),
    }
}

/// Does what `mount` does, and gives the drive's answer.
pub(crate) fn mount_named<D: Driver>(
    at: &mut Drive<D>,
    desk: &mut Desk,
    drive: DriveNo,
    name: &VolName,
) -> Result<(), Refusal>
    ensures { MountsNamed (λ d. D.meaning d) drive name.now
        at.old desk.old result at.new desk.new }
{
    match at.mount(name) {
        Ok(()) => {
            desk.answered(drive);
            Ok(())
        }
        Err(why) => Err(why),
    }
}
