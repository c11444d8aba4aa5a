// The blocks of a drive's volume are made to last.
ghost use Rattle.sd_machine.specs.declared.event.Event.TheVariants.{Sync, Unmount};
ghost use Rattle.sd_events.specs.AtStations.{MovesAlone};

use sd_drive::Drive;
use sd_driver::Driver;
use sd_machine::Reply;

/// Makes the blocks of the drive's loaded volume last. If the device fails, the volume is out, and its blocks that
/// weren't synced are lost.
pub(crate) fn sync<D: Driver>(drive: &mut Drive<D>) -> Reply
    ensures { MovesAlone (λ d. D.meaning d) (λ own. Sync own) drive.old result drive.new }
{
    match drive.sync() {
        Ok(()) => Reply::Synced,
        Err(fault) => Reply::Refused(fault),
    }
}

/// Makes the blocks of the drive's loaded volume last, as a sync does, and takes it out.
pub(crate) fn unmount<D: Driver>(drive: &mut Drive<D>) -> Reply
    ensures { MovesAlone (λ d. D.meaning d) (λ own. Unmount own) drive.old result drive.new }
{
    match drive.unmount() {
        Ok(()) => Reply::Unmounted,
        Err(fault) => Reply::Refused(fault),
    }
}
