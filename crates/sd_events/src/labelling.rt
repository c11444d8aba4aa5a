// A new volume comes to a drive.
ghost use Rattle.sd_machine.specs.declared.event.Event.TheVariants.{Label};
ghost use Rattle.sd_events.specs.AtStations.{MovesAtDesk, AreClaimed};

use sd_base::{DriveNo, MediaName, PoolName, Refusal, VolName};
use sd_desk::Desk;
use sd_drive::Drive;
use sd_driver::Driver;
use sd_machine::Reply;

/// Labels a new volume at the drive, and claims its name. The refusals, in this order: other media than the drive's; in
/// use, while a volume is loaded; already labelled, if the name is claimed; then what the device answers, or out of
/// memory. None of them leaves the name claimed.
pub(crate) fn label<D: Driver>(
    at: &mut Drive<D>,
    desk: &mut Desk,
    drive: DriveNo,
    name: &VolName,
    pool: &PoolName,
    media: &MediaName,
    moment: i64,
) -> Reply
    requires claimed { AreClaimed drive at.old desk.old }
    ensures { MovesAtDesk (λ d. D.meaning d) drive
        (Label drive name.now pool.now media.now moment) at.old desk.old result at.new desk.new }
{
    if !media.is_same(at.media()) {
        return Reply::Refused(Refusal::OtherPoolOrMedia);
    }
    let None = at.loaded() else {
        return Reply::Refused(Refusal::InUse);
    };
    let None = desk.drive_of(name) else {
        return Reply::Refused(Refusal::AlreadyLabelled);
    };
    let Ok(()) = desk.claim(name, drive) else {
        return Reply::Refused(Refusal::Memory);
    };
    match at.label(name, pool, media, moment) {
        Ok(()) => Reply::Labelled,
        Err(why) => {
            desk.release(name);
            Reply::Refused(why)
        }
    }
}
