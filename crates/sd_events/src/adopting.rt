// A volume that an earlier run left comes to a drive.
ghost use Rattle.sd_driver.specs.Meaning.{IsHonest};
ghost use Rattle.sd_machine.specs.declared.event.Event.TheVariants.{Adopt};
ghost use Rattle.sd_volume.specs.Noted.{IsTrueNote};
ghost use Rattle.sd_events.specs.AtStations.{MovesAtDesk, AreClaimed};

use sd_base::{DriveNo, Refusal, VolName};
use sd_desk::Desk;
use sd_drive::Drive;
use sd_driver::Driver;
use sd_machine::Reply;
use sd_note::Note;

/// Takes over a volume that an earlier run left, at the drive, and claims its name. The refusals, in this order:
/// already labelled, if the name is claimed; in use, while a volume is loaded; then what is on the volume, what the
/// device answers, or out of memory. None of them leaves the name claimed.
pub(crate) fn adopt<D: Driver>(
    at: &mut Drive<D>,
    desk: &mut Desk,
    drive: DriveNo,
    name: &VolName,
) -> Reply
    requires claimed { AreClaimed drive at.old desk.old }
    ensures { MovesAtDesk (λ d. D.meaning d) drive (Adopt drive name.now)
        at.old desk.old result at.new desk.new }
{
    let None = desk.drive_of(name) else {
        return Reply::Refused(Refusal::AlreadyLabelled);
    };
    let None = at.loaded() else {
        return Reply::Refused(Refusal::InUse);
    };
    let Ok(()) = desk.claim(name, drive) else {
        return Reply::Refused(Refusal::Memory);
    };
    match at.adopt(name) {
        Ok(adopted) => Reply::Adopted {
            end: adopted.end,
            next: adopted.next_number,
        },
        Err(why) => {
            desk.release(name);
            Reply::Refused(why)
        }
    }
}

/// As `adopt`, by the volume's note. What the note says is to be true.
pub(crate) fn adopt_noted<D: Driver>(
    at: &mut Drive<D>,
    desk: &mut Desk,
    drive: DriveNo,
    name: &VolName,
    note: &Note,
) -> Reply
    requires claimed { AreClaimed drive at.old desk.old }
    requires known { IsHonest (D.meaning at.old.device)
        → IsTrueNote note.now name.now (D.meaning at.old.device).shelf }
    ensures { MovesAtDesk (λ d. D.meaning d) drive (Adopt drive name.now)
        at.old desk.old result at.new desk.new }
{
    let None = desk.drive_of(name) else {
        return Reply::Refused(Refusal::AlreadyLabelled);
    };
    let None = at.loaded() else {
        return Reply::Refused(Refusal::InUse);
    };
    let Ok(()) = desk.claim(name, drive) else {
        return Reply::Refused(Refusal::Memory);
    };
    match at.adopt_noted(name, note) {
        Ok(adopted) => Reply::Adopted {
            end: adopted.end,
            next: adopted.next_number,
        },
        Err(why) => {
            desk.release(name);
            Reply::Refused(why)
        }
    }
}
