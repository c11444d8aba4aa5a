// A drive looks for a volume of its pool.
ghost use Rattle.sd_machine.specs.declared.event.Event.TheVariants.{Seek};
ghost use Rattle.sd_events.specs.AtStations.{MovesAtDesk};

use crate::mounting::mount_named;
use sd_base::{DriveNo, Refusal};
use sd_desk::{Desk, Request, next_volume};
use sd_drive::Drive;
use sd_driver::Driver;
use sd_machine::Reply;

/// Mounts the first of the drive's volumes that takes blocks of its pool; if it has none, asks the operator for one. A
/// drive whose loaded volume takes blocks of its pool needs none, nor does one that never had a session.
pub(crate) fn seek<D: Driver>(at: &mut Drive<D>, desk: &mut Desk, drive: DriveNo) -> Reply
    ensures { MovesAtDesk (λ d. D.meaning d) drive (Seek drive)
        at.old desk.old result at.new desk.new }
{
    let Some(pool) = at.wanted_pool() else {
        return Reply::NoNeed;
    };
    at.know();
    match next_volume(at.volumes(), &pool) {
        Some(name) => match mount_named(at, desk, drive, &name) {
            Ok(()) => Reply::Mounted { name },
            Err(why) => Reply::Refused(why),
        },
        None => {
            let media = at.media().copy();
            match desk.ask(Request { drive, pool, media }) {
                Ok(()) => Reply::Requested,
                Err(_) => Reply::Refused(Refusal::Memory),
            }
        }
    }
}
