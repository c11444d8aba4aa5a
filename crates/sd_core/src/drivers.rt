// The devices leave a world.
ghost use Rattle.std.specs.Prelude.{◌≡◌, ◌≤◌, ◌+◌, ◌++◌, [], vec_len, vec_capacity};
ghost use Rattle.sd_core.specs.View.{devices_of};

use sd_driver::Driver;
use sd_events::Bay;
use sd_lane::Lanes;
use sd_spool::SpoolStore;

/// Adds the devices of the drives that are online to the others, those of the first bays first. Calls itself for the
/// bays before the last one, of which a world has `MOST_DRIVES` at most. Takes no memory.
pub(crate) fn take_devices<D: Driver + Drop, Q: Lanes + Drop, S: SpoolStore + Drop>(
    bays: &mut Vec<Bay<D, Q, S>>,
    devices: &mut Vec<D>,
)
    requires room { vec_len devices.old + vec_len bays.old ≤ vec_capacity devices.old }
    ensures taken { devices.new.items ≡ devices.old.items ++ devices_of bays.old.items }
    ensures most { vec_len devices.new ≤ vec_len devices.old + vec_len bays.old }
    ensures capacity { vec_capacity devices.new ≡ vec_capacity devices.old }
    ensures empty { bays.new.items ≡ [] }
{
    let Some(bay) = bays.pop() else {
        return;
    };
    take_devices(bays, devices);
    let Bay {
        media: _,
        drive,
        lanes: _,
        queue: _,
    } = bay;
    if let Some(drive) = drive {
        devices.push_reserved(drive.into_driver());
    }
}
