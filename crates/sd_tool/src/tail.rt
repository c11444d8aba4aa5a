// Bytes after a volume, as a stop may leave them.
ghost use Rattle.std.specs.Prelude.{◌≡◌};
ghost use Rattle.sd_tool.specs.Tail.{PutsBehind, PutsTail, fault_refusal};

use sd_base::{Refusal, VolName};
use sd_driver::{Driver, DriverFault};
use sd_script::Tail;
use std::alloc::Global;

/// Puts the zero bytes of a tail after its volume on a device whose volumes have room for `room` bytes, and says why
/// not if that is refused. Of more bytes than one past that room only so many are asked for: the device refuses them as
/// it would refuse all, and they take no more memory.
pub fn put_tail<D: Driver>(alloc: Global, driver: &mut D, room: u64, tail: &Tail) -> Option<Refusal>
    ensures { PutsTail room tail.now result (D.meaning driver.old) (D.meaning driver.new) }
{
    let asked = tail.count.min(room.saturating_add(1));
    let Ok(zeros) = vec![in alloc; 0u8; asked as usize] else {
        return Some(Refusal::Memory);
    };
    match put_behind(driver, &tail.volume, &zeros) {
        Ok(()) if asked < tail.count => Some(Refusal::NoRoom),
        Ok(()) => None,
        Err(fault) => Some(refusal_of(fault)),
    }
}

// Puts these bytes after a volume.
fn put_behind<D: Driver>(driver: &mut D, volume: &VolName, bytes: &[u8]) -> Result<(), DriverFault>
    ensures { PutsBehind volume.now bytes.now result (D.meaning driver.old) (D.meaning driver.new) }
{
    driver.unload();
    driver.load(volume)?;
    driver.append(bytes)
}

// What is printed for the fault of a device.
fn refusal_of(fault: DriverFault) -> Refusal
    ensures { result ≡ fault_refusal fault }
{
    match fault {
        DriverFault::NotThere => Refusal::VolumeNotOnShelf,
        DriverFault::NoRoom => Refusal::NoRoom,
        DriverFault::Device | DriverFault::Exists => Refusal::DeviceFault,
        DriverFault::Memory => Refusal::Memory,
    }
}
