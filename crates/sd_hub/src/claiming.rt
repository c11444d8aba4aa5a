// The names of a drive's volumes are claimed for it.
ghost use Rattle.std.specs.Prelude.{IfOk};
ghost use Rattle.sd_drive.specs.Shelf.{NamesDiffer};
ghost use Rattle.sd_hub.specs.Claimed.{AreClaimed};

use crate::numbers::only_drive;
use sd_desk::{ClaimFault, Desk};
use sd_volume::Volume;
use std::alloc::{AllocError, Global};

/// A desk at which the names of these volumes are claimed for the one drive; it knows of no purge and of no request.
pub(crate) fn claim_all(alloc: Global, volumes: &[Volume]) -> Result<Desk, AllocError>
    requires { NamesDiffer volumes.now }
    ensures { IfOk result (λ desk. AreClaimed volumes.now desk) }
{
    let mut desk = Desk::new(alloc);
    for volume in volumes {
        match desk.claim(volume.name(), only_drive()) {
            Ok(()) => {}
            Err(ClaimFault::Memory) => return Err(AllocError),
            Err(ClaimFault::AlreadyLabelled) => unreachable!(),
        }
    }
    Ok(desk)
}
