// One step of a session's spool.
ghost use Rattle.std.specs.Prelude.{◌≡◌, IfOk, OnErr, IsErrOf};
ghost use Rattle.sd_session.specs.Spooling.{PutsWaiting, WouldGoIn, HasFailed};

use crate::answer::Spooling;
use sd_pack::Packer;
use sd_spool::{JobSpool, PutFault, SpoolStore, SpoolStoreFault};

/// Puts the body that has waited longest into the spool, unless the session despools. `NoSpool` is never the answer.
/// After a fault the body waits still.
pub fn put_waiting<S: SpoolStore>(
    spool: &mut JobSpool<S>,
    packer: &mut Packer,
    despooling: bool,
) -> Result<Spooling, SpoolStoreFault>
    ensures ok { IfOk result
        (λ answer. PutsWaiting answer despooling spool.old packer.old spool.new packer.new) }
    ensures waits { OnErr result (WouldGoIn despooling spool.old packer.old.waiting) }
    ensures err { OnErr result (packer.new ≡ packer.old) }
    ensures memory { IsErrOf result SpoolStoreFault.Memory → spool.new ≡ spool.old }
    ensures device { IsErrOf result SpoolStoreFault.Device
        → HasFailed spool.old.store spool.new.store }
{
    let Some(body) = packer.front_body() else {
        return Ok(Spooling::Nothing);
    };
    if despooling {
        return Ok(Spooling::SpoolFull);
    }
    match spool.put_body(body) {
        Ok(()) => {
            let _ = packer.take_body();
            Ok(Spooling::Spooled)
        }
        Err(PutFault::Full) => Ok(Spooling::SpoolFull),
        Err(PutFault::Device) => Err(SpoolStoreFault::Device),
        Err(PutFault::Memory) => Err(SpoolStoreFault::Memory),
    }
}
