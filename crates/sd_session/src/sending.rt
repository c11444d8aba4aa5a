// The body of a session that is to be sent next.
ghost use Rattle.std.specs.Prelude.{◌≡◌, ◌≢◌, [], IfOk, IfErr, OnErr, IsErrOf};
ghost use Rattle.std.specs.Option.{MatchOption};
ghost use Rattle.sd_spool.specs.Job.{Takes};
ghost use Rattle.sd_session.specs.Sending.{stations, TakesNext, HasNoNext, FailsToTakeNext};
ghost use Rattle.sd_session.specs.Spooling.{HasFailed};

use sd_pack::{Body, Packer};
use sd_spool::{JobSpool, SpoolStore, SpoolStoreFault};

/// Takes out the body that is to be sent next: the ready one; else the oldest in the spool, or, if there is no spool,
/// the one that has waited longest. After a fault of the store the same bodies are in the spool.
pub fn take_next<S: SpoolStore>(
    ready: &mut Option<Body>,
    spool: &mut Option<JobSpool<S>>,
    packer: &mut Packer,
) -> Result<Option<Body>, SpoolStoreFault>
    ensures ok { IfOk result (λ found. MatchOption found
        (HasNoNext (stations ready.old spool.old packer.old)
        × (stations ready.new spool.new packer.new ≡ stations ready.old spool.old packer.old))
        (λ body. TakesNext body (stations ready.old spool.old packer.old)
        (stations ready.new spool.new packer.new))) }
    ensures err { IfErr result (λ fault. FailsToTakeNext fault
        (stations ready.old spool.old packer.old) (stations ready.new spool.new packer.new)) }
{
    if let Some(body) = ready.take() {
        return Ok(Some(body));
    }
    match spool {
        None => Ok(packer.take_body()),
        Some(spool) => take_spooled(spool),
    }
}

// Takes the oldest body out of the spool, none if it is empty.
fn take_spooled<S: SpoolStore>(spool: &mut JobSpool<S>) -> Result<Option<Body>, SpoolStoreFault>
    ensures ok { IfOk result (λ found. MatchOption found
        ((spool.old.shapes ≡ []) × (spool.new ≡ spool.old))
        (λ body. Takes body spool.old spool.new × (spool.new.store ≡ spool.old.store))) }
    ensures some { OnErr result (spool.old.shapes ≢ []) }
    ensures memory { IsErrOf result SpoolStoreFault.Memory → spool.new ≡ spool.old }
    ensures device { IsErrOf result SpoolStoreFault.Device
        → HasFailed spool.old.store spool.new.store }
{
    spool.next_body()
}
