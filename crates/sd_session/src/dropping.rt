// What a session drops that is given up or fails.
ghost use Rattle.std.specs.Prelude.{◌≡◌, [], None};
ghost use Rattle.std.specs.Option.{option_map, option_or};
ghost use Rattle.sd_pack.specs.Body.{empty_body};
ghost use Rattle.sd_pack.specs.Packing.{bodies_of};
ghost use Rattle.sd_spool.specs.Job.{state_of};
ghost use Rattle.sd_session.specs.Session.{home_of};

use sd_pack::{Body, Packer};
use sd_spool::{JobSpool, SpoolStore};

/// Drops what is ready, in the spool, waiting or open. The store stays, unused. Takes no memory.
pub fn drop_parts<S: SpoolStore + Drop>(
    ready: &mut Option<Body>,
    store: &mut Option<S>,
    spool: &mut Option<JobSpool<S>>,
    packer: &mut Packer,
)
    ensures none_ready { ready.new ≡ None }
    ensures none_spooled { spool.new ≡ None }
    ensures store { option_map (λ s. state_of (S.meaning s)) store.new
        ≡ home_of (option_map (λ s. state_of (S.meaning s)) store.old) spool.old }
    ensures none { bodies_of packer.new ≡ [] }
    ensures none_open { packer.new.open_body ≡ empty_body }
    ensures room { packer.new.room ≡ packer.old.room }
{
    drop_bodies(packer);
    *ready = None;
    if let Some(job) = spool.take() {
        *store = Some(job.into_store());
    }
}

// Drops the bodies of the packer, one by one.
fn drop_bodies(packer: &mut Packer)
    ensures none { bodies_of packer.new ≡ [] }
    ensures none_open { packer.new.open_body ≡ empty_body }
    ensures room { packer.new.room ≡ packer.old.room }
{
    packer.finish();
    while let Some(_body) = packer.take_body() {}
    packer.shrink();
}
