// That threads may share a hub, for the proof of who lends it to them: beside all else that a thread is lent, the prover
// doesn't find it.
ghost use Rattle.std.specs.Thread.{IsSend, IsSync};
ghost use Rattle.std.specs.contracts.option.Option as option;
ghost use Rattle.sd_base.specs.contracts.name.Name as name;
ghost use Rattle.sd_base.specs.contracts.name.Pool as pool;
ghost use Rattle.sd_lines.specs.contracts.hub.Hub as hub;
ghost use Rattle.sd_lines.specs.contracts.hub.Post as post;

use crate::hub::{Hub, Post};
use sd_base::PoolName;
use sd_board::board_sends;
use sd_driver::Driver;
use sd_line::Naming;
use sd_spool::SpoolStore;
use std::sync::Wait;

// Threads may share values of the type.
fn shares<T: Sync>()
    ensures { IsSync T.row }
{}

// Values of the type may go to another thread.
fn sends<T: Send>()
    ensures { IsSend T.row }
{}

fn pool_sends()
    ensures { IsSend (option.the_row (name.the_row pool.the_row)) }
{
    sends::<Option<PoolName>>();
}

// (The clause of a call has the parameters by their places, so these are those of `shares_hub`.)
fn shares_post<
    N: Naming + Send + Sync,
    S: SpoolStore + Send,
    D: Driver + Send,
    R: Wait + Sync + Drop,
>()
    ensures { IsSync (post.the_row D.row N.row R.row D.Driver N.Naming) }
{
    shares::<Post<D, N, R>>();
}

/// Threads may share a hub of these. Does nothing.
pub fn shares_hub<
    N: Naming + Send + Sync,
    S: SpoolStore + Send,
    D: Driver + Send,
    R: Wait + Sync + Drop,
>()
    ensures { IsSync (hub.the_row D.row N.row R.row S.row D.Driver N.Naming S.SpoolStore) }
{
    shares_post::<N, S, D, R>();
    board_sends::<N, S>();
    pool_sends();
    shares::<Hub<D, N, R, S>>();
}
