// Rounds, and rounds until nothing moves.
ghost use Rattle.std.specs.Prelude.{◌≡◌, IfOk, OnErr};
ghost use Rattle.sd_core.specs.Rounds.{Drains, PlaysMoving, PlaysRound};

use crate::headway::Round;
use crate::sending::send_all;
use crate::tries::repeat;
use crate::turns::turn_all;
use crate::world::World;
use sd_driver::Driver;
use sd_lane::Lanes;
use sd_spool::SpoolStore;
use std::alloc::AllocError;

/// One round: each session that is active or ended spools and despools, by rising ticket; then each drive that is
/// online takes, places and syncs, by rising number. If a place needs a volume, one is sought; if that mounted one,
/// the body is placed again. What is refused in it is passed over. An `Err` comes before the first step.
pub fn round<D: Driver + Drop, Q: Lanes, S: SpoolStore + Drop>(
    world: &mut World<D, Q, S>,
) -> Result<Round, AllocError>
    ensures plays { IfOk result (λ round. PlaysRound (λ d. D.meaning d) world.old round world.new) }
    ensures err { OnErr result (world.new ≡ world.old) }
{
    let tickets = world.tickets()?;
    let sent = send_all(world, &tickets);
    Ok(sent.and(turn_all(world)))
}

/// Plays rounds to the first in which nothing moves, and counts the blocks that were placed in them. An `Err` comes
/// before a round; those before it were played.
pub fn drain<D: Driver + Drop, Q: Lanes, S: SpoolStore + Drop>(
    world: &mut World<D, Q, S>,
) -> Result<u64, AllocError>
    ensures drains { IfOk result (λ placed. Drains (λ d. D.meaning d) world.old placed world.new) }
    ensures err { OnErr result (PlaysMoving (λ d. D.meaning d) world.old world.new) }
{
    let (_, placed) = repeat(world, u64::MAX, None)?;
    Ok(placed)
}
