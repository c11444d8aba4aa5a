// Rounds over the world of a script, until nothing moves.
ghost use Rattle.std.specs.Prelude.{IfOk, OnErr};
ghost use Rattle.sd_core.specs.Rounds.{Drains, PlaysMoving};

use crate::making::ScriptWorld;
use core::mem::replace_with;
use sd_driver::Driver;
use sd_lane::Lanes;
use sd_port::WorldPort;
use sd_spool::MemSpool;
use std::alloc::{AllocError, Global};

/// Plays rounds until nothing moves, and counts the blocks that were placed. What plays them is a port, as for a talk,
/// which has the world for that long. An `Err` comes before a round; those before it were played.
pub(crate) fn drain<D: Driver + Drop, Q: Lanes + Drop>(
    world: &mut ScriptWorld<D, Q>,
    alloc: Global,
) -> Result<u64, AllocError>
    ensures drains { IfOk result (λ placed. Drains (λ d. D.meaning d) world.old placed world.new) }
    ensures err { OnErr result (PlaysMoving (λ d. D.meaning d) world.old world.new) }
{
    // A closure, since by its name alone `drained` isn't known to be given a driver that is `Send`.
    replace_with(
        world,
        alloc,
        |world, alloc|
            ensures drains { IfOk result.1 (λ placed.
                Drains (λ d. D.meaning d) world placed result.0) }
            ensures err { OnErr result.1 (PlaysMoving (λ d. D.meaning d) world result.0) }
        { drained(world, alloc) },
    )
}

fn drained<D: Driver + Drop, Q: Lanes + Drop>(
    world: ScriptWorld<D, Q>,
    alloc: Global,
) -> (ScriptWorld<D, Q>, Result<u64, AllocError>)
    ensures drains { IfOk result.1 (λ placed. Drains (λ d. D.meaning d) world placed result.0) }
    ensures err { OnErr result.1 (PlaysMoving (λ d. D.meaning d) world result.0) }
{
    // Nothing is asked of the port but rounds: no event waits for one, and no line bears its moment.
    let mut port = WorldPort::new(alloc, world, 0, 0);
    let placed = play_rounds(&mut port);
    (port.into_world(), placed)
}

fn play_rounds<D: Driver + Drop, Q: Lanes>(
    port: &mut WorldPort<D, Q, MemSpool>,
) -> Result<u64, AllocError>
    ensures drains { IfOk result (λ placed. Drains
        (λ d. D.meaning d) port.old.world placed port.new.world) }
    ensures err { OnErr result (PlaysMoving (λ d. D.meaning d) port.old.world port.new.world) }
{
    let mut placed: u64 = 0;
    for _played in 0..u64::MAX {
        let Ok(round) = port.round() else {
            return Err(AllocError);
        };
        placed = placed.saturating_add(round.placed);
        if !round.moved {
            return Ok(placed);
        }
    }
    Ok(placed)
}
