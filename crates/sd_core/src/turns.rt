// The drives' part of a round.
ghost use Rattle.std.specs.Prelude.{◌∷◌, [], filter};
ghost use Rattle.sd_core.specs.Rounds.{AreTurns, IsPlacing, PlaysOn, drives_online, is_online, online_flags};

use crate::headway::Round;
use crate::world::World;
use sd_base::{DriveNo, MOST_DRIVES};
use sd_driver::Driver;
use sd_lane::Lanes;
use sd_machine::{Event, Reply};
use sd_spool::SpoolStore;

/// A turn of each drive that is online, by rising number.
pub(crate) fn turn_all<D: Driver + Drop, Q: Lanes, S: SpoolStore + Drop>(
    world: &mut World<D, Q, S>,
) -> Round
    ensures { PlaysOn (λ d. D.meaning d) (AreTurns (drives_online world.old))
        world.old result world.new }
{
    let mut turned = Round::new();
    for number in 1..MOST_DRIVES + 1 {
        turned = turned.and(turn(world, DriveNo::new(number).unwrap()));
    }
    turned
}

// Takes, places and syncs. Does nothing at a missing or offline drive.
fn turn<D: Driver + Drop, Q: Lanes, S: SpoolStore + Drop>(
    world: &mut World<D, Q, S>,
    drive: DriveNo,
) -> Round
    ensures { PlaysOn (λ d. D.meaning d)
        (AreTurns (filter (is_online (online_flags world.old)) (drive ∷ [])))
        world.old result world.new }
{
    let took = world.step(Event::Take { drive });
    if let Reply::Refused(_) = took {
        return Round::new();
    }
    let placed = place(world, drive);
    let passed = Round::of(&took).and(placed);
    let synced = world.step(Event::Sync { drive });
    passed.and(Round::of(&synced))
}

// Places the body in the drive's hand. If a volume is needed, one is sought; if that mounted one, the body is placed
// again.
fn place<D: Driver + Drop, Q: Lanes, S: SpoolStore + Drop>(
    world: &mut World<D, Q, S>,
    drive: DriveNo,
) -> Round
    ensures { PlaysOn (λ d. D.meaning d) (IsPlacing drive) world.old result world.new }
{
    let placed = world.step(Event::Place { drive });
    let first = Round::of(&placed);
    let Reply::NeedVolume = placed else {
        return first;
    };
    let sought = world.step(Event::Seek { drive });
    let both = first.and(Round::of(&sought));
    let Reply::Mounted { .. } = sought else {
        return both;
    };
    let again = world.step(Event::Place { drive });
    both.and(Round::of(&again))
}
