// The sessions' part of a round.
ghost use Rattle.std.specs.Prelude.{◌∷◌, []};
ghost use Rattle.sd_core.specs.Rounds.{AreSends, PlaysOn};

use crate::headway::Round;
use crate::world::World;
use sd_base::Ticket;
use sd_driver::Driver;
use sd_lane::Lanes;
use sd_machine::Event;
use sd_spool::SpoolStore;

/// One step to the spool and one to the queue for each of the sessions.
pub(crate) fn send_all<D: Driver + Drop, Q: Lanes, S: SpoolStore + Drop>(
    world: &mut World<D, Q, S>,
    tickets: &[Ticket],
) -> Round
    ensures { PlaysOn (λ d. D.meaning d) (AreSends tickets.now) world.old result world.new }
{
    let mut sent = Round::new();
    for ticket in tickets {
        sent = sent.and(send(world, *ticket));
    }
    sent
}

// One step to the spool and one to the queue.
fn send<D: Driver + Drop, Q: Lanes, S: SpoolStore + Drop>(
    world: &mut World<D, Q, S>,
    ticket: Ticket,
) -> Round
    ensures { PlaysOn (λ d. D.meaning d) (AreSends (ticket ∷ [])) world.old result world.new }
{
    let spooled = world.step(Event::Spool { ticket });
    let sent = world.step(Event::Despool { ticket });
    Round::of(&spooled).and(Round::of(&sent))
}
