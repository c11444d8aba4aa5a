// Rounds until nothing moves, and what is given to a world before each of them.
ghost use Rattle.std.specs.Prelude.{◌≡◌, List, IfOk, OnErr, option_copied, option_map};
ghost use Rattle.sd_machine.specs.declared.event.Event.{Event as SpecEvent};
ghost use Rattle.sd_machine.specs.declared.reply.Reply.{Reply as SpecReply};
ghost use Rattle.sd_core.specs.Again.{event_again};
ghost use Rattle.sd_core.specs.Tries.{Answers, Asks, Lacks, Stops, is_due};

use crate::headway::Round;
use crate::rounds::round;
use crate::world::World;
use sd_base::{Rec, Refusal, Ticket};
use sd_driver::Driver;
use sd_lane::Lanes;
use sd_machine::{Event, Reply};
use sd_spool::SpoolStore;
use std::alloc::AllocError;

/// An event that may be given again.
#[derive(Drop)]
pub(crate) enum Again {
    Append { ticket: Ticket, rec: Rec },
    Close { ticket: Ticket },
}

// Gives what is asked. If nothing is, the answer is `Nothing`.
fn give<D: Driver + Drop, Q: Lanes, S: SpoolStore + Drop>(
    world: &mut World<D, Q, S>,
    asked: Option<&Again>,
) -> Reply
    ensures { Asks (λ d. D.meaning d) (option_map event_again (option_copied asked.entry))
        world.old result world.new }
{
    match asked {
        Some(Again::Append { ticket, rec }) => world.append(*ticket, rec),
        Some(Again::Close { ticket }) => world.step(Event::Close { ticket: *ticket }),
        None => Reply::Nothing,
    }
}

// Whether a round is due after this answer: if it may be another one then, or if nothing is asked.
fn is_due(asked: Option<&Again>, answer: &Reply) -> bool
    ensures { result ≡ is_due (option_map event_again (option_copied asked.entry)) answer.now }
{
    match (asked, answer) {
        (None, _) => true,
        (Some(Again::Append { .. }), Reply::Refused(Refusal::Busy)) => true,
        (Some(Again::Close { .. }), Reply::Refused(Refusal::NotYet)) => true,
        _ => false,
    }
}

/// Gives what is asked, if anything is, and plays a round after it, again and again: to the first
/// answer that doesn't change any more, to the first round in which nothing moves, or to the answer
/// after as many rounds as there may be. Says the last answer, and counts the blocks that were placed. An `Err` comes
/// before a round; what was given and played before it stays so.
pub(crate) fn repeat<D: Driver + Drop, Q: Lanes, S: SpoolStore + Drop>(
    world: &mut World<D, Q, S>,
    rounds: u64,
    asked: Option<&Again>,
) -> Result<(Reply, u64), AllocError>
    ensures stops { IfOk result (λ last. Stops (λ d. D.meaning d) rounds
        (option_map event_again (option_copied asked.entry)) world.old last.0 last.1 world.new) }
    ensures err { OnErr result (Lacks (λ d. D.meaning d) rounds
        (option_map event_again (option_copied asked.entry)) world.old world.new) }
{
    let mut all = Round::new();
    for _played in 0..rounds {
        let answer = give(world, asked);
        if !is_due(asked, &answer) {
            return Ok((answer, all.placed));
        }
        let played = round(world)?;
        all = all.and(played);
        if !played.moved {
            return Ok((answer, all.placed));
        }
    }
    Ok((give(world, asked), all.placed))
}

/// Gives the event to the world, and again after each round in which something moved, as long as the answer may change;
/// at most so many rounds. A round that there is no memory for is the answer `Memory`.
pub fn answer<D: Driver + Drop, Q: Lanes, S: SpoolStore + Drop>(
    world: &mut World<D, Q, S>,
    rounds: u32,
    event: Event,
) -> Reply
    ensures { (events : List SpecEvent) × (replies : List SpecReply)
        × Answers (λ d. D.meaning d) rounds world.old event result events replies
        world.new }
{
    match event {
        Event::Append { ticket, rec } => {
            give_again(world, rounds, &Again::Append { ticket, rec })
        }
        Event::Close { ticket } => give_again(world, rounds, &Again::Close { ticket }),
        other => world.step(other),
    }
}

fn give_again<D: Driver + Drop, Q: Lanes, S: SpoolStore + Drop>(
    world: &mut World<D, Q, S>,
    rounds: u32,
    event: &Again,
) -> Reply
    ensures { (events : List SpecEvent) × (replies : List SpecReply)
        × Answers (λ d. D.meaning d) rounds world.old
        (event_again event.now) result events replies world.new }
{
    match repeat(world, rounds as u64, Some(event)) {
        Ok((answer, _)) => answer,
        Err(_) => Reply::Refused(Refusal::Memory),
    }
}
