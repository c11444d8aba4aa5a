// A list of events, given to a world at once.
use crate::making::make_world;
use sd_base::DriveNo;
use sd_machine::{Event, Reply};
use std::alloc::Global;
use std::test::*;

// A drive's turn, with that of another drive, which isn't there, in its midst.
fn turns(alloc: Global) -> Option<Vec<Event>> {
    let drive = DriveNo::new(1)?;
    let mut events = Vec::new(alloc);
    events.push(Event::Take { drive }).ok()?;
    events
        .push(Event::Take {
            drive: DriveNo::new(2)?,
        })
        .ok()?;
    events.push(Event::Place { drive }).ok()?;
    events.push(Event::Sync { drive }).ok()?;
    Some(events)
}

fn number_of(reply: &Reply) -> u16 {
    match reply {
        Reply::Idle => 1,
        Reply::Synced => 2,
        Reply::Refused(refusal) => refusal.number(),
        _ => 0,
    }
}

// What a new world answers to them: 1 if a drive has nothing to do, 2 if it has synced, or the refusal's number.
fn answers(alloc: Global) -> Option<[u16; 4]> {
    let mut world = make_world(alloc)?;
    let replies = world.run(turns(alloc)?).ok()?;
    let mut numbers = [0; 4];
    for (number, reply) in numbers.iter_mut().zip(replies.as_slice()) {
        *number = number_of(reply);
    }
    (replies.len() == 4).then_some(numbers)
}

#[test]
fn a_list_of_events(rt: HostRuntime) {
    assert_eq!(rt; answers(rt.alloc()), Some([1, 3938, 1, 2]));
}
