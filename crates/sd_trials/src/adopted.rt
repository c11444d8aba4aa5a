// A volume that a later run takes over, or one of the same time.
ghost use Rattle.std.specs.Prelude.{◌≤◌};
ghost use Rattle.sd_base.specs.Limits.{most_number};

use crate::events::{deeds_of, drive, events_of, volume};
use crate::listed::TIME;
use crate::rows::Row;
use crate::worlds::{CAPACITY, stores, world_over};
use sd_base::Refusal;
use sd_core::Reply;
use sd_machine::Event;
use sd_memdrive::MemDrive;
use std::alloc::Global;
use std::io;

/// Takes the first volume of an example over in a later run, and in one of the same time, which is refused.
pub fn run(rt: HostRuntime, row: &Row) -> io::Result<()> {
    let name = row.name;
    match adopted(rt.alloc(), row, 2000)? {
        Reply::Adopted { end, next } => {
            println!(rt; "{name}: taken over by a later run, up to {end}, next {next}")?
        }
        _ => println!(rt; "{name}: not taken over")?,
    }
    match adopted(rt.alloc(), row, TIME)? {
        Reply::Refused(why) => println!(rt; "{name}: in a run of the same time {}", number(why)),
        _ => println!(rt; "{name}: taken over in a run of the same time"),
    }
}

fn number(why: Refusal) -> u16 {
    why.number()
}

// What a world of that time answers, over the devices of a world that played the example.
fn adopted(alloc: Global, row: &Row, time: u32) -> io::Result<Reply>
    requires least { 1 ≤ time }
    requires most { time ≤ most_number }
{
    let device = MemDrive::new(alloc, CAPACITY, &[])?;
    let mut world = world_over(alloc, row, TIME, device, stores(alloc, Vec::new(alloc))?)?;
    let deeds = deeds_of(alloc, row)?;
    world.run(events_of(alloc, &deeds)?)?;
    let Ok(mut devices) = world.into_drivers() else {
        return Err(io::ErrorKind::OutOfMemory.into());
    };
    let Some(device) = devices.pop() else {
        return Err(io::Error::other("no device"));
    };
    let mut later = world_over(alloc, row, time, device, stores(alloc, Vec::new(alloc))?)?;
    let (drive, name) = (drive()?, volume(1));
    Ok(later.step(Event::Adopt { drive, name }))
}
