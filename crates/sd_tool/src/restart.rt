// A new run over the drives of the last one.
ghost use Rattle.std.specs.Prelude.{◌≡◌, ◌≤◌, IfOk, Some, length};
ghost use Rattle.sd_base.specs.Limits.{most_number};
ghost use Rattle.sd_tool.specs.Restart.{HandsOn, IsThere, RestartsAs, unfit};
ghost use Rattle.sd_tool.specs.Settings.{capacity_for, drive_count};

use crate::making::Room;
use crate::stage::ScriptStage;
use crate::tail::put_tail;
use crate::values::Values;
use sd_base::Refusal;
use sd_driver::Driver;
use sd_lane::Lanes;
use sd_script::Tail;
use std::alloc::{AllocError, Global};

/// What a `restart` line asks for: a world of that time, with these bytes appended before.
#[derive(Drop)]
pub struct Restart {
    pub time: u32,
    pub tail: Option<Tail>,
}

/// What a `restart` line came to: the world that is there now, and why the line was refused, if it was.
#[derive(Drop)]
pub struct Restarted<D: Driver, Q: Lanes> {
    pub stage: ScriptStage<D, Q>,
    pub refused: Option<Refusal>,
}

impl<D: Driver + Drop, Q: Lanes + Drop> ScriptStage<D, Q> {
    /// A new world of that time over the same drives, with the bytes of the tail appended before. If the drive of the
    /// tail isn't there, or a drive was retired, or it is out of memory, the old world stays; if the appending alone is
    /// refused, the new one starts. An `Err` is returned if out of memory once the old world is gone.
    pub fn restarted(self, alloc: Global, restart: Restart) -> Result<Restarted<D, Q>, AllocError>
        requires time_least { 1 ≤ restart.time }
        requires time_most { restart.time ≤ most_number }
        ensures { IfOk result (λ restarted. RestartsAs (λ d. D.meaning d) self restart
            restarted.stage restarted.refused) }
    {
        let Restart { time, tail } = restart;
        if let Some(why) = self.unfit(&tail) {
            return Ok(self.refused(why));
        }
        let Ok(room) = Room::new(alloc, &self.values, &self.queue) else {
            return Ok(self.refused(Refusal::Memory));
        };
        let ScriptStage {
            world,
            queue,
            values,
            time: old_time,
            retired,
        } = self;
        let mut drivers = match world.into_drivers() {
            Ok(drivers) => drivers,
            Err(world) => {
                let same = ScriptStage {
                    world,
                    queue,
                    values,
                    time: old_time,
                    retired,
                };
                return Ok(same.refused(Refusal::Memory));
            }
        };
        let refused = append_tail(alloc, &values, &mut drivers, tail);
        let world = room.into_world(alloc, &values, time, drivers)?;
        let stage = ScriptStage {
            world,
            queue,
            values,
            time,
            retired: false,
        };
        Ok(Restarted { stage, refused })
    }

    // The world stays, and the line is refused.
    fn refused(self, why: Refusal) -> Restarted<D, Q>
        ensures { result ≡ record { stage = self; refused = Some why } }
    {
        Restarted {
            stage: self,
            refused: Some(why),
        }
    }

    // Why there can't be a new world, if so: the tail's drive isn't there, or a drive was retired.
    fn unfit(&self, tail: &Option<Tail>) -> Option<Refusal>
        ensures { result ≡ unfit (drive_count self.now.values) self.now.retired tail.now }
    {
        let values = &self.values;
        if let Some(tail) = tail {
            if tail.drive.get() as usize > values.drive_count() {
                return Some(Refusal::NoSuchDrive);
            }
        }
        if self.retired {
            return Some(Refusal::DriveOffline);
        }
        None
    }
}

// Hands the devices on, with the bytes of the tail, and says why not if these are refused.
fn append_tail<D: Driver>(
    alloc: Global,
    values: &Values,
    drivers: &mut Vec<D>,
    tail: Option<Tail>,
) -> Option<Refusal>
    requires { IsThere (length drivers.old.items) tail }
    ensures { HandsOn (λ d. D.meaning d) (capacity_for values.now) tail result
        drivers.old.items drivers.new.items }
{
    let tail = tail?;
    let at = tail.drive.get() as usize - 1;
    put_tail(alloc, &mut drivers[at], values.capacity(tail.drive), &tail)
}
