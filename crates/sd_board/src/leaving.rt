// The lanes of a drive leave the board.
ghost use Rattle.std.specs.Prelude.{◌≡◌, ◌-◌, ◌≤◌, ◌<◌, ◌++◌, [], length, slice_get, vec_len, IfOk, OnErr, OnOk};
ghost use Rattle.std.specs.Option.{option_to_list};
ghost use Rattle.std.specs.Vec.{vec_capacity};
ghost use Rattle.sd_board.specs.Changes.{change_at};
ghost use Rattle.sd_board.specs.Slots.{ends_in, ends_of, without_lanes};

use crate::board::Board;
use crate::place::drive_place;
use crate::slot::LaneSlot;
use sd_base::{DriveNo, MOST_LANES};
use sd_line::{LaneEnd, Naming};
use sd_spool::SpoolStore;
use std::alloc::AllocError;

impl<N: Naming, S: SpoolStore + Drop> Board<N, S> {
    /// The lanes of a drive leave the board: the ends that lie there are handed out, by the numbers of their lanes. What may be
    /// on its way is not reported any more. If out of memory, all stay.
    pub fn take_ends(&mut self, drive: DriveNo) -> Result<Vec<LaneEnd<N, S>>, AllocError>
        ensures ok { IfOk result (λ ends. ends.items
            ≡ ends_of (slice_get self.old.drives (drive - 1))) }
        ensures left { OnOk result (self.new ≡ record self.old {
          drives = change_at without_lanes (drive - 1) self.old.drives;
        }) }
        ensures err { OnErr result (self.new ≡ self.old) }
    {
        let alloc = self.alloc;
        let place = drive_place(drive);
        if place >= self.drives.len() {
            return Ok(Vec::new(alloc));
        }
        let Ok(mut ends) = Vec::with_capacity(alloc, MOST_LANES as usize) else {
            return Err(AllocError);
        };
        let lanes = &mut self.drives[place];
        take_out(lanes.take_slots(Vec::new(alloc)), &mut ends);
        Ok(ends)
    }
}

// Takes the ends out of the slots.
fn take_out<N: Naming, S: SpoolStore + Drop>(
    slots: Vec<LaneSlot<N, S>>,
    ends: &mut Vec<LaneEnd<N, S>>,
)
    requires none { ends.old.items ≡ [] }
    requires room { length slots.items ≤ vec_capacity ends.old }
    ensures { ends.new.items ≡ ends_in slots.items }
{
    for slot in slots {
        take_from(slot, ends);
    }
}

// Takes the end out of the slot, if one lies there.
fn take_from<N: Naming, S: SpoolStore + Drop>(slot: LaneSlot<N, S>, ends: &mut Vec<LaneEnd<N, S>>)
    requires room { vec_len ends.old < vec_capacity ends.old }
    ensures out { ends.new.items ≡ ends.old.items ++ option_to_list slot.end }
    ensures capacity { vec_capacity ends.new ≡ vec_capacity ends.old }
{
    let Some(end) = slot.into_end() else {
        return;
    };
    ends.push_reserved(end);
}
