// The sessions leave their lanes.
ghost use Rattle.std.specs.Prelude.{◌≡◌, ◌≤◌, ◌+◌, [], ◌++◌, length, map, vec_len};
ghost use Rattle.std.specs.Vec.{vec_capacity};
ghost use Rattle.sd_hub.specs.Tickets.{HaveTickets, LanesHaveTickets};
ghost use Rattle.sd_hub.specs.Worlds.{lane_sessions, lane_view};

use crate::numbers::last_ticket;
use crate::settled::SettledLane;
use sd_events::LaneSlot;
use sd_line::Told;
use sd_spool::SpoolStore;

/// Takes the sessions out of the lanes, lane after lane, and makes a lane of the world of each. Takes no memory.
pub(crate) fn leave_lanes<S: SpoolStore + Drop>(
    lanes: Vec<SettledLane<S>>,
    told: &mut Vec<Told<S>>,
    slots: &mut Vec<LaneSlot<S>>,
)
    requires tickets { LanesHaveTickets lanes.items }
    requires none { (told.old.items ≡ []) × (slots.old.items ≡ []) }
    requires told_room { length (lane_sessions lanes.items) ≤ vec_capacity told.old }
    requires slots_room { length lanes.items ≤ vec_capacity slots.old }
    ensures told { told.new.items ≡ lane_sessions lanes.items }
    ensures slots { slots.new.items ≡ map lane_view lanes.items }
{
    for lane in lanes {
        slots.push_reserved(leave_lane(lane, told));
    }
}

// Takes the sessions out of one lane, and puts them after the others.
fn leave_lane<S: SpoolStore + Drop>(lane: SettledLane<S>, told: &mut Vec<Told<S>>) -> LaneSlot<S>
    requires tickets { HaveTickets lane.sessions }
    requires room { vec_len told.old + length lane.sessions ≤ vec_capacity told.old }
    ensures told { told.new.items ≡ told.old.items ++ lane.sessions }
    ensures capacity { vec_capacity told.old ≤ vec_capacity told.new }
    ensures slot { result ≡ lane_view lane }
{
    let SettledLane {
        store,
        mut sessions,
    } = lane;
    let holder = last_ticket(&sessions);
    told.append(&mut sessions).unwrap();
    LaneSlot { holder, store }
}
