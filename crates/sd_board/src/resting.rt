// The ends of lanes lie at the board while no session uses them.
ghost use Rattle.std.specs.Prelude.{◌≡◌, ◌-◌, slice_get, IfErr, OnErr, OnOk};
ghost use Rattle.std.specs.Option.{option_copied};
ghost use Rattle.sd_board.specs.Board.{AreNumbered, MayRest, Rests};
ghost use Rattle.sd_board.specs.Slots.{arrived_at, busy_of, is_free_of, on_its_way_of, slot_at};

use crate::board::Board;
use crate::lanes::DriveLanes;
use crate::place::drive_place;
use crate::sent::Sent;
use sd_base::{DriveNo, LaneNo};
use sd_line::{LaneEnd, Naming};
use sd_spool::SpoolStore;

impl<N: Naming, S: SpoolStore + Drop> Board<N, S> {
    /// The end of a lane lies in its slot from now on, and what its last session sent may be on its way: exactly if
    /// that slot is there and empty, and the session goes on no more. Else the end comes back. Takes no memory.
    pub fn rest(
        &mut self,
        end: LaneEnd<N, S>,
        on_its_way: Option<Sent>,
    ) -> Result<(), LaneEnd<N, S>>
        ensures ok { OnOk result (Rests self.old.drives end on_its_way self.new.drives) }
        ensures same { self.new ≡ record self.old { drives = self.new.drives } }
        ensures back { IfErr result (λ back. (back ≡ end) × (MayRest self.old.drives end → ⊥)) }
        ensures err { OnErr result (self.new ≡ self.old) }
    {
        rest_in(&mut self.drives, end, on_its_way)
    }

    /// What of the session that used the lane last may be on its way to a volume. Its lane isn't free until that has arrived.
    pub fn on_its_way(&self, drive: DriveNo, lane: LaneNo) -> Option<Sent>
        ensures { result ≡ on_its_way_of (slot_at drive lane self.now.drives) }
    {
        match self.lanes(drive) {
            Some(lanes) => lanes.on_its_way(lane),
            None => None,
        }
    }

    /// This has arrived: if it is what is on its way by the lane, nothing is any more; else nothing changes. Takes no memory.
    pub fn arrived(&mut self, drive: DriveNo, lane: LaneNo, sent: Sent)
        ensures { self.new ≡ record self.old {
          drives = arrived_at sent drive lane self.old.drives;
        } }
    {
        let place = drive_place(drive);
        if place >= self.drives.len() {
            return;
        }
        let lanes = &mut self.drives[place];
        lanes.arrived(lane, sent);
    }

    /// Whether the lane is free: its end lies here, and nothing of the session that used it last is on its way.
    pub fn is_lane_free(&self, drive: DriveNo, lane: LaneNo) -> bool
        ensures { result ≡ is_free_of (slot_at drive lane self.now.drives) }
    {
        match self.lanes(drive) {
            Some(lanes) => lanes.is_free(lane),
            None => false,
        }
    }

    /// How many lanes of the drive are busy: each has a session, or something of its last one is on its way.
    pub fn busy(&self, drive: DriveNo) -> u32
        ensures { result ≡ busy_of (slice_get self.now.drives (drive - 1)) }
    {
        match self.lanes(drive) {
            Some(lanes) => lanes.busy(),
            None => 0,
        }
    }

    // The lanes of this drive, if there is one.
    fn lanes(&self, drive: DriveNo) -> Option<&DriveLanes<N, S>>
        ensures { option_copied result ≡ slice_get self.now.drives (drive - 1) }
    {
        self.drives.get(drive_place(drive))
    }
}

/// The end lies in its slot from now on, or comes back.
pub(crate) fn rest_in<N: Naming, S: SpoolStore + Drop>(
    drives: &mut Vec<DriveLanes<N, S>>,
    end: LaneEnd<N, S>,
    on_its_way: Option<Sent>,
) -> Result<(), LaneEnd<N, S>>
    requires { AreNumbered drives.old.items }
    ensures ok { OnOk result (Rests drives.old.items end on_its_way drives.new.items) }
    ensures back { IfErr result (λ back. (back ≡ end) × (MayRest drives.old.items end → ⊥)) }
    ensures err { OnErr result (drives.new.items ≡ drives.old.items) }
{
    let place = drive_place(end.no());
    if place >= drives.len() {
        return Err(end);
    }
    let lanes = &mut drives[place];
    lanes.rest(end, on_its_way)
}
