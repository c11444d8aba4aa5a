// The lanes of a drive, as the desk has them.
ghost use Rattle.std.specs.Prelude.{◌≡◌, ◌-◌, ◌≤◌, None, [], length, map, slice_get, IfErr, MatchBool, OnOk, OnErr};
ghost use Rattle.std.specs.Option.{option_copied};
ghost use Rattle.std.specs.Vec.{vec_capacity};
ghost use Rattle.sd_base.specs.Choice.{NoneOf};
ghost use Rattle.sd_base.specs.Limits.{most_lanes};
ghost use Rattle.sd_board.specs.Slots.{AreNew, IsFree, MayLie, TakesLowest, arrived_in, busy_lanes, is_free_of, lies_in, new_lanes, new_slot, numbered_in, on_its_way_of, without_lanes};

use crate::finding::{count_busy, is_empty_at, lowest_free};
use crate::place::lane_place;
use crate::sent::Sent;
use crate::slot::LaneSlot;
use sd_base::{DriveNo, LaneNo, MediaName};
use sd_line::{LaneEnd, Naming};
use sd_spool::SpoolStore;
use std::marker::Model;
use std::mem;

/// The lanes of a drive, with its media. In a contract they are a `DriveLanesIs`.
#[derive(Drop)]
pub(crate) struct DriveLanes<N: Naming, S: SpoolStore> {
    no: DriveNo,
    media: MediaName,
    // Those of the lanes 1, 2 and on.
    slots: Vec<LaneSlot<N, S>>,
}

impl<N: Naming, S: SpoolStore> Model for DriveLanes<N, S> {
    ghost use Rattle.sd_board.specs.Slots.{DriveLanesIs, KeepsLanes};

    ghost Value = { DriveLanesIs };

    ghost view = { λ d. record { no = d.no; media = d.media; slots = d.slots.items } };

    ghost invariant = { λ d. KeepsLanes (record {
      no = d.no;
      media = d.media;
      slots = d.slots.items;
    }) };
}

impl<N: Naming, S: SpoolStore + Drop> DriveLanes<N, S> {
    /// The lanes of a drive whose ends are these, in the slots for which there is room. Takes no memory.
    pub(crate) fn of_ends(
        no: DriveNo,
        media: MediaName,
        ends: Vec<LaneEnd<N, S>>,
        slots: Vec<LaneSlot<N, S>>,
    ) -> Self
        requires most { length ends.items ≤ most_lanes }
        requires new { AreNew no ends.items }
        requires none { slots.items ≡ [] }
        requires room { length ends.items ≤ vec_capacity slots }
        ensures { result ≡ new_lanes no media ends.items }
    {
        let mut slots = slots;
        fill(ends, &mut slots);
        DriveLanes { no, media, slots }
    }

    /// Takes the slots; the drive has no lanes from now on.
    pub(crate) fn take_slots(&mut self, none: Vec<LaneSlot<N, S>>) -> Vec<LaneSlot<N, S>>
        requires { none.items ≡ [] }
        ensures slots { result.items ≡ self.old.slots }
        ensures most { length result.items ≤ most_lanes }
        ensures left { self.new ≡ without_lanes self.old }
    {
        mem::replace(&mut self.slots, none)
    }

    pub(crate) fn media(&self) -> &MediaName
        ensures { result.now ≡ self.now.media }
    {
        &self.media
    }

    /// How many lanes there are.
    pub(crate) fn count(&self) -> u32
        ensures { result ≡ length self.now.slots }
    {
        self.slots.len() as u32
    }

    /// How many of them are busy.
    pub(crate) fn busy(&self) -> u32
        ensures { result ≡ busy_lanes self.now }
    {
        count_busy(&self.slots)
    }

    /// Whether one of them is free.
    pub(crate) fn has_free(&self) -> bool
        ensures { MatchBool result (NoneOf IsFree self.now.slots → ⊥)
            (NoneOf IsFree self.now.slots) }
    {
        lowest_free(&self.slots).is_some()
    }

    /// Takes the end of the lowest lane that is free, for an open, which holds the lane from then on.
    pub(crate) fn take_lowest(&mut self) -> LaneEnd<N, S>
        requires { NoneOf IsFree self.old.slots → ⊥ }
        ensures { TakesLowest self.old result self.new }
    {
        let at = lowest_free(&self.slots).unwrap();
        let slot = &mut self.slots[at];
        slot.take_end()
    }

    /// The end lies in its slot from now on: exactly if that is there and empty, and its last session goes on no more.
    /// Else it comes back. Takes no memory.
    pub(crate) fn rest(
        &mut self,
        end: LaneEnd<N, S>,
        on_its_way: Option<Sent>,
    ) -> Result<(), LaneEnd<N, S>>
        requires { end.seat.no ≡ self.old.no }
        ensures ok { OnOk result (MayLie self.old end × (self.new ≡ lies_in end on_its_way self.old)) }
        ensures back { IfErr result (λ back. (back ≡ end) × (MayLie self.old end → ⊥)) }
        ensures err { OnErr result (self.new ≡ self.old) }
    {
        if !end.is_over() {
            return Err(end);
        }
        let at = lane_place(end.lane());
        if !is_empty_at(&self.slots, at) {
            return Err(end);
        }
        let slot = &mut self.slots[at];
        slot.lay(end, on_its_way);
        Ok(())
    }

    /// This has arrived: if it is what is on its way by the lane, nothing is any more.
    pub(crate) fn arrived(&mut self, lane: LaneNo, sent: Sent)
        ensures { self.new ≡ arrived_in sent lane self.old }
    {
        let at = lane_place(lane);
        if at >= self.slots.len() {
            return;
        }
        let slot = &mut self.slots[at];
        slot.arrived(sent);
    }

    /// The session of the open that holds the lane has its number.
    pub(crate) fn numbered(&mut self, lane: LaneNo)
        ensures { self.new ≡ numbered_in lane self.old }
    {
        let at = lane_place(lane);
        if at >= self.slots.len() {
            return;
        }
        let slot = &mut self.slots[at];
        slot.numbered();
    }

    /// Whether the lane is free, if there is one.
    pub(crate) fn is_free(&self, lane: LaneNo) -> bool
        ensures { result ≡ is_free_of (slice_get self.now.slots (lane - 1)) }
    {
        match self.slot(lane) {
            Some(slot) => slot.is_free(),
            None => false,
        }
    }

    /// What may be on its way of the session that used the lane last.
    pub(crate) fn on_its_way(&self, lane: LaneNo) -> Option<Sent>
        ensures { result ≡ on_its_way_of (slice_get self.now.slots (lane - 1)) }
    {
        match self.slot(lane) {
            Some(slot) => slot.on_its_way(),
            None => None,
        }
    }

    // The lane's slot, if there is such a lane.
    fn slot(&self, lane: LaneNo) -> Option<&LaneSlot<N, S>>
        ensures { option_copied result ≡ slice_get self.now.slots (lane - 1) }
    {
        self.slots.get(lane_place(lane))
    }
}

// Each end comes into a slot.
fn fill<N: Naming, S: SpoolStore + Drop>(ends: Vec<LaneEnd<N, S>>, slots: &mut Vec<LaneSlot<N, S>>)
    requires none { slots.old.items ≡ [] }
    requires room { length ends.items ≤ vec_capacity slots.old }
    ensures { slots.new.items ≡ map new_slot ends.items }
{
    for end in ends {
        slots.push_reserved(LaneSlot::new(end));
    }
}
