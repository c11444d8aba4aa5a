// The slots of a drive, looked at one after another.
ghost use Rattle.std.specs.Prelude.{◌≡◌, ◌≤◌, ◌<◌, ◌↔◌, None, Some, IfNone, IfSome, IsTrue, length, slice_get};
ghost use Rattle.std.specs.List.{count_by};
ghost use Rattle.sd_base.specs.Choice.{FirstOf, NoneOf};
ghost use Rattle.sd_base.specs.Limits.{most_lanes};
ghost use Rattle.sd_board.specs.Slots.{IsFree, SlotIs, is_busy};

use crate::slot::LaneSlot;
use sd_line::Naming;
use sd_spool::SpoolStore;

/// How many of the lanes are busy.
pub(crate) fn count_busy<N: Naming, S: SpoolStore + Drop>(slots: &[LaneSlot<N, S>]) -> u32
    requires { length slots.now ≤ most_lanes }
    ensures { result ≡ count_by is_busy slots.now }
{
    let mut busy = 0;
    for slot in slots {
        if slot.is_busy() {
            busy += 1;
        }
    }
    busy
}

/// The place of the lowest lane that is free.
pub(crate) fn lowest_free<N: Naming, S: SpoolStore + Drop>(
    slots: &[LaneSlot<N, S>],
) -> Option<usize>
    ensures some { IfSome result (FirstOf IsFree (λ _ _. ⊥) slots.now) }
    ensures none { IfNone result (NoneOf IsFree slots.now) }
    ensures within { IfSome result (λ at. at < length slots.now) }
{
    for at in 0..slots.len() {
        if slots[at].is_free() {
            return Some(at);
        }
    }
    None
}

/// Whether the slot at this place is there, and no end lies in it.
pub(crate) fn is_empty_at<N: Naming, S: SpoolStore + Drop>(
    slots: &[LaneSlot<N, S>],
    at: usize,
) -> bool
    ensures { IsTrue result ↔ ((slot : SlotIs) × (slice_get slots.now at ≡ Some slot)
        × (slot.end ≡ None)) }
{
    match slots.get(at) {
        Some(slot) => slot.is_empty(),
        None => false,
    }
}
