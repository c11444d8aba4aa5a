// The slot of a lane: where the lane's end lies while no session uses it.
ghost use Rattle.std.specs.Prelude.{◌≡◌, None, Some, is_none, true};
ghost use Rattle.sd_board.specs.Slots.{IsFree, arrived, is_busy, is_free, new_slot, numbered, slot_with};

use crate::sent::Sent;
use sd_line::{LaneEnd, Naming};
use sd_spool::SpoolStore;
use std::marker::Model;

/// A lane at the desk. In a contract it is a `SlotIs`.
#[derive(Drop)]
pub(crate) struct LaneSlot<N: Naming, S: SpoolStore> {
    // None while a session uses the lane, or an open holds it.
    end: Option<LaneEnd<N, S>>,
    // Of the session that used the lane last, while pieces that it sent may be on their way to a volume.
    on_its_way: Option<Sent>,
    // Whether an open holds the lane, which has no number yet.
    held: bool,
}

impl<N: Naming, S: SpoolStore> Model for LaneSlot<N, S> {
    ghost use Rattle.sd_board.specs.Slots.{SlotIs};

    ghost Value = { SlotIs };

    ghost view = { λ s. record { end = s.end; on_its_way = s.on_its_way; held = s.held } };
}

impl<N: Naming, S: SpoolStore + Drop> LaneSlot<N, S> {
    /// The slot of a lane that no session used, with its end.
    pub(crate) fn new(end: LaneEnd<N, S>) -> Self
        ensures { result ≡ new_slot end }
    {
        LaneSlot {
            end: Some(end),
            on_its_way: None,
            held: false,
        }
    }

    /// Whether the lane is free: its end lies here, and nothing of its last session is on its way.
    pub(crate) fn is_free(&self) -> bool
        ensures { result ≡ is_free self.now }
    {
        self.end.is_some() && self.on_its_way.is_none()
    }

    /// Whether the lane has a session, or something of its last one is on its way.
    pub(crate) fn is_busy(&self) -> bool
        ensures { result ≡ is_busy self.now }
    {
        !self.is_free() && !self.held
    }

    /// Whether no end lies here.
    pub(crate) fn is_empty(&self) -> bool
        ensures { result ≡ is_none self.now.end }
    {
        self.end.is_none()
    }

    /// What may be on its way of the session that used the lane last.
    pub(crate) fn on_its_way(&self) -> Option<Sent>
        ensures { result ≡ self.now.on_its_way }
    {
        self.on_its_way
    }

    /// Takes the end of a lane that is free, for an open, which holds the lane from then on.
    pub(crate) fn take_end(&mut self) -> LaneEnd<N, S>
        requires { IsFree self.old }
        ensures end { self.old.end ≡ Some result }
        ensures left { self.new ≡ record self.old { end = None; held = true } }
    {
        self.held = true;
        self.end.take().unwrap()
    }

    /// The session of the open that holds the lane has its number.
    pub(crate) fn numbered(&mut self)
        ensures { self.new ≡ numbered self.old }
    {
        self.held = false;
    }

    /// The end that lies here, if one does.
    pub(crate) fn into_end(self) -> Option<LaneEnd<N, S>>
        ensures { result ≡ self.end }
    {
        self.end
    }

    /// The end lies here from now on.
    pub(crate) fn lay(&mut self, end: LaneEnd<N, S>, on_its_way: Option<Sent>)
        ensures { self.new ≡ slot_with end on_its_way }
    {
        self.end = Some(end);
        self.on_its_way = on_its_way;
        self.held = false;
    }

    /// This has arrived: if it is what is on its way, nothing is any more.
    pub(crate) fn arrived(&mut self, sent: Sent)
        ensures { self.new ≡ arrived sent self.old }
    {
        let Some(way) = self.on_its_way else {
            return;
        };
        if way.is_same(sent) {
            self.on_its_way = None;
        }
    }
}
