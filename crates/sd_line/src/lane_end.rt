// The end of a lane, while no session uses it.
ghost use Rattle.std.specs.Prelude.{◌≡◌, ◌↔◌, [], Some, IsTrue, IsSome, IfSome, true};
ghost use Rattle.std.specs.Option.{option_map};
ghost use Rattle.sd_spool.specs.Job.{state_of};
ghost use Rattle.sd_line.specs.Ends.{KeepsEnd, LastIsOver, LastGivesBack, BringsStore, forgot, last_alone, last_store};

use crate::naming::Naming;
use crate::seat::Seat;
use crate::told::Told;
use sd_base::{DriveNo, LaneNo};
use sd_spool::SpoolStore;
use std::alloc::Global;
use std::marker::Model;

/// The end of a lane: its seat, the store of its spools, and the sessions that used it. In a contract it is an `EndIs`.
///
/// Its type keeps what `KeepsEnd` says: what the seat sent is what those sessions sent, one after the other, unless some were
/// forgotten.
#[derive(Drop)]
pub struct LaneEnd<N: Naming, S: SpoolStore> {
    pub(crate) seat: Seat<N>,
    // None while the session has it that used the lane last.
    pub(crate) store: Option<S>,
    pub(crate) sessions: Vec<Told<S>>,
    // Whether none of them was forgotten.
    pub(crate) whole: bool,
}

impl<N: Naming, S: SpoolStore> Model for LaneEnd<N, S> {
    ghost use Rattle.std.specs.Option.{option_map};
    ghost use Rattle.sd_spool.specs.Job.{state_of};
    ghost use Rattle.sd_line.specs.Ends.{EndIs, KeepsEnd};

    ghost Value = { EndIs };

    ghost view = { λ e. record {
      seat = e.seat;
      store = option_map (λ s. state_of (S.meaning s)) e.store;
      sessions = e.sessions.items;
      whole = e.whole;
    } };

    ghost invariant = { λ e. KeepsEnd N.time (record {
      seat = e.seat;
      store = option_map (λ s. state_of (S.meaning s)) e.store;
      sessions = e.sessions.items;
      whole = e.whole;
    }) };
}

/// What the end of a lane is made of.
#[derive(Drop)]
pub struct EndParts<N: Naming, S: SpoolStore> {
    pub seat: Seat<N>,
    /// None while the session has it that used the lane last.
    pub store: Option<S>,
    /// Those that used the lane, in order.
    pub sessions: Vec<Told<S>>,
    /// Whether these are all that used it.
    pub whole: bool,
}

impl<N: Naming, S: SpoolStore> LaneEnd<N, S> {
    /// The end of a lane that no session used, with the store for the spools of its sessions. Takes no memory.
    pub fn new(alloc: Global, seat: Seat<N>, store: S) -> Self
        requires { seat.seat.sent ≡ [] }
        ensures { result ≡ record {
          seat = seat;
          store = Some (state_of (S.meaning store));
          sessions = [];
          whole = true;
        } }
    {
        LaneEnd {
            seat,
            store: Some(store),
            sessions: Vec::new(alloc),
            whole: true,
        }
    }

    /// What its type keeps. Does nothing.
    pub fn know(&self)
        ensures { KeepsEnd N.time self.now }
    {
        let _ = &self.store;
    }

    /// The sessions that used the lane, in order; of an end that isn't whole, the last one alone.
    pub fn sessions(&self) -> &[Told<S>]
        ensures { result.now ≡ self.now.sessions }
    {
        self.sessions.as_slice()
    }

    /// Whether a session may be opened at it: the one that used the lane last, if one did, goes on no more.
    pub fn is_over(&self) -> bool
    where
        S: Drop,
        ensures { IsTrue result ↔ LastIsOver self.now.sessions }
    {
        let Some(last) = self.sessions.last() else {
            return true;
        };
        match last.session.running() {
            Ok(()) => false,
            Err(_) => true,
        }
    }

    /// Whether its sessions are all that used the lane.
    pub fn is_whole(&self) -> bool
        ensures { result ≡ self.now.whole }
    {
        self.whole
    }

    /// Forgets the sessions that used the lane before the last one, and what they held: the end is whole no more, and its line
    /// can't be settled.
    pub fn forget(&mut self)
    where
        S: Drop,
        ensures { self.new ≡ forgot self.old }
    {
        self.whole = false;
        keep_last(&mut self.sessions);
    }

    /// What it is made of.
    pub fn into_parts(self) -> EndParts<N, S>
        ensures parts { self ≡ record {
          seat = result.seat;
          store = option_map (λ s. state_of (S.meaning s)) result.store;
          sessions = result.sessions.items;
          whole = result.whole;
        } }
        ensures keeps { KeepsEnd N.time self }
    {
        let LaneEnd {
            seat,
            store,
            sessions,
            whole,
        } = self;
        EndParts {
            seat,
            store,
            sessions,
            whole,
        }
    }

    // Takes the lane's store from the session that used the lane last, unless it lies here already.
    pub(crate) fn bring_store(&mut self)
    where
        S: Drop,
        requires { LastIsOver self.old.sessions }
        ensures brings { BringsStore self.old self.new }
        ensures over { LastIsOver self.new.sessions }
        ensures stored { IsSome self.new.store }
    {
        if self.store.is_some() {
            return;
        }
        self.store = take_from_last(&mut self.sessions);
    }

    /// The number of the line's drive.
    pub fn no(&self) -> DriveNo
        ensures { result ≡ self.now.seat.no }
    {
        self.seat.no()
    }

    /// The lane's number.
    pub fn lane(&self) -> LaneNo
        ensures { result ≡ self.now.seat.seat.lane }
    {
        self.seat.lane()
    }
}

// Drops these sessions but for the last one.
fn keep_last<S: SpoolStore + Drop>(sessions: &mut Vec<Told<S>>)
    ensures { sessions.new.items ≡ last_alone sessions.old.items }
{
    let Some(last) = sessions.pop() else {
        return;
    };
    sessions.clear();
    sessions.push_reserved(last);
}

// The store of the last of these sessions.
fn take_from_last<S: SpoolStore + Drop>(sessions: &mut Vec<Told<S>>) -> Option<S>
    requires over { LastIsOver sessions.old.items }
    requires stored { IsSome (last_store sessions.old.items) }
    ensures gives_back { IfSome result (λ store.
        LastGivesBack sessions.old.items (state_of (S.meaning store)) sessions.new.items) }
    ensures some { IsSome result }
{
    let mut last = sessions.pop()?;
    let store = last.session.give_back();
    sessions.push_reserved(last);
    store
}
