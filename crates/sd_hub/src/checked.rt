// A line that may be settled.
ghost use Rattle.std.specs.Prelude.{◌≡◌, length};
ghost use Rattle.sd_hub.specs.Settles.{Settles, SettlesNot, line_of, sessions_of};

use crate::checks::count_all;
use crate::fault::{NotSettled, SettleFault};
use crate::gather::{Gathered, gather};
use crate::settled::Settled;
use sd_drive::{Drive, Receipt};
use sd_driver::Driver;
use sd_line::{LaneEnd, LineParts, Naming};
use sd_ruled::{RuledLanes, Split};
use sd_spool::SpoolStore;
use std::marker::Model;
use std::sync::Wait;

/// A line in which no fault was found, with the ends of its lanes and the receipts of its sessions; it may be taken apart, or
/// given back as it was. In a contract it is a `CheckedIs`.
#[derive(Drop)]
pub struct Checked<D: Driver, N: Naming, R: Wait + Drop, S: SpoolStore> {
    pub(crate) parts: LineParts<D, N, R>,
    pub(crate) ends: Vec<LaneEnd<N, S>>,
    pub(crate) receipts: Vec<Receipt>,
    pub(crate) room: Gathered<S>,
}

impl<D: Driver, N: Naming, R: Wait + Drop, S: SpoolStore> Model for Checked<D, N, R, S> {
    ghost use Rattle.std.specs.Prelude.{◌≡◌, ◌≤◌, []};
    ghost use Rattle.std.specs.Vec.{vec_capacity};
    ghost use Rattle.sd_hub.specs.Settles.{CheckedIs, Passes, checked_of, line_of};

    ghost Value = { CheckedIs D };

    ghost view = { λ c. checked_of (line_of c.parts.no c.parts.media c.parts.limits c.parts.queue)
        c.parts.side c.ends.items c.receipts.items };

    ghost invariant = { λ c. record {
      passes : Passes (checked_of (line_of c.parts.no c.parts.media c.parts.limits c.parts.queue)
          c.parts.side c.ends.items c.receipts.items);
      none : (c.room.seats.items ≡ []) × (c.room.lanes.items ≡ []);
      room : (c.parts.side.seat.lanes ≤ vec_capacity c.room.seats)
          × (c.parts.side.seat.lanes ≤ vec_capacity c.room.lanes);
    } };
}

impl<D: Driver, N: Naming, R: Wait + Drop, S: SpoolStore + Drop> Checked<D, N, R, S> {
    /// The drive of the line.
    pub fn drive(&self) -> &Drive<D>
        ensures { result.now ≡ self.now.side.drive }
    {
        self.parts.side.drive()
    }

    /// The ends of its lanes, and others that were handed in with them.
    pub fn ends(&self) -> &[LaneEnd<N, S>]
        ensures { result.now ≡ self.now.ends }
    {
        self.ends.as_slice()
    }

    /// How many sessions its lanes have. Their number fits, since each lane's does.
    pub fn count(&self) -> u128
        ensures { result ≡ length (sessions_of self.now) }
    {
        count_all(self.parts.no, self.parts.side.lanes(), self.ends.as_slice())
    }

    /// What was handed in, as it was; the fault is out of memory.
    pub fn give_back(self) -> NotSettled<D, N, R, S>
        ensures line { line_of result.parts.no result.parts.media result.parts.limits result.parts.queue
            ≡ self.line }
        ensures ends { result.ends.items ≡ self.ends }
        ensures why { SettlesNot (λ d. D.meaning d) N.table N.time self.line result.parts.side self.ends
            self.receipts result.fault result.receipts.items }
    {
        let Checked {
            parts,
            ends,
            receipts,
            room: _,
        } = self;
        parts.side.know();
        NotSettled {
            parts,
            ends,
            receipts,
            fault: SettleFault::Memory,
        }
    }

    /// The drive, the queue with all its seats, and the lanes. Takes no memory. Ends of other drives, and a second one of a
    /// lane, are dropped; so are the receipts.
    pub fn take_apart(self) -> Settled<D, R, S>
        ensures { Settles (λ d. D.meaning d) N.table N.time self result }
    {
        let Checked {
            parts,
            ends,
            receipts: _,
            room,
        } = self;
        let LineParts {
            no,
            queue,
            side,
            ..
        } = parts;
        let lanes = side.lanes();
        let (drive, seat) = side.into_parts();
        let Gathered { seats, lanes } = gather(no, lanes, ends, room);
        let queue = RuledLanes::join(Split {
            queue,
            lanes: seats,
            drive: seat,
        });
        Settled {
            drive,
            queue,
            lanes,
        }
    }
}
