// The seat of a lane of a line.
ghost use Rattle.std.specs.Prelude.{◌≡◌, ◌≢◌, ◌⊎◌, ◌≤◌, [], ◌∷◌, ◌++◌, false, IsTrue, OnOk, OnErr, IfErr, length};
ghost use Rattle.sd_lane.specs.Queue.{pieces_of, WasFull};
ghost use Rattle.sd_line.specs.Counts.{most_count};
ghost use Rattle.sd_line.specs.Side.{sends_one};

use crate::counts::{LaneCounts, one_more};
use crate::line::Line;
use crate::naming::Naming;
use sd_base::{DriveNo, LaneNo};
use sd_driver::Driver;
use sd_lane::Piece;
use sd_ruled::{DriveSeat, LaneQueue, LaneSeat};
use std::marker::{Model, PhantomData};
use std::sync::Wait;

/// The seat of a lane, of the line before the drive of its number. In a contract it is a `SeatIs`.
#[derive(Drop)]
pub struct Seat<N: Naming> {
    no: DriveNo,
    seat: LaneSeat,
    // How many pieces it sent. At `u64::MAX` it stays, and says only that there are as many at least.
    pushed: u64,
    of: PhantomData<N>,
}

impl<N: Naming> Model for Seat<N> {
    ghost use Rattle.std.specs.Prelude.{◌≡◌, length};
    ghost use Rattle.sd_line.specs.Counts.{Counts};
    ghost use Rattle.sd_line.specs.Side.{SeatIs};

    ghost Value = { SeatIs };

    ghost view = { λ s. record { no = s.no; seat = s.seat } };

    ghost invariant = { λ s. record {
      here : s.seat.table ≡ N.table s.no;
      counted : Counts s.pushed (length s.seat.sent);
    } };
}

impl<N: Naming> Seat<N> {
    pub(crate) fn new(no: DriveNo, seat: LaneSeat) -> Self
        requires here { seat.table ≡ N.table no }
        requires unused { seat.sent ≡ [] }
        ensures { result ≡ record { no = no; seat = seat } }
    {
        Seat {
            no,
            seat,
            pushed: 0,
            of: PhantomData,
        }
    }

    /// The number of the line's drive.
    pub fn no(&self) -> DriveNo
        ensures { result ≡ self.now.no }
    {
        self.no
    }

    /// The seat at the queue itself.
    pub fn into_seat(self) -> LaneSeat
        ensures seat { result ≡ self.seat }
        ensures here { result.table ≡ N.table self.no }
    {
        let Seat {
            no: _,
            seat,
            pushed: _,
            of: _,
        } = self;
        seat
    }

    /// What holds of every seat: it is of the queue that is named for its number. Does nothing.
    pub fn know(&self)
        ensures { self.now.seat.table ≡ N.table self.now.no }
    {
        let _ = &self.seat;
    }

    /// The lane's number.
    pub fn lane(&self) -> LaneNo
        ensures { result ≡ self.now.seat.lane }
    {
        self.seat.lane()
    }

    /// Pushes a piece after the others, or gives it back because the queue was full at a moment of
    /// the call. Takes no memory.
    pub fn push<D: Driver, R: Wait + Drop>(
        &mut self,
        line: &Line<D, N, R>,
        piece: Piece,
    ) -> Result<(), Piece>
        requires { self.old.no ≡ line.now.no }
        ensures ok { OnOk result (self.new ≡ sends_one piece self.old) }
        ensures given_back { IfErr result (λ back. back ≡ piece) }
        ensures err { OnErr result (self.new ≡ self.old) }
        ensures was_full { OnErr result (WasFull self.old.seat.lanes line.now.queue.capacity
            self.old.seat.lane self.old.seat.sent) }
    {
        self.push_to(line.queue(), piece)
    }

    /// Pushes a piece as `push` does, with only the queue of the line at hand.
    pub fn push_to<R: Wait + Drop>(
        &mut self,
        queue: &LaneQueue<R>,
        piece: Piece,
    ) -> Result<(), Piece>
        requires { queue.now.table ≡ N.table self.old.no }
        ensures ok { OnOk result (self.new ≡ sends_one piece self.old) }
        ensures given_back { IfErr result (λ back. back ≡ piece) }
        ensures err { OnErr result (self.new ≡ self.old) }
        ensures was_full { OnErr result (WasFull self.old.seat.lanes queue.now.capacity
            self.old.seat.lane self.old.seat.sent) }
    {
        self.seat.push(queue, piece)?;
        self.pushed = one_more(self.pushed);
        Ok(())
    }

    // The seat at the queue.
    pub(crate) fn lane_seat(&self) -> &LaneSeat
        ensures { result.now ≡ self.now.seat }
    {
        &self.seat
    }

    // Whether the drive took of this lane all that it sent, as both counted it. If so, what it took is what was sent.
    pub(crate) fn is_taken<R: Wait + Drop>(
        &mut self,
        queue: &LaneQueue<R>,
        drive: &mut DriveSeat,
        counts: &LaneCounts,
    ) -> bool
        requires queue { queue.now.table ≡ N.table self.old.no }
        requires drive { drive.old.table ≡ queue.now.table }
        requires counts { counts.now ≡ drive.old.taken }
        ensures same { (self.new ≡ self.old) × (drive.new ≡ drive.old) }
        ensures taken { IsTrue result
            → pieces_of self.old.seat.lane drive.old.taken ≡ self.old.seat.sent }
        ensures apart { result ≡ false
            → (length (pieces_of self.old.seat.lane drive.old.taken) ≢ length self.old.seat.sent)
            ⊎ (most_count ≤ length self.old.seat.sent) }
    {
        drive.compare(queue, &mut self.seat);
        self.pushed < u64::MAX && counts.get(self.seat.lane()) == self.pushed
    }
}
