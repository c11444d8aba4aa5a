// A line, and its lock.
ghost use Rattle.std.specs.Prelude.{◌≡◌, ◌≢◌, ◌≤◌, ℕ, List, [], ◌∷◌, ◌++◌, None, Some, length, slice_get, IfOk, IfErr, IfSome, OnOk, OnErr};
ghost use Rattle.std.specs.Sync.Mutex.{mutex_guard_value};
ghost use Rattle.std.specs.Vec.{vec_capacity};
ghost use Rattle.sd_base.specs.Limits.{most_lanes};
ghost use Rattle.sd_base.specs.declared.refusal.Refusal.TheVariants.{BadCommand};
ghost use Rattle.sd_drive.specs.Limits.{AreLimits};
ghost use Rattle.sd_drive.specs.View.{DriveIs};
ghost use Rattle.sd_journal.specs.Journal.{Entry, placements, progress_of};
ghost use Rattle.sd_lane.specs.Queue.{WasFull};
ghost use Rattle.sd_line.specs.Operates.{MayOperate, operated_at};
ghost use Rattle.sd_line.specs.Side.{SeatIs, book_of, seats_at};
ghost use Rattle.sd_line.specs.Turns.{MayTurn};
ghost use Rattle.sd_machine.specs.declared.reply.Reply.TheVariants.{Refused};
ghost use Rattle.sd_ruled.specs.Seats.{LaneSeatIs, seats_of};
ghost use Rattle.sd_span.specs.Spans.{spans_of};
ghost use Rattle.sd_world.specs.Reading.{ReadsDrive};

use crate::gate::Gate;
use crate::naming::Naming;
use crate::seat::Seat;
use crate::side::DriveSide;
use crate::tells::CloseBook;
use crate::turning::Turned;
use sd_base::{DriveNo, Items, MOST_LANES, MediaName, PoolName, Refusal, SessionKey};
use sd_drive::{Drive, Limits};
use sd_driver::Driver;
use sd_lane::Piece;
use sd_machine::{Event, Reply};
use sd_readback::{ReadEnd, Sink};
use sd_ruled::{LaneQueue, LaneSeat, NotSplit, RuledLanes, Split};
use sd_span::{Progress, Span};
use std::alloc::{AllocError, Global};
use std::marker::Model;
use std::sync::{Mutex, MutexGuard, Wait};

/// A drive under a lock, and the queue before it, which threads share without one. In a contract it
/// is a `LineIs`.
#[derive(Drop)]
pub struct Line<D: Driver, N: Naming, R: Wait + Drop> {
    rt: R,
    no: DriveNo,
    // Those of the drive, so that who opens a session need not take the lock to know them.
    media: MediaName,
    limits: Limits,
    queue: LaneQueue<R>,
    side: Mutex<DriveSide<D, N>>,
}

impl<D: Driver, N: Naming, R: Wait + Drop> Model for Line<D, N, R> {
    ghost use Rattle.std.specs.Prelude.{◌≡◌};
    ghost use Rattle.sd_drive.specs.Limits.{AreLimits};
    ghost use Rattle.sd_line.specs.Side.{LineIs};

    ghost Value = { LineIs };

    ghost view = { λ l. record { no = l.no; media = l.media; limits = l.limits; queue = l.queue } };

    ghost invariant = { λ l. record {
      here : l.queue.table ≡ N.table l.no;
      run : l.limits.time ≡ N.time l.no;
      limits : AreLimits l.limits;
    } };
}

/// A drive, a queue and a ledger of which no line was made, because there was no memory.
#[derive(Drop)]
pub struct NotLined<D: Driver, R: Wait + Drop> {
    pub drive: Drive<D>,
    pub lanes: RuledLanes<R>,
    pub book: CloseBook<D>,
}

/// What a line is made of, with the value of its lock, for who has the line alone. A line is made of it again.
#[derive(Drop)]
pub struct LineParts<D: Driver, N: Naming, R: Wait + Drop> {
    rt: R,
    pub no: DriveNo,
    pub media: MediaName,
    pub limits: Limits,
    pub queue: LaneQueue<R>,
    pub side: DriveSide<D, N>,
    ghost here: { queue.table ≡ N.table no },
    ghost run: { limits.time ≡ N.time no },
    ghost within: { AreLimits limits },
}

impl<D: Driver, N: Naming, R: Wait + Drop> Line<D, N, R> {
    /// A line of a drive and of the queue before it, and the seats of the lanes 1, 2 and on, none of
    /// which sent anything. If out of memory, drive, queue and ledger come back.
    pub fn new(
        rt: R,
        alloc: Global,
        no: DriveNo,
        drive: Drive<D>,
        lanes: RuledLanes<R>,
        book: CloseBook<D>,
    ) -> Result<(Self, Vec<Seat<N>>), NotLined<D, R>>
        requires named { (lanes.table ≡ N.table no) × (drive.limits.time ≡ N.time no) }
        requires booked { book.id ≡ N.table (book_of no) }
        requires limits { AreLimits drive.limits }
        requires most { lanes.lanes ≤ most_lanes }
        requires unused { (drive.journal ≡ []) × (drive.hand ≡ None) }
        requires empty { (lanes.taken ≡ []) × (lanes.held ≡ []) }
        ensures line { IfOk result (λ made. made.0 ≡ record {
          no = no;
          media = drive.media;
          limits = drive.limits;
          queue = record { table = lanes.table; capacity = lanes.capacity };
        }) }
        ensures seats { IfOk result (λ made. made.1.items
            ≡ seats_at no (seats_of lanes.table lanes.lanes [] lanes.lanes)) }
        ensures new { IfOk result (λ made. (k : ℕ) (seat : SeatIs) → slice_get made.1.items k ≡ Some seat
            → (seat.no ≡ no) × (seat.seat.sent ≡ [])) }
        ensures err { IfErr result (λ back. (back.drive ≡ drive) × (back.lanes ≡ lanes) × (back.book ≡ book)) }
    {
        let Ok(mut seats) = Vec::with_capacity(alloc, MOST_LANES as usize) else {
            return Err(NotLined { drive, lanes, book });
        };
        let Split {
            queue,
            lanes,
            drive: seat,
        } = match lanes.split(alloc) {
            Ok(split) => split,
            Err(NotSplit { lanes }) => return Err(NotLined { drive, lanes, book }),
        };
        name_seats(no, lanes, &mut seats);
        let media = drive.media().copy();
        let limits = drive.limits().copy();
        let side = Mutex::new(DriveSide::new(no, drive, seat, book));
        let line = Line {
            rt,
            no,
            media,
            limits,
            queue,
            side,
        };
        Ok((line, seats))
    }

    /// What the line is made of. No lock is taken, since nobody else has the line.
    pub fn into_parts(self) -> LineParts<D, N, R>
        ensures line { self ≡ record {
          no = result.no;
          media = result.media;
          limits = result.limits;
          queue = result.queue;
        } }
    {
        let Line {
            rt,
            no,
            media,
            limits,
            queue,
            side,
        } = self;
        LineParts {
            rt,
            no,
            media,
            limits,
            queue,
            side: side.into_inner(),
        }
    }

    /// The line that is made of these.
    pub fn of_parts(parts: LineParts<D, N, R>) -> Self
        ensures { result ≡ record {
          no = parts.no;
          media = parts.media;
          limits = parts.limits;
          queue = parts.queue;
        } }
    {
        let LineParts {
            rt,
            no,
            media,
            limits,
            queue,
            side,
        } = parts;
        Line {
            rt,
            no,
            media,
            limits,
            queue,
            side: Mutex::new(side),
        }
    }

    /// The number of the line's drive.
    pub fn no(&self) -> DriveNo
        ensures { result ≡ self.now.no }
    {
        self.no
    }

    /// The media of the line's drive.
    pub fn media(&self) -> &MediaName
        ensures { result.now ≡ self.now.media }
    {
        &self.media
    }

    /// The limits of the line's drive.
    pub fn limits(&self) -> &Limits
        ensures limits { result.now ≡ self.now.limits }
        ensures run { self.now.limits.time ≡ N.time self.now.no }
        ensures known { AreLimits self.now.limits }
    {
        &self.limits
    }

    /// The queue before the line's drive, into which the seats of its lanes push.
    pub fn queue(&self) -> &LaneQueue<R>
        ensures queue { result.now ≡ self.now.queue }
        ensures here { self.now.queue.table ≡ N.table self.now.no }
    {
        &self.queue
    }

    /// Takes the drive's lock. What lies under it has the line's number: no clause can say which lock a line has, so it
    /// is looked at here, and nowhere else. One that had another would be waited for without end.
    pub fn lock(&self) -> MutexGuard<'_, DriveSide<D, N>>
        ensures { (mutex_guard_value result).no ≡ self.now.no }
    {
        for _taken in self.rt.forever() {
            let side = self.side.lock(&self.rt);
            if side.no() == self.no {
                return side;
            }
        }
        unreachable!()
    }

    /// A turn of the drive, with its lock held: as `DriveSide::turn_on`.
    pub fn turn<G: Gate>(&self, gate: &G) -> Turned
        ensures { MayTurn (λ d. D.meaning d) result }
    {
        let mut side = self.lock();
        let side: &mut DriveSide<D, N> = &mut side;
        side.turn_on(&self.queue, gate)
    }

    /// Answers an event of the operator, with the drive's lock held: as `DriveSide::operate_on`.
    pub fn operate(&self, event: Event) -> Reply
        ensures answers { MayOperate (λ d. D.meaning d) self.now.no event result }
        ensures elsewhere { operated_at event ≢ Some self.now.no → result ≡ Refused BadCommand }
    {
        let mut side = self.lock();
        let side: &mut DriveSide<D, N> = &mut side;
        side.operate_on(event)
    }

    /// The spans of a session, as far as it was placed when the drive's lock was held.
    pub fn spans(&self, key: SessionKey) -> Result<Items<Span>, AllocError>
        ensures { IfOk result (λ spans. (journal : List Entry)
            × (spans ≡ spans_of key (placements journal))) }
    {
        let side = self.side.lock(&self.rt);
        let side: &DriveSide<D, N> = &side;
        side.drive().spans(key)
    }

    /// How far a session's blocks were when the drive's lock was held. Takes no memory.
    pub fn progress(&self, key: SessionKey) -> Progress
        ensures { (journal : List Entry) × (result ≡ progress_of key journal) }
    {
        let side = self.side.lock(&self.rt);
        let side: &DriveSide<D, N> = &side;
        side.drive().progress(key)
    }

    /// Reads a session back from its spans, with the drive's lock held all the time.
    pub fn read<S: Sink>(
        &self,
        key: SessionKey,
        spans: &[Span],
        sink: &mut S,
    ) -> Result<ReadEnd, Refusal>
        ensures { (old : DriveIs D) × (new : DriveIs D) × ReadsDrive (λ d. D.meaning d) key spans.now
            (S.got sink.old) (S.got sink.new) result old new }
    {
        let mut side = self.side.lock(&self.rt);
        let side: &mut DriveSide<D, N> = &mut side;
        side.read(key, spans, sink)
    }
}

// The seats, each with the number of its line.
fn name_seats<N: Naming>(no: DriveNo, lanes: Vec<LaneSeat>, seats: &mut Vec<Seat<N>>)
    requires named { (k : ℕ) (seat : LaneSeatIs) → slice_get lanes.items k ≡ Some seat
        → seat.table ≡ N.table no }
    requires unused { (k : ℕ) (seat : LaneSeatIs) → slice_get lanes.items k ≡ Some seat
        → seat.sent ≡ [] }
    requires room { length lanes.items ≤ vec_capacity seats.old }
    requires none { seats.old.items ≡ [] }
    ensures { seats.new.items ≡ seats_at no lanes.items }
{
    for seat in lanes {
        seats.push_reserved(Seat::new(no, seat));
    }
}
