// The part of a session: what its thread has of it.
ghost use Rattle.std.specs.Prelude.{◌≡◌, ◌++◌, ◌∷◌, List, [], Ok, IfOk, IfErr, IfSome, OnOk, OnErr};
ghost use Rattle.sd_journal.specs.Journal.{Entry};
ghost use Rattle.sd_lane.specs.Queue.{WasFull};
ghost use Rattle.sd_session.specs.Session.{TakesRecord, AppendRefused, EndsSession, EndRefused, CancelsSession, NotRunning};
ghost use Rattle.sd_session.specs.Sending.{DespoolRefused};
ghost use Rattle.sd_session.specs.Spooling.{Spools, SpoolRefused};
ghost use Rattle.sd_line.specs.Closes.{Closes, IsDue, MayCloseBy};
ghost use Rattle.sd_line.specs.Parts.{KeepsPart, SendsBy, with_session, end_of};
ghost use Rattle.sd_line.specs.Tells.{AreApart, ClosesUnder, HasOwn, IsOfOwn, told_closed, told_due};

use crate::closing::{self, Closing};
use crate::lane_end::LaneEnd;
use crate::line::Line;
use crate::naming::Naming;
use crate::pushing;
use crate::seat::Seat;
use crate::side::DriveSide;
use crate::told::Told;
use sd_base::{DriveNo, Rec, Refusal, Seen};
use sd_drive::Receipt;
use sd_driver::Driver;
use sd_ruled::LaneQueue;
use sd_session::{Despooled, Session, Spooling};
use sd_spool::SpoolStore;
use std::marker::Model;
use std::sync::Wait;

/// A session, with its spool and the seat of its lane: what one thread has to itself. In a contract it is a `PartIs`.
///
/// Its type keeps what `KeepsPart` says: the records that the session took are the whole of what the seat sent for it and of
/// what it still has; if it spools, while the lane's store is honest.
#[derive(Drop)]
pub struct SessionPart<N: Naming, S: SpoolStore> {
    pub(crate) seat: Seat<N>,
    // The sessions that used the lane before; with room for one more, so that to leave takes no memory.
    pub(crate) before: Vec<Told<S>>,
    pub(crate) session: Session<S>,
    // The records that the session took, of which nothing is held.
    pub(crate) told: Option<Seen<Rec>>,
    pub(crate) spools: bool,
    // Whether the sessions before are all that used the lane.
    pub(crate) whole: bool,
}

impl<N: Naming, S: SpoolStore> Model for SessionPart<N, S> {
    ghost use Rattle.std.specs.Prelude.{◌<◌, length};
    ghost use Rattle.std.specs.Vec.{vec_capacity};
    ghost use Rattle.sd_base.specs.Seen.{seen_of};
    ghost use Rattle.sd_line.specs.Parts.{PartIs, KeepsPart};

    ghost Value = { PartIs };

    ghost view = { λ p. record {
      seat = p.seat;
      before = p.before.items;
      session = p.session;
      told = seen_of p.told;
      spools = p.spools;
      whole = p.whole;
    } };

    ghost invariant = { λ p. record {
      keeps : KeepsPart N.time (record {
        seat = p.seat;
        before = p.before.items;
        session = p.session;
        told = seen_of p.told;
        spools = p.spools;
        whole = p.whole;
      });
      room : length p.before.items < vec_capacity p.before;
    } };
}

impl<N: Naming, S: SpoolStore + Drop> SessionPart<N, S> {
    /// What its type keeps. Does nothing.
    pub fn know(&self)
        ensures { KeepsPart N.time self.now }
    {
        let _ = &self.told;
    }

    /// The number of the line's drive.
    pub fn no(&self) -> DriveNo
        ensures { result ≡ self.now.seat.no }
    {
        self.seat.no()
    }

    /// The session itself.
    pub fn session(&self) -> &Session<S>
        ensures { result.now ≡ self.now.session }
    {
        &self.session
    }

    /// Adds a record to an active session, and says how many it has then: as `Session::append`.
    pub fn append(&mut self, rec: &Rec) -> Result<u64, Refusal>
        ensures ok { IfOk result (λ n. TakesRecord self.old.session rec.now n self.new.session) }
        ensures told { OnOk result (self.new ≡ record self.old {
          session = self.new.session;
          told = self.old.told ++ rec.now ∷ [];
        }) }
        ensures why { IfErr result (λ why. AppendRefused self.old.session rec.now why) }
        ensures err { OnErr result (self.new ≡ self.old) }
    {
        let count = self.session.append(rec)?;
        self.told = Some(Seen::with(&self.told, rec));
        Ok(count)
    }

    /// Adds the end label to an active session, and closes its last body: as `Session::end`.
    pub fn end(&mut self, moment: i64) -> Result<(), Refusal>
        ensures ok { OnOk result (EndsSession self.old.session moment self.new.session) }
        ensures why { IfErr result (λ why. EndRefused self.old.session why) }
        ensures same { self.new ≡ with_session self.old self.new.session }
        ensures err { OnErr result (self.new ≡ self.old) }
    {
        self.session.end(moment)
    }

    /// Gives up a session that goes on: as `Session::cancel`. Takes no memory.
    pub fn cancel(&mut self) -> Result<(), Refusal>
        ensures ok { OnOk result (CancelsSession self.old.session self.new.session) }
        ensures why { IfErr result (λ why. NotRunning self.old.session why) }
        ensures same { self.new ≡ with_session self.old self.new.session }
        ensures err { OnErr result (self.new ≡ self.old) }
    {
        self.session.cancel()
    }

    /// One step of spooling: as `Session::spool_step`.
    pub fn spool(&mut self) -> Result<Spooling, Refusal>
        ensures ok { IfOk result (λ answer. Spools answer self.old.session self.new.session) }
        ensures err { IfErr result (λ why. SpoolRefused self.old.session why self.new.session) }
        ensures same { self.new ≡ with_session self.old self.new.session }
    {
        self.session.spool_step()
    }

    /// One step of sending: as `Session::despool_step`, by the seat of the session's lane. Without the line's lock.
    pub fn push<D: Driver, R: Wait + Drop>(
        &mut self,
        line: &Line<D, N, R>,
    ) -> Result<Despooled, Refusal>
        requires { self.old.seat.no ≡ line.now.no }
        ensures ok { IfOk result (λ answer. SendsBy answer line.now.queue.capacity
            self.old.seat self.old.session self.new.seat self.new.session) }
        ensures err { IfErr result
            (λ why. DespoolRefused self.old.session why self.new.session) }
        ensures refused { OnErr result (self.new.seat ≡ self.old.seat) }
        ensures was_full { result ≡ Ok Despooled.LaneFull → WasFull self.old.seat.seat.lanes
            line.now.queue.capacity self.old.seat.seat.lane self.old.seat.seat.sent }
        ensures same { self.new ≡ record self.old {
          seat = self.new.seat;
          session = self.new.session;
        } }
    {
        pushing::push(line.queue(), &mut self.seat, &mut self.session)
    }

    /// Closes the session, by what lies under the lock of its line: exactly if it is ended, its drive lost no block of
    /// it, it has sent all that it has, and each block that it sent is placed and synced. If one was lost, it fails.
    /// What is told by the receipt stands at the drive from then on. A receipt takes memory; if out of memory, all stays
    /// as it was.
    pub fn close_on<D: Driver, R: Wait + Drop>(
        &mut self,
        side: &mut DriveSide<D, N>,
        queue: &LaneQueue<R>,
    ) -> Result<Closing, Refusal>
        requires no { self.old.seat.no ≡ side.old.no }
        requires queue { queue.now.table ≡ N.table side.old.no }
        ensures closes { Closes (AreApart side.old self.old.seat self.old.session.key)
            side.old.drive.journal self.old.session result self.new.session }
        ensures same { self.new ≡ with_session self.old self.new.session }
        ensures told { side.new ≡ told_closed side.old self.old.seat.seat.sent result }
        ensures own { IfOk result (λ closing. HasOwn closing self.old.seat.seat.sent) }
    {
        match self.receipt_on(side, queue) {
            Ok(Some(receipt)) => {
                closing::close_by(&mut self.session, &receipt);
                Ok(Closing::Closed(receipt))
            }
            Ok(None) => Ok(Closing::NotYet),
            Err(why) => Err(why),
        }
    }

    /// Closes the session as `close_on` does, with the line's lock held.
    pub fn close<D: Driver, R: Wait + Drop>(
        &mut self,
        line: &Line<D, N, R>,
    ) -> Result<Closing, Refusal>
        requires { self.old.seat.no ≡ line.now.no }
        ensures closes { ClosesUnder (λ d. D.meaning d) N.table N.time self.old result
            self.new.session }
        ensures same { self.new ≡ with_session self.old self.new.session }
    {
        let mut side = line.lock();
        let side: &mut DriveSide<D, N> = &mut side;
        side.know();
        let closing = self.close_on(side, line.queue());
        side.know();
        closing
    }

    /// The receipt by which a close of the session is due, by what lies under the lock of its line; none if something of it
    /// is outstanding. It is refused as by `close_on`, and fails as there. It isn't closed yet: for that the lock need not
    /// be held, since what was synced stays so. What is told by the receipt stands at the drive from then on.
    pub fn receipt_on<D: Driver, R: Wait + Drop>(
        &mut self,
        side: &mut DriveSide<D, N>,
        queue: &LaneQueue<R>,
    ) -> Result<Option<Receipt>, Refusal>
        requires no { self.old.seat.no ≡ side.old.no }
        requires queue { queue.now.table ≡ N.table side.old.no }
        ensures due { IsDue (AreApart side.old self.old.seat self.old.session.key)
            side.old.drive.journal self.old.session result self.new.session }
        ensures same { self.new ≡ with_session self.old self.new.session }
        ensures told { side.new ≡ told_due side.old self.old.seat.seat.sent result }
        ensures own { IfOk result (λ due. IfSome due (λ r. IsOfOwn r self.old.seat.seat.sent)) }
    {
        match closing::receipt(side.drive(), &mut self.session) {
            Ok(Some(receipt)) => {
                if !side.tell(queue, &mut self.seat, &receipt) {
                    // This never happens: the drive took all that the lane sent, and no other lane sends for the session.
                    return Ok(None);
                }
                Ok(Some(receipt))
            }
            Ok(None) => Ok(None),
            Err(why) => Err(why),
        }
    }

    /// Closes the session by the receipt that is due. Takes no memory.
    pub fn close_by(&mut self, receipt: &Receipt)
        requires { (journal : List Entry)
            × MayCloseBy journal self.old.session receipt.now }
        ensures closes { (journal : List Entry) → MayCloseBy journal self.old.session receipt.now
            → Closes ⊥ journal self.old.session (Ok (Closing.Closed receipt.now)) self.new.session }
        ensures same { self.new ≡ with_session self.old self.new.session }
    {
        closing::close_by(&mut self.session, receipt)
    }

    /// The end of the lane, with the session as it is after those before it. Takes no memory.
    pub fn leave(self) -> LaneEnd<N, S>
        ensures { result ≡ end_of self }
    {
        let SessionPart {
            seat,
            before,
            session,
            told,
            spools,
            whole,
        } = self;
        let mut sessions = before;
        sessions.push_reserved(Told {
            session,
            told,
            spools,
        });
        LaneEnd {
            seat,
            store: None,
            sessions,
            whole,
        }
    }
}
