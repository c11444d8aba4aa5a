// The session that a talk goes on with.
ghost use Rattle.std.specs.Prelude.{◌≡◌, ◌↔◌, [], ◌∷◌, false, IfErr, IfOk, IsTrue, OnErr, OnOk};
ghost use Rattle.sd_base.specs.declared.refusal.Refusal.TheVariants.{NotYet, SessionFailed};
ghost use Rattle.sd_line.specs.Goes.{GoesOn, IsReceiptOf};
ghost use Rattle.sd_line.specs.Parts.{OpensAt, end_of, with_session};
ghost use Rattle.sd_line.specs.Tells.{ShowsClose};
ghost use Rattle.sd_session.specs.Session.{CancelsSession, EndsSession, EndRefused, IsRunning, NotRunning};
ghost use Rattle.sd_session.specs.declared.status.Status.TheVariants.{Ended};
ghost use Rattle.sd_stations.specs.Sends.{AddRefused, Adds, ClosesNow, IsShut, NowRefused, RestRefused, SendRefused, SendsOn, ShutRefused};

use crate::closing::{Shut, try_close};
use crate::patience::Patience;
use crate::sending::{Wish, send_on, send_rest, wait};
use crate::station::Station;
use crate::watch::Moves;
use sd_base::{Rec, Refusal, Ticket};
use sd_driver::Driver;
use sd_line::{LaneEnd, Naming, Prepared, SessionPart};
use sd_session::Status;
use sd_spool::SpoolStore;
use std::marker::Model;
use std::sync::Wait;
use std::time::Clock;

/// The part of a session, and the station of its drive. In a contract it is the part, a `PartIs`.
#[derive(Drop)]
pub struct Live<'h, D: Driver, N: Naming, R: Wait + Drop, S: SpoolStore> {
    station: &'h Station<D, N, R>,
    part: SessionPart<N, S>,
    wish: Wish,
}

impl<'h, D: Driver, N: Naming, R: Wait + Drop, S: SpoolStore> Model for Live<'h, D, N, R, S> {
    ghost use Rattle.std.specs.Prelude.{◌≡◌};
    ghost use Rattle.sd_line.specs.Parts.{PartIs};

    ghost Value = { PartIs };

    ghost view = { λ l. l.part };

    ghost invariant = { λ l. l.part.seat.no ≡ l.station.now.no };
}

impl<'h, D: Driver, N: Naming, R: Wait + Clock + Drop, S: SpoolStore + Drop> Live<'h, D, N, R, S> {
    /// A session that was prepared begins at the station of its drive, as by `Station::begin`.
    pub fn begin(station: &'h Station<D, N, R>, rt: &R, prepared: Prepared<N, S>) -> Self
        requires { prepared.end.seat.no ≡ station.now.no }
        ensures { OpensAt prepared.limits prepared.opening prepared.end result }
    {
        Live {
            station,
            part: station.begin(rt, prepared),
            wish: Wish::new(),
        }
    }

    pub fn part(&self) -> &SessionPart<N, S>
        ensures { result.now ≡ self.now }
    {
        &self.part
    }

    /// Whether this is the number of the session.
    pub fn is_of(&self, ticket: Ticket) -> bool
        ensures { IsTrue result ↔ (self.now.session.key.id ≡ ticket) }
    {
        self.part.session().key().id == ticket.get()
    }

    pub fn station(&self) -> &'h Station<D, N, R>
        ensures { result.now.no ≡ self.now.seat.no }
    {
        self.station
    }

    /// Adds a record, and says how many the session has then. While a closed body waits, that is sent on first; if the
    /// queue before the drive is full, what moves at the drive is waited for. If the drive has no volume for what is in
    /// its hand, one is waited for as long as the patience lasts, and then the session is busy.
    pub fn add<P: Patience>(&mut self, rt: &R, rec: &Rec, patience: &P) -> Result<u64, Refusal>
        ensures ok { IfOk result (λ n. GoesOn self.old (rec.now ∷ []) self.new) }
        ensures adds { IfOk result (λ n. Adds self.old.session rec.now n self.new.session) }
        ensures err { IfErr result (λ why. GoesOn self.old [] self.new) }
        ensures why { IfErr result
            (λ why. AddRefused self.old.session rec.now why self.new.session) }
    {
        let mut halted = None;
        for _tried in rt.forever() {
            match self.part.append(rec) {
                Err(Refusal::Busy) => {}
                answer => return answer,
            }
            if let Some(moves) = halted {
                if !self.station.wait_for_change(rt, moves, patience) {
                    return Err(Refusal::Busy);
                }
            }
            halted = self.send_on(rt)?;
        }
        unreachable!()
    }

    // Sends a body on. If the drive has no volume for what is in its hand, answers how often something had moved there:
    // what lies ready may have made room all the same. A spool that fails has failed the session.
    fn send_on(&mut self, rt: &R) -> Result<Option<Moves>, Refusal>
        requires { IsRunning self.old.session.status }
        ensures goes_on { GoesOn self.old [] self.new }
        ensures ok { OnOk result (SendsOn self.old.session self.new.session) }
        ensures err { IfErr result
            (λ why. SendRefused SessionFailed self.old.session why self.new.session) }
    {
        match send_on(rt, self.station, &mut self.part, &mut self.wish) {
            Err(Refusal::SpoolFault) => Err(Refusal::SessionFailed),
            answer => answer,
        }
    }

    /// Adds the end label, as `SessionPart::end`.
    pub fn end(&mut self, moment: i64) -> Result<(), Refusal>
        ensures ok { OnOk result (EndsSession self.old.session moment self.new.session) }
        ensures why { IfErr result (λ why. EndRefused self.old.session why) }
        ensures same { self.new ≡ with_session self.old self.new.session }
        ensures err { OnErr result (self.new ≡ self.old) }
    {
        self.part.end(moment)
    }

    /// Gives the session up, as `SessionPart::cancel`.
    pub fn cancel(&mut self) -> Result<(), Refusal>
        ensures ok { OnOk result (CancelsSession self.old.session self.new.session) }
        ensures why { IfErr result (λ why. NotRunning self.old.session why) }
        ensures same { self.new ≡ with_session self.old self.new.session }
        ensures err { OnErr result (self.new ≡ self.old) }
    {
        self.part.cancel()
    }

    /// Sends all that an ended session has, and closes it once all of it is placed: the drive is synced for that, so that
    /// no close waits for what others send. What is on its way is waited for; if the drive has no volume for what is in
    /// its hand, one is waited for as long as the patience lasts, and then the answer is 'not yet'.
    pub fn close<P: Patience>(&mut self, rt: &R, patience: &P) -> Result<Shut<D, N>, Refusal>
        ensures goes_on { GoesOn self.old [] self.new }
        ensures ok { IfOk result (λ s. IsReceiptOf self.new.session s.receipt
            × (s.spans ≡ s.receipt.spans)) }
        ensures shown { IfOk result
            (λ s. ShowsClose s.token self.new.seat.no self.new.seat.seat.sent s.receipt) }
        ensures shut { IfOk result (λ s. IsShut self.old.session self.new.session) }
        ensures err { IfErr result (λ why. ShutRefused self.old.session why self.new.session) }
    {
        if self.part.session().status() == Status::Ended {
            self.send_rest(rt, patience)?;
        }
        for _turn in rt.forever() {
            let moves = self.station.moves(rt);
            if self.is_close_due(rt) {
                return self.close_now(rt);
            }
            if !wait(rt, self.station, moves, patience) {
                return Err(Refusal::NotYet);
            }
        }
        unreachable!()
    }

    // Sends all that the session has, which is ended. If it can't be sent now, it can't be closed yet; a spool that
    // fails has failed the session.
    fn send_rest<P: Patience>(&mut self, rt: &R, patience: &P) -> Result<(), Refusal>
        requires { IsRunning self.old.session.status }
        ensures goes_on { GoesOn self.old [] self.new }
        ensures ok { OnOk result (SendsOn self.old.session self.new.session) }
        ensures err { IfErr result
            (λ why. RestRefused NotYet SessionFailed self.old.session why self.new.session) }
    {
        match send_rest(rt, self.station, &mut self.part, &mut self.wish, patience) {
            Err(Refusal::Busy) => Err(Refusal::NotYet),
            Err(Refusal::SpoolFault) => Err(Refusal::SessionFailed),
            answer => answer,
        }
    }

    // Whether the drive is to be asked for a close: for an ended session once it has placed all that this sent, or lost a
    // block of it.
    fn is_close_due(&self, rt: &R) -> bool
        ensures { result ≡ false → self.now.session.status ≡ Ended }
    {
        let session = self.part.session();
        session.status() != Status::Ended
            || self.station.is_close_due(rt, session.key(), session.sent())
    }

    // Closes the session, all of which was placed; or it is refused.
    fn close_now(&mut self, rt: &R) -> Result<Shut<D, N>, Refusal>
        ensures goes_on { GoesOn self.old [] self.new }
        ensures ok { IfOk result (λ s. IsReceiptOf self.new.session s.receipt
            × (s.spans ≡ s.receipt.spans)) }
        ensures shown { IfOk result
            (λ s. ShowsClose s.token self.new.seat.no self.new.seat.seat.sent s.receipt) }
        ensures closes { IfOk result (λ s. ClosesNow self.old.session self.new.session) }
        ensures err { IfErr result (λ why. NowRefused self.old.session why self.new.session) }
    {
        match try_close(rt, self.station, &mut self.part)? {
            Some(shut) => Ok(shut),
            None => Err(Refusal::NotYet),
        }
    }

    /// The end of the lane, with the session as it is. Takes no memory.
    pub fn leave(self) -> LaneEnd<N, S>
        ensures { result ≡ end_of self.entry }
    {
        let Live {
            station,
            part,
            mut wish,
        } = self;
        wish.set(station, false);
        part.leave()
    }
}
