// A session that is about to begin at the end of its lane.
ghost use Rattle.std.specs.Prelude.{◌≡◌, ◌≤◌, Some, IsSome, IfOk, IfErr};
ghost use Rattle.sd_base.specs.Limits.{most_number};
ghost use Rattle.sd_drive.specs.Limits.{AreLimits};
ghost use Rattle.sd_session.specs.Session.{IsRunning, store_of};
ghost use Rattle.sd_spool.specs.Job.{state_of};
ghost use Rattle.sd_line.specs.Ends.{KeepsEnd, LastIsOver};
ghost use Rattle.sd_line.specs.Parts.{OpensAt, OpensNotAt, Notes};

use crate::lane_end::LaneEnd;
use crate::line::Line;
use crate::naming::Naming;
use crate::opening::NotParted;
use crate::part::SessionPart;
use crate::seat::Seat;
use crate::side::DriveSide;
use crate::told::Told;
use sd_base::{DriveNo, Refusal, SessionKey, Ticket};
use sd_drive::Limits;
use sd_driver::Driver;
use sd_session::{NotOpened, Opening, Session};
use sd_spool::SpoolStore;
use std::alloc::{AllocError, Global};
use std::marker::Model;
use std::sync::Wait;

/// A session for which all is made at the end of a lane, so that it can't be refused any more. Its drive doesn't know of it
/// yet, and its number may be another one. In a contract it is a `PreparedIs`.
#[derive(Drop)]
pub struct Prepared<N: Naming, S: SpoolStore> {
    seat: Seat<N>,
    // The sessions that used the lane before; with room for one more.
    before: Vec<Told<S>>,
    // Whether these are all that did.
    whole: bool,
    session: Session<S>,
    opening: Opening,
    limits: Limits,
}

impl<N: Naming, S: SpoolStore> Model for Prepared<N, S> {
    ghost use Rattle.std.specs.Prelude.{◌≡◌, ◌<◌, ◌≤◌, [], length};
    ghost use Rattle.std.specs.Vec.{vec_capacity};
    ghost use Rattle.sd_base.specs.Limits.{most_number};
    ghost use Rattle.sd_drive.specs.Limits.{AreLimits};
    ghost use Rattle.sd_session.specs.Session.{store_of};
    ghost use Rattle.sd_line.specs.Ends.{KeepsEnd, LastIsOver};
    ghost use Rattle.sd_line.specs.Parts.{PreparedIs, OpensAt, spools_at};

    ghost Value = { PreparedIs };

    ghost view = { λ p. record {
      limits = p.limits;
      opening = p.opening;
      end = record { seat = p.seat; store = store_of p.session; sessions = p.before.items; whole = p.whole };
    } };

    ghost invariant = { λ p. record {
      keeps : KeepsEnd N.time
          (record { seat = p.seat; store = store_of p.session; sessions = p.before.items; whole = p.whole });
      over : LastIsOver p.before.items;
      opens : OpensAt p.limits p.opening
          (record { seat = p.seat; store = store_of p.session; sessions = p.before.items; whole = p.whole })
          (record {
            seat = p.seat;
            before = p.before.items;
            session = p.session;
            told = [];
            spools = spools_at p.limits;
            whole = p.whole;
          });
      time : p.opening.key.time ≡ N.time p.seat.no;
      id : (1 ≤ p.opening.key.id) × (p.opening.key.id ≤ most_number);
      lane : p.opening.lane ≡ p.seat.seat.lane;
      limits : AreLimits p.limits;
      room : length p.before.items < vec_capacity p.before;
    } };
}

impl<N: Naming, S: SpoolStore + Drop> Prepared<N, S> {
    /// The number of the lane's drive.
    pub fn no(&self) -> DriveNo
        ensures { result ≡ self.now.end.seat.no }
    {
        self.seat.no()
    }

    /// What the session begins with.
    pub fn opening(&self) -> &Opening
        ensures { result.now ≡ self.now.opening }
    {
        &self.opening
    }

    /// The same session under another number. It is made anew, so its store is cleared once more, if it spools: the refusals
    /// are those of `SessionPart::prepare`, with which the end comes back.
    pub fn renumber(self, alloc: Global, id: Ticket) -> Result<Self, NotParted<N, S>>
        ensures ok { IfOk result (λ made. made ≡ record self {
          opening = record self.opening { key = record self.opening.key { id = id } };
        }) }
        ensures err { IfErr result
            (λ back. OpensNotAt self.limits self.end back.why back.end) }
    {
        let GivenUp {
            limits,
            opening,
            end,
        } = give_up(self);
        let opening = Opening {
            key: SessionKey {
                time: opening.key.time,
                id: id.get(),
            },
            lane: opening.lane,
            job: opening.job,
            pool: opening.pool,
            media: opening.media,
            moment: opening.moment,
        };
        prepare_at(alloc, limits, end, opening)
    }

    /// The end of the lane, without the session. Takes no memory.
    pub fn into_end(self) -> LaneEnd<N, S>
        ensures { result ≡ self.end }
    {
        give_up(self).end
    }

    /// The session begins: its drive notes it, with the line's lock held. Takes no memory, but for what the drive may make
    /// room for early.
    pub fn begin<D: Driver, R: Wait + Drop>(self, line: &Line<D, N, R>) -> SessionPart<N, S>
        requires { self.end.seat.no ≡ line.now.no }
        ensures { OpensAt self.limits self.opening self.end result }
    {
        let mut side = line.lock();
        let side: &mut DriveSide<D, N> = &mut side;
        self.begin_on(side)
    }

    /// The session begins as by `begin`, by what lies under the lock of its line.
    pub fn begin_on<D: Driver>(self, side: &mut DriveSide<D, N>) -> SessionPart<N, S>
        requires { self.end.seat.no ≡ side.old.no }
        ensures opens { OpensAt self.limits self.opening self.end result }
        ensures notes { Notes self.opening side.old side.new }
    {
        let Prepared {
            seat,
            before,
            whole,
            session,
            opening,
            limits,
        } = self;
        side.serve(opening.key, &opening.pool);
        SessionPart {
            seat,
            before,
            session,
            told: None,
            spools: limits.spool != 0,
            whole,
        }
    }
}

// What a prepared session was made of.
#[derive(Drop)]
struct GivenUp<N: Naming, S: SpoolStore> {
    limits: Limits,
    opening: Opening,
    end: LaneEnd<N, S>,
}

// Gives a prepared session up, which sent nothing.
fn give_up<N: Naming, S: SpoolStore + Drop>(prepared: Prepared<N, S>) -> GivenUp<N, S>
    ensures limits { (result.limits ≡ prepared.limits) × AreLimits prepared.limits }
    ensures opening { result.opening ≡ prepared.opening }
    ensures end { result.end ≡ prepared.end }
    ensures over { LastIsOver prepared.end.sessions }
    ensures stored { IsSome prepared.end.store }
    ensures time { prepared.opening.key.time ≡ N.time prepared.end.seat.no }
    ensures lane { prepared.opening.lane ≡ prepared.end.seat.seat.lane }
{
    let Prepared {
        seat,
        before,
        whole,
        session,
        opening,
        limits,
    } = prepared;
    let end = LaneEnd {
        seat,
        store: Some(store_back(session)),
        sessions: before,
        whole,
    };
    GivenUp {
        limits,
        opening,
        end,
    }
}

/// A session that is to begin so, prepared at the end of a lane that has its store.
pub(crate) fn prepare_at<N: Naming, S: SpoolStore + Drop>(
    alloc: Global,
    limits: Limits,
    end: LaneEnd<N, S>,
    opening: Opening,
) -> Result<Prepared<N, S>, NotParted<N, S>>
    requires limits { AreLimits limits }
    requires over { LastIsOver end.sessions }
    requires stored { IsSome end.store }
    requires time { opening.key.time ≡ N.time end.seat.no }
    requires id { (1 ≤ opening.key.id) × (opening.key.id ≤ most_number) }
    requires lane { opening.lane ≡ end.seat.seat.lane }
    ensures ok { IfOk result
        (λ made. made ≡ record { limits = limits; opening = opening; end = end }) }
    ensures err { IfErr result (λ back. OpensNotAt limits end back.why back.end) }
{
    let LaneEnd {
        seat,
        store,
        mut sessions,
        whole,
    } = end;
    let store = store.unwrap();
    if let Err(AllocError) = sessions.reserve(1) {
        return Err(not_parted(seat, store, sessions, whole, Refusal::Memory));
    }
    match Session::open(alloc, copy_of(&opening), store, limits.block, limits.spool) {
        Ok(session) => Ok(Prepared {
            seat,
            before: sessions,
            whole,
            session,
            opening,
            limits,
        }),
        Err(NotOpened { store, why }) => Err(not_parted(seat, store, sessions, whole, why)),
    }
}

// The same once more.
fn copy_of(opening: &Opening) -> Opening
    ensures { result ≡ opening.now }
{
    Opening {
        key: opening.key,
        lane: opening.lane,
        job: opening.job,
        pool: opening.pool.copy(),
        media: opening.media.copy(),
        moment: opening.moment,
    }
}

// The end of a lane, with its store.
fn not_parted<N: Naming, S: SpoolStore>(
    seat: Seat<N>,
    store: S,
    sessions: Vec<Told<S>>,
    whole: bool,
    why: Refusal,
) -> NotParted<N, S>
    requires { KeepsEnd N.time (record {
      seat = seat;
      store = Some (state_of (S.meaning store));
      sessions = sessions.items;
      whole = whole;
    }) }
    ensures end { result.end ≡ record {
      seat = seat;
      store = Some (state_of (S.meaning store));
      sessions = sessions.items;
      whole = whole;
    } }
    ensures why { result.why ≡ why }
{
    NotParted {
        end: LaneEnd {
            seat,
            store: Some(store),
            sessions,
            whole,
        },
        why,
    }
}

// The store of a session that goes on, which is given up.
fn store_back<S: SpoolStore + Drop>(session: Session<S>) -> S
    requires running { IsRunning session.status }
    requires stored { IsSome (store_of session) }
    ensures { store_of session ≡ Some (state_of (S.meaning result)) }
{
    let mut session = session;
    let _ = session.cancel();
    session.give_back().unwrap()
}
