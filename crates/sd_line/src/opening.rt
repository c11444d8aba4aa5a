// A session begins at the end of its lane.
ghost use Rattle.std.specs.Prelude.{◌≡◌, IfOk, IfErr};
ghost use Rattle.sd_line.specs.Ends.{LastIsOver};
ghost use Rattle.sd_line.specs.Parts.{OpensPart, OpensNoPart, Prepares};

use crate::lane_end::LaneEnd;
use crate::line::Line;
use crate::naming::Naming;
use crate::part::SessionPart;
use crate::prepared::{Prepared, prepare_at};
use sd_base::{JobId, PoolName, Refusal, SessionKey, Ticket};
use sd_driver::Driver;
use sd_session::Opening;
use sd_spool::SpoolStore;
use std::alloc::Global;
use std::sync::Wait;

/// The end of a lane at which no session was opened, and why.
#[derive(Drop)]
pub struct NotParted<N: Naming, S: SpoolStore> {
    pub end: LaneEnd<N, S>,
    pub why: Refusal,
}

impl<N: Naming, S: SpoolStore + Drop> SessionPart<N, S> {
    /// A new session at the end of a lane whose last session goes on no more. Its key is of the line's run and this
    /// number; it is for the media, the block limit and the spool limit of the line's drive.
    ///
    /// First it is prepared, as by `prepare`; if that is refused, the end comes back, with the store. Then the drive notes
    /// it, with its lock held.
    pub fn open<D: Driver, R: Wait + Drop>(
        alloc: Global,
        line: &Line<D, N, R>,
        end: LaneEnd<N, S>,
        id: Ticket,
        job: JobId,
        pool: PoolName,
        moment: i64,
    ) -> Result<Self, NotParted<N, S>>
        requires no { end.seat.no ≡ line.now.no }
        requires over { LastIsOver end.sessions }
        ensures ok { IfOk result (λ part. OpensPart line.now id job pool moment end part) }
        ensures err { IfErr result (λ back. OpensNoPart line.now end back.why back.end) }
    {
        match Self::prepare(alloc, line, end, id, job, pool, moment) {
            Ok(prepared) => Ok(prepared.begin(line)),
            Err(back) => Err(back),
        }
    }

    /// All that can be refused of an open: first room is made, 3960 (`Memory`) if out of memory; then the lane's store is
    /// cleared, if the session spools, 3920 (`SpoolFault`) if that fails. Then the end comes back, with the store. No lock is
    /// taken, and the drive learns of nothing.
    pub fn prepare<D: Driver, R: Wait + Drop>(
        alloc: Global,
        line: &Line<D, N, R>,
        end: LaneEnd<N, S>,
        id: Ticket,
        job: JobId,
        pool: PoolName,
        moment: i64,
    ) -> Result<Prepared<N, S>, NotParted<N, S>>
        requires no { end.seat.no ≡ line.now.no }
        requires over { LastIsOver end.sessions }
        ensures ok { IfOk result (λ made. Prepares line.now id job pool moment end made) }
        ensures err { IfErr result (λ back. OpensNoPart line.now end back.why back.end) }
    {
        let mut end = end;
        end.bring_store();
        let opening = Opening {
            key: SessionKey {
                time: line.limits().time,
                id: id.get(),
            },
            lane: end.lane(),
            job,
            pool,
            media: line.media().copy(),
            moment,
        };
        prepare_at(alloc, line.limits().copy(), end, opening)
    }
}
