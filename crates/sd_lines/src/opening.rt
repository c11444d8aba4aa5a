// A session is opened for a talk.
ghost use Rattle.std.specs.Prelude.{◌≡◌, IfErr, IfOk, IfSome};
ghost use Rattle.sd_lines.specs.Held.{Begins, OpenRefused};
ghost use Rattle.sd_lines.specs.Opening.{IsNumbered};

use crate::hub::{Hub, Post};
use crate::numbering::Drawn;
use sd_base::{DriveNo, JobId, LaneNo, MediaName, PoolName, Refusal, Ticket};
use sd_board::Chosen;
use sd_driver::Driver;
use sd_line::{Naming, NotParted, Prepared, SessionPart};
use sd_spool::SpoolStore;
use sd_stations::Live;
use std::sync::Wait;
use std::time::Clock;

/// A session that begins: its number, its drive, and the session.
#[derive(Drop)]
pub(crate) struct Begun<'h, D: Driver, N: Naming, R: Wait + Drop, S: SpoolStore> {
    pub(crate) ticket: Ticket,
    pub(crate) drive: DriveNo,
    pub(crate) live: Live<'h, D, N, R, S>,
}

/// Opens a session, and counts it if it is refused.
pub(crate) fn open<'h, D: Driver, N: Naming, R: Wait + Clock + Drop, S: SpoolStore + Drop>(
    hub: &'h Hub<D, N, R, S>,
    job: JobId,
    pool: PoolName,
    media: &MediaName,
    moment: i64,
) -> Result<Begun<'h, D, N, R, S>, Refusal>
    ensures ok { IfOk result (λ begun.
        Begins job pool media.now moment begun.ticket begun.drive begun.live) }
    ensures err { IfErr result (λ why. OpenRefused why) }
{
    match try_open(hub, job, &pool, media, moment) {
        Ok(begun) => Ok(begun),
        Err(why) => {
            hub.answers.refused_job(why);
            Err(why)
        }
    }
}

// Opens a session. If, when it would get its number, the desk chooses another drive, since others were numbered meanwhile or what is
// loaded has changed, it begins anew.
fn try_open<'h, D: Driver, N: Naming, R: Wait + Clock + Drop, S: SpoolStore + Drop>(
    hub: &'h Hub<D, N, R, S>,
    job: JobId,
    pool: &PoolName,
    media: &MediaName,
    moment: i64,
) -> Result<Begun<'h, D, N, R, S>, Refusal>
    ensures ok { IfOk result (λ begun.
        Begins job pool.now media.now moment begun.ticket begun.drive begun.live) }
    ensures err { IfErr result (λ why. OpenRefused why) }
{
    for _choice in hub.rt.forever() {
        match open_once(hub, job, pool, media, moment) {
            Ok(Some(begun)) => return Ok(begun),
            Ok(None) => {}
            Err(why) => return Err(why),
        }
    }
    unreachable!()
}

// Opens a session: first the desk chooses its drive and its lane; then all that can be refused is made at the end of that
// lane, with no lock held; then the desk gives the number, if it still chooses that drive, and the session begins, which can't be
// refused. If it is refused, or another drive is chosen, the end of the lane lies at the desk again, and no number was used.
fn open_once<'h, D: Driver, N: Naming, R: Wait + Clock + Drop, S: SpoolStore + Drop>(
    hub: &'h Hub<D, N, R, S>,
    job: JobId,
    pool: &PoolName,
    media: &MediaName,
    moment: i64,
) -> Result<Option<Begun<'h, D, N, R, S>>, Refusal>
    ensures ok { IfOk result (λ choice. IfSome choice (λ begun.
        Begins job pool.now media.now moment begun.ticket begun.drive begun.live)) }
    ensures err { IfErr result (λ why. OpenRefused why) }
{
    let Chosen { ticket, drive, end } = hub.choose(pool, media)?;
    let lane = end.lane();
    let Some(post) = hub.post_for(drive, media) else {
        // This never happens: the desk chose the drive by its media.
        hub.give_back(end);
        return Err(Refusal::NoDriveOfMedia);
    };
    let line = post.station.line();
    let prepared = match SessionPart::prepare(
        hub.alloc,
        line,
        end,
        ticket,
        job,
        pool.copy(),
        moment,
    ) {
        Ok(prepared) => prepared,
        Err(NotParted { end, why }) => {
            hub.give_back(end);
            return Err(why);
        }
    };
    // Whoever is shown the session is shown its own count.
    hub.count(drive, lane, 0);
    match number(hub, post, pool, media, lane, ticket, prepared) {
        Ok(Some((ticket, prepared))) => Ok(Some(Begun {
            ticket,
            drive,
            live: Live::begin(&post.station, &hub.rt, prepared),
        })),
        Ok(None) => Ok(None),
        Err(why) => Err(why),
    }
}

// Gives a prepared session its number. If somebody else was given it meanwhile, the session is made for the next one. `None` if
// its lane is to be chosen again.
#[tactic(auto, using(crate::proofs::HeldLemmas::numbered_so, crate::proofs::HeldLemmas::numbered_anew))]
fn number<D: Driver, N: Naming, R: Wait + Clock + Drop, S: SpoolStore + Drop>(
    hub: &Hub<D, N, R, S>,
    post: &Post<D, N, R>,
    pool: &PoolName,
    media: &MediaName,
    lane: LaneNo,
    mut ticket: Ticket,
    mut prepared: Prepared<N, S>,
) -> Result<Option<(Ticket, Prepared<N, S>)>, Refusal>
    requires { prepared.opening.key.id ≡ ticket }
    ensures ok { IfOk result (λ choice. IfSome choice (λ given.
        IsNumbered given.0 prepared given.1)) }
    ensures err { IfErr result (λ why. OpenRefused why) }
{
    for _draw in hub.rt.forever() {
        match hub.number(post, lane, pool, media, ticket) {
            Drawn::Given => return Ok(Some((ticket, prepared))),
            Drawn::Next(next) => match prepared.renumber(hub.alloc, next) {
                Ok(again) => {
                    prepared = again;
                    ticket = next;
                }
                Err(NotParted { end, why }) => {
                    hub.give_back(end);
                    return Err(why);
                }
            },
            Drawn::Elsewhere => {
                hub.give_back(prepared.into_end());
                return Ok(None);
            }
            Drawn::Mounting => {
                hub.give_back(prepared.into_end());
                post.station.wait_for_mount(&hub.rt);
                return Ok(None);
            }
            Drawn::NoneLeft => {
                hub.give_back(prepared.into_end());
                return Err(Refusal::NoSessionNumberLeft);
            }
            Drawn::NoRoom => {
                hub.give_back(prepared.into_end());
                return Err(Refusal::Memory);
            }
        }
    }
    unreachable!()
}
