// The bodies of a session are sent on, and waited for.
ghost use Rattle.std.specs.Prelude.{◌≡◌, [], IfErr, OnOk};
ghost use Rattle.sd_base.specs.declared.refusal.Refusal.TheVariants.{Busy, SpoolFault};
ghost use Rattle.sd_line.specs.Goes.{GoesOn};
ghost use Rattle.sd_session.specs.Session.{IsRunning};
ghost use Rattle.sd_stations.specs.Sends.{RestRefused, SendRefused, SendsOn};

use crate::patience::Patience;
use crate::station::Station;
use crate::watch::{Moves, Waited};
use sd_base::Refusal;
use sd_driver::Driver;
use sd_line::{Naming, SessionPart};
use sd_session::{Despooled, Spooling};
use sd_spool::SpoolStore;
use std::sync::Wait;
use std::time::Clock;

// What a step of spooling and one of sending came to.
#[derive(Clone, Copy, PartialEq, Eq)]
enum Stepped {
    /// A body was spooled or sent.
    Moved,
    /// The queue has no room for a body.
    Full,
    /// No volume at the drive takes a body.
    NoVolume,
    /// There was nothing to send.
    Still,
}

/// Whether a session is counted among those that wait for a volume at their drive.
#[derive(Drop)]
pub(crate) struct Wish {
    is_counted: bool,
}

impl Wish {
    pub(crate) fn new() -> Self {
        Wish { is_counted: false }
    }

    /// Counts the session, or counts it no longer.
    pub(crate) fn set<D: Driver, N: Naming, R: Wait + Clock + Drop>(
        &mut self,
        station: &Station<D, N, R>,
        waits: bool,
    ) {
        if waits != self.is_counted {
            station.wishes(waits);
            self.is_counted = waits;
        }
    }
}

/// One step of spooling and one of sending. While the queue has no room for a body that isn't spooled, or no volume at the
/// drive takes one, waits until something moves at the drive and tries again, so that nothing is added after a body that
/// could be sent. If the drive has no volume for what is in its hand, or for the session, answers how often something
/// had moved there.
pub(crate) fn send_on<D: Driver, N: Naming, R: Wait + Clock + Drop, S: SpoolStore + Drop>(
    rt: &R,
    station: &Station<D, N, R>,
    part: &mut SessionPart<N, S>,
    wish: &mut Wish,
) -> Result<Option<Moves>, Refusal>
    requires no { part.old.seat.no ≡ station.now.no }
    requires running { IsRunning part.old.session.status }
    ensures goes_on { GoesOn part.old [] part.new }
    ensures ok { OnOk result (SendsOn part.old.session part.new.session) }
    ensures err { IfErr result (λ why. SendRefused SpoolFault part.old.session why part.new.session) }
{
    for _tried in rt.forever() {
        // Before it is looked for a volume, so that one that comes meanwhile is noticed.
        let moves = station.moves(rt);
        let stepped = step(rt, station, part)?;
        wish.set(station, stepped == Stepped::NoVolume);
        let waited = match stepped {
            Stepped::Moved => return Ok(None),
            Stepped::Full => station.wait_for_room(rt, moves),
            Stepped::NoVolume => station.want_volume(rt, moves),
            Stepped::Still => station.wait(rt, moves),
        };
        if waited == Waited::Halted {
            return Ok(Some(moves));
        }
        if stepped == Stepped::Still {
            return Ok(None);
        }
    }
    unreachable!()
}

// One step of spooling and one of sending. While no volume takes a body of the drive's pool, which is the session's as long
// as that goes on, none is sent: so a drive takes into its hand what it can place.
fn step<D: Driver, N: Naming, R: Wait + Clock + Drop, S: SpoolStore + Drop>(
    rt: &R,
    station: &Station<D, N, R>,
    part: &mut SessionPart<N, S>,
) -> Result<Stepped, Refusal>
    requires no { part.old.seat.no ≡ station.now.no }
    requires running { IsRunning part.old.session.status }
    ensures goes_on { GoesOn part.old [] part.new }
    ensures ok { OnOk result (SendsOn part.old.session part.new.session) }
    ensures err { IfErr result (λ why. SendRefused SpoolFault part.old.session why part.new.session) }
{
    let spooled = part.spool()?;
    if part.session().has_due() && !station.has_volume(rt) {
        return Ok(unless_spooled(spooled, Stepped::NoVolume));
    }
    let pushed = part.push(station.line())?;
    Ok(told_of(rt, station, spooled, pushed))
}

// What a step came to, by what was spooled and what was sent. A piece that was sent is told of.
fn told_of<D: Driver, N: Naming, R: Wait + Clock + Drop>(
    rt: &R,
    station: &Station<D, N, R>,
    spooled: Spooling,
    pushed: Despooled,
) -> Stepped {
    match pushed {
        Despooled::Sent => {
            station.pushed(rt);
            Stepped::Moved
        }
        Despooled::LaneFull => unless_spooled(spooled, Stepped::Full),
        _ => unless_spooled(spooled, Stepped::Still),
    }
}

// What a step came to in which nothing was sent.
fn unless_spooled(spooled: Spooling, stepped: Stepped) -> Stepped {
    if spooled == Spooling::Spooled {
        Stepped::Moved
    } else {
        stepped
    }
}

/// Sends all that an ended session has. If the drive has no volume for what is in its hand, or for the session, waits until
/// it has one, as long as the patience lasts, and then the session is busy.
pub(crate) fn send_rest<
    D: Driver,
    N: Naming,
    R: Wait + Clock + Drop,
    S: SpoolStore + Drop,
    P: Patience,
>(
    rt: &R,
    station: &Station<D, N, R>,
    part: &mut SessionPart<N, S>,
    wish: &mut Wish,
    patience: &P,
) -> Result<(), Refusal>
    requires no { part.old.seat.no ≡ station.now.no }
    requires running { IsRunning part.old.session.status }
    ensures goes_on { GoesOn part.old [] part.new }
    ensures ok { OnOk result (SendsOn part.old.session part.new.session) }
    ensures err { IfErr result (λ why. RestRefused Busy SpoolFault part.old.session why part.new.session) }
{
    for _step in rt.forever() {
        if !part.session().has_due() {
            break;
        }
        if let Some(moves) = send_on(rt, station, part, wish)? {
            if !station.wait_for_change(rt, moves, patience) {
                return Err(Refusal::Busy);
            }
        }
    }
    Ok(())
}

/// Waits until something has moved at the drive since, or may have: then what was refused may be tried again. If the
/// drive has no volume for what is in its hand, waits until it has one, as long as the patience lasts. Whether to try again.
pub(crate) fn wait<D: Driver, N: Naming, R: Wait + Clock + Drop, P: Patience>(
    rt: &R,
    station: &Station<D, N, R>,
    since: Moves,
    patience: &P,
) -> bool {
    match station.wait(rt, since) {
        Waited::Moved => true,
        Waited::Halted => station.wait_for_change(rt, since, patience),
    }
}
