// The steps that a job makes again and again, each of which takes a turn.
ghost use Rattle.std.specs.Prelude.{◌≡◌, ◌<◌, [], IfErr, OnOk};
ghost use Rattle.sd_line.specs.Goes.{GoesOn, StopsShort};

use sd_driver::Driver;
use sd_line::{Gate, Line, Naming, Point, SessionPart, Stop};
use sd_session::{Despooled, Spooling};
use sd_spool::SpoolStore;
use std::sync::Wait;
use std::thread;
use std::time::{Clock, Duration};

/// Sleeps a millisecond, for a turn in which nothing moved.
pub(crate) fn pause<R: Clock>(rt: &R) {
    thread::sleep(rt, Duration::from_millis(1));
}

/// One turn less is left; none if there was none.
pub(crate) fn take_turn(left: &mut u64) -> Result<(), Stop>
    ensures err { IfErr result (λ stop. stop ≡ Stop.OutOfTurns) }
{
    if *left == 0 {
        return Err(Stop::OutOfTurns);
    }
    *left -= 1;
    Ok(())
}

/// One step of spooling and one of sending. Sleeps if neither moved a body.
pub(crate) fn send_on<D: Driver, N: Naming, R: Wait + Clock + Drop, S: SpoolStore + Drop, G: Gate>(
    rt: &R,
    line: &Line<D, N, R>,
    part: &mut SessionPart<N, S>,
    gate: &G,
    left: &mut u64,
) -> Result<(), Stop>
    requires { part.old.seat.no ≡ line.now.no }
    ensures goes_on { GoesOn part.old [] part.new }
    ensures err { IfErr result (λ stop. StopsShort stop part.new.session) }
{
    take_turn(left)?;
    let spooled = match part.spool() {
        Ok(spooled) => spooled,
        Err(why) => return Err(Stop::Refused(why)),
    };
    match part.push(line) {
        Ok(Despooled::Sent) => gate.at(Point::AfterPush, part.session().key()),
        Ok(_) if spooled == Spooling::Spooled => {}
        Ok(_) => pause(rt),
        Err(why) => return Err(Stop::Refused(why)),
    }
    Ok(())
}
