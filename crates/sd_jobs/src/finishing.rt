// A job ends and closes its session.
ghost use Rattle.std.specs.Prelude.{◌≡◌, [], IfErr, IfOk};
ghost use Rattle.sd_line.specs.Goes.{GoesOn, StopsShort, IsReceiptOf};

use crate::steps::{pause, send_on, take_turn};
use sd_drive::Receipt;
use sd_driver::Driver;
use sd_line::{Closing, Gate, Line, Naming, Point, SessionPart, Stop};
use sd_spool::SpoolStore;
use std::sync::Wait;
use std::time::Clock;

/// Ends the session, sends all that it has, and closes it once all is synced.
pub(crate) fn finish<D: Driver, N: Naming, R: Wait + Clock + Drop, S: SpoolStore + Drop, G: Gate>(
    rt: &R,
    line: &Line<D, N, R>,
    part: &mut SessionPart<N, S>,
    moment: i64,
    gate: &G,
    left: &mut u64,
) -> Result<Receipt, Stop>
    requires { part.old.seat.no ≡ line.now.no }
    ensures goes_on { GoesOn part.old [] part.new }
    ensures ok { IfOk result (λ receipt. IsReceiptOf part.new.session receipt) }
    ensures err { IfErr result (λ stop. StopsShort stop part.new.session) }
{
    if let Err(why) = part.end(moment) {
        return Err(Stop::Refused(why));
    }
    send_rest(rt, line, part, gate, left)?;
    close(rt, line, part, gate, left)
}

// Sends all that the session has.
fn send_rest<D: Driver, N: Naming, R: Wait + Clock + Drop, S: SpoolStore + Drop, G: Gate>(
    rt: &R,
    line: &Line<D, N, R>,
    part: &mut SessionPart<N, S>,
    gate: &G,
    left: &mut u64,
) -> Result<(), Stop>
    requires { part.old.seat.no ≡ line.now.no }
    ensures goes_on { GoesOn part.old [] part.new }
    ensures err { IfErr result (λ stop. StopsShort stop part.new.session) }
{
    for _turn in rt.forever() {
        if !part.session().has_due() {
            break;
        }
        send_on(rt, line, part, gate, left)?;
    }
    Ok(())
}

// Closes the session, as soon as that is possible.
fn close<D: Driver, N: Naming, R: Wait + Clock + Drop, S: SpoolStore + Drop, G: Gate>(
    rt: &R,
    line: &Line<D, N, R>,
    part: &mut SessionPart<N, S>,
    gate: &G,
    left: &mut u64,
) -> Result<Receipt, Stop>
    requires { part.old.seat.no ≡ line.now.no }
    ensures goes_on { GoesOn part.old [] part.new }
    ensures ok { IfOk result (λ receipt. IsReceiptOf part.new.session receipt) }
    ensures err { IfErr result (λ stop. StopsShort stop part.new.session) }
{
    for _turn in rt.forever() {
        match part.close(line) {
            Ok(Closing::Closed(receipt)) => {
                gate.at(Point::AfterClose, part.session().key());
                return Ok(receipt);
            }
            Ok(Closing::NotYet) => take_turn(left)?,
            Err(why) => return Err(Stop::Refused(why)),
        }
        pause(rt);
    }
    unreachable!()
}
