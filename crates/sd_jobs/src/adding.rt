// A job adds its records.
ghost use Rattle.std.specs.Prelude.{◌≡◌, ◌≤◌, [], ◌∷◌, None, take, length, IfErr, IfSome, OnOk};
ghost use Rattle.sd_line.specs.Goes.{GoesOn, StopsShort};

use crate::steps::send_on;
use sd_base::{Rec, Refusal};
use sd_driver::Driver;
use sd_line::{Gate, Line, Naming, Point, SessionPart, Stop};
use sd_spool::SpoolStore;
use std::sync::Wait;
use std::time::Clock;

/// Adds the records, one after the other. How many were taken, and what stopped the job before the last.
pub(crate) fn add_all<D: Driver, N: Naming, R: Wait + Clock + Drop, S: SpoolStore + Drop, G: Gate>(
    rt: &R,
    line: &Line<D, N, R>,
    part: &mut SessionPart<N, S>,
    recs: &[Rec],
    gate: &G,
    left: &mut u64,
) -> (usize, Option<Stop>)
    requires { part.old.seat.no ≡ line.now.no }
    ensures goes_on { GoesOn part.old (take result.0 recs.now) part.new }
    ensures most { result.0 ≤ length recs.now }
    ensures all { result.1 ≡ None → result.0 ≡ length recs.now }
    ensures stopped { IfSome result.1 (λ stop. StopsShort stop part.new.session) }
{
    for at in 0..recs.len() {
        if let Err(stop) = add(rt, line, part, &recs[at], gate, left) {
            return (at, Some(stop));
        }
    }
    (recs.len(), None)
}

// Adds one record. While a closed body of the session waits, that is sent on.
fn add<D: Driver, N: Naming, R: Wait + Clock + Drop, S: SpoolStore + Drop, G: Gate>(
    rt: &R,
    line: &Line<D, N, R>,
    part: &mut SessionPart<N, S>,
    rec: &Rec,
    gate: &G,
    left: &mut u64,
) -> Result<(), Stop>
    requires { part.old.seat.no ≡ line.now.no }
    ensures ok { OnOk result (GoesOn part.old (rec.now ∷ []) part.new) }
    ensures err { IfErr result (λ stop. GoesOn part.old [] part.new
        × StopsShort stop part.new.session) }
{
    gate.at(Point::BeforeAppend, part.session().key());
    for _tried in rt.forever() {
        match part.append(rec) {
            Ok(_) => return Ok(()),
            Err(Refusal::Busy) => send_on(rt, line, part, gate, left)?,
            Err(why) => return Err(Stop::Refused(why)),
        }
    }
    unreachable!()
}
