// A session is closed once all that it sent is placed.
ghost use Rattle.std.specs.Prelude.{◌≡◌, List, [], IfErr, IfNone, IfOk, IfSome};
ghost use Rattle.sd_journal.specs.Journal.{Entry};
ghost use Rattle.sd_line.specs.Closes.{MayCloseBy};
ghost use Rattle.sd_line.specs.Goes.{GoesOn, IsReceiptOf};
ghost use Rattle.sd_line.specs.Tells.{ShowsClose};
ghost use Rattle.sd_session.specs.declared.status.Status.TheVariants.{Ended};
ghost use Rattle.sd_stations.specs.Sends.{ClosesNow, DueRefused};

use crate::station::Station;
use sd_base::{Items, Refusal};
use sd_drive::Receipt;
use sd_driver::Driver;
use sd_line::{DriveSide, Line, Naming, SessionPart, ToldToken};
use sd_span::Span;
use sd_spool::SpoolStore;
use std::alloc::{AllocError, Global};
use std::sync::Wait;
use std::time::Clock;

/// That a session is closed: its receipt, the spans of that, and what shows that this was told at its drive.
#[derive(Drop)]
pub struct Shut<D: Driver, N: Naming> {
    pub receipt: Receipt,
    pub spans: Items<Span>,
    pub token: ToldToken<D, N>,
}

/// The receipt by which a close is due, and what shows that it was told at the drive.
#[derive(Drop)]
pub(crate) struct Due<D: Driver, N: Naming> {
    pub(crate) receipt: Receipt,
    pub(crate) token: ToldToken<D, N>,
}

/// The receipt by which a close of the session is due, by what lies under the lock of the line: as `SessionPart::receipt_on`,
/// with what shows that it was told.
pub(crate) fn due_on<D: Driver, N: Naming, R: Wait + Drop, S: SpoolStore + Drop>(
    line: &Line<D, N, R>,
    side: &mut DriveSide<D, N>,
    part: &mut SessionPart<N, S>,
) -> Result<Option<Due<D, N>>, Refusal>
    requires { (part.old.seat.no ≡ line.now.no) × (side.old.no ≡ line.now.no) }
    ensures goes_on { GoesOn part.old [] part.new }
    ensures ok { IfOk result (λ due. IfSome due (λ d. (part.new ≡ part.old)
        × (journal : List Entry) × MayCloseBy journal part.old.session d.receipt)) }
    ensures shown { IfOk result (λ due. IfSome due
        (λ d. ShowsClose d.token part.old.seat.no part.old.seat.seat.sent d.receipt)) }
    ensures none { IfOk result (λ due. IfNone due ((part.old.session.status ≡ Ended)
        × (part.new ≡ part.old))) }
    ensures err { IfErr result (λ why. DueRefused part.old.session why part.new.session) }
{
    let receipt = match part.receipt_on(side, line.queue()) {
        Ok(Some(receipt)) => receipt,
        Ok(None) => return Ok(None),
        Err(why) => return Err(why),
    };
    Ok(Some(Due {
        receipt,
        token: side.show(),
    }))
}

/// Closes the session, if that is possible now; none if something of it is on its way. The drive's lock is held once, in
/// which the drive is synced, if blocks of the session await that, and gives its receipt. Room for the answer is made
/// before the session's status changes.
pub(crate) fn try_close<D: Driver, N: Naming, R: Wait + Clock + Drop, S: SpoolStore + Drop>(
    rt: &R,
    station: &Station<D, N, R>,
    part: &mut SessionPart<N, S>,
) -> Result<Option<Shut<D, N>>, Refusal>
    requires { part.old.seat.no ≡ station.now.no }
    ensures goes_on { GoesOn part.old [] part.new }
    ensures ok { IfOk result (λ shut. IfSome shut
        (λ s. IsReceiptOf part.new.session s.receipt × (s.spans ≡ s.receipt.spans))) }
    ensures shown { IfOk result (λ shut. IfSome shut
        (λ s. ShowsClose s.token part.new.seat.no part.new.seat.seat.sent s.receipt)) }
    ensures closes { IfOk result (λ shut. IfSome shut
        (λ s. ClosesNow part.old.session part.new.session)) }
    ensures none { IfOk result (λ shut. IfNone shut ((part.old.session.status ≡ Ended)
        × (part.new ≡ part.old))) }
    ensures err { IfErr result (λ why. DueRefused part.old.session why part.new.session) }
{
    let due = match station.receipt(rt, part) {
        Ok(Some(due)) => due,
        Ok(None) => return Ok(None),
        Err(why) => return Err(why),
    };
    let Due { receipt, token } = due;
    let Ok(spans) = spans_of(station.alloc(), &receipt) else {
        return Err(Refusal::Memory);
    };
    part.close_by(&receipt);
    Ok(Some(Shut {
        receipt,
        spans,
        token,
    }))
}

// The spans of a receipt, once more.
fn spans_of(alloc: Global, receipt: &Receipt) -> Result<Items<Span>, AllocError>
    ensures { IfOk result (λ spans. spans ≡ receipt.now.spans) }
{
    let own = receipt.spans();
    let mut spans = Vec::with_capacity(alloc, own.len())?;
    for at in 0..own.len() {
        spans.push(copy_of(&own[at]))?;
    }
    Ok(Items::from_vec(spans))
}

fn copy_of(span: &Span) -> Span
    ensures { result ≡ span.now }
{
    Span {
        volume: span.volume.copy(),
        vol_index: span.vol_index,
        first: span.first,
        last: span.last,
        start: span.start,
        end: span.end,
    }
}
