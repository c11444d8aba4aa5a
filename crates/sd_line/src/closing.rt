// A session is closed by what its drive says of it.
ghost use Rattle.std.specs.Prelude.{◌≡◌, ◌≢◌, List, None, Ok, Err};
ghost use Rattle.sd_journal.specs.Journal.{Entry};
ghost use Rattle.sd_session.specs.Session.{FailsSession};
ghost use Rattle.sd_line.specs.Closes.{Closes, IsDue, MayCloseBy};

use sd_base::Refusal;
use sd_drive::{Drive, Receipt};
use sd_driver::Driver;
use sd_session::Session;
use sd_span::Progress;
use sd_spool::SpoolStore;
use std::alloc::AllocError;

/// What a close of a session came to that was not refused.
#[derive(Drop)]
pub enum Closing {
    /// It is closed: all that it took is on volumes and synced.
    Closed(Receipt),
    /// It isn't, since something of it is outstanding.
    NotYet,
}

/// The receipt by which the session may be closed; none if something of it is outstanding. A session of which the drive
/// lost a block fails.
pub(crate) fn receipt<D: Driver, S: SpoolStore + Drop>(
    drive: &Drive<D>,
    session: &mut Session<S>,
) -> Result<Option<Receipt>, Refusal>
    ensures { IsDue ⊥ drive.now.journal session.old result session.new }
{
    let key = session.key();
    let progress = drive.progress(key);
    if let Err(why) = session.may_close(&progress) {
        return refuse(session, why);
    }
    match drive.receipt(key, session.sent()) {
        Ok(receipt) => Ok(receipt),
        Err(AllocError) => Err(Refusal::Memory),
    }
}

/// Closes the session by that receipt.
pub(crate) fn close_by<S: SpoolStore + Drop>(session: &mut Session<S>, receipt: &Receipt)
    requires { (journal : List Entry) × MayCloseBy journal session.old receipt.now }
    ensures { (journal : List Entry) → MayCloseBy journal session.old receipt.now
        → Closes ⊥ journal session.old (Ok (Closing.Closed receipt.now)) session.new }
{
    // All that it sent is synced.
    let progress = Progress {
        placed: receipt.blocks(),
        synced: receipt.blocks(),
        failed: false,
    };
    let Err(_) = session.close(&progress) else {
        return;
    };
    unreachable!()
}

// What is answered of a session that may not be closed, and why it may not: if a block of it was lost, it fails.
fn refuse<S: SpoolStore + Drop>(
    session: &mut Session<S>,
    why: Refusal,
) -> Result<Option<Receipt>, Refusal>
    ensures not_yet { why ≡ Refusal.NotYet → (result ≡ Ok None) × (session.new ≡ session.old) }
    ensures failed { why ≡ Refusal.SessionFailed
        → (result ≡ Err why) × FailsSession session.old session.new }
    ensures other { why ≢ Refusal.NotYet → why ≢ Refusal.SessionFailed
        → (result ≡ Err why) × (session.new ≡ session.old) }
{
    match why {
        Refusal::NotYet => Ok(None),
        Refusal::SessionFailed => {
            session.fail();
            Err(why)
        }
        _ => Err(why),
    }
}
