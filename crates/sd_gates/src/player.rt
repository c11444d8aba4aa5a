// What a session's part answers, step by step.
ghost use Rattle.std.specs.Prelude.{◌≡◌};

use crate::holding::Open;
use sd_base::{Bytes, Rec, Refusal, SessionKey};
use sd_drive::Placed;
use sd_line::{Closing, DriveWorker, Line, Naming, SessionPart};
use sd_memdrive::MemDrive;
use sd_session::{Despooled, Spooling};
use sd_span::Progress;
use sd_spool::MemSpool;
use std::alloc::Global;
use std::sync::Wait;

/// A step of a part; or a turn of its line.
#[derive(Clone, Copy, Debug)]
pub enum Step {
    /// A record of this index, with so many bytes.
    Append(u32, usize),
    End,
    Spool,
    Push,
    Turn,
    Close,
    Cancel,
    /// A look at the drive, at which nothing happens.
    Look,
}

/// What came of one.
#[derive(Clone, Copy, Debug, PartialEq)]
pub enum Came {
    Taken(u64),
    Ended,
    Spooled(Spooling),
    Pushed(Despooled),
    /// What of a turn was done: a piece taken, one placed, and a sync, which failed or didn't.
    Turned(bool, bool, Option<bool>),
    /// Closed, with a receipt for so many blocks.
    Closed(u64),
    NotYet,
    Cancelled,
    /// How far the session's blocks are, and whether the drive gives a receipt for one block.
    Stands(Progress, bool),
    Refused(Refusal),
    NoMemory,
}

/// Makes a step.
pub fn make_step<N: Naming, R: Wait + Drop>(
    alloc: Global,
    line: &Line<MemDrive, N, R>,
    part: &mut SessionPart<N, MemSpool>,
    step: Step,
) -> Came
    requires { part.old.seat.no ≡ line.now.no }
    ensures { part.new.seat.no ≡ part.old.seat.no }
{
    match answer(alloc, line, part, step) {
        Ok(came) => came,
        Err(why) => Came::Refused(why),
    }
}

fn answer<N: Naming, R: Wait + Drop>(
    alloc: Global,
    line: &Line<MemDrive, N, R>,
    part: &mut SessionPart<N, MemSpool>,
    step: Step,
) -> Result<Came, Refusal>
    requires { part.old.seat.no ≡ line.now.no }
    ensures { part.new.seat.no ≡ part.old.seat.no }
{
    match step {
        Step::Append(index, size) => match make_record(alloc, index, size) {
            Some(rec) => Ok(Came::Taken(part.append(&rec)?)),
            None => Ok(Came::NoMemory),
        },
        Step::End => {
            part.end(0)?;
            Ok(Came::Ended)
        }
        Step::Spool => Ok(Came::Spooled(part.spool()?)),
        Step::Push => Ok(Came::Pushed(part.push(line)?)),
        Step::Turn => Ok(turn(line)),
        Step::Close => match part.close(line)? {
            Closing::Closed(receipt) => Ok(Came::Closed(receipt.blocks())),
            Closing::NotYet => Ok(Came::NotYet),
        },
        Step::Cancel => {
            part.cancel()?;
            Ok(Came::Cancelled)
        }
        Step::Look => Ok(look(line, part.session().key()).unwrap_or(Came::NoMemory)),
    }
}

// How far a session is by its drive.
fn look<N: Naming, R: Wait + Drop>(line: &Line<MemDrive, N, R>, key: SessionKey) -> Option<Came> {
    let receipt = line.lock().drive().receipt(key, 1).ok()?;
    Some(Came::Stands(line.progress(key), receipt.is_some()))
}

fn turn<N: Naming, R: Wait + Drop>(line: &Line<MemDrive, N, R>) -> Came {
    let turned = DriveWorker::turn(line, &Open);
    let synced = match turned.sync {
        Some(Ok(())) => Some(true),
        Some(Err(_)) => Some(false),
        None => None,
    };
    Came::Turned(
        turned.took,
        matches!(turned.place, Ok(Placed::At(_))),
        synced,
    )
}

// A record of so many bytes.
fn make_record(alloc: Global, index: u32, size: usize) -> Option<Rec> {
    let bytes = vec![in alloc; 0x78u8; size].ok()?;
    Rec::new(index, 2, Bytes::from_vec(bytes))
}
