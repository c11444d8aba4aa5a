// The worker of a line, while jobs run.
use crate::steps::pause;
use sd_drive::Placed;
use sd_driver::Driver;
use sd_line::{DriveWorker, Gate, Line, Naming, Turned};
use sd_machine::{Event, Reply};
use std::sync::Wait;
use std::sync::atomic::{AtomicU64, Ordering};
use std::time::Clock;

// What came of a turn.
#[derive(Clone, Copy, PartialEq)]
enum Headway {
    /// Something moved.
    Moved,
    /// A piece is in the hand, and can't be placed now.
    Stuck,
    /// Hand and queue were empty, and all that was placed is synced.
    AtRest,
}

/// Makes turns, at most so many, until the line's jobs have ended and nothing is left of what they sent.
pub(crate) fn work<D: Driver, N: Naming, R: Wait + Clock + Drop, G: Gate>(
    rt: &R,
    line: &Line<D, N, R>,
    running: &AtomicU64,
    gate: &G,
    turns: u64,
) {
    for _turn in 0..turns {
        let are_over = running.load(Ordering::SeqCst) == 0;
        match turn(line, gate) {
            Headway::AtRest if are_over => return,
            Headway::Moved => {}
            Headway::Stuck | Headway::AtRest => pause(rt),
        }
    }
}

// One turn; if the drive needs a volume, one is sought.
fn turn<D: Driver, N: Naming, R: Wait + Drop, G: Gate>(line: &Line<D, N, R>, gate: &G) -> Headway {
    let Turned { took, place, .. } = DriveWorker::turn(line, gate);
    match place {
        Ok(Placed::Idle) => Headway::AtRest,
        Ok(Placed::At(_) | Placed::VolumeFull | Placed::VolumeError) => Headway::Moved,
        Ok(Placed::NeedVolume) if seek(line) => Headway::Moved,
        _ if took => Headway::Moved,
        _ => Headway::Stuck,
    }
}

// Seeks a volume for the drive. Whether one was mounted.
fn seek<D: Driver, N: Naming, R: Wait + Drop>(line: &Line<D, N, R>) -> bool {
    let drive = line.no();
    matches!(line.operate(Event::Seek { drive }), Reply::Mounted { .. })
}
