// What jobs came to.
ghost use Rattle.std.specs.Prelude.{◌≡◌, ◌⊎◌, ◌≤◌};
ghost use Rattle.sd_base.specs.Limits.{most_drives, most_lanes};
ghost use Rattle.sd_gates.specs.Names.{AreNamed};

use crate::jobs::{Case, Ran, make_all, run};
use crate::making::Made;
use crate::own::are_drawn;
use sd_base::{Rec, Refusal};
use sd_jobs::{JobEnd, Stop};
use sd_line::{Gate, Line, Naming};
use sd_memdrive::MemDrive;
use sd_session::{Session, Status};
use sd_spool::MemSpool;
use std::alloc::Global;
use std::marker::Brand;
use std::sync::Wait;
use std::thread::Threads;
use std::time::Clock;

/// What a job came to.
#[derive(Clone, Copy, Debug, PartialEq)]
enum Kind {
    /// It took all its records, its session is closed, and its receipt reads to just these.
    Done,
    /// It had no turn left, and its session is active, or ended.
    Active,
    Ended,
    /// Its session failed, by its spool or by its drive.
    SpoolFault,
    Failed,
    /// Anything else.
    Wrong,
}

/// How many jobs came to what.
#[derive(Clone, Copy, Debug, PartialEq)]
pub struct Told {
    pub done: u32,
    pub active: u32,
    pub ended: u32,
    pub spool_faults: u32,
    pub failed: u32,
    pub wrong: u32,
}

/// No job.
pub const NONE: Told = Told {
    done: 0,
    active: 0,
    ended: 0,
    spool_faults: 0,
    failed: 0,
    wrong: 0,
};

impl Told {
    fn count(&mut self, kind: Kind) {
        let count = match kind {
            Kind::Done => &mut self.done,
            Kind::Active => &mut self.active,
            Kind::Ended => &mut self.ended,
            Kind::SpoolFault => &mut self.spool_faults,
            Kind::Failed => &mut self.failed,
            Kind::Wrong => &mut self.wrong,
        };
        *count = count.wrapping_add(1);
    }
}

/// Runs jobs, and tells what they came to.
pub fn play<R: Threads + Wait + Clock + Sync + Copy + Drop, G: Gate>(
    rt: R,
    alloc: Global,
    case: &Case,
    gate: &G,
) -> Option<Told>
    requires lines { case.now.lines ≤ most_drives }
    requires lanes { (1 ≤ case.now.lanes) × (case.now.lanes ≤ most_lanes) × (1 ≤ case.now.queue) }
    requires spool { (case.now.spool ≡ 0) ⊎ ((1024 ≤ case.now.spool) × (case.now.spool ≤ 1000000)) }
{
    let all = make_all(rt, alloc, case)?;
    play_with::<Brand, R, G>(rt, alloc, case, all, gate)
}

fn play_with<N: Naming + Send + Sync, R: Threads + Wait + Clock + Sync + Copy + Drop, G: Gate>(
    rt: R,
    alloc: Global,
    case: &Case,
    all: Vec<Made<R>>,
    gate: &G,
) -> Option<Told>
    requires { AreNamed N.table N.time all.items }
{
    let ran = run::<N, R, G>(rt, alloc, case, all, gate)?;
    Some(tell(alloc, case, &ran))
}

// What the jobs came to.
fn tell<N: Naming, R: Wait + Drop>(alloc: Global, case: &Case, ran: &Ran<N, R>) -> Told {
    let mut told = NONE;
    for end in &ran.ends {
        told.count(kind_of(alloc, case, &ran.lines, end).unwrap_or(Kind::Wrong));
    }
    told
}

fn kind_of<N: Naming, R: Wait + Drop>(
    alloc: Global,
    case: &Case,
    lines: &[Line<MemDrive, N, R>],
    end: &JobEnd<N, MemSpool>,
) -> Option<Kind> {
    let session = &end.lane_end.sessions().last()?.session;
    if session.records() != end.taken {
        return None;
    }
    if end.stop == Stop::Done {
        return done(alloc, case, lines, end, session);
    }
    if end.receipt.is_some() {
        return None;
    }
    match (end.stop, session.status()) {
        (Stop::OutOfTurns, Status::Active) => Some(Kind::Active),
        (Stop::OutOfTurns, Status::Ended) => Some(Kind::Ended),
        (Stop::Refused(Refusal::SpoolFault), Status::Failed) => Some(Kind::SpoolFault),
        (Stop::Refused(Refusal::SessionFailed), Status::Failed) => Some(Kind::Failed),
        _ => None,
    }
}

// What a job that is done came to: `Done`, if its receipt reads to just its records.
fn done<N: Naming, R: Wait + Drop>(
    alloc: Global,
    case: &Case,
    lines: &[Line<MemDrive, N, R>],
    end: &JobEnd<N, MemSpool>,
    session: &Session<MemSpool>,
) -> Option<Kind> {
    let receipt = end.receipt.as_ref()?;
    let key = session.key();
    let line = lines.get(case.lines.wrapping_sub(end.lane_end.no().get()) as usize)?;
    let mut recs: Vec<Rec> = Vec::new(alloc);
    let read = line.read(key, receipt.spans(), &mut recs).ok()?;
    let whole = read.ended && receipt.key() == key && session.status() == Status::Closed;
    if !whole || !are_drawn(&recs, key.id, case.most, case.records) {
        return None;
    }
    Some(Kind::Done)
}
