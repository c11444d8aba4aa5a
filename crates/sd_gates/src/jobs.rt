// Jobs over so many lines of so many lanes each.
ghost use Rattle.std.specs.Prelude.{◌≡◌, ◌⊎◌, ◌≤◌, ◌+◌, ℕ, [], Some, IfSome, slice_get};
ghost use Rattle.sd_base.specs.Limits.{most_drives, most_lanes};
ghost use Rattle.sd_line.specs.Named.{AreNamedFor};
ghost use Rattle.sd_line.specs.Side.{SeatIs};
ghost use Rattle.sd_gates.specs.Names.{AreNamed};

use crate::making::{Made, begin_line, make, open_first};
use crate::own::draw_records;
use sd_base::{DriveNo, Ticket};
use sd_jobs::{Job, JobEnd, have_lines, run_jobs};
use sd_line::{Gate, Line, Naming, Seat};
use sd_machine::{Event, Reply};
use sd_memdrive::{Fail, MemDrive};
use sd_spool::{MemSpool, SpoolFail};
use std::alloc::Global;
use std::sync::Wait;
use std::thread::Threads;
use std::time::Clock;

/// What jobs are run: one for each lane of each line. Those of the first drive have the sessions from 1 on.
#[derive(Clone, Copy, Debug)]
pub struct Case {
    pub lines: u32,
    pub lanes: u32,
    /// The number of the first session, and how much greater that of the next is.
    pub first: u32,
    pub next: u32,
    /// The room of each queue.
    pub queue: usize,
    /// The limit of each spool; 0 for none.
    pub spool: u64,
    /// How many records each job gives, and below how many bytes each.
    pub records: u32,
    pub most: u32,
    /// How many turns a job has, and a worker.
    pub turns: u64,
    /// The calls that fail of the first drive's device, and the one of the first session's store.
    pub device: &'static [Fail],
    pub store: Option<SpoolFail>,
}

/// Lines, and jobs for them.
#[derive(Drop)]
pub struct Begun<N: Naming, R: Wait + Drop> {
    pub lines: Vec<Line<MemDrive, N, R>>,
    pub jobs: Vec<Job<N, MemSpool>>,
}

/// Lines, and what the jobs came to that were theirs.
#[derive(Drop)]
pub struct Ran<N: Naming, R: Wait + Drop> {
    pub lines: Vec<Line<MemDrive, N, R>>,
    pub ends: Vec<JobEnd<N, MemSpool>>,
}

/// A drive for each line.
pub fn make_all<R: Wait + Copy + Drop>(rt: R, alloc: Global, case: &Case) -> Option<Vec<Made<R>>>
    requires lines { case.now.lines ≤ most_drives }
    requires lanes { (1 ≤ case.now.lanes) × (case.now.lanes ≤ most_lanes) × (1 ≤ case.now.queue) }
    requires spool { (case.now.spool ≡ 0) ⊎ ((1024 ≤ case.now.spool) × (case.now.spool ≤ 1000000)) }
{
    let mut all = Vec::with_capacity(alloc, case.lines as usize).ok()?;
    for at in 0..case.lines {
        let plan = if at == 0 { case.device } else { &[] };
        all.push(make(rt, alloc, plan, case.spool, case.lanes, case.queue)?)
            .ok()?;
    }
    Some(all)
}

/// A line of each drive, the last one first, and a job for each of its lanes.
pub fn begin_all<N: Naming, R: Wait + Copy + Drop>(
    rt: R,
    alloc: Global,
    case: &Case,
    mut all: Vec<Made<R>>,
) -> Option<Begun<N, R>>
    requires { AreNamed N.table N.time all.items }
{
    let mut begun = Begun {
        lines: Vec::new(alloc),
        jobs: Vec::new(alloc),
    };
    for _line in 0..case.lines {
        let made = all.pop()?;
        let no = number_behind(all.len())?;
        begin(rt, alloc, no, case, made, &mut begun)?;
    }
    Some(begun)
}

// The number of the drive after so many.
fn number_behind(before: usize) -> Option<DriveNo>
    ensures { IfSome result (λ no. no ≡ before + 1) }
{
    let Ok(before) = u32::try_from(before) else {
        return None;
    };
    let no = before.checked_add(1)?;
    DriveNo::new(no)
}

// A line of this drive, with volumes of which none is mounted, and a job more for each of its lanes.
fn begin<N: Naming, R: Wait + Copy + Drop>(
    rt: R,
    alloc: Global,
    no: DriveNo,
    case: &Case,
    made: Made<R>,
    begun: &mut Begun<N, R>,
) -> Option<()>
    requires { AreNamedFor N.table no made × (N.time no ≡ 1000) }
{
    let (line, seats) = begin_line::<N, R>(rt, alloc, no, made)?;
    let Reply::Unmounted = line.operate(Event::Unmount { drive: no }) else {
        return None;
    };
    make_jobs(
        alloc,
        &line,
        case,
        seats,
        begun.lines.len(),
        &mut begun.jobs,
    )?;
    begun.lines.push(line).ok()
}

// A job more for each of these lanes.
fn make_jobs<N: Naming, R: Wait + Drop>(
    alloc: Global,
    line: &Line<MemDrive, N, R>,
    case: &Case,
    seats: Vec<Seat<N>>,
    at: usize,
    jobs: &mut Vec<Job<N, MemSpool>>,
) -> Option<()>
    requires { (k : ℕ) (seat : SeatIs) → slice_get seats.items k ≡ Some seat
        → (seat.no ≡ line.now.no) × (seat.seat.sent ≡ []) }
{
    for seat in seats {
        jobs.push(make_job(alloc, line, case, seat, at)?).ok()?;
    }
    Some(())
}

// The job of this lane.
fn make_job<N: Naming, R: Wait + Drop>(
    alloc: Global,
    line: &Line<MemDrive, N, R>,
    case: &Case,
    seat: Seat<N>,
    at: usize,
) -> Option<Job<N, MemSpool>>
    requires { (seat.no ≡ line.now.no) × (seat.seat.sent ≡ []) }
{
    let before = line.no().get().wrapping_sub(1).wrapping_mul(case.lanes);
    let place = before.wrapping_add(seat.lane().get().wrapping_sub(1));
    let id = case.first.wrapping_add(place.wrapping_mul(case.next));
    let mut plan = Vec::new(alloc);
    if id == 1
        && let Some(fail) = case.store
    {
        plan.push(fail).ok()?;
    }
    let store = MemSpool::with_plan(alloc, plan);
    Some(Job {
        line: at,
        part: open_first(alloc, line, seat, store, Ticket::new(id)?)?,
        recs: draw_records(alloc, id, case.most, case.records)?,
        moment: 0,
    })
}

/// Runs the jobs.
pub fn run<N: Naming + Send + Sync, R: Threads + Wait + Clock + Sync + Copy + Drop, G: Gate>(
    rt: R,
    alloc: Global,
    case: &Case,
    all: Vec<Made<R>>,
    gate: &G,
) -> Option<Ran<N, R>>
    requires { AreNamed N.table N.time all.items }
{
    let Begun { lines, jobs } = begin_all::<N, R>(rt, alloc, case, all)?;
    if !have_lines(&lines, &jobs) {
        return None;
    }
    let Ok(ends) = run_jobs(&rt, alloc, &lines, jobs, gate, case.turns) else {
        return None;
    };
    Some(Ran { lines, ends })
}
