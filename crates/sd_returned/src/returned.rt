// Jobs come back.
ghost use Rattle.std.specs.Prelude.{◌≡◌, List, IfSome};
ghost use Rattle.sd_jobs.specs.Jobs.{JobIs, EndEach};
ghost use Rattle.sd_returned.specs.Backs.{ComeBack};

use crate::alone::{are_alone, are_there};
use crate::asked::ask_all;
use crate::back::JobBack;
use crate::handing::hand_in;
use crate::laws::settled_jobs_read;
use crate::reading::read_all;
use sd_hub::settle;
use sd_jobs::{Job, JobEnd, have_lines, run_jobs};
use sd_line::{Gate, Line, Naming};
use sd_memdrive::MemDrive;
use sd_spool::MemSpool;
use std::alloc::Global;
use std::sync::Wait;
use std::thread::Threads;
use std::time::Clock;

/// Runs jobs in threads at a line over a device in memory, settles the line once they have ended, and reads back what each
/// job closed, by its receipt alone. What comes back of a job that is done are exactly the records that were taken of its
/// session, unless the read was refused. So it is for one that doesn't spool; for one that does, if its lane's store is
/// honest, which no call tells.
///
/// Each job names the line by the place 0. None if one doesn't, or has no part of a lane of it; if out of memory before the
/// reads; if the line can't be settled, as when one of its lanes has no job; or if two of its lanes tell of sessions of one
/// number.
pub fn jobs_come_back<
    N: Naming + Send + Sync,
    R: Threads + Wait + Clock + Sync + Copy + Drop,
    G: Gate,
>(
    rt: &R,
    alloc: Global,
    line: Line<MemDrive, N, R>,
    jobs: Vec<Job<N, MemSpool>>,
    gate: &G,
    turns: u64,
) -> Option<Vec<JobBack>>
    ensures { IfSome result (λ backs. ComeBack jobs.items backs.items) }
{
    let (line, ends) = run_on(rt, alloc, line, jobs, gate, turns)?;
    come_back(alloc, line, ends)
}

// Runs the jobs at their line.
fn run_on<N: Naming + Send + Sync, R: Threads + Wait + Clock + Sync + Drop, G: Gate>(
    rt: &R,
    alloc: Global,
    line: Line<MemDrive, N, R>,
    jobs: Vec<Job<N, MemSpool>>,
    gate: &G,
    turns: u64,
) -> Option<(Line<MemDrive, N, R>, Vec<JobEnd<N, MemSpool>>)>
    ensures { IfSome result (λ ran. (ran.0 ≡ line) × EndEach jobs.items ran.1.items) }
{
    let mut lines = Vec::new(alloc);
    let Ok(()) = lines.push(line) else {
        return None;
    };
    if !have_lines(&lines, &jobs) {
        return None;
    }
    let Ok(ends) = run_jobs(rt, alloc, &lines, jobs, gate, turns) else {
        return None;
    };
    Some((lines.pop()?, ends))
}

// What comes back of jobs that ended, of whose line nobody has anything any more.
fn come_back<N: Naming, R: Wait + Copy + Drop>(
    alloc: Global,
    line: Line<MemDrive, N, R>,
    ends: Vec<JobEnd<N, MemSpool>>,
) -> Option<Vec<JobBack>>
    ensures { IfSome result (λ backs. (jobs : List JobIs) → EndEach jobs ends.items
        → ComeBack jobs backs.items) }
{
    settled_jobs_read::<MemDrive>();
    let Ok(all) = ask_all(alloc, &ends) else {
        return None;
    };
    let Ok(backs) = Vec::with_capacity(alloc, all.len()) else {
        return None;
    };
    if !are_alone(&ends) {
        return None;
    }
    let Ok(handed) = hand_in(alloc, ends) else {
        return None;
    };
    let Ok(mut world) = settle(alloc, line, handed.ends, handed.receipts) else {
        return None;
    };
    if !are_there(&world, &all) {
        return None;
    }
    Some(read_all(alloc, &mut world, all, backs))
}
