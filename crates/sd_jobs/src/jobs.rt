// Jobs in threads of their own, beside the workers of their lines.
ghost use Rattle.std.specs.Prelude.{◌≡◌, ◌<◌, ◌≤◌, ℕ, true, false, [], Some, length, map, slice_get, IfOk, IfErr};
ghost use Rattle.std.specs.Vec.{vec_capacity};
ghost use Rattle.sd_line.specs.Side.{LineIs};
ghost use Rattle.sd_jobs.specs.Jobs.{JobIs, HasLine, FitPlaces, EndEach};

use crate::job::{Job, JobEnd};
use crate::place::LinePlace;
use crate::starting::{Started, join, start};
use sd_driver::Driver;
use sd_line::{Gate, Line, Naming};
use sd_spool::SpoolStore;
use std::alloc::{AllocError, Global};
use std::sync::Wait;
use std::sync::atomic::AtomicU64;
use std::thread;
use std::thread::{Scope, Threads};
use std::time::Clock;

/// Runs a thread for each job and a worker for each line, and says what each job came to, in order. A job or a worker makes
/// at most so many turns: a job's are its steps of sending and its closes that came too early; a worker's are those of
/// its drive. What finds nothing to do sleeps a millisecond.
///
/// A job for which no thread can be made is cancelled; if none can be made for a worker, the jobs of its line run out
/// of turns. A worker seeks a volume if its drive needs one, and goes on if out of memory. It ends when its line's jobs
/// have ended, nothing of what they sent is queued or in the drive's hand, and nothing on the loaded volume awaits a
/// sync.
///
/// If out of memory, the jobs come back, and none has begun.
pub fn run_jobs<
    D: Driver,
    N: Naming + Send + Sync,
    R: Threads + Wait + Clock + Sync + Drop,
    S: SpoolStore + Send + Drop,
    G: Gate,
>(
    rt: &R,
    alloc: Global,
    lines: &[Line<D, N, R>],
    jobs: Vec<Job<N, S>>,
    gate: &G,
    turns: u64,
) -> Result<Vec<JobEnd<N, S>>, Vec<Job<N, S>>>
    requires { (k : ℕ) (job : JobIs) → slice_get jobs.items k ≡ Some job → HasLine lines.now job }
    ensures ok { IfOk result (λ ends. EndEach jobs.items ends.items) }
    ensures err { IfErr result (λ back. back.items ≡ jobs.items) }
{
    let Ok(places) = places_of(rt, alloc, lines, gate, turns) else {
        return Err(jobs);
    };
    let Ok(started) = Vec::with_capacity(alloc, jobs.len()) else {
        return Err(jobs);
    };
    let Ok(ends) = Vec::with_capacity(alloc, jobs.len()) else {
        return Err(jobs);
    };
    count_jobs(&places, &jobs);
    let places = places.as_slice();
    let refused = AtomicU64::new(0);
    let refused = &refused;
    let ends = thread::scope(
        thread::scope_env(),
        rt,
        move |scope| -> Vec<JobEnd<N, S>>
            requires fit { FitPlaces places.now jobs.items }
            requires started { (started.items ≡ []) × (length jobs.items ≤ vec_capacity started) }
            requires ends { (ends.items ≡ []) × (length jobs.items ≤ vec_capacity ends) }
            ensures { EndEach jobs.items result.items }
        {
            start_workers(scope, places);
            let started = start_all(scope, places, refused, jobs, started);
            join_all(rt, started, ends)
        },
    );
    Ok(ends)
}

// The place of each line, of which no job is counted yet.
fn places_of<'s, D: Driver, N: Naming, R: Wait + Drop, G>(
    rt: &'s R,
    alloc: Global,
    lines: &'s [Line<D, N, R>],
    gate: &'s G,
    turns: u64,
) -> Result<Vec<LinePlace<'s, D, N, R, G>>, AllocError>
    ensures { IfOk result (λ places. places.items ≡ map (λ (line : LineIs). line.no) lines.now) }
{
    let mut places = Vec::with_capacity(alloc, lines.len())?;
    for line in lines {
        places.push_reserved(LinePlace {
            rt,
            line,
            gate,
            turns,
            running: AtomicU64::new(0),
        });
    }
    Ok(places)
}

// Counts the jobs of each line.
fn count_jobs<D: Driver, N: Naming, R: Wait + Clock + Drop, S: SpoolStore, G: Gate>(
    places: &[LinePlace<'_, D, N, R, G>],
    jobs: &[Job<N, S>],
) {
    for job in jobs {
        if let Some(place) = places.get(job.line) {
            place.add_job();
        }
    }
}

// Starts a worker for each line. If no thread can be made for one, the line has none.
fn start_workers<
    's,
    E,
    D: Driver + 's,
    N: Naming + Send + Sync + 's,
    R: Wait + Clock + Sync + Drop + 's,
    G: Gate + 's,
>(scope: &Scope<'s, E>, places: &'s [LinePlace<'s, D, N, R, G>]) {
    for at in 0..places.len() {
        let place = &places[at];
        let _ = scope.spawn(move || place.work());
    }
}

// Starts the jobs, in order.
fn start_all<
    's,
    E,
    D: Driver + 's,
    N: Naming + Send + Sync + 's,
    R: Wait + Clock + Sync + Drop + 's,
    S: SpoolStore + Send + Drop + 's,
    G: Gate + 's,
>(
    scope: &Scope<'s, E>,
    places: &'s [LinePlace<'s, D, N, R, G>],
    refused: &'s AtomicU64,
    jobs: Vec<Job<N, S>>,
    mut started: Vec<Started<N, S>>,
) -> Vec<Started<N, S>>
    requires fit { FitPlaces places.now jobs.items }
    requires room { (started.items ≡ []) × (length jobs.items ≤ vec_capacity started) }
    ensures { result.items ≡ jobs.items }
{
    for job in jobs {
        let place = place_at(places, job.line);
        let number = started.len() as u64 + 1;
        let one = start(scope, place, refused, number, job);
        started.push_reserved(one);
    }
    started
}

// The place of a line that is there.
fn place_at<T>(places: &[T], line: usize) -> &T
    requires { line < length places.now }
    ensures { slice_get places.now line ≡ Some result.now }
{
    &places[line]
}

// What the jobs came to, in order.
fn join_all<N: Naming, S: SpoolStore + Drop, R: Threads>(
    rt: &R,
    started: Vec<Started<N, S>>,
    mut ends: Vec<JobEnd<N, S>>,
) -> Vec<JobEnd<N, S>>
    requires { (ends.items ≡ []) × (length started.items ≤ vec_capacity ends) }
    ensures { EndEach started.items result.items }
{
    for one in started {
        ends.push_reserved(join(rt, one));
    }
    ends
}

/// Whether each job names a line that is there, and has a part of one of its lanes: what `run_jobs` asks for.
pub fn have_lines<D: Driver, N: Naming, R: Wait + Drop, S: SpoolStore + Drop>(
    lines: &[Line<D, N, R>],
    jobs: &[Job<N, S>],
) -> bool
    ensures yes { result ≡ true → (k : ℕ) (job : JobIs) → slice_get jobs.now k ≡ Some job
        → HasLine lines.now job }
    ensures no { result ≡ false → (k : ℕ) × (job : JobIs) × (slice_get jobs.now k ≡ Some job)
        × (HasLine lines.now job → ⊥) }
{
    for at in 0..jobs.len() {
        if !has_line(lines, &jobs[at]) {
            return false;
        }
    }
    true
}

// Whether this job does.
fn has_line<D: Driver, N: Naming, R: Wait + Drop, S: SpoolStore + Drop>(
    lines: &[Line<D, N, R>],
    job: &Job<N, S>,
) -> bool
    ensures yes { result ≡ true → HasLine lines.now job.now }
    ensures no { result ≡ false → HasLine lines.now job.now → ⊥ }
{
    if job.line >= lines.len() {
        return false;
    }
    let line = &lines[job.line];
    job.part.no().get() == line.no().get()
}
