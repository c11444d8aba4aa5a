// Jobs in threads over a line whose device is over a folder in memory.
ghost use Rattle.std.specs.Prelude.{◌≡◌, ℕ, [], Some, IfSome, IfOk, slice_get};
ghost use Rattle.sd_drive.specs.Limits.{AreLimits};
ghost use Rattle.sd_jobs.specs.Jobs.{HasLine, JobIs};
ghost use Rattle.sd_line.specs.Named.{AreNamedFor};
ghost use Rattle.sd_line.specs.Side.{SeatIs};

use crate::later::read_all;
use crate::records::draw_records;
use crate::stops::{Progress, Stop, stop_often};
use sd_base::{DriveNo, JobId, MediaName, Name, Ticket, VolName};
use sd_drive::{Drive, Limits, Receipt};
use sd_filedrive::FolderDrive;
use sd_jobs::{Job, JobEnd, have_lines, run_jobs};
use sd_line::{CloseBook, LaneEnd, Line, Naming, Seat, SessionPart};
use sd_machine::{Event, Reply};
use sd_memfolder::MemoryFolder;
use sd_ruled::RuledLanes;
use sd_spool::MemSpool;
use std::alloc::Global;
use std::marker::{Brand, Model};
use std::sync::Wait;
use std::thread;
use std::thread::Threads;
use std::time::Clock;

/// How many jobs run at once, each at a lane of its own.
pub const JOBS: u32 = 4;

/// How many volumes there are.
pub const VOLUMES: u32 = 9;

/// How many turns a job has, and the worker.
const TURNS: u64 = 100_000;

/// How many pieces the queue has room for.
const QUEUE: usize = 2;

type Device = FolderDrive<MemoryFolder>;

/// A session that was told closed: its ticket, and its receipt.
#[derive(Drop)]
pub struct Told {
    pub id: u32,
    pub receipt: Receipt,
}

/// What the jobs of a run came to: how many were told closed; how many stops were made, and how many sessions were told closed before
/// one, each counted for each stop; how many of these don't read to their records, and how many do after the last stop.
#[derive(Clone, Copy)]
pub struct Came {
    pub closed: u32,
    pub stops: u32,
    pub told: u32,
    pub wrong: u32,
    pub read_last: u32,
}

// A drive of which no line is made yet, the queue for it and the ledger of its closes, all unused. In a contract it is the tables of
// these two, a `TablesIs`.
#[derive(Drop)]
struct Made<R: Wait + Drop> {
    drive: Drive<Device>,
    lanes: RuledLanes<R>,
    book: CloseBook<Device>,
}

impl<R: Wait + Drop> Model for Made<R> {
    ghost use Rattle.std.specs.Prelude.{◌≡◌, ◌≤◌, [], None};
    ghost use Rattle.sd_base.specs.Limits.{most_lanes};
    ghost use Rattle.sd_drive.specs.Limits.{AreLimits};
    ghost use Rattle.sd_line.specs.Named.{TablesIs};

    ghost Value = { TablesIs };

    ghost view = { λ m. record { queue = m.lanes.table; book = m.book.id } };

    ghost invariant = { λ m. record {
      limits : AreLimits m.drive.limits;
      time : m.drive.limits.time ≡ 1000;
      journal : m.drive.journal ≡ [];
      hand : m.drive.hand ≡ None;
      lanes : m.lanes.lanes ≤ most_lanes;
      taken : m.lanes.taken ≡ [];
      held : m.lanes.held ≡ [];
    } };
}

/// Runs the jobs, and reads in later runs what each stop left. None if out of memory.
pub fn play<R: Threads + Wait + Clock + Sync + Copy + Drop>(
    rt: R,
    alloc: Global,
    run: u32,
) -> Option<Came> {
    let made = make(rt, alloc)?;
    play_with::<Brand, R>(rt, alloc, run, made)
}

fn play_with<N: Naming + Send + Sync, R: Threads + Wait + Clock + Sync + Copy + Drop>(
    rt: R,
    alloc: Global,
    run: u32,
    made: Made<R>,
) -> Option<Came>
    requires { AreNamedFor N.table 1 made × (N.time 1 ≡ 1000) }
{
    let (line, seats) = begin::<N, R>(rt, alloc, made)?;
    let jobs = make_jobs(alloc, &line, run, seats)?;
    let mut lines = Vec::with_capacity(alloc, 1).ok()?;
    lines.push(line).ok()?;
    let (ends, stops) = run_stopped(rt, alloc, &lines, jobs)?;
    judge(alloc, run, told_by(alloc, ends)?, stops)
}

/// The limits of the drive.
pub fn limits() -> Limits
    ensures limits { AreLimits result }
    ensures time { result.time ≡ 1000 }
{
    Limits {
        block: 1024,
        volume: 9000,
        spool: 0,
        time: 1000,
        host: None,
    }
}

/// The media of the drive.
pub fn media() -> MediaName {
    Name::parse("File").unwrap()
}

/// The name of a volume, by its number from 0 on.
pub fn volume(number: u32) -> Option<VolName> {
    let names = [
        "Vol-1", "Vol-2", "Vol-3", "Vol-4", "Vol-5", "Vol-6", "Vol-7", "Vol-8", "Vol-9",
    ];
    Name::parse(names.get(number as usize)?).ok()
}

// A drive on a folder in memory, and a queue of as many lanes as there are jobs.
fn make<R: Wait + Drop>(rt: R, alloc: Global) -> Option<Made<R>> {
    let limits = limits();
    let folder = MemoryFolder::new(alloc, limits.volume, &[]).ok()?;
    let device = FolderDrive::of_folder(folder, alloc);
    let Ok(drive) = Drive::new(alloc, device, media(), limits) else {
        return None;
    };
    let lanes = RuledLanes::new(rt, alloc, JOBS, QUEUE).ok()?;
    let book = CloseBook::new(alloc).ok()?;
    Some(Made { drive, lanes, book })
}

// The line of a drive that was just made, with its volumes, and the seats of its lanes.
fn begin<N: Naming, R: Wait + Copy + Drop>(
    rt: R,
    alloc: Global,
    made: Made<R>,
) -> Option<(Line<Device, N, R>, Vec<Seat<N>>)>
    requires { AreNamedFor N.table 1 made × (N.time 1 ≡ 1000) }
    ensures { IfSome result (λ made. (k : ℕ) (seat : SeatIs) → slice_get made.1.items k ≡ Some seat
        → (seat.no ≡ made.0.no) × (seat.seat.sent ≡ [])) }
{
    let no = DriveNo::new(1)?;
    let Made { drive, lanes, book } = made;
    let Ok((line, seats)) = Line::<Device, N, R>::new(rt, alloc, no, drive, lanes, book) else {
        return None;
    };
    label_all(&line)?;
    Some((line, seats))
}

// Labels the volumes. The worker seeks them.
fn label_all<N: Naming, R: Wait + Drop>(line: &Line<Device, N, R>) -> Option<()> {
    for number in 0..VOLUMES {
        let label = Event::Label {
            drive: line.no(),
            name: volume(number)?,
            pool: Name::parse("Default").ok()?,
            media: media(),
            moment: 0,
        };
        let Reply::Labelled = line.operate(label) else {
            return None;
        };
    }
    Some(())
}

// A job for each of these lanes.
fn make_jobs<N: Naming, R: Wait + Drop>(
    alloc: Global,
    line: &Line<Device, N, R>,
    run: u32,
    seats: Vec<Seat<N>>,
) -> Option<Vec<Job<N, MemSpool>>>
    requires { (k : ℕ) (seat : SeatIs) → slice_get seats.items k ≡ Some seat
        → (seat.no ≡ line.now.no) × (seat.seat.sent ≡ []) }
{
    let mut jobs = Vec::with_capacity(alloc, seats.len()).ok()?;
    for seat in seats {
        jobs.push(make_job(alloc, line, run, seat)?).ok()?;
    }
    Some(jobs)
}

// The job of this lane: its session has the lane's number.
fn make_job<N: Naming, R: Wait + Drop>(
    alloc: Global,
    line: &Line<Device, N, R>,
    run: u32,
    seat: Seat<N>,
) -> Option<Job<N, MemSpool>>
    requires { (seat.no ≡ line.now.no) × (seat.seat.sent ≡ []) }
{
    let id = seat.lane().get();
    let end = LaneEnd::new(alloc, seat, MemSpool::new(alloc));
    let (ticket, job) = (Ticket::new(id)?, JobId::new(7)?);
    let pool = Name::parse("Default").ok()?;
    Some(Job {
        line: 0,
        part: SessionPart::open(alloc, line, end, ticket, job, pool, 0).ok()?,
        recs: draw_records(alloc, run, id)?,
        moment: 0,
    })
}

// Runs the jobs, beside a thread that stops the folder.
fn run_stopped<N: Naming + Send + Sync, R: Threads + Wait + Clock + Sync + Drop>(
    rt: R,
    alloc: Global,
    lines: &[Line<Device, N, R>],
    jobs: Vec<Job<N, MemSpool>>,
) -> Option<(Vec<JobEnd<N, MemSpool>>, Vec<Stop>)> {
    if !have_lines(lines, &jobs) {
        return None;
    }
    let line = lines.first()?;
    let progress = Progress::new();
    let (rt, progress) = (&rt, &progress);
    let (ends, stops) = thread::scope(
        thread::scope_env(),
        rt,
        move |scope| -> (Option<Vec<JobEnd<N, MemSpool>>>, Option<Vec<Stop>>)
            requires { (k : ℕ) (job : JobIs) → slice_get jobs.items k ≡ Some job
                → HasLine lines.now job }
        {
            let stopper = scope.spawn(move || stop_often(rt, alloc, line, progress));
            let ends = run_jobs(rt, alloc, lines, jobs, progress, TURNS).ok();
            progress.end();
            match stopper {
                Ok(stopper) => (ends, stopper.join(rt)),
                Err(_) => (ends, None),
            }
        },
    );
    Some((ends?, stops?))
}

// The sessions that were told closed.
fn told_by<N: Naming>(alloc: Global, ends: Vec<JobEnd<N, MemSpool>>) -> Option<Vec<Told>> {
    let mut told = Vec::with_capacity(alloc, ends.len()).ok()?;
    for end in ends {
        let JobEnd {
            lane_end: _,
            taken: _,
            receipt,
            stop: _,
        } = end;
        if let Some(receipt) = receipt {
            let id = receipt.key().id;
            told.push(Told { id, receipt }).ok()?;
        }
    }
    Some(told)
}

// Reads what each stop left in a later run.
fn judge(alloc: Global, run: u32, told: Vec<Told>, stops: Vec<Stop>) -> Option<Came> {
    let mut came = Came {
        closed: u32::try_from(told.len()).ok()?,
        stops: u32::try_from(stops.len()).ok()?,
        told: 0,
        wrong: 0,
        read_last: 0,
    };
    for stop in stops {
        let read = read_all(alloc, run, &told, stop)?;
        came.told = came
            .told
            .saturating_add(read.right)
            .saturating_add(read.wrong);
        came.wrong = came.wrong.saturating_add(read.wrong);
        came.read_last = read.right;
    }
    Some(came)
}
