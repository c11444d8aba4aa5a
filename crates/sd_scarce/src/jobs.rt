// A job in a thread of its own, beside the worker of its line.
ghost use Rattle.std.specs.Prelude.{◌≡◌, ℕ, [], Some, IfOk, IfErr, IfSome, slice_get};
ghost use Rattle.sd_line.specs.Named.{AreNamedFor};
ghost use Rattle.sd_line.specs.Side.{SeatIs};

use crate::names::{KEY, Names};
use crate::records::make_again;
use crate::settling::{self, Told, Wrong, list_of};
use sd_base::{DriveNo, SessionKey, Ticket, VolName};
use sd_drive::{Drive, Limits};
use sd_jobs::{Job, JobEnd, have_lines, run_jobs};
use sd_line::{CloseBook, Gate, LaneEnd, Line, Naming, NotLined, Point, Seat, SessionPart};
use sd_machine::{Event, Reply};
use sd_memdrive::MemDrive;
use sd_ruled::RuledLanes;
use sd_spool::MemSpool;
use std::alloc::Global;
use std::marker::{Brand, Model};
use std::sync::Wait;
use std::thread::Threads;
use std::time::Clock;

/// How many turns the job has, and the worker. If there is no thread for the worker, the job makes them all, each of a
/// millisecond.
const TURNS: u64 = 300;

/// The most bytes of a volume.
const MOST_BYTES: u64 = 100_000;

// No thread is held anywhere.
struct Ungated;

impl Gate for Ungated {
    fn at(&self, _point: Point, _key: SessionKey) {}
}

// A drive of which no line is made yet, the queue for it and the ledger of its closes, all unused. In a contract it is the tables of
// these two, a `TablesIs`.
#[derive(Drop)]
struct Made<R: Wait + Drop> {
    drive: Drive<MemDrive>,
    lanes: RuledLanes<R>,
    book: CloseBook<MemDrive>,
}

impl<R: Wait + Drop> Model for Made<R> {
    ghost use Rattle.std.specs.Prelude.{◌≡◌, ◌≤◌, [], None};
    ghost use Rattle.sd_base.specs.Limits.{most_lanes};
    ghost use Rattle.sd_drive.specs.Limits.{AreLimits};
    ghost use Rattle.sd_line.specs.Named.{TablesIs};

    ghost Value = { TablesIs };

    ghost view = { λ m. record { queue = m.lanes.table; book = m.book.id } };

    ghost invariant = { λ m. record {
      limits : AreLimits m.drive.limits;
      time : m.drive.limits.time ≡ 1000;
      journal : m.drive.journal ≡ [];
      hand : m.drive.hand ≡ None;
      lanes : m.lanes.lanes ≤ most_lanes;
      taken : m.lanes.taken ≡ [];
      held : m.lanes.held ≡ [];
    } };
}

/// Runs a job over a line, settles that, and brings the job's session to its end in the world of it. What came of that, or
/// what isn't as it is to be.
pub fn play<R: Threads + Wait + Clock + Sync + Copy + Drop>(
    rt: R,
    alloc: Global,
    names: &Names,
) -> Result<Told, Wrong> {
    let made = match make(rt, alloc, names) {
        None => make(rt, alloc, names),
        made => made,
    };
    match made {
        Some(made) => play_with::<Brand, R>(rt, alloc, names, made),
        None => Err(Wrong::NoDrive),
    }
}

fn play_with<N: Naming + Send + Sync, R: Threads + Wait + Clock + Sync + Copy + Drop>(
    rt: R,
    alloc: Global,
    names: &Names,
    made: Made<R>,
) -> Result<Told, Wrong>
    requires { AreNamedFor N.table 1 made × (N.time 1 ≡ 1000) }
{
    match run::<N, R>(rt, alloc, names, made) {
        Some((line, end)) => settling::play(alloc, names, line, end),
        None => Err(Wrong::NotRun),
    }
}

// A drive on a device in memory, and a queue of one lane.
fn make<R: Wait + Drop>(rt: R, alloc: Global, names: &Names) -> Option<Made<R>> {
    let limits = Limits {
        block: 1024,
        volume: MOST_BYTES,
        spool: 2048,
        time: KEY.time,
        host: None,
    };
    let device = MemDrive::new(alloc, MOST_BYTES, &[]).ok()?;
    let Ok(drive) = Drive::new(alloc, device, names.media.copy(), limits) else {
        return None;
    };
    let lanes = RuledLanes::new(rt, alloc, 1, 2).ok()?;
    let book = CloseBook::new(alloc).ok()?;
    Some(Made { drive, lanes, book })
}

// Runs the job: its line, and what it came to.
fn run<N: Naming + Send + Sync, R: Threads + Wait + Clock + Sync + Copy + Drop>(
    rt: R,
    alloc: Global,
    names: &Names,
    made: Made<R>,
) -> Option<(Line<MemDrive, N, R>, JobEnd<N, MemSpool>)>
    requires { AreNamedFor N.table 1 made × (N.time 1 ≡ 1000) }
{
    let (line, seat) = begin::<N, R>(rt, alloc, made)?;
    let job = make_job(alloc, names, &line, seat)?;
    let mut lines = list_of(alloc, line)?;
    let mut ends = run_again(rt, alloc, &lines, list_of(alloc, job)?)?;
    Some((lines.pop()?, ends.pop()?))
}

// The line of a drive that was just made, with the seat of its lane.
fn begin<N: Naming, R: Wait + Copy + Drop>(
    rt: R,
    alloc: Global,
    made: Made<R>,
) -> Option<(Line<MemDrive, N, R>, Seat<N>)>
    requires { AreNamedFor N.table 1 made × (N.time 1 ≡ 1000) }
    ensures { IfSome result (λ begun. (begun.1.no ≡ begun.0.no) × (begun.1.seat.sent ≡ [])) }
{
    let no = DriveNo::new(1)?;
    match make_line::<N, R>(rt, alloc, no, made) {
        Ok((line, seats)) => with_first(line, seats),
        Err(made) => match make_line::<N, R>(rt, alloc, no, made) {
            Ok((line, seats)) => with_first(line, seats),
            Err(_) => None,
        },
    }
}

// The line of a drive that was just made, and the seats of its lanes; if out of memory, the drive comes back.
fn make_line<N: Naming, R: Wait + Drop>(
    rt: R,
    alloc: Global,
    no: DriveNo,
    made: Made<R>,
) -> Result<(Line<MemDrive, N, R>, Vec<Seat<N>>), Made<R>>
    requires { AreNamedFor N.table no made × (N.time no ≡ 1000) }
    ensures seats { IfOk result (λ begun. (k : ℕ) (seat : SeatIs) → slice_get begun.1.items k ≡ Some seat
        → (seat.no ≡ begun.0.no) × (seat.seat.sent ≡ [])) }
    ensures err { IfErr result (λ back. back ≡ made) }
{
    let Made { drive, lanes, book } = made;
    match Line::<MemDrive, N, R>::new(rt, alloc, no, drive, lanes, book) {
        Ok(begun) => Ok(begun),
        Err(NotLined { drive, lanes, book }) => Err(Made { drive, lanes, book }),
    }
}

// A line beside one of these seats.
fn with_first<N: Naming, R: Wait + Drop>(
    line: Line<MemDrive, N, R>,
    mut seats: Vec<Seat<N>>,
) -> Option<(Line<MemDrive, N, R>, Seat<N>)>
    requires { (k : ℕ) (seat : SeatIs) → slice_get seats.items k ≡ Some seat
        → (seat.no ≡ line.no) × (seat.seat.sent ≡ []) }
    ensures { IfSome result (λ begun. (begun.1.no ≡ begun.0.no) × (begun.1.seat.sent ≡ [])) }
{
    let seat = seats.pop()?;
    Some((line, seat))
}

// The job of this lane, on whose line a volume is labelled. The worker seeks that.
fn make_job<N: Naming, R: Wait + Drop>(
    alloc: Global,
    names: &Names,
    line: &Line<MemDrive, N, R>,
    seat: Seat<N>,
) -> Option<Job<N, MemSpool>>
    requires { (seat.no ≡ line.now.no) × (seat.seat.sent ≡ []) }
{
    label_again(names, line)?;
    let recs = make_again(alloc)?;
    let ticket = Ticket::new(KEY.id)?;
    let end = LaneEnd::new(alloc, seat, MemSpool::new(alloc));
    let part = match open(alloc, names, line, ticket, end) {
        Ok(part) => part,
        Err(end) => open(alloc, names, line, ticket, end).ok()?,
    };
    Some(Job {
        line: 0,
        part,
        recs,
        moment: 0,
    })
}

// Labels a volume. A label that was refused may have left its name on the shelf, so the second one has another.
fn label_again<N: Naming, R: Wait + Drop>(
    names: &Names,
    line: &Line<MemDrive, N, R>,
) -> Option<()> {
    if label(names, line, names.volume.copy()) {
        return Some(());
    }
    if label(names, line, VolName::parse("Vol-0002").ok()?) {
        return Some(());
    }
    None
}

// Whether the volume was labelled.
fn label<N: Naming, R: Wait + Drop>(
    names: &Names,
    line: &Line<MemDrive, N, R>,
    name: VolName,
) -> bool {
    let label = Event::Label {
        drive: line.no(),
        name,
        pool: names.pool.copy(),
        media: names.media.copy(),
        moment: 0,
    };
    matches!(line.operate(label), Reply::Labelled)
}

// A session at the end of a lane, which comes back if none is opened.
fn open<N: Naming, R: Wait + Drop>(
    alloc: Global,
    names: &Names,
    line: &Line<MemDrive, N, R>,
    ticket: Ticket,
    end: LaneEnd<N, MemSpool>,
) -> Result<SessionPart<N, MemSpool>, LaneEnd<N, MemSpool>> {
    if !end.is_over() || end.no().get() != line.no().get() {
        return Err(end);
    }
    match SessionPart::open(alloc, line, end, ticket, names.job, names.pool.copy(), 0) {
        Ok(part) => Ok(part),
        Err(back) => Err(back.end),
    }
}

// Runs the jobs; once more, if it was out of memory.
fn run_again<N: Naming + Send + Sync, R: Threads + Wait + Clock + Sync + Drop>(
    rt: R,
    alloc: Global,
    lines: &[Line<MemDrive, N, R>],
    jobs: Vec<Job<N, MemSpool>>,
) -> Option<Vec<JobEnd<N, MemSpool>>> {
    match run_once(&rt, alloc, lines, jobs) {
        Ok(ends) => Some(ends),
        Err(jobs) => run_once(&rt, alloc, lines, jobs).ok(),
    }
}

fn run_once<N: Naming + Send + Sync, R: Threads + Wait + Clock + Sync + Drop>(
    rt: &R,
    alloc: Global,
    lines: &[Line<MemDrive, N, R>],
    jobs: Vec<Job<N, MemSpool>>,
) -> Result<Vec<JobEnd<N, MemSpool>>, Vec<Job<N, MemSpool>>> {
    if !have_lines(lines, &jobs) {
        return Err(jobs);
    }
    run_jobs(rt, alloc, lines, jobs, &Ungated, TURNS)
}
