// Jobs at one line come back: what their parts took before, and then what was given to them.
ghost use Rattle.std.specs.Prelude.{◌≡◌, ℕ, [], Some, IfSome, slice_get};
ghost use Rattle.sd_line.specs.Named.{AreNamedFor};
ghost use Rattle.sd_line.specs.Side.{SeatIs};

use crate::back::{JobBack, ReadBack};
use crate::returned::jobs_come_back;
use sd_base::{Bytes, DriveNo, JobId, Name, Rec, SessionKey, Ticket};
use sd_drive::{Drive, Limits};
use sd_jobs::Job;
use sd_line::{CloseBook, Gate, LaneEnd, Line, Naming, Point, Seat, SessionPart, Stop};
use sd_machine::{Event, Reply};
use sd_memdrive::MemDrive;
use sd_ruled::RuledLanes;
use sd_spool::MemSpool;
use std::alloc::Global;
use std::marker::{Brand, Model};
use std::sync::Wait;
use std::test::*;
use std::thread::Threads;
use std::time::Clock;

// How many records a part takes before its job has it, and how many in all.
const EARLIER: u32 = 2;

const ALL: u32 = 30;

// Nobody is held anywhere.
struct Open;

impl Gate for Open {
    fn at(&self, _point: Point, _key: SessionKey) {}
}

// A drive of which no line is made yet, the queue for it and the ledger of its closes, all unused. In a contract it is the tables
// of these two, a `TablesIs`.
#[derive(Drop)]
struct Made<R: Wait + Drop> {
    drive: Drive<MemDrive>,
    lanes: RuledLanes<R>,
    book: CloseBook<MemDrive>,
}

impl<R: Wait + Drop> Model for Made<R> {
    ghost use Rattle.std.specs.Prelude.{◌≡◌, ◌≤◌, [], None};
    ghost use Rattle.sd_base.specs.Limits.{most_lanes};
    ghost use Rattle.sd_drive.specs.Limits.{AreLimits};
    ghost use Rattle.sd_line.specs.Named.{TablesIs};

    ghost Value = { TablesIs };

    ghost view = { λ m. record { queue = m.lanes.table; book = m.book.id } };

    ghost invariant = { λ m. record {
      limits : AreLimits m.drive.limits;
      time : m.drive.limits.time ≡ 1000;
      journal : m.drive.journal ≡ [];
      hand : m.drive.hand ≡ None;
      lanes : m.lanes.lanes ≤ most_lanes;
      taken : m.lanes.taken ≡ [];
      held : m.lanes.held ≡ [];
    } };
}

// A drive that doesn't spool, and a queue of three lanes with room for two pieces.
fn make<R: Wait + Drop>(rt: R, alloc: Global) -> Option<Made<R>> {
    let limits = Limits {
        block: 1024,
        volume: 10_000_000,
        spool: 0,
        time: 1000,
        host: None,
    };
    let device = MemDrive::new(alloc, limits.volume, &[]).ok()?;
    let Ok(drive) = Drive::new(alloc, device, Name::parse("File").ok()?, limits) else {
        return None;
    };
    let lanes = RuledLanes::new(rt, alloc, 3, 2).ok()?;
    let book = CloseBook::new(alloc).ok()?;
    Some(Made { drive, lanes, book })
}

// The line of a drive that was just made, with a volume that is mounted.
fn begin_line<N: Naming, R: Wait + Drop>(
    rt: R,
    alloc: Global,
    no: DriveNo,
    made: Made<R>,
) -> Option<(Line<MemDrive, N, R>, Vec<Seat<N>>)>
    requires { AreNamedFor N.table no made × (N.time no ≡ 1000) }
    ensures { IfSome result (λ made. (k : ℕ) (seat : SeatIs) → slice_get made.1.items k ≡ Some seat
        → (seat.no ≡ made.0.no) × (seat.seat.sent ≡ [])) }
{
    let Made { drive, lanes, book } = made;
    let Ok((line, seats)) = Line::<MemDrive, N, R>::new(rt, alloc, no, drive, lanes, book) else {
        return None;
    };
    mount(&line)?;
    Some((line, seats))
}

fn mount<N: Naming, R: Wait + Drop>(line: &Line<MemDrive, N, R>) -> Option<()> {
    let drive = line.no();
    let label = Event::Label {
        drive,
        name: Name::parse("Vol-0001").ok()?,
        pool: Name::parse("Default").ok()?,
        media: Name::parse("File").ok()?,
        moment: 0,
    };
    let Reply::Labelled = line.operate(label) else {
        return None;
    };
    let name = Name::parse("Vol-0001").ok()?;
    let Reply::Mounted { .. } = line.operate(Event::Mount { drive, name }) else {
        return None;
    };
    Some(())
}

// A job for each of these lanes, at the first line.
fn make_jobs<N: Naming, R: Wait + Drop>(
    alloc: Global,
    line: &Line<MemDrive, N, R>,
    seats: Vec<Seat<N>>,
) -> Option<Vec<Job<N, MemSpool>>>
    requires { (k : ℕ) (seat : SeatIs) → slice_get seats.items k ≡ Some seat
        → (seat.no ≡ line.now.no) × (seat.seat.sent ≡ []) }
{
    let mut jobs = Vec::new(alloc);
    for seat in seats {
        jobs.push(make_job(alloc, line, seat)?).ok()?;
    }
    Some(jobs)
}

// The job of a lane that no session used, whose part took the first records.
fn make_job<N: Naming, R: Wait + Drop>(
    alloc: Global,
    line: &Line<MemDrive, N, R>,
    seat: Seat<N>,
) -> Option<Job<N, MemSpool>>
    requires { (seat.no ≡ line.now.no) × (seat.seat.sent ≡ []) }
{
    let id = seat.lane().get();
    let end = LaneEnd::new(alloc, seat, MemSpool::new(alloc));
    let pool = Name::parse("Default").ok()?;
    let ticket = Ticket::new(id)?;
    let mut part = SessionPart::open(alloc, line, end, ticket, JobId::new(7)?, pool, 0).ok()?;
    for index in 0..EARLIER {
        part.append(&record(alloc, id, index)?).ok()?;
    }
    let mut recs = Vec::new(alloc);
    for index in EARLIER..ALL {
        recs.push(record(alloc, id, index)?).ok()?;
    }
    Some(Job {
        line: 0,
        part,
        recs,
        moment: 0,
    })
}

// How long the record after so many of this session is, and of which byte it is.
fn shape(id: u32, before: u32) -> (usize, u8) {
    let drawn = id.wrapping_mul(97).wrapping_add(before.wrapping_mul(61));
    ((drawn % 900) as usize, (drawn & 0xff) as u8)
}

fn record(alloc: Global, id: u32, before: u32) -> Option<Rec> {
    let (size, byte) = shape(id, before);
    let bytes = vec![in alloc; byte; size].ok()?;
    Rec::new(before.wrapping_add(1), 2, Bytes::from_vec(bytes))
}

// Whether this is that record.
fn is_record(rec: &Rec, id: u32, before: u32) -> bool {
    let (size, byte) = shape(id, before);
    let mut same = rec.index == before.wrapping_add(1) && rec.bytes.len() == size;
    for one in rec.bytes.as_slice() {
        same = same && *one == byte;
    }
    same
}

// Whether the session was read to all its records, each once and in order, and to its end.
fn is_whole(read: &ReadBack) -> bool {
    let Ok(end) = &read.end else {
        return false;
    };
    if !end.ended || read.recs.len() != ALL as usize {
        return false;
    }
    for before in 0..ALL {
        let Some(rec) = read.recs.get(before as usize) else {
            return false;
        };
        if !is_record(rec, read.key.id, before) {
            return false;
        }
    }
    true
}

// How many came back whole; none if something came back of one that wasn't done, or that spools.
fn count(backs: &[JobBack]) -> Option<u32> {
    let mut whole: u32 = 0;
    for back in backs {
        if back.spools || back.read.is_some() != (back.stop == Stop::Done) {
            return None;
        }
        if let Some(read) = &back.read
            && is_whole(read)
        {
            whole = whole.wrapping_add(1);
        }
    }
    Some(whole)
}

fn play_with<N: Naming + Send + Sync, R: Threads + Wait + Clock + Sync + Copy + Drop>(
    rt: R,
    alloc: Global,
    made: Made<R>,
    turns: u64,
) -> Option<u32>
    requires { AreNamedFor N.table 1 made × (N.time 1 ≡ 1000) }
{
    let (line, seats) = begin_line::<N, R>(rt, alloc, DriveNo::new(1)?, made)?;
    let jobs = make_jobs(alloc, &line, seats)?;
    let backs = jobs_come_back(&rt, alloc, line, jobs, &Open, turns)?;
    count(&backs)
}

fn play<R: Threads + Wait + Clock + Sync + Copy + Drop>(
    rt: R,
    alloc: Global,
    turns: u64,
) -> Option<u32> {
    let made = make(rt, alloc)?;
    play_with::<Brand, R>(rt, alloc, made, turns)
}

// All three come back; with no turn none does, as none is done.
#[test]
fn jobs_are_back(rt: HostRuntime) {
    for (turns, whole) in [(1_000_000, 3), (0, 0)] {
        assert_eq!(rt; play(rt, rt.alloc(), turns), Some(whole), "{turns}");
    }
}
