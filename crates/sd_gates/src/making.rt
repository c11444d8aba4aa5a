// Drives in memory, the lines before them, and sessions at their lanes.
ghost use Rattle.std.specs.Prelude.{◌≡◌, ◌⊎◌, ◌≤◌, ℕ, [], Some, IfSome, slice_get};
ghost use Rattle.sd_base.specs.Limits.{most_lanes};
ghost use Rattle.sd_line.specs.Named.{AreNamedFor};
ghost use Rattle.sd_line.specs.Side.{SeatIs};

use sd_base::{DriveNo, JobId, Name, Ticket};
use sd_drive::{Drive, Limits};
use sd_line::{CloseBook, LaneEnd, Line, Naming, Seat, SessionPart};
use sd_machine::{Event, Reply};
use sd_memdrive::{Fail, MemDrive};
use sd_ruled::RuledLanes;
use sd_spool::MemSpool;
use std::alloc::Global;
use std::marker::Model;
use std::sync::Wait;

// The most bytes of a volume.
const MOST_BYTES: u64 = 10_000_000;

/// The time of each run.
const TIME: u32 = 1000;

/// A drive of which no line is made yet, the queue for it and the ledger of its closes, all unused. In a contract it is the tables
/// of these two, a `TablesIs`.
#[derive(Drop)]
pub struct Made<R: Wait + Drop> {
    pub drive: Drive<MemDrive>,
    pub lanes: RuledLanes<R>,
    pub book: CloseBook<MemDrive>,
}

impl<R: Wait + Drop> Model for Made<R> {
    ghost use Rattle.std.specs.Prelude.{◌≡◌, ◌≤◌, [], None};
    ghost use Rattle.sd_base.specs.Limits.{most_lanes};
    ghost use Rattle.sd_drive.specs.Limits.{AreLimits};
    ghost use Rattle.sd_line.specs.Named.{TablesIs};

    ghost Value = { TablesIs };

    ghost view = { λ m. record { queue = m.lanes.table; book = m.book.id } };

    ghost invariant = { λ m. record {
      limits : AreLimits m.drive.limits;
      time : m.drive.limits.time ≡ 1000;
      journal : m.drive.journal ≡ [];
      hand : m.drive.hand ≡ None;
      lanes : m.lanes.lanes ≤ most_lanes;
      taken : m.lanes.taken ≡ [];
      held : m.lanes.held ≡ [];
    } };
}

/// A drive over a device whose calls fail by this plan, and a queue of so many lanes with this room.
pub fn make<R: Wait + Drop>(
    rt: R,
    alloc: Global,
    plan: &[Fail],
    spool: u64,
    lanes: u32,
    capacity: usize,
) -> Option<Made<R>>
    requires spool { (spool ≡ 0) ⊎ ((1024 ≤ spool) × (spool ≤ 1000000)) }
    requires lanes { (1 ≤ lanes) × (lanes ≤ most_lanes) × (1 ≤ capacity) }
{
    let limits = Limits {
        block: 1024,
        volume: MOST_BYTES,
        spool,
        time: TIME,
        host: None,
    };
    let device = MemDrive::new(alloc, MOST_BYTES, plan).ok()?;
    let Ok(drive) = Drive::new(alloc, device, Name::parse("File").ok()?, limits) else {
        return None;
    };
    let lanes = RuledLanes::new(rt, alloc, lanes, capacity).ok()?;
    let book = CloseBook::new(alloc).ok()?;
    Some(Made { drive, lanes, book })
}

/// The line of a drive that was just made, on which two volumes are labelled and the first is mounted.
pub fn begin_line<N: Naming, R: Wait + Drop>(
    rt: R,
    alloc: Global,
    no: DriveNo,
    made: Made<R>,
) -> Option<(Line<MemDrive, N, R>, Vec<Seat<N>>)>
    requires { AreNamedFor N.table no made × (N.time no ≡ 1000) }
    ensures { IfSome result (λ made. (k : ℕ) (seat : SeatIs) → slice_get made.1.items k ≡ Some seat
        → (seat.no ≡ made.0.no) × (seat.seat.sent ≡ [])) }
{
    let Made { drive, lanes, book } = made;
    let Ok((line, seats)) = Line::<MemDrive, N, R>::new(rt, alloc, no, drive, lanes, book) else {
        return None;
    };
    mount_all(&line)?;
    Some((line, seats))
}

// Labels two volumes and mounts the first.
fn mount_all<N: Naming, R: Wait + Drop>(line: &Line<MemDrive, N, R>) -> Option<()> {
    label(line, "Vol-0001")?;
    label(line, "Vol-0002")?;
    let name = Name::parse("Vol-0001").ok()?;
    let drive = line.no();
    let Reply::Mounted { .. } = line.operate(Event::Mount { drive, name }) else {
        return None;
    };
    Some(())
}

fn label<N: Naming, R: Wait + Drop>(line: &Line<MemDrive, N, R>, name: &str) -> Option<()> {
    let label = Event::Label {
        drive: line.no(),
        name: Name::parse(name).ok()?,
        pool: Name::parse("Default").ok()?,
        media: Name::parse("File").ok()?,
        moment: 0,
    };
    let Reply::Labelled = line.operate(label) else {
        return None;
    };
    Some(())
}

/// A session of this number at a lane that no session used.
pub fn open_first<N: Naming, R: Wait + Drop>(
    alloc: Global,
    line: &Line<MemDrive, N, R>,
    seat: Seat<N>,
    store: MemSpool,
    id: Ticket,
) -> Option<SessionPart<N, MemSpool>>
    requires { (seat.no ≡ line.now.no) × (seat.seat.sent ≡ []) }
    ensures { IfSome result (λ part. part.seat.no ≡ line.now.no) }
{
    let end = LaneEnd::new(alloc, seat, store);
    let job = JobId::new(7)?;
    let pool = Name::parse("Default").ok()?;
    SessionPart::open(alloc, line, end, id, job, pool, 0).ok()
}
