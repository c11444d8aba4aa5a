// Stops of the folder while jobs run, and which sessions were told closed by then.
use sd_base::SessionKey;
use sd_filedrive::FolderDrive;
use sd_line::{DriveSide, Gate, Line, Naming, Point};
use sd_memfolder::MemoryFolder;
use sd_theorem::leave_side;
use std::alloc::Global;
use std::sync::Wait;
use std::sync::atomic::{AtomicU64, Ordering};
use std::time::{Clock, Duration};

/// The most stops of a run.
const MOST_STOPS: usize = 100;

/// What lies behind what lasted of each volume.
static TAIL: [u8; 100] = [0; 100];

/// The sessions that were told closed, as a bit each, by their tickets; and whether the jobs have ended.
#[derive(Drop)]
pub struct Progress {
    closed: AtomicU64,
    ended: AtomicU64,
}

impl Progress {
    pub fn new() -> Self {
        Progress {
            closed: AtomicU64::new(0),
            ended: AtomicU64::new(0),
        }
    }

    /// All jobs have ended.
    pub fn end(&self) {
        self.ended.store(1, Ordering::SeqCst);
    }
}

impl Gate for Progress {
    fn at(&self, point: Point, key: SessionKey) {
        if point == Point::AfterClose {
            let _ = self.closed.fetch_add(bit_of(key.id), Ordering::SeqCst);
        }
    }
}

/// The bit of a ticket.
pub fn bit_of(id: u32) -> u64 {
    1u64 << (id % 64)
}

/// What a stop left, and the bits of the sessions that were told closed before it.
#[derive(Drop)]
pub struct Stop {
    pub closed: u64,
    pub left: FolderDrive<MemoryFolder>,
}

/// Stops the folder again and again until the jobs have ended, and once behind that. None if out of memory.
pub fn stop_often<N: Naming, R: Wait + Clock + Drop>(
    rt: &R,
    alloc: Global,
    line: &Line<FolderDrive<MemoryFolder>, N, R>,
    progress: &Progress,
) -> Option<Vec<Stop>> {
    let mut stops = Vec::with_capacity(alloc, MOST_STOPS).ok()?;
    for _ in rt.forever() {
        let has_ended = progress.ended.load(Ordering::SeqCst) == 1;
        if has_ended || stops.len() < MOST_STOPS {
            stops.push(stop_now(alloc, line, progress)?).ok()?;
        }
        if has_ended {
            return Some(stops);
        }
        rt.sleep(Duration::from_millis(2));
    }
    unreachable!()
}

// Stops the folder now. Who was told closed is looked up first, so that the stop is behind that.
fn stop_now<N: Naming, R: Wait + Drop>(
    alloc: Global,
    line: &Line<FolderDrive<MemoryFolder>, N, R>,
    progress: &Progress,
) -> Option<Stop> {
    let closed = progress.closed.load(Ordering::SeqCst);
    let mut side = line.lock();
    let side: &mut DriveSide<_, N> = &mut side;
    // What is shown of closes stands.
    let token = side.show();
    let _ = side.stands(token);
    let calls = side.drive().device().folder().calls();
    let left = leave_side(alloc, side, calls, &TAIL).ok()?;
    Some(Stop { closed, left })
}
