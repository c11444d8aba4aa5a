// Gates that hold threads until others have come somewhere.
use sd_base::SessionKey;
use sd_line::{Gate, Point};
use std::sync::atomic::{AtomicU64, Ordering};
use std::thread;
use std::time::Duration;

/// How often a thread looks that is held, a millisecond apart, before it gives up.
const MOST_TURNS: u32 = 10_000;

/// Nobody is held anywhere.
pub struct Open;

impl Gate for Open {
    fn at(&self, _point: Point, _key: SessionKey) {}
}

/// A point, with sessions of these numbers.
#[derive(Clone, Copy, Debug)]
pub struct Place {
    pub point: Point,
    pub least: u32,
    pub most: u32,
}

impl Place {
    fn is(&self, point: Point, key: SessionKey) -> bool {
        self.point == point && self.least <= key.id && key.id <= self.most
    }
}

/// Holds each thread that comes to one place until so many times another was come to.
#[derive(Drop)]
pub struct Hold {
    pub rt: HostRuntime,
    pub held: Place,
    pub until: Place,
    pub times: u64,
    pub came: AtomicU64,
    pub gave_up: AtomicU64,
}

impl Hold {
    pub fn new(rt: HostRuntime, held: Place, until: Place, times: u64) -> Self {
        Hold {
            rt,
            held,
            until,
            times,
            came: AtomicU64::new(0),
            gave_up: AtomicU64::new(0),
        }
    }

    /// Whether the other place was come to so often, and no thread waited so long that it went on unasked.
    pub fn held_well(&self) -> bool {
        self.is_open() && self.gave_up.load(Ordering::SeqCst) == 0
    }

    fn is_open(&self) -> bool {
        self.came.load(Ordering::SeqCst) >= self.times
    }

    fn wait(&self) {
        for _turn in 0..MOST_TURNS {
            if self.is_open() {
                return;
            }
            thread::sleep(&self.rt, Duration::from_millis(1));
        }
        self.gave_up.store(1, Ordering::SeqCst);
    }
}

impl Gate for Hold {
    fn at(&self, point: Point, key: SessionKey) {
        if self.until.is(point, key) {
            self.came.fetch_add(1, Ordering::SeqCst);
        }
        if self.held.is(point, key) {
            self.wait();
        }
    }
}
