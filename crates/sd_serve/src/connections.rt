// The connections that a server has open, for all its threads.
use crate::connection_table::{ConnectionTable, MOST_OPEN, Seat};
use std::alloc::{AllocError, Global};
use std::net::SocketAddr;
use std::sync::atomic::{AtomicU64, Ordering};
use std::sync::{Condvar, Mutex, Wait};
use std::time::{Clock, Duration, Instant};

/// The connections that are open. Their table has a lock of its own, which is held for a moment; the bytes that each has
/// brought and taken are counted beside it, without a lock.
#[derive(Drop)]
pub struct Connections {
    table: Mutex<ConnectionTable>,
    fewer: Condvar,
    // By the connections' places.
    bytes: Vec<AtomicU64>,
}

/// Who holds one of the places. Ages are in whole seconds, and 0 if the clock can't be read.
#[derive(Clone, Copy)]
pub struct Holder {
    pub talk: u64,
    pub peer: SocketAddr,
    pub age: u64,
    /// The session that its talk has open.
    pub session: Option<u32>,
    /// How many bytes came over the connection and went out so far.
    pub bytes: u64,
}

/// What the figures have of the connections.
#[derive(Clone, Copy)]
pub struct ConnectionFigures {
    /// How many were taken so far.
    pub taken: u64,
    /// How many are open, and how many of these have a session open.
    pub open: u64,
    pub with_session: u64,
    /// How many may be open at once.
    pub most: u64,
    /// How many seconds the oldest one is open, or 0 if none is.
    pub oldest_age: u64,
}

impl Connections {
    /// Before the first one.
    pub fn new(alloc: Global) -> Result<Self, AllocError> {
        let mut bytes = Vec::with_capacity(alloc, MOST_OPEN)?;
        for _place in 0..MOST_OPEN {
            bytes.push(AtomicU64::new(0))?;
        }
        Ok(Connections {
            table: Mutex::new(ConnectionTable::new(alloc)?),
            fewer: Condvar::new(),
            bytes,
        })
    }

    /// Waits so long at most until there are fewer than there may be. Whether there are.
    pub(crate) fn have_room<R: Wait + Clock>(&self, rt: &R, most: Duration) -> bool {
        let (table, _) = self
            .fewer
            .wait_timeout_while(rt, self.table.lock(rt), most, |table| {
                table.len() >= MOST_OPEN
            });
        table.len() < MOST_OPEN
    }

    /// One more is open, unless there are as many as there may be.
    pub(crate) fn begin<R: Wait + Clock>(&self, rt: &R, peer: SocketAddr) -> Option<Seat> {
        let since = Instant::now(rt).ok();
        let mut table = self.table.lock(rt);
        let seat = table.begin(peer, since)?;
        if let Some(bytes) = self.bytes.get(seat.place) {
            bytes.store(0, Ordering::SeqCst);
        }
        Some(seat)
    }

    /// One of them has ended.
    pub(crate) fn end<R: Wait>(&self, rt: &R, seat: Seat) {
        let mut table = self.table.lock(rt);
        table.end(seat);
        self.fewer.notify_all();
    }

    /// The talk has this session open, or none any more.
    pub(crate) fn set_session<R: Wait>(&self, rt: &R, seat: Seat, session: Option<u32>) {
        let mut table = self.table.lock(rt);
        table.set_session(seat, session);
    }

    /// So many bytes more came over the connection or went out.
    pub(crate) fn add_bytes(&self, seat: Seat, count: usize) {
        if let Some(bytes) = self.bytes.get(seat.place) {
            bytes.fetch_add(count as u64, Ordering::SeqCst);
        }
    }

    /// What the figures have of them.
    pub fn figures<R: Wait + Clock>(&self, rt: &R) -> ConnectionFigures {
        let now = Instant::now(rt).ok();
        let table = self.table.lock(rt);
        let table: &ConnectionTable = &table;
        let oldest_age = match table.oldest_after(0) {
            Some((_place, oldest)) => age_of(oldest.since, now),
            None => 0,
        };
        ConnectionFigures {
            taken: table.last(),
            open: table.len() as u64,
            with_session: table.with_session() as u64,
            most: MOST_OPEN as u64,
            oldest_age,
        }
    }

    /// Who holds the place that was taken first of those that were taken after this talk's.
    pub fn holder_after<R: Wait + Clock>(&self, rt: &R, talk: u64) -> Option<Holder> {
        let now = Instant::now(rt).ok();
        let table = self.table.lock(rt);
        let (place, oldest) = table.oldest_after(talk)?;
        let bytes = match self.bytes.get(place) {
            Some(bytes) => bytes.load(Ordering::SeqCst),
            None => 0,
        };
        Some(Holder {
            talk: oldest.talk,
            peer: oldest.peer,
            age: age_of(oldest.since, now),
            session: oldest.session,
            bytes,
        })
    }
}

// How many seconds went by.
fn age_of(since: Option<Instant>, now: Option<Instant>) -> u64 {
    match (since, now) {
        (Some(since), Some(now)) => now.duration_since(since).as_secs(),
        _ => 0,
    }
}
