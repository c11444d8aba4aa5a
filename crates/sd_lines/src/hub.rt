// What all talks of a daemon share.
ghost use Rattle.std.specs.Prelude.{◌≡◌, IfSome};

use crate::amount::AmountCounter;
use crate::answers::AnswerCounter;
use crate::front::Front;
use crate::receipts::Receipts;
use crate::tally::Tally;
use sd_base::{DriveNo, LaneNo, MediaName, Ticket};
use sd_board::Sent;
use sd_drive::Receipt;
use sd_driver::Driver;
use sd_line::{LaneEnd, Naming};
use sd_session::Status;
use sd_spool::SpoolStore;
use sd_stations::Station;
use std::alloc::{AllocError, Global};
use std::sync::atomic::{AtomicU64, Ordering};
use std::sync::{Condvar, Mutex, Wait};
use std::time::Clock;

/// A drive that the talks share: its station; how many records the session of each lane took; the receipts of the sessions that
/// were closed there, for whoever settles the line; and what is counted of it.
#[derive(Drop)]
pub struct Post<D: Driver, N: Naming, R: Wait + Drop> {
    pub station: Station<D, N, R>,
    /// Of the lanes 1, 2 and on.
    pub counts: Vec<AtomicU64>,
    pub receipts: Mutex<Receipts>,
    pub tally: Tally,
}

impl<D: Driver, N: Naming, R: Wait + Clock + Drop> Post<D, N, R> {
    /// Whether a volume is loaded in the drive, as that has published.
    pub(crate) fn is_loaded(&self, rt: &R) -> bool {
        self.station.loaded(rt).is_some()
    }

    /// Tells how many records the session of a lane took.
    pub(crate) fn count(&self, lane: LaneNo, records: u64) {
        if let Some(count) = self.counts.get(lane.get() as usize - 1) {
            count.store(records, Ordering::SeqCst);
        }
    }
}

/// What all talks and workers of a daemon share.
#[derive(Drop)]
pub struct Hub<D: Driver, N: Naming, R: Wait + Drop, S: SpoolStore> {
    pub rt: R,
    pub alloc: Global,
    /// The drives 1, 2 and on.
    pub posts: Vec<Post<D, N, R>>,
    /// The desk, under its lock. Nobody takes it with another lock held, but for what a drive has published nobody takes
    /// another with it held, and no device is called meanwhile.
    pub front: Mutex<Front<N, S>>,
    /// Where those wait who name a volume that somebody else is claiming. They are woken when a claiming ends.
    pub claimed: Condvar,
    /// Where those wait who open a session while other opens hold the lanes that are left. They are woken when one of these has its
    /// number, or gives its lane back, and when a session leaves its lane.
    pub numbered: Condvar,
    /// What was given back in restores.
    pub given: AmountCounter,
    /// The answers that were counted.
    pub answers: AnswerCounter,
    /// The time of the run.
    pub time: u32,
    /// Whether somebody settles the lines at the end: for him the receipts of closed sessions are kept, and lanes keep the sessions
    /// that used them.
    pub settles: bool,
}

impl<D: Driver, N: Naming, R: Wait + Clock + Drop, S: SpoolStore + Drop> Hub<D, N, R, S> {
    /// The drive of this number.
    pub(crate) fn post(&self, drive: DriveNo) -> Option<&Post<D, N, R>>
        ensures { IfSome result (λ post. post.now.station.no ≡ drive) }
    {
        let post = self.posts.get(drive.get() as usize - 1)?;
        if post.station.line().no().get() == drive.get() {
            Some(post)
        } else {
            None
        }
    }

    /// The drive of this number, if it is of this media.
    pub(crate) fn post_for(&self, drive: DriveNo, media: &MediaName) -> Option<&Post<D, N, R>>
        ensures { IfSome result (λ post. (post.now.station.no ≡ drive)
            × (post.now.station.media ≡ media.now)) }
    {
        let post = self.post(drive)?;
        if post.station.line().media().is_same(media) {
            Some(post)
        } else {
            None
        }
    }

    /// The end of a lane lies at the desk from now on, and the line of its last session says that it has this status. If nobody
    /// settles the lines, the end forgets the sessions before.
    pub(crate) fn come_back(
        &self,
        end: LaneEnd<N, S>,
        on_its_way: Option<Sent>,
        id: u32,
        status: Status,
        records: u64,
    ) {
        let mut end = end;
        if !self.settles {
            end.forget();
        }
        {
            let mut front = self.front.lock(&self.rt);
            let front: &mut Front<N, S> = &mut front;
            if let Some(ticket) = Ticket::new(id) {
                front.post(ticket, status, records);
            }
            front.rest(end, on_its_way);
        }
        self.numbered.notify_all();
    }

    /// Tells that a session has its end label, and how many records it took.
    pub(crate) fn tell_ended(&self, ticket: Ticket, records: u64) {
        let mut front = self.front.lock(&self.rt);
        let front: &mut Front<N, S> = &mut front;
        front.post(ticket, Status::Ended, records);
    }

    /// Tells how many records the session of a lane took so far. Takes no lock.
    pub(crate) fn count(&self, drive: DriveNo, lane: LaneNo, records: u64) {
        if let Some(post) = self.posts.get(drive.get() as usize - 1) {
            post.count(lane, records);
        }
    }

    /// Tells that the session of a lane took a record of so many bytes, and how many it took so far. Takes no lock.
    pub(crate) fn took(&self, drive: DriveNo, lane: LaneNo, records: u64, bytes: usize) {
        if let Some(post) = self.posts.get(drive.get() as usize - 1) {
            post.count(lane, records);
            post.tally.taken.add(bytes);
        }
    }

    /// Makes room for the receipt of a session that is to be closed at a drive, if somebody settles.
    pub(crate) fn promise_receipt(&self, drive: DriveNo) -> Result<(), AllocError> {
        if !self.settles {
            return Ok(());
        }
        match self.posts.get(drive.get() as usize - 1) {
            Some(post) => post.receipts.lock(&self.rt).promise(),
            None => Ok(()),
        }
    }

    /// Keeps the receipt of a session that was closed at a drive, if somebody settles, in the room that was made for it.
    pub(crate) fn keep(&self, drive: DriveNo, receipt: Receipt) {
        if !self.settles {
            return;
        }
        if let Some(post) = self.posts.get(drive.get() as usize - 1) {
            post.receipts.lock(&self.rt).keep(receipt);
        }
    }

    /// Gives the room back that was made for a receipt, of a session that isn't closed.
    pub(crate) fn keep_none(&self, drive: DriveNo) {
        if !self.settles {
            return;
        }
        if let Some(post) = self.posts.get(drive.get() as usize - 1) {
            post.receipts.lock(&self.rt).end_promise();
        }
    }

    /// The drive of a session.
    pub(crate) fn post_of(&self, ticket: Ticket) -> Option<&Post<D, N, R>> {
        let drive = {
            let front = self.front.lock(&self.rt);
            front.board.session(ticket)?.drive
        };
        self.post(drive)
    }

    pub(crate) fn has_session(&self, ticket: Ticket) -> bool {
        self.front.lock(&self.rt).board.session(ticket).is_some()
    }
}
