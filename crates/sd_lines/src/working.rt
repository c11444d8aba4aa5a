// The workers of a daemon's drives, and what these ask for.
use crate::front::Front;
use crate::hub::{Hub, Post};
use sd_base::PoolName;
use sd_desk::Request;
use sd_driver::Driver;
use sd_line::Naming;
use sd_spool::SpoolStore;
use sd_stations::Worked;
use std::alloc::AllocError;
use std::sync::Wait;
use std::time::Clock;

impl<D: Driver, N: Naming, R: Wait + Clock + Drop, S: SpoolStore + Drop> Hub<D, N, R, S> {
    /// Waits until a drive has something to do, and does it. What volume the drive needs is noted at the desk, and taken away
    /// again once one is mounted, or nobody needs one any more. If it was noted before, a turn is reported. What the worker told
    /// is counted.
    pub fn work(&self, post: &Post<D, N, R>) -> Worked {
        let worked = match post.station.work(&self.rt) {
            Worked::NeedsVolume(pool) => self.ask(post, pool),
            worked => worked,
        };
        if let Worked::Mounted(_) | Worked::NeedsNone = &worked {
            self.look_at_request(post);
        }
        post.tally.worked(&self.rt, &worked);
        worked
    }

    // Notes the request of a drive, if it waits still. If out of memory, it is noted once the drive seeks again.
    fn ask(&self, post: &Post<D, N, R>, pool: PoolName) -> Worked {
        let line = post.station.line();
        let request = Request {
            drive: line.no(),
            pool: pool.copy(),
            media: line.media().copy(),
        };
        let mut front = self.front.lock(&self.rt);
        let front: &mut Front<N, S> = &mut front;
        if !post.station.is_waiting(&self.rt) {
            return Worked::Turned;
        }
        let noted = front.board.requests().len();
        let _ = front.board.ask(request);
        if front.board.requests().len() > noted {
            Worked::NeedsVolume(pool)
        } else {
            Worked::Turned
        }
    }

    /// Takes the drive's request away, unless it waits, as it has published. Who mounted a volume for it comes here before
    /// that is answered; another volume may have become full since.
    pub(crate) fn look_at_request(&self, post: &Post<D, N, R>) {
        let mut front = self.front.lock(&self.rt);
        let front: &mut Front<N, S> = &mut front;
        self.end_request(post, front);
    }

    /// So, with the desk's lock held.
    pub(crate) fn end_request(&self, post: &Post<D, N, R>, front: &mut Front<N, S>) {
        if !post.station.is_waiting(&self.rt) {
            front.board.answered(post.station.line().no());
        }
    }

    /// The requests of the drives that wait, in the order in which they asked.
    pub(crate) fn requests(&self) -> Result<Vec<Request>, AllocError> {
        let front = self.front.lock(&self.rt);
        let mut requests = Vec::with_capacity(self.alloc, front.board.requests().len())?;
        for request in front.board.requests() {
            if self.waits(request) {
                requests.push(copy_of(request))?;
            }
        }
        Ok(requests)
    }

    // Whether the drive of a request waits.
    fn waits(&self, request: &Request) -> bool {
        match self.post(request.drive) {
            Some(post) => post.station.is_waiting(&self.rt),
            None => false,
        }
    }

    /// Tells the workers that no talk comes any more.
    pub fn close(&self) {
        for post in &self.posts {
            post.station.close(&self.rt);
        }
    }
}

// The same once more.
fn copy_of(request: &Request) -> Request {
    Request {
        drive: request.drive,
        pool: request.pool.copy(),
        media: request.media.copy(),
    }
}
