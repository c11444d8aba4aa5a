// Drives come to a hub.
ghost use Rattle.sd_lines.specs.Unused.{IsNamed};

use crate::amount::AmountCounter;
use crate::answers::AnswerCounter;
use crate::front::Front;
use crate::hub::{Hub, Post};
use crate::receipts::Receipts;
use crate::tally::Tally;
use crate::unused::UnusedDrive;
use sd_base::DriveNo;
use sd_board::Board;
use sd_driver::Driver;
use sd_line::{LaneEnd, Line, Naming};
use sd_spool::SpoolStore;
use sd_stations::Station;
use std::alloc::{AllocError, Global};
use std::sync::atomic::AtomicU64;
use std::sync::{Condvar, Mutex, Wait};
use std::time::Clock;

/// Why a drive does not come to a hub.
#[derive(Clone, Copy, Debug, PartialEq, Eq)]
pub enum AddFault {
    /// It has another number than the next one, or there are as many as there may be.
    NotNext,
    /// Out of memory, or there are fewer stores than lanes.
    Memory,
}

impl<D: Driver + Drop, N: Naming, R: Wait + Clock + Drop, S: SpoolStore + Drop> Hub<D, N, R, S> {
    /// A hub without drives, in the run of this time.
    pub fn new(rt: R, alloc: Global, time: u32, settles: bool) -> Self {
        Hub {
            rt,
            alloc,
            posts: Vec::new(alloc),
            front: Mutex::new(Front::new(Board::new(alloc))),
            claimed: Condvar::new(),
            numbered: Condvar::new(),
            given: AmountCounter::new(),
            answers: AnswerCounter::new(),
            time,
            settles,
        }
    }

    /// The drive of this number, which is the next, comes to the hub, with the stores of its lanes' spools. The volumes that it
    /// adopted are published.
    pub fn add_drive(
        &mut self,
        no: DriveNo,
        drive: UnusedDrive<D, R>,
        stores: Vec<S>,
    ) -> Result<(), AddFault>
    where
        R: Copy,
        requires { IsNamed N.table N.time no drive }
    {
        if no.get() as usize != self.posts.len() + 1 {
            return Err(AddFault::NotNext);
        }
        let Some((line, ends)) = drive.begin::<N, S>(self.rt, self.alloc, no, stores) else {
            return Err(AddFault::Memory);
        };
        let Ok(post) = new_post(self.alloc, line, ends.len()) else {
            return Err(AddFault::Memory);
        };
        let Ok(()) = post.station.publish(&self.rt) else {
            return Err(AddFault::Memory);
        };
        add_lanes(self.front.get_mut(), &post, ends)?;
        match self.posts.push(post) {
            Ok(()) => Ok(()),
            Err(_) => Err(AddFault::Memory),
        }
    }
}

// The drive of a line, of which no lane was used.
fn new_post<D: Driver + Drop, N: Naming, R: Wait + Clock + Drop>(
    alloc: Global,
    line: Line<D, N, R>,
    lanes: usize,
) -> Result<Post<D, N, R>, AllocError> {
    let mut counts = Vec::with_capacity(alloc, lanes)?;
    for _lane in 0..lanes {
        counts.push(AtomicU64::new(0))?;
    }
    Ok(Post {
        station: Station::new(alloc, line),
        counts,
        receipts: Mutex::new(Receipts::new(alloc)),
        tally: Tally::new(alloc),
    })
}

// The ends of the lanes of the next drive come to the desk.
fn add_lanes<D: Driver + Drop, N: Naming, R: Wait + Clock + Drop, S: SpoolStore + Drop>(
    front: &mut Front<N, S>,
    post: &Post<D, N, R>,
    ends: Vec<LaneEnd<N, S>>,
) -> Result<(), AddFault> {
    if !front.board.are_next(&ends) {
        return Err(AddFault::NotNext);
    }
    let media = post.station.line().media().copy();
    match front.board.add_drive(media, ends) {
        Ok(()) => Ok(()),
        Err(_) => Err(AddFault::Memory),
    }
}
