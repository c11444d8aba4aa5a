// What a daemon counts of itself, for whoever watches it.
use crate::amount::Amount;
use crate::answers::{RefusedJobs, Tries};
use crate::hub::{Hub, Post};
use crate::standings::Standings;
use crate::tally::VolumeFaults;
use sd_base::DriveNo;
use sd_driver::Driver;
use sd_line::Naming;
use sd_spool::SpoolStore;
use sd_stations::Metered;
use std::alloc::AllocError;
use std::sync::Wait;
use std::time::Clock;

/// The figures of a daemon. Each of them was read for itself, so while others go on they are no moment's.
#[derive(Drop)]
pub struct Figures {
    pub drives: Vec<DriveFigures>,
    pub sessions: Standings,
    /// The jobs that were refused, for each cause.
    pub refused_jobs: [RefusedJobs; 5],
    /// The volumes that operators labelled, and those that they took over.
    pub labels: Tries,
    pub adoptions: Tries,
    /// What was given back in restores.
    pub given: Amount,
}

/// The figures of a drive.
#[derive(Drop)]
pub struct DriveFigures {
    pub drive: DriveNo,
    /// What its sessions took from clients.
    pub taken: Amount,
    pub metered: Metered,
    /// How many pieces lie in the queue before it.
    pub queued: u64,
    pub free_lanes: u64,
    /// How often it had to ask for a volume, and whether it waits for one now.
    pub waits: u64,
    pub is_waiting: bool,
    /// How many volumes became full there.
    pub full: u64,
    /// The volumes with which its device failed.
    pub faults: Vec<VolumeFaults>,
    /// The volumes that couldn't be loaded when it needed them.
    pub load_faults: Vec<VolumeFaults>,
}

impl<D: Driver, N: Naming, R: Wait + Clock + Drop, S: SpoolStore + Drop> Hub<D, N, R, S> {
    /// The figures as they are now. No lock of a drive is taken, since a sync may hold that for long: the desk's, those of what
    /// is published of the drives, the stations' watches and those of the faults are, each for a moment.
    pub fn figures(&self) -> Result<Figures, AllocError> {
        let mut drives = Vec::with_capacity(self.alloc, self.posts.len())?;
        for post in &self.posts {
            let figures = self.figures_of(post)?;
            drives.push(figures)?;
        }
        Ok(Figures {
            drives,
            sessions: self.front.lock(&self.rt).standings(),
            refused_jobs: self.answers.refused_jobs(),
            labels: self.answers.labels.tries(),
            adoptions: self.answers.adoptions.tries(),
            given: self.given.amount(),
        })
    }

    // Those of a drive.
    fn figures_of(&self, post: &Post<D, N, R>) -> Result<DriveFigures, AllocError> {
        let faults = post.tally.faults(&self.rt, self.alloc)?;
        let load_faults = post.tally.load_faults(&self.rt, self.alloc)?;
        let backlog = post.station.backlog(&self.rt);
        Ok(DriveFigures {
            drive: post.station.line().no(),
            taken: post.tally.taken.amount(),
            metered: post.station.metered(),
            queued: backlog.queued,
            free_lanes: self.free_lanes(post),
            waits: post.tally.waits(),
            is_waiting: post.station.is_waiting(&self.rt),
            full: post.tally.full(),
            faults,
            load_faults,
        })
    }
}
