// What an open has to know of the drives: which lanes are free again, and what is loaded where.
use crate::front::{DRIVES, Front};
use crate::hub::{Hub, Post};
use sd_base::{LaneNo, MOST_LANES, PoolName};
use sd_board::Board;
use sd_driver::Driver;
use sd_line::Naming;
use sd_spool::SpoolStore;
use std::array;
use std::sync::Wait;
use std::time::Clock;

impl<D: Driver, N: Naming, R: Wait + Clock + Drop, S: SpoolStore + Drop> Hub<D, N, R, S> {
    /// Frees each lane whose last session was given up or failed, once all that it sent is placed, as its drive has
    /// published. No drive's lock is taken.
    pub(crate) fn free_arrived(&self, board: &mut Board<N, S>) {
        for post in &self.posts {
            self.free_at(post, board);
        }
    }

    // Frees those of a drive.
    fn free_at(&self, post: &Post<D, N, R>, board: &mut Board<N, S>) {
        for lane in 1..=MOST_LANES {
            if lane as usize > post.counts.len() {
                break;
            }
            if let Some(lane) = LaneNo::new(lane) {
                self.look_at(post, lane, board);
            }
        }
    }

    // Looks at one lane. Who sent what is on its way is compared when the lane is freed, so another session's stays.
    fn look_at(&self, post: &Post<D, N, R>, lane: LaneNo, board: &mut Board<N, S>) {
        let drive = post.station.line().no();
        let Some(sent) = board.on_its_way(drive, lane) else {
            return;
        };
        if post.station.has_placed(&self.rt, sent.key, sent.sent) {
            board.arrived(drive, lane, sent);
        }
    }

    /// How many lanes of a drive are free.
    pub(crate) fn free_lanes(&self, post: &Post<D, N, R>) -> u64 {
        let mut front = self.front.lock(&self.rt);
        let front: &mut Front<N, S> = &mut front;
        self.free_at(post, &mut front.board);
        let busy = front.board.busy(post.station.line().no());
        (post.counts.len() as u64).saturating_sub(u64::from(busy))
    }

    /// The pools of the volumes that are loaded in the drives, as these have published.
    pub(crate) fn loaded(&self) -> [Option<PoolName>; DRIVES] {
        let mut pools = array::from_fn(|_| None);
        for at in 0..DRIVES {
            if let Some(post) = self.posts.get(at) {
                pools[at] = post.loaded_pool(&self.rt);
            }
        }
        pools
    }
}

impl<D: Driver, N: Naming, R: Wait + Clock + Drop> Post<D, N, R> {
    // The pool of the volume that is loaded in the drive.
    fn loaded_pool(&self, rt: &R) -> Option<PoolName> {
        let row = self.station.loaded(rt)?;
        Some(row.pool)
    }
}
