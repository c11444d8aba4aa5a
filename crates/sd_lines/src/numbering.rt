// The desk's part in an open: the choice of a lane, and the number.
ghost use Rattle.std.specs.Prelude.{◌≡◌, IfErr, IfOk};
ghost use Rattle.sd_line.specs.Ends.{LastIsOver};
ghost use Rattle.sd_lines.specs.Held.{OpenRefused};

use crate::front::Front;
use crate::hub::{Hub, Post};
use sd_base::{LaneNo, MediaName, PoolName, Refusal, Ticket};
use sd_board::{Chosen, Numbered};
use sd_driver::Driver;
use sd_line::{LaneEnd, Naming};
use sd_spool::SpoolStore;
use std::sync::Wait;
use std::time::{Clock, Duration};

// How long an open waits at once for others, in seconds. Then it looks again: a lane may be free by what a drive has placed.
const PIECE_SECONDS: u64 = 1;

/// What came of numbering a session.
#[derive(Clone, Copy, Debug, PartialEq, Eq)]
pub(crate) enum Drawn {
    /// It has its number.
    Given,
    /// Another session got that number meanwhile; this is the next one now.
    Next(Ticket),
    /// Another drive takes it now, or none does.
    Elsewhere,
    /// A volume is being mounted in its drive, and its pool is another than the drive's.
    Mounting,
    /// All numbers were given.
    NoneLeft,
    /// There is no memory for its line.
    NoRoom,
}

impl<D: Driver, N: Naming, R: Wait + Clock + Drop, S: SpoolStore + Drop> Hub<D, N, R, S> {
    /// What the desk chooses for a new session: the end of a lane of its drive, and the number that it gets if nobody else
    /// is given that meanwhile. What the drives have published is looked at while the desk's lock is held, so that nobody
    /// changes the desk in between.
    ///
    /// While other opens hold the lanes that are left for it, that is waited for, with no lock held. By the order of the numbers
    /// this session may be before those, so it isn't refused for them, and gets no worse drive. What it waits for is done at the
    /// spools of these lanes, of which it is to get one itself.
    pub(crate) fn choose(&self, pool: &PoolName, media: &MediaName) -> Result<Chosen<N, S>, Refusal>
        ensures ok { IfOk result (λ chosen. (chosen.end.seat.no ≡ chosen.drive)
            × LastIsOver chosen.end.sessions) }
        ensures err { IfErr result (λ why. OpenRefused why) }
    {
        let mut front = self.front.lock(&self.rt);
        for _look in self.rt.forever() {
            let choice = {
                let front: &mut Front<N, S> = &mut front;
                self.free_arrived(&mut front.board);
                let loaded = self.loaded();
                front.choose(&loaded, pool, media)
            };
            match choice {
                Ok(Some(chosen)) => return Ok(chosen),
                Ok(None) => {}
                Err(why) => return Err(why),
            }
            let piece = Duration::from_secs(PIECE_SECONDS);
            let (woken, _) = self.numbered.wait_timeout(&self.rt, front, piece);
            front = woken;
        }
        unreachable!()
    }

    /// Gives the session that was chosen for this lane its number, if the desk still chooses its drive, and the number is still the
    /// next one. Who waits for its lane is told.
    ///
    /// From then on its pool is the drive's for whoever mounts a volume there. So that is published before what is loaded is looked
    /// at; it isn't while a volume is being mounted that was looked at with the pool before.
    pub(crate) fn number(
        &self,
        post: &Post<D, N, R>,
        lane: LaneNo,
        pool: &PoolName,
        media: &MediaName,
        ticket: Ticket,
    ) -> Drawn {
        let drive = post.station.line().no();
        let numbered = {
            let mut front = self.front.lock(&self.rt);
            let front: &mut Front<N, S> = &mut front;
            if !post.station.numbers(&self.rt, pool) {
                return Drawn::Mounting;
            }
            self.free_arrived(&mut front.board);
            let loaded = self.loaded();
            let numbered = front.number(&loaded, pool, media, ticket, drive, lane);
            if numbered != Numbered::Given {
                post.station.was_numbered(&self.rt, front.pool(drive));
            }
            numbered
        };
        self.numbered.notify_all();
        match numbered {
            Numbered::Given => Drawn::Given,
            Numbered::Next(next) => Drawn::Next(next),
            Numbered::Elsewhere => Drawn::Elsewhere,
            Numbered::NoneLeft => Drawn::NoneLeft,
            Numbered::NoRoom => Drawn::NoRoom,
        }
    }

    /// Takes the lane of a session back that does not begin, and tells who waits for it.
    pub(crate) fn give_back(&self, end: LaneEnd<N, S>) {
        {
            let mut front = self.front.lock(&self.rt);
            let front: &mut Front<N, S> = &mut front;
            front.give_back(end);
        }
        self.numbered.notify_all();
    }
}
