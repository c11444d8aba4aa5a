// A line that labels a volume or takes one over claims its name, until it is answered; and so does a start for those that it has.
ghost use Rattle.std.specs.Prelude.{◌≡◌, ◌⊎◌, IfErr};
ghost use Rattle.sd_base.specs.declared.refusal.Refusal.TheVariants.{AlreadyLabelled, Memory};

use crate::front::Front;
use crate::hub::{Hub, Post};
use crate::noting::is_done;
use sd_base::{DriveNo, Refusal, VolName};
use sd_board::{Claiming, VolumePlace};
use sd_driver::Driver;
use sd_line::Naming;
use sd_machine::Reply;
use sd_spool::SpoolStore;
use std::sync::Wait;
use std::time::Clock;

impl<D: Driver, N: Naming, R: Wait + Clock + Drop, S: SpoolStore + Drop> Hub<D, N, R, S> {
    /// Claims a name for a drive, before any thread shares the hub. Refused if it is claimed, or if out of memory.
    pub fn claim_volume(&mut self, name: &VolName, drive: DriveNo) -> Result<(), Refusal>
        ensures { IfErr result (λ why. (why ≡ AlreadyLabelled) ⊎ (why ≡ Memory)) }
    {
        self.front.get_mut().claim(name, drive)
    }

    /// Begins to claim a name for a drive, until `end_claim`. While somebody else is claiming it, that is waited for, with
    /// no lock held: the name may be claimed then or free. Refused if it is claimed, or if out of memory.
    pub(crate) fn begin_claim(&self, name: &VolName, drive: DriveNo) -> Result<(), Refusal> {
        let mut front = self.front.lock(&self.rt);
        for _look in self.rt.forever() {
            let claiming = {
                let front: &mut Front<N, S> = &mut front;
                front.board.begin_claim(name, drive)
            };
            match claiming {
                Claiming::Begun => return Ok(()),
                Claiming::Taken => return Err(Refusal::AlreadyLabelled),
                Claiming::Memory => return Err(Refusal::Memory),
                Claiming::UnderWay => front = self.claimed.wait(&self.rt, front),
            }
        }
        unreachable!()
    }

    /// Ends the claiming of a name, whose event had this reply at its drive: it is claimed if that was done, and else free
    /// again. Wakes those who wait for that. If the drive waits no longer, its request goes. Comes before the answer, so who
    /// learns of that finds the name so.
    pub(crate) fn end_claim(&self, post: &Post<D, N, R>, name: &VolName, reply: &Reply) {
        {
            let mut front = self.front.lock(&self.rt);
            let front: &mut Front<N, S> = &mut front;
            front.board.end_claim(name, is_done(reply));
            self.end_request(post, front);
        }
        self.claimed.notify_all();
    }

    /// The drive at which the volume of a name is. A name that is being claimed counts as soon as its drive has published
    /// the volume: then whoever asked for the status may know of it.
    pub(crate) fn drive_of(&self, name: &VolName) -> Result<Option<DriveNo>, Refusal>
        ensures { IfErr result (λ why. why ≡ Memory) }
    {
        let place = self.front.lock(&self.rt).board.place_of(name);
        match place {
            VolumePlace::Nowhere => Ok(None),
            VolumePlace::At(drive) => Ok(Some(drive)),
            VolumePlace::Coming(drive) => self.has_published(drive, name),
        }
    }

    // The drive, if it has published a volume of this name.
    fn has_published(&self, drive: DriveNo, name: &VolName) -> Result<Option<DriveNo>, Refusal>
        ensures { IfErr result (λ why. why ≡ Memory) }
    {
        let Some(post) = self.post(drive) else {
            return Ok(None);
        };
        let Ok(rows) = post.station.rows(&self.rt, self.alloc) else {
            return Err(Refusal::Memory);
        };
        for row in &rows {
            if row.name.is_same(name) {
                return Ok(Some(drive));
            }
        }
        Ok(None)
    }
}
