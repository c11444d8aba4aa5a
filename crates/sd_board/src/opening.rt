// A session gets its drive and its lane, and then its number.
ghost use Rattle.std.specs.Prelude.{◌≡◌, IfErr, IfNone, IfOk, IfSome, OnErr, OnOk, None};
ghost use Rattle.sd_line.specs.Ends.{LastIsOver};
ghost use Rattle.sd_board.specs.Board.{MayRest, Rests};
ghost use Rattle.sd_board.specs.Lines.{promised_less};
ghost use Rattle.sd_board.specs.Opening.{ChoosesLane, ChoosesLater, ChoosesNone, Numbers};
ghost use Rattle.sd_board.specs.Slots.{numbered_at};

use crate::board::Board;
use crate::choosing::{choose, is_choice};
use crate::lines::Numbered;
use crate::place::drive_place;
use crate::resting::rest_in;
use crate::seen::DriveSeen;
use sd_base::{DriveNo, LaneNo, MediaName, PoolName, Refusal, Ticket};
use sd_line::{LaneEnd, Naming};
use sd_spool::SpoolStore;
use std::alloc::AllocError;

/// What was chosen for a new session: the end of a lane of its drive; and the number that it gets, if nobody else is
/// given that meanwhile.
#[derive(Drop)]
pub struct Chosen<N: Naming, S: SpoolStore> {
    pub ticket: Ticket,
    pub drive: DriveNo,
    pub end: LaneEnd<N, S>,
}

impl<N: Naming, S: SpoolStore + Drop> Board<N, S> {
    /// Chooses the lane of a new session of this pool and media: the lowest free one of the drive that takes it, by what was seen
    /// of each drive, and by its sessions that have a number. The lane is held from then on, and there is room for the session's
    /// line. No number is given yet. The refusals, in this order: no session number is left; no drive of the media; no free lane;
    /// out of memory. A refused session changes nothing.
    ///
    /// `None` if other opens hold all lanes of that drive that aren't busy: whether one of them is left is known once one of these
    /// opens has its number, or has given its lane back. Nothing changes then either.
    pub fn choose(
        &mut self,
        seen: &[DriveSeen],
        pool: &PoolName,
        media: &MediaName,
    ) -> Result<Option<Chosen<N, S>>, Refusal>
        ensures ok { IfOk result (λ choice. IfSome choice (λ chosen. ChoosesLane self.old seen.now
            pool.now media.now chosen.ticket chosen.drive chosen.end self.new)) }
        ensures home { IfOk result (λ choice. IfSome choice (λ chosen.
            (chosen.end.seat.no ≡ chosen.drive) × LastIsOver chosen.end.sessions)) }
        ensures later { IfOk result (λ choice. IfNone choice
            (ChoosesLater self.old seen.now pool.now media.now × (self.new ≡ self.old))) }
        ensures why { IfErr result
            (λ why. ChoosesNone self.old seen.now pool.now media.now why) }
        ensures err { OnErr result (self.new ≡ self.old) }
    {
        let Some(ticket) = self.lines.next() else {
            return Err(Refusal::NoSessionNumberLeft);
        };
        let drive = match choose(&self.drives, seen, pool, media) {
            Ok(drive) => drive,
            Err(why) => return Err(why),
        };
        let place = drive_place(drive);
        if !self.drives[place].has_free() {
            return Ok(None);
        }
        if let Err(AllocError) = self.lines.promise() {
            return Err(Refusal::Memory);
        }
        let lanes = &mut self.drives[place];
        let end = lanes.take_lowest();
        Ok(Some(Chosen { ticket, drive, end }))
    }

    /// Gives a session of this pool and media its number, for which a lane of this drive was chosen, if by what is seen of each
    /// drive now that drive takes it still, and if the number is still the one that comes next: its line comes after the others,
    /// and its lane is held no longer. Takes no memory while a line is promised.
    pub fn number(
        &mut self,
        seen: &[DriveSeen],
        pool: &PoolName,
        media: &MediaName,
        ticket: Ticket,
        drive: DriveNo,
        lane: LaneNo,
    ) -> Numbered
        ensures { Numbers result self.old seen.now pool.now media.now ticket drive lane self.new }
    {
        if !is_choice(&self.drives, seen, pool, media, drive) {
            return Numbered::Elsewhere;
        }
        let numbered = self.lines.give(ticket, drive, lane);
        if let Numbered::Given = numbered {
            self.hold_no_more(drive, lane);
        }
        numbered
    }

    // Nobody holds the lane any more.
    fn hold_no_more(&mut self, drive: DriveNo, lane: LaneNo)
        ensures { self.new ≡ record self.old {
          drives = numbered_at drive lane self.old.drives;
        } }
    {
        let place = drive_place(drive);
        if place >= self.drives.len() {
            return;
        }
        let lanes = &mut self.drives[place];
        lanes.numbered(lane);
    }

    /// Takes the lane of a session back that does not begin. The end lies in its slot again, with nothing on its way, and the
    /// promise of a line ends. If the slot isn't there and empty, or the lane's last session goes on, the end comes back, and
    /// nothing changes. Takes no memory.
    pub fn give_back(&mut self, end: LaneEnd<N, S>) -> Result<(), LaneEnd<N, S>>
        ensures rests { OnOk result (Rests self.old.drives end None self.new.drives) }
        ensures promise { OnOk result (self.new ≡ record self.old {
          drives = self.new.drives;
          lines = promised_less self.old.lines;
        }) }
        ensures back { IfErr result (λ back. (back ≡ end) × (MayRest self.old.drives end → ⊥)) }
        ensures err { OnErr result (self.new ≡ self.old) }
    {
        if let Err(end) = rest_in(&mut self.drives, end, None) {
            return Err(end);
        }
        self.lines.end_promise();
        Ok(())
    }
}
