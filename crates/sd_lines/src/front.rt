// What lies under the lock of the desk.
ghost use Rattle.std.specs.Prelude.{◌≡◌, ◌-◌, None, Some, IfErr, IfNone, IfOk, IfSome, OnErr, OnOk, slice_get};
ghost use Rattle.sd_board.specs.Board.{MayRest, Rests};
ghost use Rattle.sd_board.specs.Lines.{posted_in};
ghost use Rattle.sd_board.specs.Opening.{ChoosesLane, ChoosesLater, ChoosesNone, Numbers};
ghost use Rattle.sd_line.specs.Ends.{LastIsOver};
ghost use Rattle.sd_lines.specs.Claims.{ClaimsName, ClaimsNoName};
ghost use Rattle.sd_lines.specs.Pools.{pools_by, seen_of};

use crate::standings::Standings;
use sd_base::{DriveNo, LaneNo, MOST_DRIVES, MediaName, PoolName, Refusal, Ticket, VolName};
use sd_board::{Board, Chosen, Claiming, DriveSeen, Numbered, Sent};
use sd_line::{LaneEnd, Naming};
use sd_session::Status;
use sd_spool::SpoolStore;
use std::array;

/// For how many drives there is room.
pub(crate) const DRIVES: usize = MOST_DRIVES as usize;

/// The board; of the drives 1, 2 and on the pool of the session that got its number last there; and how many of the board's
/// sessions have each status. A drive itself learns of the pool a little later, and who opens a session in between must not be
/// told of the one before.
#[derive(Drop)]
pub struct Front<N: Naming, S: SpoolStore> {
    pub board: Board<N, S>,
    pools: [Option<PoolName>; DRIVES],
    standings: Standings,
}

impl<N: Naming, S: SpoolStore + Drop> Front<N, S> {
    /// A desk at which no session was opened yet.
    pub fn new(board: Board<N, S>) -> Self {
        Front {
            board,
            pools: array::from_fn(|_| None),
            standings: Standings::new(),
        }
    }

    /// Chooses the lane of a session of this pool and media, as the board does; `loaded` are the pools of the volumes that are
    /// loaded in the drives.
    pub(crate) fn choose(
        &mut self,
        loaded: &[Option<PoolName>; DRIVES],
        pool: &PoolName,
        media: &MediaName,
    ) -> Result<Option<Chosen<N, S>>, Refusal>
        ensures ok { IfOk result (λ choice. IfSome choice (λ chosen.
            ChoosesLane self.old.board (seen_of self.old.pools loaded.now) pool.now media.now
            chosen.ticket chosen.drive chosen.end self.new.board)) }
        ensures home { IfOk result (λ choice. IfSome choice (λ chosen.
            (chosen.end.seat.no ≡ chosen.drive) × LastIsOver chosen.end.sessions)) }
        ensures later { IfOk result (λ choice. IfNone choice
            (ChoosesLater self.old.board (seen_of self.old.pools loaded.now) pool.now media.now
            × (self.new.board ≡ self.old.board))) }
        ensures why { IfErr result (λ why. ChoosesNone self.old.board
            (seen_of self.old.pools loaded.now) pool.now media.now why) }
        ensures err { OnErr result (self.new.board ≡ self.old.board) }
        ensures pools { self.new.pools ≡ self.old.pools }
    {
        let seen = seen(&self.pools, loaded);
        self.board.choose(&seen, pool, media)
    }

    /// Gives the session that was chosen for this lane its number, as the board does, by what is loaded now. Its pool is the
    /// drive's from then on.
    pub(crate) fn number(
        &mut self,
        loaded: &[Option<PoolName>; DRIVES],
        pool: &PoolName,
        media: &MediaName,
        ticket: Ticket,
        drive: DriveNo,
        lane: LaneNo,
    ) -> Numbered
        ensures numbers { Numbers result self.old.board (seen_of self.old.pools loaded.now)
            pool.now media.now ticket drive lane self.new.board }
        ensures pools { self.new.pools ≡ pools_by result drive pool.now self.old.pools }
    {
        let seen = seen(&self.pools, loaded);
        let numbered = self.board.number(&seen, pool, media, ticket, drive, lane);
        if let Numbered::Given = numbered {
            self.standings.add(Status::Active);
            self.pools[drive.get() as usize - 1] = Some(pool.copy());
        }
        numbered
    }

    /// The pool of the session that got its number last at a drive.
    pub(crate) fn pool(&self, drive: DriveNo) -> Option<PoolName>
        ensures { Some result ≡ slice_get self.now.pools (drive - 1) }
    {
        PoolName::copy_of(&self.pools[drive.get() as usize - 1])
    }

    /// Takes the lane of a session back that does not begin, as the board does.
    pub(crate) fn give_back(&mut self, end: LaneEnd<N, S>)
        ensures { MayRest self.old.board.drives end
            → Rests self.old.board.drives end None self.new.board.drives }
    {
        // Its slot is empty since it was chosen, and the session before it over.
        let _ = self.board.give_back(end);
    }

    /// The end of a lane lies in its slot from now on, as at the board.
    pub(crate) fn rest(&mut self, end: LaneEnd<N, S>, on_its_way: Option<Sent>)
        ensures { MayRest self.old.board.drives end
            → Rests self.old.board.drives end on_its_way self.new.board.drives }
    {
        // Its slot is empty since it was chosen.
        let _ = self.board.rest(end, on_its_way);
    }

    /// A name is claimed for a drive from now on, unless it is claimed or being claimed (already labelled), or there is no
    /// memory for that.
    pub(crate) fn claim(&mut self, name: &VolName, drive: DriveNo) -> Result<(), Refusal>
        ensures ok { OnOk result (ClaimsName name.now drive self.old.board.names
            self.new.board.names) }
        ensures err { IfErr result (λ why. ClaimsNoName why name.now self.old.board.names
            self.new.board.names) }
        ensures same { self.new ≡ record self.old {
          board = record self.old.board { names = self.new.board.names };
        } }
    {
        match self.board.begin_claim(name, drive) {
            Claiming::Begun => {
                self.board.end_claim(name, true);
                Ok(())
            }
            Claiming::Taken | Claiming::UnderWay => Err(Refusal::AlreadyLabelled),
            Claiming::Memory => Err(Refusal::Memory),
        }
    }

    /// The session's line says from now on that it has this status and took so many records.
    pub(crate) fn post(&mut self, ticket: Ticket, status: Status, records: u64)
        ensures { self.new.board ≡ record self.old.board {
          lines = posted_in ticket status records self.old.board.lines;
        } }
    {
        if let Some(posted) = self.board.session(ticket) {
            self.standings.take(posted.status);
            self.standings.add(status);
        }
        self.board.post(ticket, status, records);
    }

    /// How many sessions have each status.
    pub(crate) fn standings(&self) -> Standings {
        self.standings
    }
}

// What decides where a session is opened.
fn seen(
    pools: &[Option<PoolName>; DRIVES],
    loaded: &[Option<PoolName>; DRIVES],
) -> [DriveSeen; DRIVES]
    ensures { result ≡ seen_of pools.now loaded.now }
{
    let mut seen = array::from_fn(|_| DriveSeen {
        loaded: None,
        pool: None,
    });
    for at in 0..DRIVES {
        seen[at] = DriveSeen {
            loaded: PoolName::copy_of(&loaded[at]),
            pool: PoolName::copy_of(&pools[at]),
        };
    }
    seen
}
