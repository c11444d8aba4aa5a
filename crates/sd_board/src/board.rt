// The board itself.
ghost use Rattle.std.specs.Prelude.{◌≡◌, None, []};
ghost use Rattle.sd_desk.specs.Desk.{claim_of};
ghost use Rattle.sd_board.specs.Board.{KeepsBoard};
ghost use Rattle.sd_board.specs.Lines.{KeepsLines};

use crate::lanes::DriveLanes;
use crate::lines::Lines;
use crate::names::Names;
use sd_line::Naming;
use sd_spool::SpoolStore;
use std::alloc::Global;
use std::marker::Model;

/// What of a daemon lies under the lock of its desk: the desk, with the names that are being claimed; the lanes of each drive,
/// with their ends while no session uses them; and the numbers of sessions, with a line for each. In a contract it is a
/// `BoardIs`.
///
/// Its type keeps what `KeepsBoard` says, of each drive what `KeepsLanes` says, and of the lines what `KeepsLines` says.
#[derive(Drop)]
pub struct Board<N: Naming, S: SpoolStore> {
    pub(crate) alloc: Global,
    pub(crate) names: Names,
    pub(crate) drives: Vec<DriveLanes<N, S>>,
    pub(crate) lines: Lines,
}

impl<N: Naming, S: SpoolStore> Model for Board<N, S> {
    ghost use Rattle.sd_board.specs.Board.{BoardIs, KeepsBoard};

    ghost Value = { BoardIs };

    ghost view = { λ b. record { names = b.names; drives = b.drives.items; lines = b.lines } };

    ghost invariant = { λ b. KeepsBoard (record {
      names = b.names;
      drives = b.drives.items;
      lines = b.lines;
    }) };
}

impl<N: Naming, S: SpoolStore + Drop> Board<N, S> {
    /// A board without drives and sessions, whose desk knows of no volume and no request. Takes no memory.
    pub fn new(alloc: Global) -> Self
        ensures none { (result.drives ≡ []) × (result.lines ≡ record {
          sessions = [];
          promised = 0;
        }) }
        ensures no_claim { (name : _) → claim_of result.names.desk name ≡ None }
        ensures none_coming { (name : _) → claim_of result.names.coming name ≡ None }
        ensures no_request { result.names.desk.requests ≡ [] }
    {
        Board {
            alloc,
            names: Names::new(alloc),
            drives: Vec::new(alloc),
            lines: Lines::new(alloc),
        }
    }

    /// What its type keeps. Does nothing.
    pub fn know(&self)
        ensures board { KeepsBoard self.now }
        ensures lines { KeepsLines self.now.lines }
    {
        self.lines.know();
    }
}
