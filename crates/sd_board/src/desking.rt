// The desk of a board.
ghost use Rattle.std.specs.Prelude.{◌≡◌, ◌++◌, ◌∷◌, ◌==◌, [], IsOk, OnErr, OnOk, filter, not};
ghost use Rattle.sd_desk.specs.Desk.{HasNotAsked, SameClaims};
ghost use Rattle.sd_board.specs.Names.{BeginsClaim, EndsClaim, place_of};

use crate::board::Board;
use crate::names::{Claiming, VolumePlace};
use sd_base::{DriveNo, VolName};
use sd_desk::Request;
use sd_line::Naming;
use sd_spool::SpoolStore;
use std::alloc::AllocError;

impl<N: Naming, S: SpoolStore + Drop> Board<N, S> {
    /// Where the volume of a name is. A name that is being claimed is no claim yet.
    pub fn place_of(&self, name: &VolName) -> VolumePlace
        ensures { result ≡ place_of name.now self.now.names }
    {
        self.names.place_of(name)
    }

    /// Begins to claim a name for a drive. Whoever finds that somebody else is claiming it waits for the end of that, and
    /// begins again.
    pub fn begin_claim(&mut self, name: &VolName, drive: DriveNo) -> Claiming
        ensures begins { BeginsClaim result name.now drive self.old.names self.new.names }
        ensures same { self.new ≡ record self.old { names = self.new.names } }
    {
        self.names.begin_claim(name, drive)
    }

    /// Ends the claiming of a name, for who began it: if `kept`, the volume is at the drive from now on; else the name is free
    /// again. Takes no memory.
    pub fn end_claim(&mut self, name: &VolName, kept: bool)
        ensures ends { EndsClaim kept name.now self.old.names self.new.names }
        ensures same { self.new ≡ record self.old { names = self.new.names } }
    {
        self.names.end_claim(name, kept);
    }

    /// The requests of the drives, in the order in which they were asked.
    pub fn requests(&self) -> &[Request]
        ensures { result.now ≡ self.now.names.desk.requests }
    {
        self.names.requests()
    }

    /// Notes that a drive needs a volume, unless it asked already: as `Desk::ask`.
    pub fn ask(&mut self, request: Request) -> Result<(), AllocError>
        ensures again { (HasNotAsked request.drive self.old.names.desk.requests → ⊥)
            → IsOk result × (self.new.names.desk.requests ≡ self.old.names.desk.requests) }
        ensures asked { HasNotAsked request.drive self.old.names.desk.requests
            → OnOk result
            (self.new.names.desk.requests ≡ self.old.names.desk.requests ++ request ∷ []) }
        ensures err { OnErr result
            (self.new.names.desk.requests ≡ self.old.names.desk.requests) }
        ensures claims { SameClaims self.old.names.desk self.new.names.desk }
        ensures same { self.new ≡ record self.old {
          names = record self.old.names { desk = self.new.names.desk };
        } }
    {
        self.names.ask(request)
    }

    /// Takes the drive's request away, if it has one: as `Desk::answered`. Takes no memory.
    pub fn answered(&mut self, drive: DriveNo)
        ensures requests { self.new.names.desk.requests ≡ filter
            (λ r. not (r.drive == drive)) self.old.names.desk.requests }
        ensures claims { SameClaims self.old.names.desk self.new.names.desk }
        ensures same { self.new ≡ record self.old {
          names = record self.old.names { desk = self.new.names.desk };
        } }
    {
        self.names.answered(drive);
    }
}
