// The names of volumes at the desk: which are claimed, and which are being claimed.
ghost use Rattle.std.specs.Prelude.{◌≡◌, [], None, OnOk, OnErr, IsOk, ◌++◌, ◌∷◌, ◌==◌, filter, not};
ghost use Rattle.sd_desk.specs.Desk.{HasNotAsked, SameClaims, claim_of};
ghost use Rattle.sd_board.specs.Names.{BeginsClaim, EndsClaim, place_of};

use sd_base::{DriveNo, VolName};
use sd_desk::{Desk, Request};
use std::alloc::{AllocError, Global};
use std::marker::Model;

/// Where the volume of a name is, as far as names were claimed.
#[derive(Clone, Copy, Debug, PartialEq, Eq)]
pub enum VolumePlace {
    /// Nobody claimed the name.
    Nowhere,
    /// It is being claimed for this drive, so the volume may be there or not.
    Coming(DriveNo),
    /// It is at this drive.
    At(DriveNo),
}

/// What came of beginning to claim a name.
#[derive(Clone, Copy, Debug, PartialEq, Eq)]
pub enum Claiming {
    /// It is being claimed from now on, until that is ended.
    Begun,
    /// It is claimed.
    Taken,
    /// Somebody else is claiming it: whether it is claimed is known once that is ended.
    UnderWay,
    /// Out of memory.
    Memory,
}

/// The desk, and the names that are being claimed. In a contract it is a `NamesIs`.
#[derive(Drop)]
pub(crate) struct Names {
    // With the names that are being claimed, so that to keep one takes no memory.
    desk: Desk,
    // The names that are being claimed, each for its drive.
    coming: Desk,
}

impl Model for Names {
    ghost use Rattle.sd_board.specs.Names.{KeepsNames, NamesIs};

    ghost Value = { NamesIs };

    ghost view = { λ n. record { desk = n.desk; coming = n.coming } };

    ghost invariant = { λ n. KeepsNames (record { desk = n.desk; coming = n.coming }) };
}

impl Names {
    /// No name is claimed, none is being claimed, and no drive asked for a volume. Takes no memory.
    pub(crate) fn new(alloc: Global) -> Self
        ensures no_claim { (name : _) → claim_of result.desk name ≡ None }
        ensures none_coming { (name : _) → claim_of result.coming name ≡ None }
        ensures no_request { result.desk.requests ≡ [] }
    {
        Names {
            desk: Desk::new(alloc),
            coming: Desk::new(alloc),
        }
    }

    /// Where the volume of a name is.
    pub(crate) fn place_of(&self, name: &VolName) -> VolumePlace
        ensures { result ≡ place_of name.now self.now }
    {
        if let Some(drive) = self.coming.drive_of(name) {
            return VolumePlace::Coming(drive);
        }
        match self.desk.drive_of(name) {
            Some(drive) => VolumePlace::At(drive),
            None => VolumePlace::Nowhere,
        }
    }

    /// Begins to claim a name for a drive, unless it is claimed or being claimed.
    pub(crate) fn begin_claim(&mut self, name: &VolName, drive: DriveNo) -> Claiming
        ensures { BeginsClaim result name.now drive self.old self.new }
    {
        match self.place_of(name) {
            VolumePlace::Coming(_) => return Claiming::UnderWay,
            VolumePlace::At(_) => return Claiming::Taken,
            VolumePlace::Nowhere => {}
        }
        if let Err(_) = self.coming.claim(name, drive) {
            return Claiming::Memory;
        }
        if let Err(_) = self.desk.claim(name, drive) {
            self.coming.release(name);
            return Claiming::Memory;
        }
        Claiming::Begun
    }

    /// Ends the claiming of a name: it is claimed from now on, or free again. A name that isn't being claimed stays as it
    /// is. Takes no memory.
    pub(crate) fn end_claim(&mut self, name: &VolName, kept: bool)
        ensures { EndsClaim kept name.now self.old self.new }
    {
        let Some(_) = self.coming.drive_of(name) else {
            return;
        };
        self.coming.release(name);
        if kept {
            return;
        }
        self.desk.release(name);
    }

    /// The requests, in the order in which they were asked.
    pub(crate) fn requests(&self) -> &[Request]
        ensures { result.now ≡ self.now.desk.requests }
    {
        self.desk.requests()
    }

    /// Notes that a drive needs a volume, unless it asked already: as `Desk::ask`.
    pub(crate) fn ask(&mut self, request: Request) -> Result<(), AllocError>
        ensures again { (HasNotAsked request.drive self.old.desk.requests → ⊥)
            → IsOk result × (self.new.desk.requests ≡ self.old.desk.requests) }
        ensures asked { HasNotAsked request.drive self.old.desk.requests
            → OnOk result (self.new.desk.requests ≡ self.old.desk.requests ++ request ∷ []) }
        ensures err { OnErr result (self.new.desk.requests ≡ self.old.desk.requests) }
        ensures claims { SameClaims self.old.desk self.new.desk }
        ensures same { self.new ≡ record self.old { desk = self.new.desk } }
    {
        self.desk.ask(request)
    }

    /// Takes the drive's request away, if it has one: as `Desk::answered`. Takes no memory.
    pub(crate) fn answered(&mut self, drive: DriveNo)
        ensures requests { self.new.desk.requests ≡ filter
            (λ r. not (r.drive == drive)) self.old.desk.requests }
        ensures claims { SameClaims self.old.desk self.new.desk }
        ensures same { self.new ≡ record self.old { desk = self.new.desk } }
    {
        self.desk.answered(drive);
    }
}
