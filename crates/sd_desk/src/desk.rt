// The desk.
use crate::claim::Claim;
use crate::request::Request;
use sd_base::{DriveNo, MediaName, PoolName, VolName};
use std::alloc::{AllocError, Global};
use std::collections::BTreeMap;
use std::marker::Model;

/// What is known beside the drives: at which of them each volume is, and which asked for a volume. A name is
/// found by its place in the order of names, whatever number of them there is; a drive's request is one of eight
/// at most. In a contract it is a `DeskView`.
#[derive(Drop)]
pub struct Desk {
    alloc: Global,
    claims: BTreeMap<String, Claim>,
    requests: Vec<Request>,
}

impl Model for Desk {
    ghost use Rattle.sd_desk.specs.Desk.{DeskView, claims_of};

    ghost Value = { DeskView };

    ghost view = { λ d. record {
      claims = claims_of d.claims.entries;
      requests = d.requests.items;
    } };
}

impl Desk {
    ghost use Rattle.std.specs.Prelude.{◌≡◌, ◌↔◌, ◌≢◌, ◌++◌, ◌∷◌, [], None, Some, IsNone, IsOk, OnOk, OnErr, IfErr, IsErrOf, filter, not, ◌==◌};
    ghost use Rattle.std.specs.Option.{option_map};
    ghost use Rattle.sd_desk.specs.Desk.{claim_of, claimed_by, is_purged_at, new_claim, purged_claim, SameClaims, OtherClaimsStay, HasNotAsked};

    /// A desk that knows of no volume and no request; takes no memory.
    pub fn new(alloc: Global) -> Self
        ensures no_claim { (name : _) → claim_of result name ≡ None }
        ensures no_request { result.requests ≡ [] }
    {
        Desk {
            alloc,
            claims: BTreeMap::new(alloc),
            requests: Vec::new(alloc),
        }
    }

    /// The drive at which the volume is, if its name is claimed.
    pub fn drive_of(&self, name: &VolName) -> Option<DriveNo>
        ensures { result ≡ claimed_by self.now name.now }
    {
        self.claims.get(name.as_str()).map(|claim| claim.drive)
    }

    /// Whether the volume was purged since its name was claimed.
    pub fn is_purged(&self, name: &VolName) -> bool
        ensures { result ≡ is_purged_at self.now name.now }
    {
        match self.claims.get(name.as_str()) {
            Some(claim) => claim.purged,
            None => false,
        }
    }

    /// Notes that the volume was purged, if its name is claimed; takes no memory.
    pub fn purged(&mut self, name: &VolName)
        ensures noted { claim_of self.new name.now ≡ option_map purged_claim
            (claim_of self.old name.now) }
        ensures others { OtherClaimsStay name.now self.old self.new }
        ensures requests { self.new.requests ≡ self.old.requests }
    {
        if let Some(claim) = self.claims.get_mut(name.as_str()) {
            claim.purged = true;
        }
    }

    /// Claims a name that isn't claimed for a drive.
    pub fn claim(&mut self, name: &VolName, drive: DriveNo) -> Result<(), ClaimFault>
        ensures taken { IsErrOf result ClaimFault.AlreadyLabelled
            ↔ (claimed_by self.old name.now ≢ None) }
        ensures claimed { OnOk result (claim_of self.new name.now ≡ Some (new_claim drive)) }
        ensures others { OnOk result (OtherClaimsStay name.now self.old self.new) }
        ensures err { OnErr result (SameClaims self.old self.new) }
        ensures requests { self.new.requests ≡ self.old.requests }
    {
        let None = self.drive_of(name) else {
            return Err(ClaimFault::AlreadyLabelled);
        };
        let Ok(key) = String::from_str(self.alloc, name.as_str()) else {
            return Err(ClaimFault::Memory);
        };
        let claim = Claim {
            drive,
            purged: false,
        };
        match self.claims.insert(key, claim) {
            Ok(_) => Ok(()),
            Err(_) => Err(ClaimFault::Memory),
        }
    }

    /// Takes a claim away; takes no memory.
    pub fn release(&mut self, name: &VolName)
        ensures released { claim_of self.new name.now ≡ None }
        ensures others { OtherClaimsStay name.now self.old self.new }
        ensures requests { self.new.requests ≡ self.old.requests }
    {
        self.claims.remove(name.as_str());
    }

    /// Notes that a drive needs a volume. A drive has one request at most: asking again changes nothing,
    /// whatever pool it asks for.
    pub fn ask(&mut self, request: Request) -> Result<(), AllocError>
        ensures again { (HasNotAsked request.drive self.old.requests → ⊥)
            → self.new.requests ≡ self.old.requests }
        ensures again_ok { (HasNotAsked request.drive self.old.requests → ⊥) → IsOk result }
        ensures asked { HasNotAsked request.drive self.old.requests
            → OnOk result (self.new.requests ≡ self.old.requests ++ request ∷ []) }
        ensures err { OnErr result (self.new.requests ≡ self.old.requests) }
        ensures claims { SameClaims self.old self.new }
    {
        if self
            .requests
            .iter()
            .any(|asked| asked.drive == request.drive)
        {
            return Ok(());
        }
        self.requests.push(request)?;
        Ok(())
    }

    /// Takes the drive's request away, if it has one; takes no memory.
    pub fn answered(&mut self, drive: DriveNo)
        ensures requests { self.new.requests ≡ filter
            (λ r. not (r.drive == drive)) self.old.requests }
        ensures claims { SameClaims self.old self.new }
    {
        self.requests
            .retain(|request| request.drive.get() != drive.get());
    }

    /// The requests, in the order in which they were asked.
    pub fn requests(&self) -> &[Request]
        ensures { result.now ≡ self.now.requests }
    {
        &self.requests
    }
}

/// Why a name wasn't claimed.
#[derive(Clone, Copy, Debug, PartialEq, Eq)]
pub enum ClaimFault {
    /// It is claimed.
    AlreadyLabelled,
    /// It was out of memory.
    Memory,
}
