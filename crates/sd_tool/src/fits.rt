// Whether settings go together, and what they come to for one drive.
ghost use Rattle.std.specs.Prelude.{◌≡◌, IfOk};
ghost use Rattle.sd_tool.specs.Settings.{capacity_for, drive_count, fails_for, given_capacity, has_stranger, is_spool_short, misfit_of, misfit_word, plan_for};

use crate::values::Values;
use sd_base::{DriveNo, MOST_DRIVES};
use sd_script::Fail;
use std::alloc::{AllocError, Global};

/// For how many bytes a volume has room if the script doesn't set it.
const USUAL_CAPACITY: u64 = 1_048_576;

/// A setting that doesn't go with the others.
#[derive(Clone, Copy, Debug, PartialEq, Eq)]
pub enum Misfit {
    /// The limit of a volume is below that of two blocks.
    Volume,
    /// There is a spool, and its limit is below that of a block.
    Spool,
    /// There are more drives than a world may have.
    Drive,
    /// A drive is given a capacity that isn't there.
    Capacity,
    /// A call is to fail of a drive that isn't there.
    Fail,
}

impl Misfit {
    /// The word that its setting begins with.
    pub fn word(self) -> &'static str
        ensures { result.now ≡ misfit_word self }
    {
        match self {
            Misfit::Volume => "volume",
            Misfit::Spool => "spool",
            Misfit::Drive => "drive",
            Misfit::Capacity => "capacity",
            Misfit::Fail => "fail",
        }
    }
}

impl Values {
    /// The first setting that doesn't go with the others, in the order above.
    pub fn misfit(&self) -> Option<Misfit>
        ensures { result ≡ misfit_of self.now }
    {
        if self.volume < self.block as u64 * 2 {
            return Some(Misfit::Volume);
        }
        if is_spool_short(self.spool, self.block) {
            return Some(Misfit::Spool);
        }
        if self.drives.len() > MOST_DRIVES as usize {
            return Some(Misfit::Drive);
        }
        if has_stranger(self.drive_count(), &self.capacities) {
            return Some(Misfit::Capacity);
        }
        if has_stranger(self.drive_count(), &self.fails) {
            return Some(Misfit::Fail);
        }
        None
    }

    /// How many drives there are: those that the script gave, or one.
    pub fn drive_count(&self) -> usize
        ensures { result ≡ drive_count self.now }
    {
        if self.drives.is_empty() {
            1
        } else {
            self.drives.len()
        }
    }

    /// For how many bytes each volume of the drive has room.
    pub fn capacity(&self, drive: DriveNo) -> u64
        ensures { result ≡ capacity_for self.now drive }
    {
        given_capacity(&self.capacities, drive)
    }

    /// The calls of the drive that fail.
    pub fn plan(&self, alloc: Global, drive: DriveNo) -> Result<Vec<Fail>, AllocError>
        ensures { IfOk result (λ plan. plan.items ≡ plan_for self.now drive) }
    {
        let fails = &self.fails;
        fails_of(alloc, fails, drive)
    }
}

// Whether there is a spool whose limit is below that of a block.
fn is_spool_short(spool: u64, block: usize) -> bool
    ensures { result ≡ is_spool_short spool block }
{
    spool > 0 && spool < block as u64
}

// Whether one of these is given to a drive that isn't among the first so many.
fn has_stranger<T>(count: usize, given: &[(DriveNo, T)]) -> bool
    ensures { result ≡ has_stranger count given.now }
{
    given.iter().any(|one| one.0.get() as usize > count)
}

// What was given to the drive last, or else the usual capacity.
fn given_capacity(capacities: &[(DriveNo, u64)], drive: DriveNo) -> u64
    ensures { result ≡ given_capacity drive 1048576 capacities.now }
{
    let mut bytes = USUAL_CAPACITY;
    for given in capacities {
        if given.0.get() == drive.get() {
            bytes = given.1;
        }
    }
    bytes
}

// Of these calls those of the drive.
fn fails_of(
    alloc: Global,
    fails: &[(DriveNo, Fail)],
    drive: DriveNo,
) -> Result<Vec<Fail>, AllocError>
    ensures { IfOk result (λ plan. plan.items ≡ fails_for drive fails.now) }
{
    let mut plan = Vec::new(alloc);
    for given in fails {
        if given.0.get() == drive.get() {
            plan.push(given.1)?;
        }
    }
    Ok(plan)
}
