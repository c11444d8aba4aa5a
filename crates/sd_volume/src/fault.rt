// Why a volume was not labelled, adopted or purged.
ghost use Rattle.std.specs.Prelude.{◌≡◌};
ghost use Rattle.sd_volume.specs.Fault.{label_refusal, adopt_refusal};

use sd_base::Refusal;
use sd_driver::DriverFault;
use std::alloc::AllocError;

/// Why a volume was not labelled.
#[derive(Clone, Copy, Debug, PartialEq, Eq)]
pub enum LabelFault {
    /// A volume of that name is on the shelf already.
    AlreadyLabelled,
    /// The device is full. The name may be on the shelf now, with any bytes.
    NoRoom,
    /// The device failed. The name may be on the shelf now, with any bytes.
    Device,
    /// Out of memory. If it was the device that ran out, the name may be on the shelf now, with no byte.
    Memory,
}

/// Why a volume was not adopted: the first that is due, in this order. Or why it was not purged: the first, or the last
/// two.
#[derive(Clone, Copy, Debug, PartialEq, Eq)]
pub enum AdoptFault {
    /// No volume of that name is on the shelf.
    NotOnShelf,
    /// It begins with no label block of this profile, its label has another name, or it is longer than a
    /// volume may be.
    NotOurVolume,
    /// Its label has another media type.
    OtherMedia,
    /// A block's session is of this run or a later one.
    BlocksOfThisRun,
    /// The device failed. The volume may have been cut past its last whole block, and may be adopted again.
    Device,
    /// Out of memory, and nothing was changed.
    Memory,
}

impl LabelFault {
    pub fn refusal(self) -> Refusal
        ensures { result ≡ label_refusal self }
    {
        match self {
            LabelFault::AlreadyLabelled => Refusal::AlreadyLabelled,
            LabelFault::NoRoom => Refusal::NoRoom,
            LabelFault::Device => Refusal::DeviceFault,
            LabelFault::Memory => Refusal::Memory,
        }
    }
}

impl AdoptFault {
    pub fn refusal(self) -> Refusal
        ensures { result ≡ adopt_refusal self }
    {
        match self {
            AdoptFault::NotOnShelf => Refusal::VolumeNotOnShelf,
            AdoptFault::NotOurVolume => Refusal::NotOurVolume,
            AdoptFault::OtherMedia => Refusal::OtherPoolOrMedia,
            AdoptFault::BlocksOfThisRun => Refusal::BlocksOfThisRun,
            AdoptFault::Device => Refusal::DeviceFault,
            AdoptFault::Memory => Refusal::Memory,
        }
    }
}

impl From<AllocError> for LabelFault {
    ghost use Rattle.sd_volume.specs.declared.fault.LabelFault.TheVariants.{Memory};

    ghost from_gives = { λ _ fault. fault ≡ Memory };

    fn from(_error: AllocError) -> Self {
        LabelFault::Memory
    }
}

impl From<AllocError> for AdoptFault {
    ghost use Rattle.sd_volume.specs.declared.fault.AdoptFault.TheVariants.{Memory};

    ghost from_gives = { λ _ fault. fault ≡ Memory };

    fn from(_error: AllocError) -> Self {
        AdoptFault::Memory
    }
}

impl From<DriverFault> for LabelFault {
    ghost use Rattle.sd_volume.specs.Fault.{label_fault_of};

    ghost from_gives = { λ answer fault. fault ≡ label_fault_of answer };

    fn from(answer: DriverFault) -> Self {
        match answer {
            DriverFault::Exists => LabelFault::AlreadyLabelled,
            DriverFault::NoRoom => LabelFault::NoRoom,
            DriverFault::Device | DriverFault::NotThere => LabelFault::Device,
            DriverFault::Memory => LabelFault::Memory,
        }
    }
}

impl From<DriverFault> for AdoptFault {
    ghost use Rattle.sd_volume.specs.Fault.{adopt_fault_of};

    ghost from_gives = { λ answer fault. fault ≡ adopt_fault_of answer };

    fn from(answer: DriverFault) -> Self {
        match answer {
            DriverFault::NotThere => AdoptFault::NotOnShelf,
            DriverFault::Device | DriverFault::Exists | DriverFault::NoRoom => AdoptFault::Device,
            DriverFault::Memory => AdoptFault::Memory,
        }
    }
}
