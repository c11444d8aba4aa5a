// Why a session can't be read back.
ghost use Rattle.std.specs.Prelude.{◌≡◌};
ghost use Rattle.sd_readback.specs.declared.fault.ReadFault.TheVariants.{DamagedBlock, Memory};
ghost use Rattle.sd_readback.specs.Faults.{fault_refusal, fault_of, device_fault_of};

use sd_base::Refusal;
use sd_block::BlockFault;
use sd_driver::DriverFault;
use sd_unpack::AddFault;
use std::alloc::AllocError;

/// Why a session can't be read back from its spans.
#[derive(Clone, Copy, Debug, PartialEq, Eq)]
pub enum ReadFault {
    /// There are no spans, they aren't numbered 1, 2 and on, one doesn't begin below its end, one ends
    /// within a block, or no block of the session is in them.
    BadSpan,
    /// A span's volume isn't on the shelf.
    VolumeNotOnShelf,
    /// A span goes on past the end of its volume.
    SpanEndsEarly,
    /// What lies where a block should is no block, or not the next, or not the session's next.
    DamagedBlock,
    /// The device failed.
    Device,
    /// The reader, the device or the sink was out of memory.
    Memory,
}

impl ReadFault {
    /// What the daemon answers for it.
    pub fn refusal(self) -> Refusal
        ensures { result ≡ fault_refusal self }
    {
        match self {
            ReadFault::BadSpan => Refusal::BadSpan,
            ReadFault::VolumeNotOnShelf => Refusal::VolumeNotOnShelf,
            ReadFault::SpanEndsEarly => Refusal::SpanEndsEarly,
            ReadFault::DamagedBlock => Refusal::DamagedBlock,
            ReadFault::Device => Refusal::DeviceFault,
            ReadFault::Memory => Refusal::Memory,
        }
    }
}

impl From<BlockFault> for ReadFault {
    ghost from_gives = { λ _ fault. fault ≡ DamagedBlock };

    fn from(_fault: BlockFault) -> Self {
        ReadFault::DamagedBlock
    }
}

impl From<AddFault> for ReadFault {
    ghost from_gives = { λ added fault. fault ≡ fault_of added };

    fn from(fault: AddFault) -> Self {
        match fault {
            AddFault::Damaged(_) => ReadFault::DamagedBlock,
            AddFault::Memory => ReadFault::Memory,
        }
    }
}

impl From<AllocError> for ReadFault {
    ghost from_gives = { λ _ fault. fault ≡ Memory };

    fn from(_error: AllocError) -> Self {
        ReadFault::Memory
    }
}

impl From<DriverFault> for ReadFault {
    ghost from_gives = { λ answer fault. fault ≡ device_fault_of answer };

    fn from(answer: DriverFault) -> Self {
        match answer {
            DriverFault::NotThere => ReadFault::VolumeNotOnShelf,
            DriverFault::Device | DriverFault::Exists | DriverFault::NoRoom => ReadFault::Device,
            DriverFault::Memory => ReadFault::Memory,
        }
    }
}
