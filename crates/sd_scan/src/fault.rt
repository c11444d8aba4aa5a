// Why volumes are not scanned to their ends.
ghost use Rattle.std.specs.Prelude.{◌≡◌};
ghost use Rattle.sd_scan.specs.Fault.{scan_fault_of, scan_refusal};
ghost use Rattle.sd_scan.specs.declared.fault.ScanFault.TheVariants.{Memory as OutOfMemory};

use sd_base::Refusal;
use sd_driver::DriverFault;
use std::alloc::AllocError;

/// Why a scan is given up.
#[derive(Clone, Copy, Debug, PartialEq, Eq)]
pub enum ScanFault {
    /// A volume of that name is not on the shelf.
    NotOnShelf,
    /// The device failed.
    Device,
    /// The scan or the device was out of memory.
    Memory,
}

impl ScanFault {
    /// What is printed for it.
    pub fn refusal(self) -> Refusal
        ensures { result ≡ scan_refusal self }
    {
        match self {
            ScanFault::NotOnShelf => Refusal::VolumeNotOnShelf,
            ScanFault::Device => Refusal::DeviceFault,
            ScanFault::Memory => Refusal::Memory,
        }
    }
}

impl From<AllocError> for ScanFault {
    ghost from_gives = { λ _ fault. fault ≡ OutOfMemory };

    fn from(_error: AllocError) -> Self {
        ScanFault::Memory
    }
}

impl From<DriverFault> for ScanFault {
    ghost from_gives = { λ answer fault. fault ≡ scan_fault_of answer };

    fn from(answer: DriverFault) -> Self {
        match answer {
            DriverFault::NotThere => ScanFault::NotOnShelf,
            DriverFault::Device | DriverFault::Exists | DriverFault::NoRoom => ScanFault::Device,
            DriverFault::Memory => ScanFault::Memory,
        }
    }
}
