// Why a volume is not judged.
ghost use Rattle.std.specs.Prelude.{◌≡◌};
ghost use Rattle.sd_judge.specs.declared.fault.JudgeFault.TheVariants.{Memory as OutOfMemory};

use std::alloc::AllocError;

/// Why a volume is not judged.
#[derive(Clone, Copy, Debug, PartialEq, Eq)]
pub enum JudgeFault {
    /// The device failed.
    Device,
    /// The judge or the device was out of memory; or the volume was gone for a while. It may be judged again.
    Memory,
}

impl From<AllocError> for JudgeFault {
    ghost from_gives = { λ _ fault. fault ≡ OutOfMemory };

    fn from(_error: AllocError) -> Self {
        JudgeFault::Memory
    }
}
