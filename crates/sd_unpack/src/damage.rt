// Why a body is refused.
ghost use Rattle.std.specs.Prelude.{◌≡◌};
ghost use Rattle.sd_unpack.specs.declared.damage.AddFault.TheVariants.{Damaged, Memory};

use std::alloc::{AllocError, AllocFailed};

/// Why no cutting of records into bodies begins with the bodies so far and this one. A fragment that
/// can't be read is found before any other damage; then it is the session's stage that decides.
#[derive(Clone, Copy, Debug, PartialEq, Eq)]
pub enum Damage {
    /// The first fragment isn't that of a start label.
    NoStart,
    /// A start label comes after another.
    LabelAgain,
    /// The index is 0, or negative and not that of a session label.
    BadIndex,
    /// No fragment is there, its size is above `MOST_DATA`, or a label isn't whole or isn't one of
    /// this profile. A body with nothing in it is damaged so too.
    BadFragment,
    /// A record goes on and something else is there, or none goes on.
    BadContinuation,
    /// The end label's totals aren't those of the records.
    BadTotals,
    /// Something comes after the end label.
    AfterEnd,
}

/// Why a body was not added.
#[derive(Clone, Copy, Debug, PartialEq, Eq)]
pub enum AddFault {
    /// The body is damaged: none of its records come, and no other body is taken.
    Damaged(Damage),
    /// No memory was left. All is as before, and the body may be added again.
    Memory,
}

impl From<Damage> for AddFault {
    ghost from_gives = { λ damage fault. fault ≡ Damaged damage };

    fn from(damage: Damage) -> Self {
        AddFault::Damaged(damage)
    }
}

impl From<AllocError> for AddFault {
    ghost from_gives = { λ _ fault. fault ≡ Memory };

    fn from(_error: AllocError) -> Self {
        AddFault::Memory
    }
}

impl<T: Drop> From<AllocFailed<T>> for AddFault {
    ghost from_gives = { λ _ fault. fault ≡ Memory };

    fn from(_error: AllocFailed<T>) -> Self {
        AddFault::Memory
    }
}
