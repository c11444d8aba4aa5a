// The kinds of call of a drive, for its plan of calls that fail. A script names them too.
ghost use Rattle.sd_plan.specs.Call.{drive_calls};

use crate::fail::Fail;
use crate::kind::Kind;

/// A kind of call that may fail.
#[derive(Clone, Copy, Debug, PartialEq, Eq)]
pub enum Call {
    Create,
    Load,
    Len,
    Read,
    Append,
    Sync,
    Cut,
}

/// One entry of a drive's plan.
pub type DriveFail = Fail<Call>;

impl Kind for Call {
    ghost kinds = { drive_calls };

    fn place(self) -> usize {
        match self {
            Call::Create => 0,
            Call::Load => 1,
            Call::Len => 2,
            Call::Read => 3,
            Call::Append => 4,
            Call::Sync => 5,
            Call::Cut => 6,
        }
    }

    fn is_append(self) -> bool {
        self == Call::Append
    }
}
