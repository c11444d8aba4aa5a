// The kinds of call of a spool's store, for its plan of calls that fail.
ghost use Rattle.sd_spool.specs.Call.{spool_calls};

use sd_plan::{Fail, Kind};

/// A kind of call that may fail.
#[derive(Clone, Copy, Debug, PartialEq, Eq)]
pub enum SpoolCall {
    Append,
    Read,
    Clear,
}

/// One entry of a spool's plan.
pub type SpoolFail = Fail<SpoolCall>;

impl Kind for SpoolCall {
    ghost kinds = { spool_calls };

    fn place(self) -> usize {
        match self {
            SpoolCall::Append => 0,
            SpoolCall::Read => 1,
            SpoolCall::Clear => 2,
        }
    }

    fn is_append(self) -> bool {
        self == SpoolCall::Append
    }
}
