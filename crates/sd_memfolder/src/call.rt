// The kinds of call of a folder, for its plan of calls that fail.
ghost use Rattle.sd_memfolder.specs.Call.{folder_calls};

use sd_plan::Kind;

/// A kind of call that may fail.
#[derive(Clone, Copy, Debug, PartialEq, Eq)]
pub enum Call {
    Create,
    Open,
    /// `is_there` and `len`.
    Look,
    Read,
    Append,
    /// `sync_data` and `sync_name`.
    Sync,
    Cut,
}

/// One entry of a folder's plan.
pub type Fail = sd_plan::Fail<Call>;

impl Kind for Call {
    ghost kinds = { folder_calls };

    fn place(self) -> usize {
        match self {
            Call::Create => 0,
            Call::Open => 1,
            Call::Look => 2,
            Call::Read => 3,
            Call::Append => 4,
            Call::Sync => 5,
            Call::Cut => 6,
        }
    }

    fn is_append(self) -> bool {
        self == Call::Append
    }
}
