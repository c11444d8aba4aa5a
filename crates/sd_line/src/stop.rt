// What stopped a job.
use sd_base::Refusal;

/// Why a job does nothing more.
#[derive(Clone, Copy, Debug, PartialEq, Eq)]
pub enum Stop {
    /// Its session is closed.
    Done,
    /// It had no turn left.
    OutOfTurns,
    /// A step of its part was refused so.
    Refused(Refusal),
    /// No thread could be made for it. Its session is cancelled.
    NoThread,
}
