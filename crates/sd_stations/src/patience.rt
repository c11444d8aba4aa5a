// How long is waited for a drive that has no volume for what is in its hand.
use std::time::Duration;

/// How long somebody waits for a drive that has no volume for what is in its hand.
pub trait Patience {
    /// Whether to wait on, after so long a wait.
    fn lasts(&self, waited: Duration) -> bool;
}

/// So long, and no longer.
impl Patience for Duration {
    fn lasts(&self, waited: Duration) -> bool {
        waited < *self
    }
}
