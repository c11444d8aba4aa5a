// What a thread does from time to time, until it is told to do it for the last time.
use std::sync::{Condvar, Mutex, Wait};
use std::time::{Clock, Duration};

/// Whether the last time has come.
#[derive(Drop)]
pub(crate) struct Ending {
    ended: Mutex<bool>,
    due: Condvar,
}

impl Ending {
    /// It hasn't.
    pub(crate) fn new() -> Self {
        Ending {
            ended: Mutex::new(false),
            due: Condvar::new(),
        }
    }

    /// Waits for so long, or until the last time has come. Whether it has.
    pub(crate) fn wait<R: Wait + Clock>(&self, rt: &R, period: Duration) -> bool {
        let (ended, _) = self
            .due
            .wait_timeout_while(rt, self.ended.lock(rt), period, |ended| !*ended);
        *ended
    }

    /// The last time has come.
    pub(crate) fn end<R: Wait>(&self, rt: &R) {
        let mut ended = self.ended.lock(rt);
        *ended = true;
        self.due.notify_all();
    }
}
