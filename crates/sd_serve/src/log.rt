// The daemon's log.
use crate::clock::since_1970;
use crate::log_line::{Dated, LogLine};
use jiff::Timestamp;
use sd_text::Printer;
use std::io::Write;
use std::sync::{Mutex, Wait};
use std::time::Clock;

/// A log that lines are written to, if anywhere, by all threads of a daemon. Once a line can't be written, none is written any
/// more; the daemon goes on.
#[derive(Drop)]
pub struct Log<L> {
    printer: Mutex<Option<Printer<L>>>,
}

impl<L: Write> Log<L> {
    /// The log on a writer, or none.
    pub fn new(writer: Option<L>) -> Self {
        Log {
            printer: Mutex::new(writer.map(Printer::new)),
        }
    }

    /// Writes a line, with the time before it.
    pub fn line<R: Wait + Clock>(&self, rt: &R, line: LogLine<'_>) {
        let mut printer = self.printer.lock(rt);
        let printer: &mut Option<Printer<L>> = &mut printer;
        if let Some(printer) = printer {
            // Under the lock, so that lines are in the order in which their times were read.
            let moment = time_now(rt);
            printer.line(Dated { moment, line });
        }
    }
}

// The time, in whole seconds: when 1970 began if the clock can't be read, and the latest that can be said if it is
// later.
fn time_now<C: Clock>(clock: &C) -> Timestamp {
    let seconds = match since_1970(clock) {
        Some(since) => since.as_secs(),
        None => 0,
    };
    let Ok(seconds) = i64::try_from(seconds) else {
        return Timestamp::MAX;
    };
    match Timestamp::from_second(seconds) {
        Ok(time) => time,
        Err(_) => Timestamp::MAX,
    }
}
