// The file that a daemon writes its figures to.
use crate::ending::Ending;
use crate::figures_text::FiguresText;
use crate::talks::FileTalks;
use sd_line::Naming;
use sd_serve::{Log, LogLine, ShownPath};
use std::fs;
use std::io::{self, Write};
use std::sync::Wait;
use std::thread::Scope;
use std::time::{Clock, Duration};

/// How many seconds go by from one writing of the figures to the next.
const PERIOD_SECONDS: u64 = 10;

/// Where the figures of a run are written, if anywhere, and whether the last figures are due.
#[derive(Drop)]
pub(crate) struct Metering<'d> {
    file: Option<&'d str>,
    ending: Ending,
}

impl<'d> Metering<'d> {
    /// The figures of a run that begins.
    pub(crate) fn new(file: Option<&'d str>) -> Self {
        Metering {
            file,
            ending: Ending::new(),
        }
    }
}

/// What writes figures from time to time.
pub(crate) trait FiguresWriter: Sync {
    /// Whether figures are asked for.
    fn is_asked(&self) -> bool;

    /// Writes them until the last ones are written.
    fn write_figures(&self);

    /// Tells that the last ones are to be written.
    fn end(&self);
}

/// Starts a thread for the figures, if they are asked for. Whether it could be made.
pub(crate) fn start_writer<'s, E, K: FiguresWriter>(scope: &Scope<'s, E>, writer: &'s K) -> bool {
    if !writer.is_asked() {
        return true;
    }
    scope.spawn(move || writer.write_figures()).is_ok()
}

impl<N: Naming + Send + Sync, W: Wait + Clock + Sync + Copy + Drop, L: Write + Send> FiguresWriter
    for FileTalks<'_, N, W, L> {
    fn is_asked(&self) -> bool {
        self.metering.file.is_some()
    }

    fn write_figures(&self) {
        let hub = self.hub;
        let Some(file) = self.metering.file else {
            return;
        };
        let mut could = self.write_to(file, true);
        for _period in hub.rt.forever() {
            let period = Duration::from_secs(PERIOD_SECONDS);
            let is_last = self.metering.ending.wait(&hub.rt, period);
            could = self.write_to(file, could);
            if is_last {
                return;
            }
        }
    }

    fn end(&self) {
        self.metering.ending.end(&self.hub.rt);
    }
}

impl<N: Naming, W: Wait + Clock + Copy + Drop, L: Write> FileTalks<'_, N, W, L> {
    // Writes the figures as they are now. If that can't be, and could be the last time, the log is told. Whether it
    // could.
    fn write_to(&self, file: &str, could: bool) -> bool {
        let can = self.try_write_to(file).is_ok();
        if could && !can {
            let log: &Log<L> = self.log;
            let file = ShownPath(file);
            log.line(&self.hub.rt, LogLine::Unwritten { file });
        }
        can
    }

    // Writes them beside the file, which then takes its name: whoever reads it finds these or the ones before, and no part.
    fn try_write_to(&self, file: &str) -> io::Result<()> {
        let alloc = self.rt.alloc();
        let connections = self.connections.figures(&self.wait);
        let holders = if connections.open < connections.most {
            Vec::new(alloc)
        } else {
            self.oldest_holders()
        };
        let figures = FiguresText {
            figures: self.hub.figures()?,
            start: self.start,
            notes: self.notes,
            connections,
            holders,
        };
        let text = format!(in alloc; "{figures}")?;
        let part = format!(in alloc; "{file}.part")?;
        fs::write(self.rt, part.as_str(), text.as_bytes())?;
        fs::rename(self.rt, part.as_str(), file)
    }
}
