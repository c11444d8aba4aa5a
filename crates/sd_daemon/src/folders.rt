// The folders of a configuration, as they are at the start.
use crate::locks::named;
use sd_conf::Conf;
use sd_serve::{Log, LogLine, NoFolder, ShownPath};
use sd_text::Printer;
use std::fs;
use std::io::{ErrorKind, Write};
use std::sync::Wait;
use std::time::Clock;

// Who is told of folders.
trait Hearer {
    fn hear(&mut self, line: LogLine<'_>);
}

// Tells the log, with the time.
#[derive(Drop)]
struct InLog<'l, W, L> {
    wait: &'l W,
    log: &'l Log<L>,
}

impl<W: Wait + Clock, L: Write> Hearer for InLog<'_, W, L> {
    fn hear(&mut self, line: LogLine<'_>) {
        self.log.line(self.wait, line);
    }
}

// Prints what is told, as the log would but for the time.
#[derive(Drop)]
struct OnPrinter<'p, E> {
    printer: &'p mut Printer<E>,
}

impl<E: Write> Hearer for OnPrinter<'_, E> {
    fn hear(&mut self, line: LogLine<'_>) {
        self.printer.line(line);
    }
}

/// Tells the log of each folder of a drive, and of the spools if sessions are spooled, that isn't there or is no folder.
pub(crate) fn tell_folders<W: Wait + Clock, L: Write>(
    rt: &HostRuntime,
    wait: &W,
    conf: &Conf,
    log: &Log<L>,
) {
    tell(rt, conf, &mut InLog { wait, log });
}

/// Prints a line for each such folder.
pub fn warn_of_folders<E: Write>(rt: &HostRuntime, conf: &Conf, errors: &mut Printer<E>) {
    tell(rt, conf, &mut OnPrinter { printer: errors });
    errors.flush();
}

// Tells of each such folder.
fn tell<H: Hearer>(rt: &HostRuntime, conf: &Conf, hearer: &mut H) {
    let mut drive = 0_u32;
    for one in conf.drives.as_slice() {
        drive = drive.saturating_add(1);
        let path = one.folder.as_str();
        if let Some(why) = missing_at(rt, path) {
            let folder = ShownPath(path);
            hearer.hear(LogLine::NoFolder { drive, folder, why });
        }
    }
    tell_spools(rt, conf, hearer);
}

// Tells of the folder of the spools, if sessions are spooled.
fn tell_spools<H: Hearer>(rt: &HostRuntime, conf: &Conf, hearer: &mut H) {
    if conf.spool == 0 {
        return;
    }
    let Some(folder) = &conf.spool_folder else {
        return;
    };
    let path = folder.as_str();
    if let Some(why) = missing_at(rt, path) {
        let folder = ShownPath(path);
        hearer.hear(LogLine::NoSpoolFolder { folder, why });
    }
}

// Why there is no folder at a path, if there is none.
fn missing_at(rt: &HostRuntime, folder: &str) -> Option<NoFolder> {
    match fs::metadata(rt, named(folder)) {
        Ok(found) if found.is_dir() => None,
        Ok(_) => Some(NoFolder::OtherKind),
        Err(fault) => match fault.kind() {
            ErrorKind::NotFound | ErrorKind::NotADirectory => Some(NoFolder::NotThere),
            _ => Some(NoFolder::Unknown),
        },
    }
}
