// The volumes in a folder, scanned.
use crate::labels::Volumes;
use crate::line::ScanLine;
use crate::told::Told;
use crate::volumes::scan;
use crate::write::{TextFolder, write_texts};
use sd_base::{Refusal, VolName};
use sd_files::{Host, ShownProgress};
use sd_text::Printer;
use std::alloc::Global;
use std::io::Write;

/// The status if all was read and written.
const DONE: u8 = 0;

/// The status if the scan was given up, or something could not be written.
const FAILED: u8 = 1;

/// Scans the volumes of these names in a folder, in that order: see `scan`. With a folder `texts` it also makes a file there
/// for each session, with the JobMedia text that it is read by: see `write_texts`. Answers the status.
pub fn scan_named<H: Host + TextFolder + AllocGlobal, W: Write>(
    host: &H,
    folder: &str,
    names: &[&str],
    texts: Option<&str>,
    progress: ShownProgress,
    out: &mut Printer<W>,
) -> u8 {
    match named(host.alloc(), names) {
        Ok(names) => scan_files(host, folder, &names, texts, progress, out),
        Err(why) => refused(why, out),
    }
}

/// Scans all volumes of a folder, those that were labelled first before the others, and those that
/// were at one moment in the order of their names: see `scan_named`. Of each other file whose name a
/// volume could have it prints a line. Answers the status.
pub fn scan_folder<H: Host + TextFolder + AllocGlobal, W: Write>(
    host: &H,
    folder: &str,
    texts: Option<&str>,
    progress: ShownProgress,
    out: &mut Printer<W>,
) -> u8 {
    let Ok(files) = host.files_in(folder) else {
        out.line(ScanLine::NoFolder);
        out.flush();
        return FAILED;
    };
    let Ok(mut device) = host.open_folder(folder, ShownProgress::Silent) else {
        return refused(Refusal::Memory, out);
    };
    match Volumes::among(host.alloc(), &mut device, &files, &[], Told::All, out) {
        Ok(volumes) => {
            let progress = progress.of(volumes.total_size());
            match volumes.names(host.alloc()) {
                Ok(names) => scan_files(host, folder, &names, texts, progress, out),
                Err(_) => refused(Refusal::Memory, out),
            }
        }
        Err(fault) => refused(fault.refusal(), out),
    }
}

// Scans volumes in the files of a folder.
fn scan_files<H: Host + TextFolder + AllocGlobal, W: Write>(
    host: &H,
    folder: &str,
    names: &[VolName],
    texts: Option<&str>,
    progress: ShownProgress,
    out: &mut Printer<W>,
) -> u8 {
    let Ok(mut device) = host.open_folder(folder, progress) else {
        return refused(Refusal::Memory, out);
    };
    let scanned = match scan(host.alloc(), &mut device, names, Told::All, out) {
        Ok(scanned) => scanned,
        Err(fault) => return refused(fault.refusal(), out),
    };
    let written = match texts {
        Some(texts) => write_texts(host, texts, &scanned.sessions, out),
        None => true,
    };
    out.flush();
    if written && !out.failed() {
        DONE
    } else {
        FAILED
    }
}

// Prints why nothing is scanned, or no more.
fn refused<W: Write>(why: Refusal, out: &mut Printer<W>) -> u8 {
    out.line(ScanLine::Refused(why));
    out.flush();
    FAILED
}

// The names that these words are.
fn named(alloc: Global, words: &[&str]) -> Result<Vec<VolName>, Refusal> {
    let mut names = Vec::new(alloc);
    for word in words {
        let Ok(name) = VolName::parse(word) else {
            return Err(Refusal::BadName);
        };
        let Ok(()) = names.push(name) else {
            return Err(Refusal::Memory);
        };
    }
    Ok(names)
}
