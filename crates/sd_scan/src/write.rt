// The JobMedia texts of the sessions that were found, in files.
ghost use Rattle.std.specs.Prelude.{◌<◌, length};
ghost use Rattle.sd_scan.specs.Sessions.{keys_in};

use crate::line::ScanLine;
use crate::report::Report;
use crate::sessions::Sessions;
use sd_base::{Refusal, SessionKey};
use sd_span::put_jobmedia;
use sd_text::Printer;
use std::alloc::{AllocError, Global};
use std::fmt;
use std::fs::{self, File};
use std::io::{self, ErrorKind, Write};

/// Where texts are kept as files.
pub trait TextFolder {
    /// Makes the file at this path, with this text. What has the path is left as it is, and is told as `AlreadyExists`. A file
    /// that can't be written whole is removed again.
    fn make_text(&self, path: &str, text: &[u8]) -> io::Result<()>;
}

impl TextFolder for HostRuntime {
    fn make_text(&self, path: &str, text: &[u8]) -> io::Result<()> {
        let mut file = sd_file::make(self, path)?;
        let written = write_all(&mut file, text);
        if written.is_err() {
            let _ = fs::remove_file(self, path);
        }
        written
    }
}

// Writes the text of a new file, to stay.
fn write_all(file: &mut File, text: &[u8]) -> io::Result<()> {
    file.write_all(text)?;
    file.sync_all()
}

/// What came of the file of a session. Displays it without the newline.
#[derive(Drop)]
pub enum TextLine {
    /// It was made.
    Written(SessionKey),
    /// Something has its name, and was left as it is.
    Kept(SessionKey),
    /// It can't be written.
    Unwritten(SessionKey),
}

impl fmt::Display for TextLine {
    fn fmt<W: fmt::Write>(&self, f: &mut fmt::Formatter<W>) -> fmt::Result {
        let (word, key) = match self {
            TextLine::Written(key) => ("written", key),
            TextLine::Kept(key) => ("kept", key),
            TextLine::Unwritten(key) => ("fault write", key),
        };
        write!(f, "{word} session-{}-{}.spans", key.time, key.id)
    }
}

/// Makes a file in a folder for each session, with its JobMedia text, and prints a line for it. What has the name of such a
/// file is left as it is. Says whether all files were made.
pub(crate) fn write_texts<H: TextFolder + AllocGlobal, W: Write>(
    host: &H,
    folder: &str,
    sessions: &Sessions,
    out: &mut Printer<W>,
) -> bool {
    let mut all = true;
    for at in 0..sessions.len() {
        match write_one(host, folder, sessions, at) {
            Ok(line) => {
                all = all && matches!(line, TextLine::Written(_));
                out.line(line);
            }
            Err(AllocError) => {
                out.line(ScanLine::Refused(Refusal::Memory));
                return false;
            }
        }
    }
    all
}

// Makes the file of the session at that place.
fn write_one<H: TextFolder + AllocGlobal>(
    host: &H,
    folder: &str,
    sessions: &Sessions,
    at: usize,
) -> Result<TextLine, AllocError>
    requires { at < length (keys_in sessions.now) }
{
    let report = sessions.report(at)?;
    let (time, id) = (report.key.time, report.key.id);
    let path = format!(in host.alloc(); "{folder}/session-{time}-{id}.spans")?;
    let text = text_of(host.alloc(), &report)?;
    Ok(match host.make_text(path.as_str(), text.as_bytes()) {
        Ok(()) => TextLine::Written(report.key),
        Err(fault) if fault.kind() == ErrorKind::AlreadyExists => TextLine::Kept(report.key),
        Err(_) => TextLine::Unwritten(report.key),
    })
}

// The JobMedia text of a session.
fn text_of(alloc: Global, report: &Report) -> Result<String, AllocError> {
    let mut text = String::new(alloc);
    put_jobmedia(&mut text, report.key, report.spans.as_slice())?;
    Ok(text)
}
