// The lines of a scan.
ghost use Rattle.std.specs.Prelude.{◌≡◌};
ghost use Rattle.sd_scan.specs.Lines.{found_of};
ghost use Rattle.sd_scan.specs.Words.{end_word, shown_moment};

use crate::kind::Kind;
use crate::moment::Moment;
use crate::report::{Report, Start};
use sd_base::{Refusal, SessionKey, VolName};
use std::fmt;

/// A line of a scan. Displays it without the newline.
#[derive(Drop)]
pub enum ScanLine {
    /// A file that is no volume: no label of its name begins it.
    Foreign(VolName),
    /// A volume of that many bytes is read now.
    Volume {
        name: VolName,
        size: u64,
    },
    /// No whole block with the due number is at that place of the volume.
    Damage {
        volume: VolName,
        at: u64,
        kind: Kind,
    },
    /// After damage there is a whole block at that place of the volume. What follows was found
    /// there.
    Behind {
        volume: VolName,
        at: u64,
    },
    /// What was found of a session.
    Session(Found),
    /// One of the bodies of that session can't follow those before it.
    Broken(SessionKey),
    /// A file that is to be a volume, and that no label of its name begins.
    Unlabelled(VolName),
    /// A volume that is to be there, and isn't.
    Missing(VolName),
    /// From that place on a volume isn't as its note says; from its front on, if the note is damaged or can't be read.
    Misnoted {
        volume: VolName,
        at: u64,
    },
    /// The note of a volume is of another label, and counts as none.
    OtherLabel(VolName),
    /// The note of a volume is of another form, and is passed over.
    OtherForm(VolName),
    /// All volumes were read: how many, and how many sessions are on them.
    Done {
        volumes: usize,
        sessions: usize,
    },
    /// The folder can't be read.
    NoFolder,
    /// The file of the volumes that are to be there can't be read.
    NoFile,
    /// The scan is given up.
    Refused(Refusal),
}

/// What a line says of a session.
#[derive(Drop)]
pub struct Found {
    pub key: SessionKey,
    pub start: Option<Start>,
    pub ended: bool,
    pub records: u64,
    pub bytes: u64,
}

impl Found {
    pub(crate) fn of(report: &Report) -> Self
        ensures { result ≡ found_of report.now }
    {
        Found {
            key: report.key,
            start: Start::copy_of(&report.start),
            ended: report.ended,
            records: report.records,
            bytes: report.bytes,
        }
    }

    // The moment of its start label, if there is one.
    pub(crate) fn moment(&self) -> Moment
        ensures { result ≡ shown_moment self.now.start }
    {
        let shown = match &self.start {
            Some(start) => start.moment,
            None => None,
        };
        Moment { shown }
    }
}

impl fmt::Display for ScanLine {
    ghost use Rattle.std.specs.Prelude.{Some};
    ghost use Rattle.sd_scan.specs.Lines.{line_text};

    ghost output = { λ l. Some (line_text l) };

    fn fmt<W: fmt::Write>(&self, f: &mut fmt::Formatter<W>) -> fmt::Result {
        match self {
            ScanLine::Foreign(name) => write!(f, "foreign {}", name.as_str()),
            ScanLine::Volume { name, size } => write!(f, "volume {} {size}", name.as_str()),
            ScanLine::Damage { volume, at, kind } => {
                write!(f, "damage {} {at} {kind}", volume.as_str())
            }
            ScanLine::Behind { volume, at } => write!(f, "behind {} {at}", volume.as_str()),
            ScanLine::Session(found) => write!(f, "{found}"),
            ScanLine::Broken(key) => write!(f, "broken {} {}", key.time, key.id),
            ScanLine::Unlabelled(name) => write!(f, "damage {} 0 label", name.as_str()),
            ScanLine::Missing(name) => write!(f, "missing {}", name.as_str()),
            ScanLine::Misnoted { volume, at } => write!(f, "damage {} {at} note", volume.as_str()),
            ScanLine::OtherLabel(name) => write!(f, "note {} label", name.as_str()),
            ScanLine::OtherForm(name) => write!(f, "note {} form", name.as_str()),
            ScanLine::Done { volumes, sessions } => write!(f, "ok scan {volumes} {sessions}"),
            ScanLine::NoFolder => write!(f, "fault folder"),
            ScanLine::NoFile => write!(f, "fault file"),
            ScanLine::Refused(why) => write!(f, "{why}"),
        }
    }
}

impl fmt::Display for Found {
    ghost use Rattle.std.specs.Prelude.{Some};
    ghost use Rattle.sd_scan.specs.Lines.{found_text};

    ghost output = { λ found. Some (found_text found) };

    fn fmt<W: fmt::Write>(&self, f: &mut fmt::Formatter<W>) -> fmt::Result {
        let (time, id) = (self.key.time, self.key.id);
        let end = end_word(self.ended);
        let (records, bytes) = (self.records, self.bytes);
        let moment = self.moment();
        match &self.start {
            Some(start) => {
                let job = start.job.get();
                let pool = start.pool.as_str();
                write!(
                    f,
                    "session {time} {id} job {job} pool {pool} {end} records {records} bytes {bytes} at {moment}"
                )
            }
            None => write!(
                f,
                "session {time} {id} job 0 pool - {end} records {records} bytes {bytes} at {moment}"
            ),
        }
    }
}

// Whether all of a session is there, in a word.
pub(crate) fn end_word(ended: bool) -> &'static str
    ensures { result.now ≡ end_word ended }
{
    if ended { "ended" } else { "cut" }
}
