// The lines of the daemon's log.
use crate::connections::Holder;
use crate::fault::FaultPlace;
use crate::naming_line::NamingAct;
use crate::shown::{NoFolder, ShownPath, UnheededNote};
use jiff::Timestamp;
use sd_append::TalkEnd;
use sd_base::{MediaName, PoolName, Refusal, VolName};
use std::fmt;

/// How much of a session was taken: its records, and the bytes of their data.
#[derive(Clone, Copy, Debug, Default, PartialEq, Eq)]
pub struct TakenAmount {
    pub records: u64,
    pub bytes: u64,
}

/// A line of the log. Displays it without the newline.
#[derive(Clone, Copy)]
pub enum LogLine<'a> {
    /// The server listens on the port, in the run of this time.
    Listening {
        port: u16,
        time: u32,
    },
    /// A talk begins.
    Begins {
        talk: u64,
    },
    /// The talk has ended: how, or because it was out of memory.
    Ended {
        talk: u64,
        end: Option<TalkEnd>,
    },
    /// A session of a talk.
    Opened {
        talk: u64,
        ticket: u32,
        job: u32,
        drive: u32,
    },
    Closed {
        talk: u64,
        ticket: u32,
        taken: TakenAmount,
    },
    Cancelled {
        talk: u64,
        ticket: u32,
        taken: TakenAmount,
    },
    /// A job of a talk got no session.
    RefusedJob {
        talk: u64,
        job: u32,
        pool: &'a PoolName,
        media: &'a MediaName,
        refusal: Refusal,
    },
    /// A volume was labelled or adopted by a talk.
    Named {
        talk: u64,
        act: NamingAct,
        drive: u32,
        volume: &'a VolName,
    },
    /// As many connections are open as there may be. These are the oldest.
    AllTaken {
        most: u64,
        oldest: &'a [Holder],
    },
    /// The file that ends the server is there: no connection is taken any more, and so many are open.
    Ending {
        file: ShownPath<'a>,
        open: u64,
    },
    /// A device or a spool failed, or a session by it, or a volume couldn't be named, and a talk was told so.
    Fault {
        talk: u64,
        place: FaultPlace<'a>,
        refusal: Refusal,
    },
    /// The volume that is loaded in a drive takes no more: it is full, or its device failed.
    Full {
        drive: u32,
        volume: &'a VolName,
    },
    Failed {
        drive: u32,
        volume: &'a VolName,
    },
    /// A drive needs a volume of this pool, and has none.
    Waits {
        drive: u32,
        pool: &'a PoolName,
    },
    /// A volume of a drive can't be loaded.
    Unloaded {
        drive: u32,
        volume: &'a VolName,
        refusal: Refusal,
    },
    /// The folder of a drive, or of the spools, isn't there or is no folder.
    NoFolder {
        drive: u32,
        folder: ShownPath<'a>,
        why: NoFolder,
    },
    NoSpoolFolder {
        folder: ShownPath<'a>,
        why: NoFolder,
    },
    /// A drive goes on with a volume.
    Mounted {
        drive: u32,
        volume: &'a VolName,
    },
    /// The line of a drive is settled, or can't be.
    Settled {
        drive: u32,
    },
    Unsettled {
        drive: u32,
    },
    /// The figures of the daemon can't be written to this file.
    Unwritten {
        file: ShownPath<'a>,
    },
    /// At the start a drive adopted a volume: where its blocks end and the number of the next one, how many bytes behind them
    /// were cut, and from where on it was read.
    Adopted {
        drive: u32,
        volume: &'a VolName,
        end: u64,
        next: u32,
        cut: u64,
        from: u64,
    },
    /// At the start a volume wasn't adopted: it is damaged at this place, or a sync of it failed when the disk had so much of
    /// it, or for this refusal.
    Damaged {
        drive: u32,
        volume: &'a VolName,
        at: u64,
    },
    Torn {
        drive: u32,
        volume: &'a VolName,
        at: u64,
    },
    NotAdopted {
        drive: u32,
        volume: &'a VolName,
        refusal: Refusal,
    },
    /// The note of a volume is there, and the volume isn't.
    Missing {
        drive: u32,
        volume: &'a VolName,
    },
    /// The note of a volume isn't heeded.
    Unheeded {
        drive: u32,
        volume: &'a VolName,
        why: UnheededNote,
    },
    /// The volumes in the folder of a drive can't be listed.
    Unlisted {
        drive: u32,
        folder: ShownPath<'a>,
    },
    /// A volume is to be adopted even if it is damaged, and no damaged one has its name.
    NoneDamaged {
        volume: &'a VolName,
    },
    /// The note of a volume can't be written, or is written again after that.
    Unnoted {
        drive: u32,
        volume: &'a VolName,
    },
    NotedAgain {
        drive: u32,
        volume: &'a VolName,
    },
}

/// A line with its time.
#[derive(Clone, Copy)]
pub(crate) struct Dated<'a> {
    pub(crate) moment: Timestamp,
    pub(crate) line: LogLine<'a>,
}

impl fmt::Display for Dated<'_> {
    fn fmt<W: fmt::Write>(&self, f: &mut fmt::Formatter<W>) -> fmt::Result {
        let (moment, line) = (self.moment, self.line);
        write!(f, "{moment} {line}")
    }
}

impl fmt::Display for LogLine<'_> {
    fn fmt<W: fmt::Write>(&self, f: &mut fmt::Formatter<W>) -> fmt::Result {
        match self {
            LogLine::Listening { port, time } => {
                write!(f, "listening on {port} in the run of {time}")
            }
            LogLine::Begins { talk } => write!(f, "talk {talk} begins"),
            LogLine::Ended { talk, end } => {
                let word = end_word(*end);
                write!(f, "talk {talk} ended: {word}")
            }
            LogLine::Opened {
                talk,
                ticket,
                job,
                drive,
            } => write!(
                f,
                "talk {talk}: session {ticket} opened for job {job} on drive {drive}"
            ),
            LogLine::Closed {
                talk,
                ticket,
                taken,
            } => {
                let (records, bytes) = (taken.records, taken.bytes);
                write!(
                    f,
                    "talk {talk}: session {ticket} closed with {records} records of {bytes} bytes"
                )
            }
            LogLine::Cancelled {
                talk,
                ticket,
                taken,
            } => {
                let (records, bytes) = (taken.records, taken.bytes);
                write!(
                    f,
                    "talk {talk}: session {ticket} cancelled with {records} records of {bytes} bytes"
                )
            }
            LogLine::RefusedJob {
                talk,
                job,
                pool,
                media,
                refusal,
            } => {
                let (pool, media) = (pool.as_str(), media.as_str());
                write!(
                    f,
                    "talk {talk}: job {job} of pool {pool} and media {media} is refused: {refusal}"
                )
            }
            LogLine::Named {
                talk,
                act,
                drive,
                volume,
            } => {
                let (volume, done) = (volume.as_str(), done_word(*act));
                write!(f, "talk {talk}: volume {volume} is {done} on drive {drive}")
            }
            LogLine::AllTaken { most, oldest } => {
                write!(f, "all {most} connections are taken")?;
                let mut joint = "; the oldest: ";
                for holder in *oldest {
                    write!(f, "{joint}{holder}")?;
                    joint = ", ";
                }
                Ok(())
            }
            LogLine::Ending { file, open } => write!(
                f,
                "{file} is there: no connection is taken any more, {open} are open"
            ),
            LogLine::Fault {
                talk,
                place,
                refusal,
            } => write!(f, "talk {talk}: {place}: {refusal}"),
            LogLine::Full { drive, volume } => {
                let volume = volume.as_str();
                write!(f, "drive {drive}: volume {volume} is full")
            }
            LogLine::Failed { drive, volume } => {
                let volume = volume.as_str();
                write!(f, "drive {drive}: the device failed with volume {volume}")
            }
            LogLine::Waits { drive, pool } => {
                let pool = pool.as_str();
                write!(f, "drive {drive} waits for a volume of pool {pool}")
            }
            LogLine::Unloaded {
                drive,
                volume,
                refusal,
            } => {
                let volume = volume.as_str();
                write!(
                    f,
                    "drive {drive}: volume {volume} can't be loaded: {refusal}"
                )
            }
            LogLine::NoFolder { drive, folder, why } => {
                write!(f, "drive {drive}: its folder {folder} {why}")
            }
            LogLine::NoSpoolFolder { folder, why } => {
                write!(f, "the folder of the spools, {folder}, {why}")
            }
            LogLine::Mounted { drive, volume } => {
                let volume = volume.as_str();
                write!(f, "drive {drive}: volume {volume} is mounted")
            }
            LogLine::Settled { drive } => write!(f, "drive {drive} is settled"),
            LogLine::Unsettled { drive } => write!(f, "drive {drive} can't be settled"),
            LogLine::Unwritten { file } => write!(f, "metrics {file} can't be written"),
            LogLine::Adopted {
                drive,
                volume,
                end,
                next,
                cut,
                from,
            } => {
                let volume = volume.as_str();
                write!(
                    f,
                    "drive {drive}: volume {volume} is adopted up to {end}, its next block is {next}; cut {cut} bytes, read from {from} on"
                )
            }
            LogLine::Damaged { drive, volume, at } => {
                let volume = volume.as_str();
                write!(
                    f,
                    "drive {drive}: volume {volume} is damaged at {at}, and isn't adopted"
                )
            }
            LogLine::Torn { drive, volume, at } => {
                let volume = volume.as_str();
                write!(
                    f,
                    "drive {drive}: volume {volume} isn't adopted, since a sync of it failed when the disk had {at} bytes"
                )
            }
            LogLine::NotAdopted {
                drive,
                volume,
                refusal,
            } => {
                let volume = volume.as_str();
                write!(
                    f,
                    "drive {drive}: volume {volume} can't be adopted: {refusal}"
                )
            }
            LogLine::Missing { drive, volume } => {
                let volume = volume.as_str();
                write!(
                    f,
                    "drive {drive}: volume {volume} is missing, its note is there"
                )
            }
            LogLine::Unheeded { drive, volume, why } => {
                let volume = volume.as_str();
                write!(
                    f,
                    "drive {drive}: the note of volume {volume} isn't heeded: it {why}"
                )
            }
            LogLine::Unlisted { drive, folder } => {
                write!(f, "drive {drive}: its folder {folder} can't be listed")
            }
            LogLine::NoneDamaged { volume } => {
                let volume = volume.as_str();
                write!(
                    f,
                    "no volume {volume} is damaged, so none is adopted as such"
                )
            }
            LogLine::Unnoted { drive, volume } => {
                let volume = volume.as_str();
                write!(
                    f,
                    "drive {drive}: the note of volume {volume} can't be written"
                )
            }
            LogLine::NotedAgain { drive, volume } => {
                let volume = volume.as_str();
                write!(
                    f,
                    "drive {drive}: the note of volume {volume} is written again"
                )
            }
        }
    }
}

/// What was done with a volume.
fn done_word(act: NamingAct) -> &'static str {
    match act {
        NamingAct::Label => "labelled",
        NamingAct::Adopt => "adopted",
    }
}

/// The words for how a talk ended.
fn end_word(end: Option<TalkEnd>) -> &'static str {
    match end {
        Some(TalkEnd::Finished) => "finished",
        Some(TalkEnd::Truncated) => "truncated",
        Some(TalkEnd::TooLong) => "a packet was too long",
        Some(TalkEnd::ReadFault) => "nothing could be read",
        Some(TalkEnd::WriteFault) => "nothing could be written",
        Some(TalkEnd::OutOfTurns) => "out of turns",
        None => "want of memory",
    }
}
