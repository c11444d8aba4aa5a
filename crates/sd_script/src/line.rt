// A line of a script as a value, and why a line is none.
ghost use Rattle.std.specs.Prelude.{◌≡◌};
ghost use Rattle.sd_script.specs.Grammar.{line_refusal};
ghost use Rattle.sd_script.specs.declared.line.LineFault.TheVariants.{BadCommand, BadName};

use crate::console::ConsoleCmd;
use sd_base::{
    BadName, DriveNo, HostName, JobId, MediaName, PoolName, Refusal, SessionKey, Ticket, VolName,
};
use sd_plan::DriveFail as Fail;
use sd_text::{BadField, Text};

/// The last moment, in microseconds.
pub const MOST_MOMENT: u64 = 0x7fff_ffff_ffff_ffff;

/// A line of the script of `sdtool run`.
#[derive(Drop)]
pub enum ScriptLine<'a> {
    Empty,
    Set(Setting),
    /// Sets the moment, in microseconds.
    At(i64),
    /// A line that a console has too.
    Console(ConsoleCmd),
    Seek(DriveNo),
    Open {
        job: JobId,
        pool: PoolName,
        media: MediaName,
    },
    Rec {
        ticket: Ticket,
        index: u32,
        stream: u32,
        text: Text<'a>,
    },
    /// A record of `count` letters `x`.
    Fill {
        ticket: Ticket,
        index: u32,
        stream: u32,
        count: usize,
    },
    End(Ticket),
    Spool(Ticket),
    Despool(Ticket),
    Take(DriveNo),
    Place(DriveNo),
    Sync(DriveNo),
    Close(Ticket),
    Read(Ticket),
    /// Reads a session by the JobMedia text that its close printed, in this run or an earlier one.
    Again(SessionKey),
    Drain,
    /// A new world over the same drives, with that time of the run in seconds; first a tail is put on.
    Restart {
        time: u32,
        tail: Option<Tail>,
    },
}

/// A line that sets what the world is made with; it comes before all other lines.
#[derive(Drop)]
pub enum Setting {
    /// The limit of a block, in bytes.
    Block(usize),
    /// The limit of a volume, in bytes.
    Volume(u64),
    /// The limit of a session's spool, in bytes; 0 for none.
    Spool(u64),
    /// How many blocks may wait before a drive.
    Queue(usize),
    /// The time of the run, in seconds.
    Time(u32),
    /// The host that the labels of new volumes say.
    Host(HostName),
    /// One more drive, with so many lanes.
    Drive { media: MediaName, lanes: u32 },
    /// How many bytes each volume of a drive has room for.
    Capacity { drive: DriveNo, bytes: u64 },
    /// A call of a drive that fails.
    Fail { drive: DriveNo, fail: Fail },
}

/// What a stop may leave after the end of a volume: here `count` bytes of zero.
#[derive(Drop)]
pub struct Tail {
    pub drive: DriveNo,
    pub volume: VolName,
    pub count: u64,
}

/// Where a line is in a script: at its head, if no line but settings came before it, or in its
/// body, after the first line that is no setting. That first line itself is the last one of the head.
#[derive(Clone, Copy, Debug, PartialEq, Eq)]
pub enum Part {
    Head,
    Body,
}

/// Why some bytes are no line.
#[derive(Clone, Copy, Debug, PartialEq, Eq)]
pub enum LineFault {
    /// They have no form of a line, or a number is out of its range.
    BadCommand,
    /// They have a form, but a word in the place of a name is no name.
    BadName,
}

impl LineFault {
    /// The refusal that the line prints.
    pub fn refusal(self) -> Refusal
        ensures { result ≡ line_refusal self }
    {
        match self {
            LineFault::BadCommand => Refusal::BadCommand,
            LineFault::BadName => Refusal::BadName,
        }
    }
}

impl From<BadField> for LineFault {
    ghost from_gives = { λ _ e. e ≡ BadCommand };

    fn from(_fault: BadField) -> LineFault {
        LineFault::BadCommand
    }
}

impl From<BadName> for LineFault {
    ghost from_gives = { λ _ e. e ≡ BadName };

    fn from(_fault: BadName) -> LineFault {
        LineFault::BadName
    }
}
