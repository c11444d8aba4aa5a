// The refusals of the daemon, each with the number and the text that every interface says.
ghost use Rattle.std.specs.Prelude.{◌≡◌};
ghost use Rattle.sd_base.specs.Refusal.{number_of, text_of};

use std::fmt;

/// Why a call was refused. `Display` writes the line of the protocol: the number, a blank, the text.
#[derive(Clone, Copy, Debug, PartialEq, Eq)]
pub enum Refusal {
    BadCommand,
    SessionNotOpen,
    BadFileIndex,
    PacketTooLong,
    SessionFailed,
    SessionCancelled,
    NotYet,
    Busy,
    NoSessionNumberLeft,
    NoDriveOfMedia,
    NoFreeLane,
    DriveOffline,
    SpoolFault,
    VolumeNotOnShelf,
    NotOurVolume,
    OtherPoolOrMedia,
    InUse,
    NotAppendable,
    AlreadyLabelled,
    BlocksOfThisRun,
    BadName,
    NoSuchDrive,
    NoRoom,
    DeviceFault,
    BadSpan,
    DamagedBlock,
    SpanEndsEarly,
    VolumePurged,
    VolumeNotFull,
    Memory,
}

impl Refusal {
    /// The number of the refusal, 3901 to 3960.
    pub fn number(self) -> u16
        ensures { result ≡ number_of self }
    {
        match self {
            Refusal::BadCommand => 3901,
            Refusal::SessionNotOpen => 3902,
            Refusal::BadFileIndex => 3903,
            Refusal::PacketTooLong => 3904,
            Refusal::SessionFailed => 3905,
            Refusal::SessionCancelled => 3906,
            Refusal::NotYet => 3907,
            Refusal::Busy => 3908,
            Refusal::NoSessionNumberLeft => 3909,
            Refusal::NoDriveOfMedia => 3910,
            Refusal::NoFreeLane => 3911,
            Refusal::DriveOffline => 3912,
            Refusal::SpoolFault => 3920,
            Refusal::VolumeNotOnShelf => 3930,
            Refusal::NotOurVolume => 3931,
            Refusal::OtherPoolOrMedia => 3932,
            Refusal::InUse => 3933,
            Refusal::NotAppendable => 3934,
            Refusal::AlreadyLabelled => 3935,
            Refusal::BlocksOfThisRun => 3936,
            Refusal::BadName => 3937,
            Refusal::NoSuchDrive => 3938,
            Refusal::NoRoom => 3939,
            Refusal::DeviceFault => 3940,
            Refusal::BadSpan => 3950,
            Refusal::DamagedBlock => 3951,
            Refusal::SpanEndsEarly => 3952,
            Refusal::VolumePurged => 3953,
            Refusal::VolumeNotFull => 3954,
            Refusal::Memory => 3960,
        }
    }

    /// The text of the refusal, without its number.
    pub fn text(self) -> &'static str
        ensures { result.now ≡ text_of self }
    {
        match self {
            Refusal::BadCommand => "Bad command",
            Refusal::SessionNotOpen => "Session not open",
            Refusal::BadFileIndex => "Bad file index",
            Refusal::PacketTooLong => "Packet too long",
            Refusal::SessionFailed => "Session failed",
            Refusal::SessionCancelled => "Session cancelled",
            Refusal::NotYet => "Not yet",
            Refusal::Busy => "Busy",
            Refusal::NoSessionNumberLeft => "No session number left",
            Refusal::NoDriveOfMedia => "No drive of this media",
            Refusal::NoFreeLane => "No free lane",
            Refusal::DriveOffline => "Drive offline",
            Refusal::SpoolFault => "Spool fault",
            Refusal::VolumeNotOnShelf => "Volume not on the shelf",
            Refusal::NotOurVolume => "Not a volume of this profile",
            Refusal::OtherPoolOrMedia => "Other pool or media",
            Refusal::InUse => "In use",
            Refusal::NotAppendable => "Volume not appendable",
            Refusal::AlreadyLabelled => "Volume already labelled",
            Refusal::BlocksOfThisRun => "Volume has blocks of this run",
            Refusal::BadName => "Bad name",
            Refusal::NoSuchDrive => "No such drive",
            Refusal::NoRoom => "No room on the device",
            Refusal::DeviceFault => "Device fault",
            Refusal::BadSpan => "Bad span",
            Refusal::DamagedBlock => "Damaged block",
            Refusal::SpanEndsEarly => "Span ends early",
            Refusal::VolumePurged => "Volume purged",
            Refusal::VolumeNotFull => "Volume not full",
            Refusal::Memory => "Want of memory",
        }
    }
}

impl fmt::Display for Refusal {
    ghost use Rattle.std.specs.Prelude.{Some};
    ghost use Rattle.sd_base.specs.Refusal.{refusal_text};

    ghost output = { λ r. Some (refusal_text r) };

    fn fmt<W: fmt::Write>(&self, f: &mut fmt::Formatter<W>) -> fmt::Result {
        let number = self.number();
        let text = self.text();
        write!(f, "{number} {text}")
    }
}
