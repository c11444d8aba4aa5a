// What a client asks for, and why a packet asks for nothing.
ghost use Rattle.std.specs.Prelude.{◌≡◌};
ghost use Rattle.sd_append.specs.Command.{command_refusal};
ghost use Rattle.sd_append.specs.declared.command.CommandFault.TheVariants.{BadCommand, BadName};

use sd_base::{BadName, JobId, MediaName, PoolName, Refusal, SessionKey, Ticket};
use sd_text::{BadField, Text};

/// A command of a client. A ticket is `None` if the command names a number that no session has.
#[derive(Drop)]
pub enum Command<'a> {
    /// `append open session`: a session is opened.
    Open {
        job: JobId,
        pool: PoolName,
        media: MediaName,
    },
    /// `append data`: records follow.
    Data(Option<Ticket>),
    /// `append end session`: the session gets its end label.
    End(Option<Ticket>),
    /// `append close session`: whether all of the session lasts.
    Close(Option<Ticket>),
    /// `read session`: the session's spans follow, by which it is read back.
    Read(SessionKey),
    /// `console`: a line of the operator's.
    Console(Text<'a>),
}

/// Why a packet is no command.
#[derive(Clone, Copy, Debug, PartialEq, Eq)]
pub enum CommandFault {
    /// It has no form of a command, or a number is out of its range.
    BadCommand,
    /// It has a form, but what is in the place of a name is no name.
    BadName,
}

impl CommandFault {
    /// The refusal that answers the packet.
    pub fn refusal(self) -> Refusal
        ensures { result ≡ command_refusal self }
    {
        match self {
            CommandFault::BadCommand => Refusal::BadCommand,
            CommandFault::BadName => Refusal::BadName,
        }
    }
}

impl From<BadField> for CommandFault {
    ghost from_gives = { λ _ e. e ≡ BadCommand };

    fn from(_fault: BadField) -> CommandFault {
        CommandFault::BadCommand
    }
}

impl From<BadName> for CommandFault {
    ghost from_gives = { λ _ e. e ≡ BadName };

    fn from(_fault: BadName) -> CommandFault {
        CommandFault::BadName
    }
}

/// What a command begins with.
#[derive(Clone, Copy)]
pub(crate) enum Kind {
    Open,
    Data,
    End,
    Close,
    Read,
    Console,
}
