// The words that lines begin with.
ghost use Rattle.std.specs.Prelude.{◌≡◌, true, false, IfSome, IfNone};
ghost use Rattle.sd_script.specs.Command.{command_text, is_console, is_setting, stands};
ghost use Rattle.sd_script.specs.declared.command.Command.{Command as SpecCommand};

use crate::line::Part;

/// The first word of a line. `spool` is two commands: the setting of a limit, and a step of a session.
#[derive(Clone, Copy)]
pub enum Command {
    Block,
    Volume,
    SpoolLimit,
    Queue,
    Time,
    Host,
    Drive,
    Capacity,
    Fail,
    At,
    Label,
    Adopt,
    Mount,
    Unmount,
    Seek,
    Retire,
    Purge,
    Open,
    Rec,
    Fill,
    End,
    Cancel,
    Spool,
    Despool,
    Take,
    Place,
    Sync,
    Close,
    JobMedia,
    Read,
    Again,
    Drain,
    Status,
    Requests,
    Restart,
}

/// The command that `word` spells in that part of a script.
pub fn command_of(part: Part, word: &str) -> Option<Command>
    ensures found { IfSome result (λ command.
        (word.now ≡ command_text command) × (stands part command ≡ true)) }
    ensures none { IfNone result ((command : SpecCommand)
        → word.now ≡ command_text command → stands part command ≡ true → ⊥) }
{
    match part {
        Part::Head => match setting_of(word) {
            Some(command) => Some(command),
            None => other_of(word),
        },
        Part::Body => other_of(word),
    }
}

/// The setting that `word` spells.
fn setting_of(word: &str) -> Option<Command>
    ensures found { IfSome result (λ command.
        (word.now ≡ command_text command) × (is_setting command ≡ true)) }
    ensures none { IfNone result ((command : SpecCommand)
        → word.now ≡ command_text command → is_setting command ≡ true → ⊥) }
{
    match word {
        "block" => Some(Command::Block),
        "volume" => Some(Command::Volume),
        "spool" => Some(Command::SpoolLimit),
        "queue" => Some(Command::Queue),
        "time" => Some(Command::Time),
        "host" => Some(Command::Host),
        "drive" => Some(Command::Drive),
        "capacity" => Some(Command::Capacity),
        "fail" => Some(Command::Fail),
        _ => None,
    }
}

/// The command that `word` spells, which is no setting.
fn other_of(word: &str) -> Option<Command>
    ensures found { IfSome result (λ command.
        (word.now ≡ command_text command) × (is_setting command ≡ false)) }
    ensures none { IfNone result ((command : SpecCommand)
        → word.now ≡ command_text command → is_setting command ≡ false → ⊥) }
{
    match word {
        "at" => Some(Command::At),
        "label" => Some(Command::Label),
        "adopt" => Some(Command::Adopt),
        "mount" => Some(Command::Mount),
        "unmount" => Some(Command::Unmount),
        "seek" => Some(Command::Seek),
        "retire" => Some(Command::Retire),
        "purge" => Some(Command::Purge),
        "open" => Some(Command::Open),
        "rec" => Some(Command::Rec),
        "fill" => Some(Command::Fill),
        "end" => Some(Command::End),
        "cancel" => Some(Command::Cancel),
        "spool" => Some(Command::Spool),
        "despool" => Some(Command::Despool),
        "take" => Some(Command::Take),
        "place" => Some(Command::Place),
        "sync" => Some(Command::Sync),
        "close" => Some(Command::Close),
        "jobmedia" => Some(Command::JobMedia),
        "read" => Some(Command::Read),
        "again" => Some(Command::Again),
        "drain" => Some(Command::Drain),
        "status" => Some(Command::Status),
        "requests" => Some(Command::Requests),
        "restart" => Some(Command::Restart),
        _ => None,
    }
}

impl Command {
    /// Whether a console has lines of this command.
    pub fn is_console(self) -> bool
        ensures { result ≡ is_console self }
    {
        matches!(
            self,
            Command::Label
                | Command::Adopt
                | Command::Mount
                | Command::Unmount
                | Command::Retire
                | Command::Purge
                | Command::Cancel
                | Command::JobMedia
                | Command::Status
                | Command::Requests
        )
    }
}
