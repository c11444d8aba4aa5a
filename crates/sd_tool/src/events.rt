// The events that lines are.
ghost use Rattle.std.specs.Prelude.{◌≡◌};
ghost use Rattle.sd_tool.specs.Doing.{console_event, step_event};

use sd_machine::Event;
use sd_script::{ConsoleCmd, ScriptLine};

/// The event of a console's line whose reply is printed as it is.
pub fn console_event(command: ConsoleCmd, moment: i64) -> Option<Event>
    ensures { result ≡ console_event command moment }
{
    match command {
        ConsoleCmd::Label {
            drive,
            volume,
            pool,
            media,
        } => Some(Event::Label {
            drive,
            name: volume,
            pool,
            media,
            moment,
        }),
        ConsoleCmd::Adopt { drive, volume } => Some(Event::Adopt {
            drive,
            name: volume,
        }),
        ConsoleCmd::Unmount(drive) => Some(Event::Unmount { drive }),
        ConsoleCmd::Cancel(ticket) => Some(Event::Cancel { ticket }),
        ConsoleCmd::Retire(drive) => Some(Event::Retire { drive }),
        ConsoleCmd::Purge { drive, volume } => Some(Event::Purge {
            drive,
            name: volume,
        }),
        ConsoleCmd::Mount { .. }
        | ConsoleCmd::JobMedia(_)
        | ConsoleCmd::Status
        | ConsoleCmd::Requests => None,
    }
}

/// The event of a line that no console has and whose reply is printed as it is.
pub fn step_event(line: ScriptLine<'_>, moment: i64) -> Option<Event>
    ensures { result ≡ step_event line.entry moment }
{
    match line {
        ScriptLine::Open { job, pool, media } => Some(Event::Open {
            job,
            pool,
            media,
            moment,
        }),
        ScriptLine::End(ticket) => Some(Event::End { ticket, moment }),
        ScriptLine::Spool(ticket) => Some(Event::Spool { ticket }),
        ScriptLine::Despool(ticket) => Some(Event::Despool { ticket }),
        ScriptLine::Seek(drive) => Some(Event::Seek { drive }),
        ScriptLine::Take(drive) => Some(Event::Take { drive }),
        ScriptLine::Place(drive) => Some(Event::Place { drive }),
        ScriptLine::Sync(drive) => Some(Event::Sync { drive }),
        _ => None,
    }
}
