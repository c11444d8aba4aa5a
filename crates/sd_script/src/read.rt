// The lines of a script, read: what is read has the form of the line, and what has a form is read.
ghost use Rattle.std.specs.Prelude.{◌≡◌, ◌↔◌, ℕ, List, ◌∷◌, true, Ok, Err, IfOk, IfSome, IfNone, IsTrue};
ghost use Rattle.sd_script.specs.Grammar.{HasForm, HasShape, AreNames, IsConsole, StandsIn};
ghost use Rattle.sd_script.specs.Command.{command_text, stands};
ghost use Rattle.sd_script.specs.Reading.{Gives, shape};
ghost use Rattle.sd_script.specs.declared.console.ConsoleCmd.{ConsoleCmd as SpecConsole};
ghost use Rattle.sd_script.specs.declared.line.ScriptLine.{ScriptLine as SpecLine};
ghost use Rattle.sd_script.specs.declared.line.ScriptLine.TheVariants.{Console};
ghost use Rattle.sd_script.specs.declared.line.Part.TheVariants.{Body};
ghost use Rattle.sd_script.specs.declared.command.Command.{Command as SpecCommand};

use crate::command::{Command, command_of};
use crate::console::ConsoleCmd;
use crate::forms::{
    adopt, again, at, drain, fill, label, mount, open, purge, rec, requests, restart, status,
};
use crate::line::{LineFault, Part, ScriptLine};
use crate::settings::{block, capacity, drive, fail, host, queue, spool_limit, time, volume};
use sd_text::{Words, ascii_text};

/// The line that `bytes` spell in that part of a script, without the newline after it.
pub fn read_line(part: Part, bytes: &[u8]) -> Result<ScriptLine<'_>, LineFault>
    // What is read has the form of that line, and belongs there,
    ensures ok { IfOk result (λ line. HasForm bytes.now line × StandsIn part line) }
    // and what has the form of a line that belongs there is read as that.
    ensures found { (line : SpecLine) → HasForm bytes.now line → StandsIn part line
        → result ≡ Ok line }
    // A bad name: the form is there, but for a word that is no name.
    ensures bad_name { (result ≡ Err LineFault.BadName) ↔ ((line : SpecLine)
        × HasShape bytes.now line × StandsIn part line × (AreNames line → ⊥)) }
    // A bad command: there is no form, whatever the names are.
    ensures bad_command { (result ≡ Err LineFault.BadCommand)
        ↔ ((line : SpecLine) → HasShape bytes.now line → StandsIn part line → ⊥) }
{
    if bytes.is_empty() {
        return Ok(ScriptLine::Empty);
    }
    let Some(line) = ascii_text(bytes) else {
        return Err(LineFault::BadCommand);
    };
    let mut words = Words::new(line);
    let Some(command) = first_command(part, &mut words) else {
        return Err(LineFault::BadCommand);
    };
    line_of(command, words)
}

/// The command that `bytes` spell on a console, without the newline after it: `read_line` of those lines
/// that a console has too.
pub fn read_console(bytes: &[u8]) -> Result<ConsoleCmd, LineFault>
    // What is read has the form of that command,
    ensures ok { IfOk result (λ command. HasForm bytes.now (Console command)) }
    // and what has the form of a command is read as that.
    ensures found { (command : SpecConsole) → HasForm bytes.now (Console command)
        → result ≡ Ok command }
    // A bad name: the form of a command is there, but for a word that is no name.
    ensures bad_name { (result ≡ Err LineFault.BadName) ↔ ((command : SpecConsole)
        × HasShape bytes.now (Console command) × (AreNames (Console command) → ⊥)) }
    // A bad command: there is no form of a command, whatever the names are.
    ensures bad_command { (result ≡ Err LineFault.BadCommand)
        ↔ ((command : SpecConsole) → HasShape bytes.now (Console command) → ⊥) }
{
    if !begins_as_console(bytes) {
        return Err(LineFault::BadCommand);
    }
    match read_line(Part::Body, bytes) {
        Ok(line) => console_of(line),
        Err(fault) => Err(fault),
    }
}

/// The command of a line that a console has too.
fn console_of(line: ScriptLine<'_>) -> Result<ConsoleCmd, LineFault>
    ensures { (command : SpecConsole) → line.entry ≡ Console command → result ≡ Ok command }
{
    match line {
        ScriptLine::Console(command) => Ok(command),
        _ => Err(LineFault::BadCommand),
    }
}

/// Whether the first word is of a line that a console has too.
fn begins_as_console(bytes: &[u8]) -> bool
    ensures yes { IsTrue result → (line : SpecLine)
        → HasShape bytes.now line → StandsIn Body line → IsConsole line }
    ensures no { (command : SpecConsole) → HasShape bytes.now (Console command) → IsTrue result }
{
    let Some(line) = ascii_text(bytes) else {
        return false;
    };
    let mut words = Words::new(line);
    match first_command(Part::Body, &mut words) {
        Some(command) => command.is_console(),
        None => false,
    }
}

/// The command that the next field spells in that part of a script.
fn first_command(part: Part, words: &mut Words<'_>) -> Option<Command>
    ensures found { IfSome result (λ command.
        (words.old ≡ command_text command ∷ words.new) × (stands part command ≡ true)) }
    ensures none { IfNone result ((command : SpecCommand) (rest : List (List ℕ))
        → words.old ≡ command_text command ∷ rest → stands part command ≡ true → ⊥) }
{
    let Ok(word) = words.word() else {
        return None;
    };
    command_of(part, word)
}

/// The line of a command and the fields after it.
fn line_of(command: Command, words: Words<'_>) -> Result<ScriptLine<'_>, LineFault>
    ensures { Gives result (shape command words.entry) }
{
    match command {
        Command::Block => block(words),
        Command::Volume => volume(words),
        Command::SpoolLimit => spool_limit(words),
        Command::Queue => queue(words),
        Command::Time => time(words),
        Command::Host => host(words),
        Command::Drive => drive(words),
        Command::Capacity => capacity(words),
        Command::Fail => fail(words),
        Command::At => at(words),
        Command::Label => label(words),
        Command::Adopt => adopt(words),
        Command::Mount => mount(words),
        Command::Unmount => Ok(ScriptLine::Console(ConsoleCmd::Unmount(words.only()?))),
        Command::Seek => Ok(ScriptLine::Seek(words.only()?)),
        Command::Retire => Ok(ScriptLine::Console(ConsoleCmd::Retire(words.only()?))),
        Command::Purge => purge(words),
        Command::Open => open(words),
        Command::Rec => rec(words),
        Command::Fill => fill(words),
        Command::End => Ok(ScriptLine::End(words.only()?)),
        Command::Cancel => Ok(ScriptLine::Console(ConsoleCmd::Cancel(words.only()?))),
        Command::Spool => Ok(ScriptLine::Spool(words.only()?)),
        Command::Despool => Ok(ScriptLine::Despool(words.only()?)),
        Command::Take => Ok(ScriptLine::Take(words.only()?)),
        Command::Place => Ok(ScriptLine::Place(words.only()?)),
        Command::Sync => Ok(ScriptLine::Sync(words.only()?)),
        Command::Close => Ok(ScriptLine::Close(words.only()?)),
        Command::JobMedia => Ok(ScriptLine::Console(ConsoleCmd::JobMedia(words.only()?))),
        Command::Read => Ok(ScriptLine::Read(words.only()?)),
        Command::Again => again(words),
        Command::Drain => drain(words),
        Command::Status => status(words),
        Command::Requests => requests(words),
        Command::Restart => restart(words),
    }
}
