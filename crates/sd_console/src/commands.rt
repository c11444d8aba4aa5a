// A console's line, read.
ghost use Rattle.std.specs.Prelude.{◌≡◌, ◌↔◌, Ok, Err, IfOk};
ghost use Rattle.sd_base.specs.declared.refusal.Refusal.TheVariants as refusals;
ghost use Rattle.sd_script.specs.Grammar.{AreNames, HasForm, HasShape};
ghost use Rattle.sd_script.specs.declared.console.ConsoleCmd.{ConsoleCmd as SpecConsole};
ghost use Rattle.sd_script.specs.declared.line.ScriptLine.TheVariants.{Console};

use sd_base::Refusal;
use sd_script::{ConsoleCmd, read_console};

/// The command that a console's line spells, without the newline after it: the lines `label`, `adopt`,
/// `mount`, `unmount`, `retire`, `purge`, `cancel`, `jobmedia`, `status` and `requests` of a script,
/// and no other.
pub fn command(line: &[u8]) -> Result<ConsoleCmd, Refusal>
    // What is read has the form of that command,
    ensures ok { IfOk result (λ command. HasForm line.now (Console command)) }
    // and what has the form of a command is read as that.
    ensures found { (command : SpecConsole) → HasForm line.now (Console command)
        → result ≡ Ok command }
    // A bad name: the form of a command is there, but for a word that is no name.
    ensures bad_name { (result ≡ Err refusals.BadName) ↔ ((command : SpecConsole)
        × HasShape line.now (Console command) × (AreNames (Console command) → ⊥)) }
    // A bad command: there is no form of a command, whatever the names are.
    ensures bad_command { (result ≡ Err refusals.BadCommand)
        ↔ ((command : SpecConsole) → HasShape line.now (Console command) → ⊥) }
{
    match read_console(line) {
        Ok(command) => Ok(command),
        Err(fault) => Err(fault.refusal()),
    }
}
