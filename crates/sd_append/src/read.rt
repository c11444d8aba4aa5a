// The commands of a client, read: what is read has the form of the command, and what has a form is read.
ghost use Rattle.std.specs.Prelude.{◌≡◌, ◌++◌, ◌↔◌, List, ℕ, Ok, Err, IfOk, IfSome, IfNone, MatchResult};
ghost use Rattle.sd_text.specs.Reading.{ReadsFirst};
ghost use Rattle.sd_append.specs.Text.{IsDecimal};
ghost use Rattle.sd_append.specs.Command.{SpellsCommand, HasShape, AreNames, IsTicket, head_text};
ghost use Rattle.sd_append.specs.Reading.{Gives, Tells, keyed_at, keyed_number_at, open_shape, read_shape};
ghost use Rattle.sd_append.specs.declared.command.Command.{Command as SpecCommand};
ghost use Rattle.sd_append.specs.declared.command.Kind.{Kind as SpecKind};

use crate::command::{Command, CommandFault, Kind};
use crate::number::{is_decimal, number_of};
use crate::text::trimmed;
use sd_base::{JobId, Name, Number, SessionKey, Ticket};
use sd_text::{BadField, Text, Words, ascii_text};

/// The command of a packet.
pub fn read_command(packet: &[u8]) -> Result<Command<'_>, CommandFault>
    // What is read has the form of that command,
    ensures ok { IfOk result (λ command. SpellsCommand packet.now command) }
    // and what has the form of a command is read as that.
    ensures found { (command : SpecCommand) → SpellsCommand packet.now command
        → result ≡ Ok command }
    // A bad name: the form is there, but for a name that is none.
    ensures bad_name { (result ≡ Err CommandFault.BadName)
        ↔ ((command : SpecCommand) × HasShape packet.now command × (AreNames command → ⊥)) }
    // A bad command: there is no form, whatever the names are.
    ensures bad_command { (result ≡ Err CommandFault.BadCommand)
        ↔ ((command : SpecCommand) → HasShape packet.now command → ⊥) }
{
    let Some(line) = ascii_text(trimmed(packet)) else {
        return Err(CommandFault::BadCommand);
    };
    let Some((kind, rest)) = kind_of(line) else {
        return Err(CommandFault::BadCommand);
    };
    command_of(kind, rest)
}

/// What command a line begins as, and what comes after that.
fn kind_of(line: &str) -> Option<(Kind, &str)>
    ensures found { IfSome result (λ split. line.now ≡ head_text split.0 ++ split.1.now) }
    ensures none { IfNone result ((kind : SpecKind) (rest : List ℕ)
        → line.now ≡ head_text kind ++ rest → ⊥) }
{
    if let Some(rest) = line.strip_prefix("append open session ") {
        return Some((Kind::Open, rest));
    }
    if let Some(rest) = line.strip_prefix("append data ") {
        return Some((Kind::Data, rest));
    }
    if let Some(rest) = line.strip_prefix("append end session ") {
        return Some((Kind::End, rest));
    }
    if let Some(rest) = line.strip_prefix("append close session ") {
        return Some((Kind::Close, rest));
    }
    if let Some(rest) = line.strip_prefix("read session ") {
        return Some((Kind::Read, rest));
    }
    match line.strip_prefix("console ") {
        Some(rest) => Some((Kind::Console, rest)),
        None => None,
    }
}

/// The command of a kind and of what comes after it.
fn command_of(kind: Kind, rest: &str) -> Result<Command<'_>, CommandFault>
    ensures { Tells kind rest.now result }
{
    match kind {
        Kind::Open => open(Words::new(rest)),
        Kind::Data => Ok(Command::Data(ticket_of(rest)?)),
        Kind::End => Ok(Command::End(ticket_of(rest)?)),
        Kind::Close => Ok(Command::Close(ticket_of(rest)?)),
        Kind::Read => read(Words::new(rest)),
        Kind::Console => Ok(Command::Console(Text::new(rest.as_bytes()))),
    }
}

#[tactic(auto, unfolding(crate::specs::Reading::open_shape))]
fn open(mut words: Words<'_>) -> Result<Command<'_>, CommandFault>
    ensures { Gives result (open_shape words.entry) }
{
    let job: JobId = keyed_number(&mut words, "JobId=")?;
    let pool = keyed(&mut words, "Pool=")?;
    let media = keyed(&mut words, "Media=")?;
    words.end()?;
    Ok(Command::Open {
        job,
        pool: Name::parse(pool)?,
        media: Name::parse(media)?,
    })
}

#[tactic(auto, unfolding(crate::specs::Reading::read_shape))]
fn read(mut words: Words<'_>) -> Result<Command<'_>, CommandFault>
    ensures { Gives result (read_shape words.entry) }
{
    let time: Ticket = keyed_number(&mut words, "Time=")?;
    let id: Ticket = keyed_number(&mut words, "Id=")?;
    words.end()?;
    Ok(Command::Read(SessionKey {
        time: time.get(),
        id: id.get(),
    }))
}

/// The value of the next field, which has this key.
#[tactic(auto, unfolding(crate::specs::Reading::keyed_at))]
fn keyed<'a>(words: &mut Words<'a>, key: &str) -> Result<&'a str, BadField>
    ensures { ReadsFirst (λ value. value.now) result words.new (keyed_at key.now words.old) }
{
    let word = words.word()?;
    match word.strip_prefix(key) {
        Some(value) => Ok(value),
        None => Err(BadField),
    }
}

/// The value of the next field, which has this key, a number from 1 to `MOST`.
#[tactic(auto, unfolding(crate::specs::Reading::keyed_number_at))]
fn keyed_number<K, const MOST: u32>(
    words: &mut Words<'_>,
    key: &str,
) -> Result<Number<K, MOST>, BadField>
    ensures { ReadsFirst (λ n. n) result words.new (keyed_number_at key.now MOST words.old) }
{
    let value = keyed(words, key)?;
    match number_of(value) {
        Some(number) => Ok(number),
        None => Err(BadField),
    }
}

/// The ticket that a number in decimal is, if it is one.
fn ticket_of(text: &str) -> Result<Option<Ticket>, BadField>
    ensures { MatchResult result (λ ticket. IsTicket text.now ticket)
        (λ _. IsDecimal text.now → ⊥) }
{
    if !is_decimal(text) {
        return Err(BadField);
    }
    Ok(number_of(text))
}
