// The lines of a reply.
ghost use Rattle.std.specs.Prelude.{◌≡◌, IfOk};
ghost use Rattle.std.specs.String.{string_bytes};
ghost use Rattle.sd_console.specs.Replies.{plain_words, reply_lines};

use sd_base::SessionKey;
use sd_machine::Reply;
use sd_span::put_jobmedia;
use std::alloc::{AllocError, Global};
use std::fmt;

/// A reply, displayed as the line that a script prints for it, without the newline. Of a closed session that
/// is the first of its lines, and `Media` has none: what comes there is its JobMedia text. A volume that is
/// mounted is named, as a seek has it; a line `mount`, which names the volume itself, prints no name.
/// Displaying takes no memory.
#[derive(Clone, Copy)]
pub struct ReplyLine<'a>(pub &'a Reply);

impl fmt::Display for ReplyLine<'_> {
    ghost use Rattle.std.specs.Prelude.{Some};
    ghost use Rattle.sd_console.specs.Replies.{reply_line};

    ghost output = { λ l. Some (reply_line l.0.now) };

    fn fmt<W: fmt::Write>(&self, f: &mut fmt::Formatter<W>) -> fmt::Result {
        let reply = self.0;
        match reply {
            Reply::Refused(why) => {
                let number = why.number();
                let text = why.text();
                write!(f, "{number} {text}")
            }
            Reply::Opened { ticket, drive } => {
                let ticket = ticket.get();
                let drive = drive.get();
                write!(f, "ok ticket {ticket} drive {drive}")
            }
            Reply::Taken { count } => write!(f, "ok taken {count}"),
            Reply::Closed { spans, .. } => {
                let count = spans.len();
                write!(f, "ok closed {count}")
            }
            Reply::InHand { ticket, seq } => {
                let ticket = ticket.get();
                write!(f, "ok hand {ticket} {seq}")
            }
            Reply::Placed { volume, start, end } => {
                let volume = volume.as_str();
                write!(f, "ok placed {volume} {start} {end}")
            }
            Reply::Adopted { end, next } => write!(f, "ok adopted {end} {next}"),
            Reply::Mounted { name } => {
                let name = name.as_str();
                write!(f, "ok mounted {name}")
            }
            other => f.write_str(words_of(other)),
        }
    }
}

/// All lines that a console answers for a reply, each with a newline: after the line of a closed session, its
/// JobMedia text. The spans of `Media` are those of the session with this key; what stands for them is its
/// JobMedia text. A console mounts by name only, so a volume that is mounted isn't named.
pub fn reply_text(alloc: Global, key: SessionKey, reply: &Reply) -> Result<String, AllocError>
    ensures { IfOk result (λ text. string_bytes text ≡ reply_lines key reply.now) }
{
    let mut text = String::new(alloc);
    match reply {
        Reply::Media { spans } => put_jobmedia(&mut text, key, spans.as_slice())?,
        Reply::Closed { key, spans } => {
            let line = ReplyLine(reply);
            writeln!(text, "{line}")?;
            put_jobmedia(&mut text, *key, spans.as_slice())?;
        }
        Reply::Mounted { .. } => text.push_str("ok mounted\n")?,
        other => {
            let line = ReplyLine(other);
            writeln!(text, "{line}")?;
        }
    }
    Ok(text)
}

/// The words of a reply that says no more than what it is; none of the others.
fn words_of(reply: &Reply) -> &'static str
    ensures { result.now ≡ plain_words reply.now }
{
    match reply {
        Reply::Ended => "ok ended",
        Reply::Cancelled => "ok cancelled",
        Reply::Spooled => "ok spooled",
        Reply::SpoolFull => "ok spool full",
        Reply::Nothing => "ok nothing",
        Reply::NoSpool => "ok no spool",
        Reply::Sent => "ok sent",
        Reply::LaneFull => "ok queue full",
        Reply::NotDue => "ok not due",
        Reply::HandFull => "ok hand full",
        Reply::Idle => "ok idle",
        Reply::NeedVolume => "ok need volume",
        Reply::VolumeFull => "ok volume full",
        Reply::VolumeError => "ok volume error",
        Reply::Synced => "ok synced",
        Reply::Labelled => "ok labelled",
        Reply::Unmounted => "ok unmounted",
        Reply::Requested => "ok requested",
        Reply::NoNeed => "ok no need",
        Reply::Retired => "ok retired",
        Reply::Purged => "ok purged",
        _ => "",
    }
}
