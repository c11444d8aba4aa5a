// The lines of a script that read nothing back.
ghost use Rattle.std.specs.Prelude.{◌≡◌, replicate, IfOk};
ghost use Rattle.sd_machine.specs.declared.event.Event.TheVariants as event;
ghost use Rattle.sd_tool.specs.Doing.{Acts, Closes, ConsoleDoes, DrainsAll, Gives, GivesRecord, GivesSome, PrintsText, closed_in, key_at, plain_words, step_event};
ghost use Rattle.sd_tool.specs.Refused.{unheld_refusal};
ghost use Rattle.sd_tool.specs.Script.{Prints, script_view};
ghost use Rattle.sd_core.specs.View.{view_of};
ghost use Rattle.sd_tool.specs.ReplyLines.{media_words, mounted_words, refused_line, requests_text, status_text};

use crate::events::{console_event, step_event};
use crate::printed::Closed;
use crate::replies::{
    print_closed, print_media, print_mounted, print_reply, print_requests, print_status,
};
use crate::run::Script;
use crate::told::Told;
use sd_base::{Bytes, DriveNo, Items, Rec, Refusal, Ticket, VolName};
use sd_driver::Driver;
use sd_lane::Lanes;
use sd_machine::{Event, Reply};
use sd_script::{ConsoleCmd, ScriptLine};
use sd_session::Status;
use std::alloc::{AllocError, Global};
use std::io::Write;

/// The letter that a `fill` line fills its record with.
const FILLING: u8 = b'x';

impl<D: Driver + Drop, Q: Lanes + Drop, W: Write + Drop> Script<D, Q, W> {
    /// Prints why a line is refused.
    pub(crate) fn refuse(&mut self, why: Refusal)
        ensures { Prints (script_view W.contents self.old) (script_view W.contents self.new)
            (refused_line why) }
    {
        self.out.line(why);
    }

    /// Does what a line does that reads nothing back and makes no new world. For one that does, nothing is done here.
    pub(crate) fn act(&mut self, line: ScriptLine<'_>)
        ensures { Acts (λ d. D.meaning d) line.entry (script_view W.contents self.old)
            (script_view W.contents self.new) }
    {
        match line {
            ScriptLine::Set(_) => self.refuse(Refusal::BadCommand),
            ScriptLine::At(moment) => self.moment = moment,
            ScriptLine::Rec {
                ticket,
                index,
                stream,
                text,
            } => {
                let bytes = Bytes::from_slice(self.alloc, text.as_slice());
                self.append(ticket, index, stream, bytes);
            }
            ScriptLine::Fill {
                ticket,
                index,
                stream,
                count,
            } => self.append(ticket, index, stream, filled(self.alloc, count)),
            ScriptLine::Console(command) => self.operate(command),
            ScriptLine::Close(ticket) => self.close(ticket),
            ScriptLine::Drain => self.drain(),
            other => self.step_as(other),
        }
    }

    /// The lines that a console has too.
    fn operate(&mut self, command: ConsoleCmd)
        ensures { ConsoleDoes (λ d. D.meaning d) command (script_view W.contents self.old)
            (script_view W.contents self.new) }
    {
        match command {
            ConsoleCmd::Mount { drive, volume } => self.mount(drive, volume),
            ConsoleCmd::JobMedia(ticket) => self.jobmedia(ticket),
            ConsoleCmd::Status => self.status(),
            ConsoleCmd::Requests => self.requests(),
            other => {
                if let Some(event) = console_event(other, self.moment) {
                    self.step(event);
                }
            }
        }
    }

    /// The lines that are one step, and print its reply as it is.
    fn step_as(&mut self, line: ScriptLine<'_>)
        ensures { GivesSome (λ d. D.meaning d) (step_event line.entry self.old.moment)
            (script_view W.contents self.old) (script_view W.contents self.new) }
    {
        if let Some(event) = step_event(line, self.moment) {
            self.step(event);
        }
    }

    fn step(&mut self, event: Event)
        ensures { Gives (λ d. D.meaning d) event plain_words (script_view W.contents self.old)
            (script_view W.contents self.new) }
    {
        let reply = self.stage.step(event);
        print_reply(&reply, &mut self.out);
    }

    fn append(&mut self, ticket: Ticket, index: u32, stream: u32, bytes: Result<Bytes, AllocError>)
        ensures { (held : _) → IfOk bytes (λ given. given ≡ held)
            → GivesRecord (λ d. D.meaning d) ticket
            (record { index = index; stream = stream; bytes = held })
            (script_view W.contents self.old) (script_view W.contents self.new) }
    {
        let Ok(bytes) = bytes else {
            let status = self.stage.status(ticket);
            return self.refuse(unheld(status));
        };
        match Rec::new(index, stream, bytes) {
            None => self.refuse(Refusal::BadCommand),
            Some(rec) => self.step(Event::Append { ticket, rec }),
        }
    }

    /// Closes a session, and keeps what is printed of it for a later `again`. Room for that is made first.
    fn close(&mut self, ticket: Ticket)
        ensures { Closes (λ d. D.meaning d) ticket (script_view W.contents self.old)
            (script_view W.contents self.new) }
    {
        let Ok(()) = self.printed.reserve() else {
            return self.refuse(Refusal::Memory);
        };
        let reply = self.stage.step(Event::Close { ticket });
        print_closed(&reply, &mut self.out);
        if let Some(closed) = closed_in(reply) {
            self.printed.add(closed);
        }
    }

    fn mount(&mut self, drive: DriveNo, name: VolName)
        ensures { Gives (λ d. D.meaning d) (event.Mount drive name) mounted_words
            (script_view W.contents self.old) (script_view W.contents self.new) }
    {
        let reply = self.stage.step(Event::Mount { drive, name });
        print_mounted(&reply, &mut self.out);
    }

    fn jobmedia(&mut self, ticket: Ticket)
        ensures { Gives (λ d. D.meaning d) (event.Media ticket)
            (media_words (key_at self.old.stage ticket))
            (script_view W.contents self.old) (script_view W.contents self.new) }
    {
        let key = self.stage.key_of(ticket);
        let reply = self.stage.step(Event::Media { ticket });
        print_media(key, &reply, &mut self.out);
    }

    fn requests(&mut self)
        ensures { PrintsText (script_view W.contents self.old) (script_view W.contents self.new)
            (requests_text self.old.stage.world.desk.requests) }
    {
        print_requests(self.alloc, self.stage.requests(), &mut self.out);
    }

    fn status(&mut self)
        ensures { PrintsText (script_view W.contents self.old) (script_view W.contents self.new)
            (status_text (view_of self.old.stage.world)) }
    {
        match self.stage.view() {
            Ok(view) => print_status(self.alloc, &view, &mut self.out),
            Err(_) => self.refuse(Refusal::Memory),
        }
    }

    fn drain(&mut self)
        ensures { DrainsAll (λ d. D.meaning d) (script_view W.contents self.old)
            (script_view W.contents self.new) }
    {
        match self.stage.drain(self.alloc) {
            Ok(placed) => self.out.line(Told::Drained(placed)),
            Err(_) => self.refuse(Refusal::Memory),
        }
    }
}

/// The session that the reply says is closed, and its spans.
fn closed_in(reply: Reply) -> Option<Closed>
    ensures { result ≡ closed_in reply }
{
    match reply {
        Reply::Closed { key, spans } => Some(Closed { key, spans }),
        _ => None,
    }
}

/// The bytes of a `fill` line's record: letters x.
fn filled(alloc: Global, count: usize) -> Result<Bytes, AllocError>
    ensures { IfOk result (λ bytes. bytes ≡ replicate count 120) }
{
    Ok(Items::from_vec(vec![in alloc; FILLING; count]?))
}

/// Why a record is refused for whose bytes there is no memory. What its session's status says comes first.
fn unheld(status: Option<Status>) -> Refusal
    ensures { result ≡ unheld_refusal status }
{
    match status {
        Some(Status::Active) => Refusal::Memory,
        Some(Status::Cancelled) => Refusal::SessionCancelled,
        Some(Status::Failed) => Refusal::SessionFailed,
        Some(Status::Ended | Status::Closed | Status::Purged) | None => Refusal::SessionNotOpen,
    }
}
