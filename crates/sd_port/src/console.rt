// What a console's line does to a world, and the lines that answer it.
ghost use Rattle.std.specs.Prelude.{◌<◌, List, length};
ghost use Rattle.std.specs.List.{flat_map};
ghost use Rattle.sd_machine.specs.declared.event.Event.{Event as SpecEvent};
ghost use Rattle.sd_machine.specs.declared.event.Event.TheVariants.{Adopt};
ghost use Rattle.sd_machine.specs.declared.reply.Reply.{Reply as SpecReply};
ghost use Rattle.sd_text.specs.Lines.{line};
ghost use Rattle.sd_core.specs.View.{view_of};
ghost use Rattle.sd_console.specs.Requests.{requests_lines};
ghost use Rattle.sd_console.specs.Status.{status_lines};
ghost use Rattle.sd_console.specs.Lines.{Shows};
ghost use Rattle.sd_port.specs.Console.{AsksSpans, CommandDoes, LineDoes, Operates, told_adopted, told_done};

use sd_base::{DriveNo, Items, Refusal, SessionKey, Ticket, VolName};
use sd_bnet::Payload;
use sd_console::{AdoptedLine, command, one_line, requests_text, show, status_text, tell};
use sd_core::World;
use sd_desk::Request;
use sd_driver::Driver;
use sd_lane::Lanes;
use sd_machine::{Event, Reply};
use sd_script::ConsoleCmd;
use sd_spool::SpoolStore;
use std::alloc::Global;

/// Obeys a console's line. A line that is no command is refused as it is read. An operator's event that is refused is
/// answered by that refusal, and else by a line; room for the line is made first, and without it the event isn't given.
/// The spans of a session, the status and the requests are told as their texts, line by line.
pub(crate) fn obey_line<D: Driver + Drop, Q: Lanes, S: SpoolStore + Drop>(
    alloc: Global,
    world: &mut World<D, Q, S>,
    moment: i64,
    line: &[u8],
) -> Result<Items<Payload>, Refusal>
    ensures { (events : List SpecEvent) × (replies : List SpecReply)
        × LineDoes (λ d. D.meaning d) moment line.now result events replies world.old world.new }
{
    match command(line) {
        Ok(command) => obey(alloc, world, moment, command),
        Err(why) => Err(why),
    }
}

fn obey<D: Driver + Drop, Q: Lanes, S: SpoolStore + Drop>(
    alloc: Global,
    world: &mut World<D, Q, S>,
    moment: i64,
    command: ConsoleCmd,
) -> Result<Items<Payload>, Refusal>
    ensures { (events : List SpecEvent) × (replies : List SpecReply)
        × CommandDoes (λ d. D.meaning d) moment command result events replies world.old world.new }
{
    match command {
        ConsoleCmd::Label {
            drive,
            volume,
            pool,
            media,
        } => {
            let event = Event::Label {
                drive,
                name: volume,
                pool,
                media,
                moment,
            };
            operate(alloc, world, event, "ok labelled")
        }
        ConsoleCmd::Adopt { drive, volume } => adopt(alloc, world, drive, volume),
        ConsoleCmd::Mount { drive, volume } => {
            let event = Event::Mount {
                drive,
                name: volume,
            };
            operate(alloc, world, event, "ok mounted")
        }
        ConsoleCmd::Unmount(drive) => operate(
            alloc,
            world,
            Event::Unmount { drive },
            "ok unmounted",
        ),
        ConsoleCmd::Retire(drive) => operate(alloc, world, Event::Retire { drive }, "ok retired"),
        ConsoleCmd::Purge { drive, volume } => {
            let event = Event::Purge {
                drive,
                name: volume,
            };
            operate(alloc, world, event, "ok purged")
        }
        ConsoleCmd::Cancel(ticket) => operate(
            alloc,
            world,
            Event::Cancel { ticket },
            "ok cancelled",
        ),
        ConsoleCmd::JobMedia(ticket) => tell_spans(alloc, world, ticket),
        ConsoleCmd::Status => tell_status(alloc, world),
        ConsoleCmd::Requests => tell_requests(alloc, world.requests()),
    }
}

/// Gives an operator's event, which these words tell is done.
fn operate<D: Driver + Drop, Q: Lanes, S: SpoolStore + Drop>(
    alloc: Global,
    world: &mut World<D, Q, S>,
    event: Event,
    words: &str,
) -> Result<Items<Payload>, Refusal>
    requires { length words.now < 100 }
    ensures { (events : List SpecEvent) × (replies : List SpecReply)
        × Operates (λ d. D.meaning d) event
        (told_done words.now) result events replies world.old world.new }
{
    let done = match one_line(alloc, words) {
        Ok(done) => done,
        Err(why) => return Err(why),
    };
    match world.step(event) {
        Reply::Refused(why) => Err(why),
        _ => Ok(done),
    }
}

/// Takes over a volume.
fn adopt<D: Driver + Drop, Q: Lanes, S: SpoolStore + Drop>(
    alloc: Global,
    world: &mut World<D, Q, S>,
    drive: DriveNo,
    name: VolName,
) -> Result<Items<Payload>, Refusal>
    ensures { (events : List SpecEvent) × (replies : List SpecReply)
        × Operates (λ d. D.meaning d) (Adopt drive name) told_adopted result events replies
        world.old world.new }
{
    let Ok(room) = AdoptedLine::new(alloc) else {
        return Err(Refusal::Memory);
    };
    match world.step(Event::Adopt { drive, name }) {
        Reply::Refused(why) => Err(why),
        Reply::Adopted { end, next } => Ok(room.tell(end, next)),
        _ => Err(Refusal::BadCommand),
    }
}

/// Tells the JobMedia text of a session, as far as it was placed.
fn tell_spans<D: Driver + Drop, Q: Lanes, S: SpoolStore + Drop>(
    alloc: Global,
    world: &mut World<D, Q, S>,
    ticket: Ticket,
) -> Result<Items<Payload>, Refusal>
    ensures { (events : List SpecEvent) × (replies : List SpecReply)
        × AsksSpans (λ d. D.meaning d) ticket result events replies world.old world.new }
{
    let key = SessionKey {
        time: world.time(),
        id: ticket.get(),
    };
    let reply = world.step(Event::Media { ticket });
    tell(alloc, key, &reply)
}

/// Tells the status of the world.
fn tell_status<D: Driver + Drop, Q: Lanes, S: SpoolStore + Drop>(
    alloc: Global,
    world: &World<D, Q, S>,
) -> Result<Items<Payload>, Refusal>
    ensures { Shows (flat_map line (status_lines (view_of world.now))) result }
{
    let Ok(view) = world.view() else {
        return Err(Refusal::Memory);
    };
    match status_text(alloc, &view) {
        Ok(text) => show(alloc, &text),
        Err(_) => Err(Refusal::Memory),
    }
}

/// Tells the requests for volumes.
fn tell_requests(alloc: Global, requests: &[Request]) -> Result<Items<Payload>, Refusal>
    ensures { Shows (flat_map line (requests_lines requests.now)) result }
{
    match requests_text(alloc, requests) {
        Ok(text) => show(alloc, &text),
        Err(_) => Err(Refusal::Memory),
    }
}
