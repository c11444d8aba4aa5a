// What a console's line does in a daemon with threads, and the lines that answer it.
ghost use Rattle.std.specs.Prelude.{◌≡◌, ◌∷◌, [], IfOk, List, Ok, codes};
ghost use Rattle.std.specs.List.{flat_map};
ghost use Rattle.sd_console.specs.Lines.{Shows};
ghost use Rattle.sd_console.specs.Requests.{requests_lines};
ghost use Rattle.sd_console.specs.Status.{status_lines};
ghost use Rattle.sd_desk.specs.declared.request.Request.{Request as SpecRequest};
ghost use Rattle.sd_line.specs.Operates.{MayOperate};
ghost use Rattle.sd_lines.specs.Console.{AnswersLine, IsDone, Obeys, TellsSpans};
ghost use Rattle.sd_lines.specs.Held.{AnswersOwn, Cancels, GivesUpAtMost, last_of};
ghost use Rattle.sd_machine.specs.declared.event.Event.TheVariants as event;
ghost use Rattle.sd_machine.specs.declared.reply.Reply.TheVariants.{Cancelled, Mounted, Unmounted};
ghost use Rattle.sd_machine.specs.declared.view.View.{View as SpecView};
ghost use Rattle.sd_text.specs.Lines.{line};

use crate::adopting::adopt;
use crate::held::Held;
use crate::hub::{Hub, Post};
use crate::labelling::label;
use crate::notes::Notes;
use crate::status::view;
use sd_base::{DriveNo, Items, Refusal, SessionKey, Ticket, VolName};
use sd_bnet::Payload;
use sd_console::{command, one_line, requests_text, show, status_text, tell};
use sd_driver::Driver;
use sd_line::Naming;
use sd_machine::{Event, Reply};
use sd_script::ConsoleCmd;
use sd_spool::SpoolStore;
use sd_stations::Patience;
use std::sync::Wait;
use std::time::Clock;

/// Obeys a console's line. A line that is no command is refused as it is read. An operator's event that is refused is
/// answered by that refusal, and else by a line; room for the line is made first, and without it the event isn't given. A
/// running daemon retires no drive and purges no volume, and gives up no session but the talk's own.
pub(crate) fn obey_line<
    D: Driver,
    N: Naming,
    R: Wait + Clock + Drop,
    S: SpoolStore + Drop,
    P: Patience + Notes + Drop,
>(held: &mut Held<'_, D, N, R, S, P>, moment: i64, line: &[u8]) -> Result<Items<Payload>, Refusal>
    ensures own { GivesUpAtMost (last_of held.old) (last_of held.new) }
    ensures obeys { AnswersLine (λ d. D.meaning d) moment line.now result (last_of held.old)
        (last_of held.new) }
{
    match command(line) {
        Ok(command) => obey(held, moment, command),
        Err(why) => Err(why),
    }
}

fn obey<
    D: Driver,
    N: Naming,
    R: Wait + Clock + Drop,
    S: SpoolStore + Drop,
    P: Patience + Notes + Drop,
>(
    held: &mut Held<'_, D, N, R, S, P>,
    moment: i64,
    command: ConsoleCmd,
) -> Result<Items<Payload>, Refusal>
    ensures own { GivesUpAtMost (last_of held.old) (last_of held.new) }
    ensures obeys { IfOk result (λ lines. Obeys (λ d. D.meaning d) moment command lines
        (last_of held.old) (last_of held.new)) }
{
    let hub = held.hub();
    match command {
        ConsoleCmd::Label {
            drive,
            volume,
            pool,
            media,
        } => label(hub, held.notes(), drive, &volume, &pool, &media, moment),
        ConsoleCmd::Adopt { drive, volume } => adopt(hub, held.notes(), drive, &volume),
        ConsoleCmd::Mount { drive, volume } => mount(hub, drive, volume),
        ConsoleCmd::Unmount(drive) => unmount(hub, drive),
        ConsoleCmd::Retire(drive) | ConsoleCmd::Purge { drive, .. } => Err(running(hub, drive)),
        ConsoleCmd::Cancel(ticket) => cancel(held, ticket),
        ConsoleCmd::JobMedia(ticket) => tell_spans(hub, ticket),
        ConsoleCmd::Status => tell_status(hub),
        ConsoleCmd::Requests => tell_requests(hub),
    }
}

// Mounts a volume in its drive.
fn mount<D: Driver, N: Naming, R: Wait + Clock + Drop, S: SpoolStore + Drop>(
    hub: &Hub<D, N, R, S>,
    drive: DriveNo,
    volume: VolName,
) -> Result<Items<Payload>, Refusal>
    ensures { IfOk result (λ lines. (name : List _) × IsDone (λ d. D.meaning d) drive
        (event.Mount drive volume) (Mounted name) (codes "ok mounted") lines) }
{
    let Some(post) = hub.post(drive) else {
        return Err(Refusal::NoSuchDrive);
    };
    let done = one_line(hub.alloc, "ok mounted")?;
    let event = Event::Mount {
        drive,
        name: volume,
    };
    match give(hub, post, event) {
        Reply::Mounted { .. } => Ok(done),
        Reply::Refused(why) => Err(why),
        _ => Err(Refusal::BadCommand),
    }
}

// Takes the loaded volume out of its drive.
fn unmount<D: Driver, N: Naming, R: Wait + Clock + Drop, S: SpoolStore + Drop>(
    hub: &Hub<D, N, R, S>,
    drive: DriveNo,
) -> Result<Items<Payload>, Refusal>
    ensures { IfOk result (λ lines. IsDone (λ d. D.meaning d) drive (event.Unmount drive)
        Unmounted (codes "ok unmounted") lines) }
{
    let Some(post) = hub.post(drive) else {
        return Err(Refusal::NoSuchDrive);
    };
    let done = one_line(hub.alloc, "ok unmounted")?;
    match give(hub, post, Event::Unmount { drive }) {
        Reply::Unmounted => Ok(done),
        Reply::Refused(why) => Err(why),
        _ => Err(Refusal::BadCommand),
    }
}

// Gives an operator's event at a drive. A volume that is mounted answers the drive's request.
fn give<D: Driver, N: Naming, R: Wait + Clock + Drop, S: SpoolStore + Drop>(
    hub: &Hub<D, N, R, S>,
    post: &Post<D, N, R>,
    event: Event,
) -> Reply
    ensures { MayOperate (λ d. D.meaning d) post.now.station.no event result }
{
    let reply = post.station.operate(&hub.rt, event);
    hub.look_at_request(post);
    post.station.wait_for_rest(&hub.rt);
    reply
}

// Why a running daemon doesn't do this at a drive.
fn running<D: Driver, N: Naming, R: Wait + Clock + Drop, S: SpoolStore + Drop>(
    hub: &Hub<D, N, R, S>,
    drive: DriveNo,
) -> Refusal {
    match hub.post(drive) {
        Some(_) => Refusal::InUse,
        None => Refusal::NoSuchDrive,
    }
}

// Gives up the talk's own session; another talk's is in use.
fn cancel<D: Driver, N: Naming, R: Wait + Clock + Drop, S: SpoolStore + Drop, P: Patience + Drop>(
    held: &mut Held<'_, D, N, R, S, P>,
    ticket: Ticket,
) -> Result<Items<Payload>, Refusal>
    ensures own { GivesUpAtMost (last_of held.old) (last_of held.new) }
    ensures obeys { IfOk result (λ lines. AnswersOwn Cancels ticket Cancelled (last_of held.old)
        (last_of held.new) × (lines ≡ line (codes "ok cancelled") ∷ [])) }
{
    let hub = held.hub();
    if !held.is_last(ticket) && hub.has_session(ticket) {
        return Err(Refusal::InUse);
    }
    let done = one_line(hub.alloc, "ok cancelled")?;
    match held.cancel(ticket) {
        Reply::Cancelled => Ok(done),
        Reply::Refused(why) => Err(why),
        _ => Err(Refusal::BadCommand),
    }
}

// Tells the JobMedia text of a session, as far as it was placed.
fn tell_spans<D: Driver, N: Naming, R: Wait + Clock + Drop, S: SpoolStore + Drop>(
    hub: &Hub<D, N, R, S>,
    ticket: Ticket,
) -> Result<Items<Payload>, Refusal>
    ensures { IfOk result (λ lines. TellsSpans ticket lines) }
{
    let Some(post) = hub.post_of(ticket) else {
        return Err(Refusal::SessionNotOpen);
    };
    let key = SessionKey {
        time: hub.time,
        id: ticket.get(),
    };
    match post.station.line().spans(key) {
        Ok(spans) => tell(hub.alloc, key, &Reply::Media { spans }),
        Err(_) => Err(Refusal::Memory),
    }
}

// Tells the status of the daemon.
fn tell_status<D: Driver, N: Naming, R: Wait + Clock + Drop, S: SpoolStore + Drop>(
    hub: &Hub<D, N, R, S>,
) -> Result<Items<Payload>, Refusal>
    ensures { IfOk result (λ lines. (view : SpecView)
        × Shows (flat_map line (status_lines view)) (Ok lines)) }
{
    let Ok(view) = view(hub) else {
        return Err(Refusal::Memory);
    };
    match status_text(hub.alloc, &view) {
        Ok(text) => show(hub.alloc, &text),
        Err(_) => Err(Refusal::Memory),
    }
}

// Tells the requests for volumes.
fn tell_requests<D: Driver, N: Naming, R: Wait + Clock + Drop, S: SpoolStore + Drop>(
    hub: &Hub<D, N, R, S>,
) -> Result<Items<Payload>, Refusal>
    ensures { IfOk result (λ lines. (requests : List SpecRequest)
        × Shows (flat_map line (requests_lines requests)) (Ok lines)) }
{
    let Ok(requests) = hub.requests() else {
        return Err(Refusal::Memory);
    };
    match requests_text(hub.alloc, &requests) {
        Ok(text) => show(hub.alloc, &text),
        Err(_) => Err(Refusal::Memory),
    }
}
