// The note of a volume that is labelled or taken over is away before that.
ghost use Rattle.std.specs.Prelude.{◌≡◌, ◌≢◌, true, Ok, Some};
ghost use Rattle.sd_base.specs.declared.refusal.Refusal.TheVariants.{BadCommand};
ghost use Rattle.sd_line.specs.Operates.{MayOperate, operated_at};
ghost use Rattle.sd_lines.specs.Noting.{BringsVolume, SettlesNote, is_done};
ghost use Rattle.sd_machine.specs.declared.reply.Reply.TheVariants.{Refused};

use crate::hub::Post;
use crate::notes::{Notes, Taken};
use sd_base::{DriveNo, VolName};
use sd_driver::Driver;
use sd_line::Naming;
use sd_machine::{Event, Reply};
use std::sync::Wait;
use std::time::Clock;

/// Gives a drive the event that brings a volume of this name, which is being claimed. Its note is taken away before: a later
/// one says where the blocks of another volume end. If the event is refused, it is put back, so that a refusal changes nothing.
/// If it can't be taken away, the event isn't given.
pub(crate) fn give_unnoted<D: Driver, N: Naming, R: Wait + Clock + Drop, P: Notes>(
    rt: &R,
    post: &Post<D, N, R>,
    notes: &P,
    drive: DriveNo,
    name: &VolName,
    event: Event,
) -> Reply
    requires { BringsVolume drive name.now event }
    ensures note { SettlesNote (P.answered notes.now drive name.now)
        (P.has_back notes.now drive name.now) result }
    ensures done { is_done result ≡ true
        → MayOperate (λ d. D.meaning d) post.now.station.no event result }
{
    let taken = match notes.take(drive, name) {
        Ok(taken) => taken,
        Err(why) => return Reply::Refused(why),
    };
    let reply = give(rt, post, notes, drive, name, event, taken);
    if !is_done(&reply) {
        notes.put_back(drive, name, taken);
    }
    reply
}

// Gives a drive the event that brings a volume of this name, whose note is away.
fn give<D: Driver, N: Naming, R: Wait + Clock + Drop, P: Notes>(
    rt: &R,
    post: &Post<D, N, R>,
    _notes: &P,
    _drive: DriveNo,
    _name: &VolName,
    event: Event,
    _taken: Taken,
) -> Reply
    requires away { P.answered _notes.now _drive _name.now (Ok _taken) }
    requires brings { BringsVolume _drive _name.now event }
    ensures { MayOperate (λ d. D.meaning d) post.now.station.no event result }
{
    post.station.operate(rt, event)
}

/// Whether the volume is at the drive by this reply.
pub(crate) fn is_done(reply: &Reply) -> bool
    ensures { result ≡ is_done reply.now }
{
    matches!(reply, Reply::Labelled | Reply::Adopted { .. })
}
