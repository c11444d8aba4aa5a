// What an operator does to the drive of a line, if there is no desk.
ghost use Rattle.std.specs.Prelude.{◌≡◌, ℕ, ℤ, List, IfSome, is_some};
ghost use Rattle.sd_drive.specs.Moves.{index_of};
ghost use Rattle.sd_machine.specs.declared.reply.Reply.TheVariants.{Refused};
ghost use Rattle.sd_machine.specs.declared.event.Event.TheVariants.{Sync, Label, Adopt, Mount, Unmount, Seek};
ghost use Rattle.sd_line.specs.Operates.{Operates, AnswersAlone, operated_at};

use sd_base::{DriveNo, MediaName, PoolName, Refusal, VolName};
use sd_desk::next_volume;
use sd_drive::Drive;
use sd_driver::Driver;
use sd_machine::{Event, Reply};
use sd_volume::Volume;

/// Answers an event that a line answers at the drive of this number. Any other is a bad command.
pub(crate) fn operate<D: Driver>(drive: &mut Drive<D>, own: DriveNo, event: &Event) -> Reply
    ensures { Operates (λ d. D.meaning d) own event.now result drive.old drive.new }
{
    if operated_at(event) != Some(own) {
        return Reply::Refused(Refusal::BadCommand);
    }
    match event {
        Event::Sync { .. } => sync(drive),
        Event::Label {
            name,
            pool,
            media,
            moment,
            ..
        } => label(drive, name, pool, media, *moment),
        Event::Adopt { name, .. } => adopt(drive, name),
        Event::Mount { name, .. } => mount(drive, name),
        Event::Unmount { .. } => unmount(drive),
        Event::Seek { .. } => seek(drive),
        _ => unreachable!(),
    }
}

// The drive at which a line answers the event.
fn operated_at(event: &Event) -> Option<DriveNo>
    ensures { result ≡ operated_at event.now }
{
    match event {
        Event::Sync { drive }
        | Event::Label { drive, .. }
        | Event::Adopt { drive, .. }
        | Event::Mount { drive, .. }
        | Event::Unmount { drive }
        | Event::Seek { drive } => Some(*drive),
        _ => None,
    }
}

// Makes the blocks of the drive's loaded volume last.
fn sync<D: Driver>(drive: &mut Drive<D>) -> Reply
    ensures { (own : ℕ) → AnswersAlone (λ d. D.meaning d) own (Sync own) result
        drive.old drive.new }
{
    match drive.sync() {
        Ok(()) => Reply::Synced,
        Err(why) => Reply::Refused(why),
    }
}

// Labels a new volume.
fn label<D: Driver>(
    drive: &mut Drive<D>,
    name: &VolName,
    pool: &PoolName,
    media: &MediaName,
    moment: i64,
) -> Reply
    ensures { (own : ℕ) → AnswersAlone (λ d. D.meaning d) own
        (Label own name.now pool.now media.now moment) result drive.old drive.new }
{
    match drive.label(name, pool, media, moment) {
        Ok(()) => Reply::Labelled,
        Err(why) => Reply::Refused(why),
    }
}

// Takes over a volume that an earlier run left.
fn adopt<D: Driver>(drive: &mut Drive<D>, name: &VolName) -> Reply
    ensures { (own : ℕ) → AnswersAlone (λ d. D.meaning d) own (Adopt own name.now) result
        drive.old drive.new }
{
    match drive.adopt(name) {
        Ok(adopted) => Reply::Adopted {
            end: adopted.end,
            next: adopted.next_number,
        },
        Err(why) => Reply::Refused(why),
    }
}

// Loads the drive's volume of that name in place of the one that is loaded.
fn mount<D: Driver>(drive: &mut Drive<D>, name: &VolName) -> Reply
    ensures { (own : ℕ) → AnswersAlone (λ d. D.meaning d) own (Mount own name.now) result
        drive.old drive.new }
{
    match drive.mount(name) {
        Ok(()) => Reply::Mounted { name: name.copy() },
        Err(why) => Reply::Refused(why),
    }
}

// Makes the blocks of the drive's loaded volume last, and takes it out.
fn unmount<D: Driver>(drive: &mut Drive<D>) -> Reply
    ensures { (own : ℕ) → AnswersAlone (λ d. D.meaning d) own (Unmount own) result
        drive.old drive.new }
{
    match drive.unmount() {
        Ok(()) => Reply::Unmounted,
        Err(why) => Reply::Refused(why),
    }
}

// Loads the first of the drive's volumes that takes blocks of its pool, if it needs one.
fn seek<D: Driver>(drive: &mut Drive<D>) -> Reply
    ensures { (own : ℕ) → AnswersAlone (λ d. D.meaning d) own (Seek own) result
        drive.old drive.new }
{
    let Some(pool) = drive.wanted_pool() else {
        return Reply::NoNeed;
    };
    drive.know();
    match next_volume(drive.volumes(), &pool) {
        Some(name) => mount(drive, &name),
        None => Reply::Requested,
    }
}

/// What a label or an adoption of the drive of this number is answered if there is no memory for the volume that it brings.
pub(crate) fn refusal_without_room<D: Driver>(
    drive: &Drive<D>,
    own: DriveNo,
    event: &Event,
) -> Option<Reply>
    ensures { IfSome result (λ reply. Operates (λ d. D.meaning d) own event.now reply
        drive.now drive.now) }
{
    match event {
        Event::Label {
            drive: at,
            name,
            media,
            ..
        } if *at == own => Some(Reply::Refused(label_without_room(drive, name, media))),
        Event::Adopt { drive: at, name } if *at == own => {
            Some(Reply::Refused(adopt_without_room(drive, name)))
        }
        _ => None,
    }
}

// Why a volume isn't labelled, if there is no memory for it.
fn label_without_room<D: Driver>(drive: &Drive<D>, name: &VolName, media: &MediaName) -> Refusal
    ensures { (own : ℕ) (pool : List ℕ) (moment : ℤ) → AnswersAlone (λ d. D.meaning d) own
        (Label own name.now pool media.now moment) (Refused result) drive.now drive.now }
{
    if !media.is_same(drive.media()) {
        return Refusal::OtherPoolOrMedia;
    }
    if drive.loaded().is_some() {
        return Refusal::InUse;
    }
    if has_name(drive.volumes(), name) {
        return Refusal::AlreadyLabelled;
    }
    Refusal::Memory
}

// Why a volume isn't taken over, if there is no memory for it.
fn adopt_without_room<D: Driver>(drive: &Drive<D>, name: &VolName) -> Refusal
    ensures { (own : ℕ) → AnswersAlone (λ d. D.meaning d) own
        (Adopt own name.now) (Refused result) drive.now drive.now }
{
    if has_name(drive.volumes(), name) {
        return Refusal::AlreadyLabelled;
    }
    if drive.loaded().is_some() {
        return Refusal::InUse;
    }
    Refusal::Memory
}

// Whether one of the volumes has that name.
fn has_name(volumes: &[Volume], name: &VolName) -> bool
    ensures { result ≡ is_some (index_of volumes.now name.now) }
{
    place_of(volumes, name).is_some()
}

// The place of the volume of that name.
fn place_of(volumes: &[Volume], name: &VolName) -> Option<usize>
    ensures { result ≡ index_of volumes.now name.now }
{
    volumes
        .iter()
        .position(|volume| volume.name().is_same(name))
}
