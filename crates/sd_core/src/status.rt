// What a world shows of itself.
ghost use Rattle.std.specs.Prelude.{◌≡◌, ◌≤◌, ◌<◌, ◌+◌, ◌++◌, ℕ, length, map, IfOk, OnOk, not};
ghost use Rattle.std.specs.List.{count_by};
ghost use Rattle.sd_base.specs.Limits.{most_drives, most_lanes, most_number};
ghost use Rattle.sd_world.specs.Rules.{NumbersRise};
ghost use Rattle.sd_world.specs.World.{busy_lanes};
ghost use Rattle.sd_core.specs.Drives.{HaveFewLanes};
ghost use Rattle.sd_core.specs.View.{drive_line, drive_lines, lines_of, loaded_in, session_line, volume_line, volume_lines};

use sd_base::{DriveNo, Items, Ticket};
use sd_driver::Driver;
use sd_events::{Bay, SessionEntry, free_lanes};
use sd_lane::Lanes;
use sd_machine::{DriveLine, Loaded, SessionLine, VolumeLine};
use sd_spool::SpoolStore;
use sd_volume::Volume;
use std::alloc::{AllocError, Global};

/// A line for each drive, by rising number.
pub(crate) fn show_drives<D: Driver, Q: Lanes, S: SpoolStore + Drop>(
    alloc: Global,
    sessions: &[SessionEntry<S>],
    bays: &[Bay<D, Q, S>],
) -> Result<Items<DriveLine>, AllocError>
    requires rise { (time : ℕ) × (next : ℕ) × NumbersRise time 1 next sessions.now }
    requires most { length bays.now ≤ most_drives }
    requires lanes { HaveFewLanes bays.now }
    ensures { IfOk result (λ lines. lines ≡ drive_lines sessions.now 0 bays.now) }
{
    let mut lines = Vec::with_capacity(alloc, bays.len())?;
    for bay in bays {
        let at = lines.len();
        lines.push_reserved(show_drive(sessions, at, bay));
    }
    Ok(Items::from_vec(lines))
}

// The line of the drive in this bay, at this place.
fn show_drive<D: Driver, Q: Lanes, S: SpoolStore + Drop>(
    sessions: &[SessionEntry<S>],
    at: usize,
    bay: &Bay<D, Q, S>,
) -> DriveLine
    requires rise { (time : ℕ) × (next : ℕ) × NumbersRise time 1 next sessions.now }
    requires at { at < most_drives }
    requires lanes { length bay.now.lanes ≤ most_lanes }
    ensures { result ≡ drive_line sessions.now at bay.now }
{
    DriveLine {
        drive: DriveNo::new(at as u32 + 1).unwrap(),
        media: bay.media.copy(),
        loaded: show_loaded(bay),
        sessions: count_busy(sessions, bay),
    }
}

// What is loaded in the drive of this bay.
fn show_loaded<D: Driver, Q: Lanes, S: SpoolStore>(bay: &Bay<D, Q, S>) -> Loaded
    ensures { result ≡ loaded_in bay.now.drive }
{
    let Some(drive) = &bay.drive else {
        return Loaded::Offline;
    };
    drive.know();
    match drive.loaded() {
        Some(at) => Loaded::Volume(drive.volumes()[at].name().copy()),
        None => Loaded::Nothing,
    }
}

// How many lanes of the drive aren't free; none of one that is retired.
fn count_busy<D: Driver, Q: Lanes, S: SpoolStore + Drop>(
    sessions: &[SessionEntry<S>],
    bay: &Bay<D, Q, S>,
) -> usize
    requires rise { (time : ℕ) × (next : ℕ) × NumbersRise time 1 next sessions.now }
    requires lanes { length bay.now.lanes ≤ most_lanes }
    ensures { result ≡ busy_lanes sessions.now bay.now.drive bay.now.lanes }
{
    let Some(drive) = &bay.drive else {
        return 0;
    };
    let free = free_lanes(sessions, drive, &bay.lanes);
    count_false(free.as_slice())
}

// How many of them are false.
fn count_false(answers: &[bool]) -> usize
    ensures { result ≡ count_by not answers.now }
{
    let mut count = 0;
    for answer in answers {
        if !*answer {
            count += 1;
        }
    }
    count
}

/// A line for each volume of the drives that are online, in the order of drives, and of labelling and adoption.
pub(crate) fn show_volumes<D: Driver, Q: Lanes, S: SpoolStore>(
    alloc: Global,
    bays: &[Bay<D, Q, S>],
) -> Result<Items<VolumeLine>, AllocError>
    ensures { IfOk result (λ lines. lines ≡ volume_lines bays.now) }
{
    let mut lines = Vec::new(alloc);
    for bay in bays {
        add_bay(bay, &mut lines)?;
    }
    Ok(Items::from_vec(lines))
}

// Adds a line for each volume of the drive in this bay.
fn add_bay<D: Driver, Q: Lanes, S: SpoolStore>(
    bay: &Bay<D, Q, S>,
    lines: &mut Vec<VolumeLine>,
) -> Result<(), AllocError>
    ensures { OnOk result (lines.new.items ≡ lines.old.items ++ lines_of bay.now.drive) }
{
    match &bay.drive {
        Some(drive) => add_volumes(drive.volumes(), lines),
        None => Ok(()),
    }
}

// Adds a line for each of these volumes.
fn add_volumes(volumes: &[Volume], lines: &mut Vec<VolumeLine>) -> Result<(), AllocError>
    ensures { OnOk result (lines.new.items ≡ lines.old.items ++ map volume_line volumes.now) }
{
    for volume in volumes {
        lines.push(show_volume(volume))?;
    }
    Ok(())
}

// The line of this volume.
fn show_volume(volume: &Volume) -> VolumeLine
    ensures { result ≡ volume_line volume.now }
{
    VolumeLine {
        name: volume.name().copy(),
        pool: volume.pool().copy(),
        media: volume.media().copy(),
        status: volume.status(),
        end: volume.end(),
    }
}

/// A line for each session, by rising ticket.
pub(crate) fn show_sessions<S: SpoolStore + Drop>(
    alloc: Global,
    sessions: &[SessionEntry<S>],
) -> Result<Items<SessionLine>, AllocError>
    requires rise { (time : ℕ) × (next : ℕ) × (next ≤ most_number + 1)
        × NumbersRise time 1 next sessions.now }
    ensures { IfOk result (λ lines. lines ≡ map session_line sessions.now) }
{
    let mut lines = Vec::with_capacity(alloc, sessions.len())?;
    for entry in sessions {
        lines.push_reserved(show_session(entry));
    }
    Ok(Items::from_vec(lines))
}

// The line of this session.
fn show_session<S: SpoolStore + Drop>(entry: &SessionEntry<S>) -> SessionLine
    requires least { 1 ≤ entry.now.session.key.id }
    requires most { entry.now.session.key.id ≤ most_number }
    ensures { result ≡ session_line entry.now }
{
    let session = &entry.session;
    SessionLine {
        ticket: Ticket::new(session.key().id).unwrap(),
        status: session.status(),
        records: session.records(),
    }
}
