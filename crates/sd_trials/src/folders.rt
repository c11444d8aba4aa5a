// The examples over folders in memory, by the device and the spools that the daemon has over folders of the system.
ghost use Rattle.std.specs.Prelude.{◌≤◌, IfOk};
ghost use Rattle.sd_driver.specs.Meaning.{IsHonest};
ghost use Rattle.sd_filedrive.specs.Drive.{meaning_of};

use crate::events::{are_records_of, deeds_of, events_of};
use crate::failing::{Came, NONE, Tally, WAYS, WRONG, play as play_failing};
use crate::listed::{Closed, TIME};
use crate::rows::Row;
use crate::stops::{LATER, TAIL, Told, adopts, device_of, play};
use crate::worlds::{
    CAPACITY, MemoryFolderSpool, drives, folder_stores, queues, settings, world_over,
};
use sd_base::Rec;
use sd_filedrive::FolderDrive;
use sd_memfolder::{Call, Fail, MemoryFolder};
use sd_plan::When;
use sd_theorem::{leave_folder, read_again_over, run_and_read_over};
use std::alloc::{AllocError, Global};
use std::io;

static CALLS: [Call; 7] = [
    Call::Create,
    Call::Open,
    Call::Look,
    Call::Read,
    Call::Append,
    Call::Sync,
    Call::Cut,
];

/// No example makes so many calls of one kind.
const MOST_CALLS: u64 = 400;

// Whose folder has a call that fails.
#[derive(Clone, Copy)]
enum Of {
    Device,
    Spool,
}

/// Gives a world all events of an example at once. Then each closed session is read by `run_and_read_over`, in a world of its
/// own that is given the same list.
pub fn list(rt: HostRuntime, row: &Row) -> io::Result<()> {
    let alloc = rt.alloc();
    let (_, closed) = play_all(alloc, row, row.closes.len())?;
    let (name, count, read) = (row.name, closed.len(), read_alone(alloc, row, &closed)?);
    println!(rt;
        "{name} over a folder: a list of events closes {count} sessions, of which {read} read to their records"
    )
}

// How many of these read to their records in a world of their own.
fn read_alone(alloc: Global, row: &Row, closed: &[Closed]) -> io::Result<u32> {
    let mut read = 0u32;
    for one in closed {
        if reads_alone(alloc, row, one)? {
            read = read.saturating_add(1);
        }
    }
    Ok(read)
}

/// Stops the folder after each of its changes. Each session that was told to be closed by then is read in a later run, which
/// took over the volumes.
pub fn stop(rt: HostRuntime, row: &Row) -> io::Result<()> {
    let alloc = rt.alloc();
    let (device, closed) = play_all(alloc, row, row.closes.len())?;
    let told = told_by(alloc, row, closed)?;
    let (due, read) = read_after_stops(alloc, row, &device, &told)?;
    let (name, stops) = (row.name, device.folder().calls().saturating_add(1));
    println!(rt;
        "{name} over a folder: {stops} stops, after which {read} of {due} sessions told to be closed read to their records"
    )
}

// How many sessions were closed before stops, each counted for each stop, and how many of them read to their records.
fn read_after_stops(
    alloc: Global,
    row: &Row,
    device: &FolderDrive<MemoryFolder>,
    told: &[Told],
) -> io::Result<(u32, u32)> {
    let (mut due, mut read) = (0u32, 0u32);
    for calls in 0..=device.folder().calls() {
        for one in told.iter().filter(|one| one.calls <= calls) {
            due = due.saturating_add(1);
            if is_read_after(alloc, row, device, calls, &one.closed)? {
                read = read.saturating_add(1);
            }
        }
    }
    Ok((due, read))
}

/// Plays the example with each call of the device's folder failing, and with each call of the first lane's spool's, in each way.
/// After a sync that failed the device reads no volume past the place that its last sync reached: a closed session that it can't
/// read for that is read in a later run.
pub fn fail(rt: HostRuntime, row: &Row) -> io::Result<()> {
    let alloc = rt.alloc();
    let (mut all, mut later) = (NONE, 0u32);
    for folder in &[Of::Device, Of::Spool] {
        for call in &CALLS {
            for when in &WAYS {
                let (tally, more) = failing(alloc, row, *folder, *call, *when)?;
                all = all.and(tally);
                later = later.saturating_add(more);
            }
        }
    }
    let name = row.name;
    let Tally {
        faults,
        read,
        failed,
        wrong,
    } = all;
    println!(rt;
        "{name} over a folder: {faults} runs met a fault; {read} sessions closed and read to their records, {later} in a later run, {failed} failed, {wrong} wrong"
    )
}

// Plays an example of which so many sessions are closed, with no call that fails.
fn play_all(
    alloc: Global,
    row: &Row,
    closes: usize,
) -> io::Result<(FolderDrive<MemoryFolder>, Vec<Closed>)> {
    let stores = folder_stores(alloc, &[])?;
    play(alloc, row, device(alloc, &[])?, stores, closes)
}

// A device over a folder in memory with this plan.
fn device(alloc: Global, plan: &[Fail]) -> Result<FolderDrive<MemoryFolder>, AllocError>
    ensures { IfOk result (λ device. IsHonest (meaning_of device)) }
{
    let folder = MemoryFolder::new(alloc, CAPACITY, plan)?;
    Ok(FolderDrive::of_folder(folder, alloc))
}

// Whether the session reads to its records in another world that is given the same events.
fn reads_alone(alloc: Global, row: &Row, closed: &Closed) -> io::Result<bool> {
    let deeds = deeds_of(alloc, row)?;
    let events = events_of(alloc, &deeds)?;
    let conf = settings(row, drives(alloc)?);
    let devices = vec![in alloc; device(alloc, &[])?]?;
    let stores = folder_stores(alloc, &[])?;
    let mut recs: Vec<Rec> = Vec::new(alloc);
    let told = run_and_read_over(
        alloc,
        conf,
        TIME,
        devices,
        queues(alloc)?,
        stores,
        events,
        closed.key,
        closed.spans.as_slice(),
        &mut recs,
    );
    let Some(told) = told else {
        return Err(io::ErrorKind::OutOfMemory.into());
    };
    match told.end {
        Ok(end) => Ok(end.ended && are_records_of(row, closed.ticket, &recs)),
        Err(_) => Ok(false),
    }
}

// The sessions, each with how many changes the folder had seen when it was told to be closed.
fn told_by(alloc: Global, row: &Row, closed: Vec<Closed>) -> io::Result<Vec<Told>> {
    let mut told = Vec::with_capacity(alloc, closed.len())?;
    let mut closes = closed.len();
    for one in closed {
        let (device, _) = play_all(alloc, row, closes)?;
        let calls = device.folder().calls();
        told.push(Told { closed: one, calls })?;
        closes = closes.saturating_sub(1);
    }
    Ok(told)
}

// Whether a session reads to its records in a run after a stop.
fn is_read_after(
    alloc: Global,
    row: &Row,
    device: &FolderDrive<MemoryFolder>,
    calls: u64,
    closed: &Closed,
) -> io::Result<bool>
    requires { calls ≤ (meaning_of device.now).shelf.moment }
{
    let left = leave_folder::<MemoryFolderSpool>(alloc, device, calls, &TAIL)?;
    let mut world = world_over(alloc, row, LATER, left, folder_stores(alloc, &[])?)?;
    if !adopts(&mut world, closed)? {
        return Ok(false);
    }
    let mut recs: Vec<Rec> = Vec::new(alloc);
    match read_again_over(&mut world, closed.key, closed.spans.as_slice(), &mut recs) {
        Ok(end) => Ok(end.ended && are_records_of(row, closed.ticket, &recs)),
        Err(_) => Ok(false),
    }
}

// The runs in which a call of that folder fails, up to the one that meets no fault; and how many sessions were read in a later run.
fn failing(
    alloc: Global,
    row: &Row,
    folder: Of,
    call: Call,
    when: When,
) -> io::Result<(Tally, u32)> {
    let (mut all, mut later) = (NONE, 0u32);
    for nth in 1..MOST_CALLS {
        let (came, more) = failing_at(alloc, row, folder, Fail { call, nth, when })?;
        all = all.and(came.tally);
        later = later.saturating_add(more);
        if !came.has_fault {
            return Ok((all, later));
        }
    }
    Ok((all, later))
}

// The run in which this call fails; and how many of the sessions that its device can't read are read in a later run.
fn failing_at(alloc: Global, row: &Row, folder: Of, fail: Fail) -> io::Result<(Came, u32)> {
    let (device, stores) = match folder {
        Of::Device => (device(alloc, &[fail])?, folder_stores(alloc, &[])?),
        Of::Spool => (device(alloc, &[])?, folder_stores(alloc, &[fail])?),
    };
    let (came, unread, world) = play_failing(alloc, row, device, stores)?;
    let device = device_of(world)?;
    let (wrong, later) = read_later(alloc, row, &device, &unread)?;
    let tally = came.tally.and(wrong);
    Ok((Came { tally, ..came }, later))
}

// Reads these sessions in a later run: what is wrong with those that don't read to their records, and how many others there are.
fn read_later(
    alloc: Global,
    row: &Row,
    device: &FolderDrive<MemoryFolder>,
    unread: &[Closed],
) -> io::Result<(Tally, u32)> {
    let (mut all, mut later) = (NONE, 0u32);
    for one in unread {
        if is_read_after(alloc, row, device, device.folder().calls(), one)? {
            later = later.saturating_add(1);
        } else {
            all = all.and(WRONG);
        }
    }
    Ok((all, later))
}
