// The daemon from its configuration on.
ghost use Rattle.std.specs.Prelude.{◌≡◌, ◌≤◌, IfErr, IfSome};
ghost use Rattle.sd_base.specs.Limits.{most_number};
ghost use Rattle.sd_conf.specs.Conf.{IsWithinLimits};
ghost use Rattle.sd_conf.specs.declared.conf.Conf.{Conf};
ghost use Rattle.sd_daemon.specs.Locks.{AreLocksOf, IsFaultIn};
ghost use Rattle.sd_daemon.specs.Setup.{AreNamed};

use crate::address::address_of;
use crate::drives::{UnusedFiles, unused_drives};
use crate::hub::{FileHub, hub_of};
use crate::locks::{FolderLocks, lock_all};
use crate::metering::Metering;
use crate::note_keeping::NoteKeeping;
use crate::planning::Plan;
use crate::port_fault::PortFault;
use crate::run::{Bounds, Run};
use crate::settling::settle_drives;
use crate::shared::share;
use crate::starting::{adopt_folders, claim_names};
use crate::talks::FileTalks;
use crate::threads::hold_talks;
use sd_base::DriveNo;
use sd_conf::{Conf, Text};
use sd_filedrive::FileDrive;
use sd_line::Naming;
use sd_lines::shares_hub;
use sd_serve::{Connections, Listening, Log, Serving, since_1970, time_of};
use sd_spool::FileSpool;
use std::io::{self, ErrorKind, Write};
use std::marker::Brand;
use std::sync::Wait;
use std::thread::Threads;
use std::time::Clock;

/// Why nothing is served.
#[derive(Debug, Drop)]
pub enum ServeFault {
    /// The clock's time is no time of a run.
    Time,
    /// The port can't be had.
    Port(PortFault),
    /// Another process has this folder of a drive, or of the spools, locked.
    Folder(Text),
    /// There is no memory for the locks or for the drives, or no thread for a worker.
    Memory,
}

/// Serves clients on the port of the configuration and on 127.0.0.1 alone, each in a thread of its own, over drives of files
/// that are new: their run's time is the clock's. Meanwhile it has the folders of the drives and of the spools locked. Ends
/// after so many talks, or after those that began before a file was there. If a number of talks was given, it then settles the
/// line of each drive, and answers which of them can't be settled.
pub fn serve<W: Threads + Wait + Clock + Send + Sync + Copy + Drop, L: Write + Send + Drop>(
    rt: &HostRuntime,
    wait: W,
    conf: &Conf,
    bounds: Bounds<'_>,
    log: &Log<L>,
) -> Result<Vec<DriveNo>, ServeFault>
    requires { IsWithinLimits conf.now }
    ensures fault { IfErr result (IsFaultIn conf.now) }
{
    let Some(time) = time_now(rt) else {
        return Err(ServeFault::Time);
    };
    let listening = match Listening::at(rt, address_of(conf)) {
        Ok(listening) => listening,
        Err(fault) => return Err(port_fault(conf.port, &fault)),
    };
    let locks = lock_all(rt, conf)?;
    let Ok(mut drives) = unused_drives(rt, wait, conf, time) else {
        return Err(ServeFault::Memory);
    };
    let run = Run {
        rt,
        wait,
        conf,
        time,
        bounds,
        log,
    };
    let Ok(start) = adopt_folders(&run, &mut drives) else {
        return Err(ServeFault::Memory);
    };
    serve_drives::<Brand, W, L>(&run, &listening, drives, &start, &locks)
}

// Serves clients over these drives. It is lent the locks of the folders, so that they are let go after it.
fn serve_drives<
    N: Naming + Send + Sync,
    W: Threads + Wait + Clock + Send + Sync + Copy + Drop,
    L: Write + Send + Drop,
>(
    run: &Run<'_, W, L>,
    listening: &Listening,
    drives: Vec<UnusedFiles<W>>,
    start: &Plan,
    _locks: &FolderLocks,
) -> Result<Vec<DriveNo>, ServeFault>
    requires locked { AreLocksOf run.now.conf.now _locks.now }
    requires named { AreNamed N.table N.time drives.items }
    ensures fault { IfErr result (IsFaultIn run.now.conf.now) }
{
    let conf = run.conf;
    // One that ends after so many talks is settled. Any other may run for months, and would keep each session for it.
    let settles = run.bounds.talks > 0;
    let Ok(mut hub) = hub_of::<N, W>(run.rt, run.wait, conf, run.time, drives, settles) else {
        return Err(ServeFault::Memory);
    };
    let Ok(()) = claim_names(&mut hub, start) else {
        return Err(ServeFault::Memory);
    };
    if !hold_all(run, listening, &hub, start) {
        return Err(ServeFault::Memory);
    }
    if !settles {
        return Ok(Vec::new(run.rt.alloc()));
    }
    match settle_drives(hub, run.log) {
        Ok(unsettled) => Ok(unsettled),
        Err(_) => Err(ServeFault::Memory),
    }
}

// Holds the talks of a run.
fn hold_all<
    N: Naming + Send + Sync,
    W: Threads + Wait + Clock + Send + Sync + Copy + Drop,
    L: Write + Send + Drop,
>(run: &Run<'_, W, L>, listening: &Listening, hub: &FileHub<N, W>, start: &Plan) -> bool {
    let Ok(connections) = Connections::new(run.rt.alloc()) else {
        return false;
    };
    let Ok(notes) = NoteKeeping::of(hub, start) else {
        return false;
    };
    let connections = &connections;
    let metering = Metering::new(run.bounds.metrics);
    let talks = FileTalks {
        rt: run.rt,
        wait: run.wait,
        conf: run.conf,
        time: run.time,
        hub,
        log: run.log,
        connections,
        patience: run.bounds.wait,
        metering: &metering,
        start,
        notes: &notes,
    };
    shares_hub::<N, FileSpool<HostRuntime>, FileDrive<HostRuntime>, W>();
    share(run.rt);
    share(run.conf);
    share(hub);
    share(run.log);
    share(connections);
    share(start);
    share(&notes);
    talks.write_first_notes();
    let serving = Serving {
        connections: bound_of(run.bounds.talks),
        until: run.bounds.until,
    };
    hold_talks(run.rt, &run.wait, listening, serving, connections, &talks)
}

// The fault of a port that can't be had. Out of memory is told as such.
fn port_fault(port: u16, fault: &io::Error) -> ServeFault
    ensures { (conf : Conf) → IsFaultIn conf result }
{
    let why = fault.kind();
    if matches!(why, ErrorKind::OutOfMemory) {
        return ServeFault::Memory;
    }
    ServeFault::Port(PortFault { port, why })
}

// The time of a run that begins now, in seconds.
fn time_now(rt: &HostRuntime) -> Option<u32>
    ensures { IfSome result (λ time. (1 ≤ time) × (time ≤ most_number)) }
{
    let since = since_1970(rt)?;
    time_of(since)
}

// After how many connections the daemon ends; with 0, after more than there can be.
fn bound_of(talks: u32) -> u64 {
    if talks == 0 {
        return u64::MAX;
    }
    u64::from(talks)
}
