// What the talks and workers of a daemon share.
ghost use Rattle.std.specs.Prelude.{◌≡◌, ◌≤◌, ◌+◌, length, map, IfOk, IfSome};
ghost use Rattle.sd_base.specs.Limits.{most_lanes};
ghost use Rattle.sd_spool.specs.FileSpool.{path_of};
ghost use Rattle.sd_daemon.specs.Setup.{AreNamed, lane_paths, spool_folder_of};

use crate::drives::UnusedFiles;
use sd_base::{DriveNo, LaneNo, MOST_LANES};
use sd_conf::{Conf, DriveConf};
use sd_filedrive::FileDrive;
use sd_line::Naming;
use sd_lines::Hub;
use sd_spool::FileSpool;
use std::alloc::AllocError;
use std::sync::Wait;
use std::time::Clock;

/// What the talks and workers of a daemon share, whose volumes and spools are files.
pub(crate) type FileHub<N, W> = Hub<FileDrive<HostRuntime>, N, W, FileSpool<HostRuntime>>;

/// The folder of the spools if a configuration names none, as it may if nothing is spooled.
const HERE: &str = ".";

/// What the talks and workers of a daemon share: these drives of its configuration, which are the drives 1, 2 and on, each lane
/// with a spool of its own. No file is looked at. Whether the lines are settled at the end.
pub(crate) fn hub_of<N: Naming, W: Wait + Clock + Copy + Drop>(
    rt: &HostRuntime,
    wait: W,
    conf: &Conf,
    time: u32,
    drives: Vec<UnusedFiles<W>>,
    settles: bool,
) -> Result<FileHub<N, W>, AllocError>
    requires { AreNamed N.table N.time drives.items }
{
    let mut hub = Hub::new(wait, rt.alloc(), time, settles);
    add_drives(rt, conf, conf.drives.as_slice(), drives, &mut hub)?;
    Ok(hub)
}

// Adds these drives to a hub, one after another. Calls itself for those before the last one.
fn add_drives<N: Naming, W: Wait + Clock + Copy + Drop>(
    rt: &HostRuntime,
    conf: &Conf,
    confs: &[DriveConf],
    mut drives: Vec<UnusedFiles<W>>,
    hub: &mut FileHub<N, W>,
) -> Result<(), AllocError>
    requires { AreNamed N.table N.time drives.items }
{
    let (Some((last, front)), Some(drive)) = (confs.split_last(), drives.pop()) else {
        return Ok(());
    };
    let before = drives.len();
    add_drives(rt, conf, front, drives, hub)?;
    let Some(no) = number_behind(before) else {
        return Err(AllocError);
    };
    let stores = lanes_of(rt, spool_folder(conf), no, last.lanes.min(MOST_LANES))?;
    match hub.add_drive(no, drive, stores) {
        Ok(()) => Ok(()),
        Err(_) => Err(AllocError),
    }
}

// The number of the drive after so many.
fn number_behind(drives: usize) -> Option<DriveNo>
    ensures { IfSome result (λ no. no ≡ drives + 1) }
{
    DriveNo::new(u32::try_from(drives).ok()?.checked_add(1)?)
}

// The folder of the spools.
fn spool_folder(conf: &Conf) -> &str
    ensures { result.now ≡ spool_folder_of conf.now }
{
    match &conf.spool_folder {
        Some(folder) => folder.as_str(),
        None => HERE,
    }
}

// A spool for each of so many lanes of a drive. Calls itself for the lanes before the last one.
fn lanes_of(
    rt: &HostRuntime,
    folder: &str,
    drive: DriveNo,
    lanes: u32,
) -> Result<Vec<FileSpool<HostRuntime>>, AllocError>
    requires { lanes ≤ most_lanes }
    ensures many { IfOk result (λ spools. length spools.items ≡ lanes) }
    ensures files { IfOk result (λ spools. map path_of spools.items ≡ lane_paths folder.now drive
        lanes) }
{
    let alloc = rt.alloc();
    let Some(lane) = LaneNo::new(lanes) else {
        return Ok(Vec::new(alloc));
    };
    let mut spools = lanes_of(rt, folder, drive, lanes - 1)?;
    let spool = FileSpool::new(rt.clone()?, alloc, folder, drive, lane)?;
    spools.push(spool)?;
    Ok(spools)
}
