// The drives of a configuration.
ghost use Rattle.std.specs.Prelude.{◌≡◌, ◌≤◌, length, All, IfOk};
ghost use Rattle.std.specs.List.{AllZip};
ghost use Rattle.sd_base.specs.Limits.{most_number};
ghost use Rattle.sd_conf.specs.Conf.{IsDriveWithinLimits, IsWithinLimits};
ghost use Rattle.sd_drive.specs.Limits.{AreLimits};
ghost use Rattle.sd_daemon.specs.Setup.{HasFolder, IsUnusedOf, limits_in};

use sd_conf::{Conf, DriveConf};
use sd_drive::Limits;
use sd_filedrive::FileDrive;
use sd_lines::UnusedDrive;
use std::alloc::AllocError;
use std::sync::Wait;

/// A drive over a folder of files, of which nothing was used yet.
pub(crate) type UnusedFiles<W> = UnusedDrive<FileDrive<HostRuntime>, W>;

/// The drives of a configuration for the run of this time in seconds, in their order, each over its folder. No file is looked
/// at.
pub(crate) fn unused_drives<W: Wait + Copy + Drop>(
    rt: &HostRuntime,
    wait: W,
    conf: &Conf,
    time: u32,
) -> Result<Vec<UnusedFiles<W>>, AllocError>
    requires within { IsWithinLimits conf.now }
    requires time_least { 1 ≤ time }
    requires time_most { time ≤ most_number }
    ensures { IfOk result
        (λ drives. AllZip (IsUnusedOf conf.now time) conf.now.drives drives.items) }
{
    unused_of(rt, wait, conf, time, conf.drives.as_slice())
}

// These drives for the run of this time, in their order. Calls itself for those before the last one.
fn unused_of<W: Wait + Copy + Drop>(
    rt: &HostRuntime,
    wait: W,
    conf: &Conf,
    time: u32,
    drives: &[DriveConf],
) -> Result<Vec<UnusedFiles<W>>, AllocError>
    requires within { IsWithinLimits conf.now }
    requires drives { All IsDriveWithinLimits drives.now }
    requires time_least { 1 ≤ time }
    requires time_most { time ≤ most_number }
    ensures { IfOk result (λ all. AllZip (IsUnusedOf conf.now time) drives.now all.items) }
{
    let Some((last, front)) = drives.split_last() else {
        return Ok(Vec::new(rt.alloc()));
    };
    let mut all = unused_of(rt, wait, conf, time, front)?;
    let drive = unused_drive(rt, wait, conf, time, last)?;
    all.push(drive)?;
    Ok(all)
}

// A drive of a configuration.
fn unused_drive<W: Wait + Copy + Drop>(
    rt: &HostRuntime,
    wait: W,
    conf: &Conf,
    time: u32,
    drive: &DriveConf,
) -> Result<UnusedFiles<W>, AllocError>
    requires within { IsWithinLimits conf.now }
    requires drive { IsDriveWithinLimits drive.now }
    requires time_least { 1 ≤ time }
    requires time_most { time ≤ most_number }
    ensures { IfOk result (IsUnusedOf conf.now time drive.now) }
{
    let alloc = rt.alloc();
    let device = FileDrive::new(rt.clone()?, alloc, drive.folder.as_str())?;
    let limits = limits_of(conf, time);
    let media = drive.media.copy();
    match UnusedDrive::new(wait, alloc, device, media, limits, drive.lanes, conf.queue) {
        Ok(unused) => Ok(unused),
        Err(_) => Err(AllocError),
    }
}

// The limits of each drive.
fn limits_of(conf: &Conf, time: u32) -> Limits
    requires within { IsWithinLimits conf.now }
    requires time_least { 1 ≤ time }
    requires time_most { time ≤ most_number }
    ensures same { result ≡ limits_in conf.now time }
    ensures limits { AreLimits result }
{
    Limits {
        block: conf.block,
        volume: conf.volume,
        spool: conf.spool,
        time,
        host: Some(conf.host.copy()),
    }
}

/// A device over the folder of each drive. Calls itself for the drives before the last one.
pub(crate) fn devices_of(
    rt: &HostRuntime,
    drives: &[DriveConf],
) -> Result<Vec<FileDrive<HostRuntime>>, AllocError>
    ensures folders { IfOk result (λ devices. AllZip HasFolder drives.now devices.items) }
    ensures many { IfOk result (λ devices. length devices.items ≡ length drives.now) }
{
    let alloc = rt.alloc();
    let Some((last, front)) = drives.split_last() else {
        return Ok(Vec::new(alloc));
    };
    let mut devices = devices_of(rt, front)?;
    let device = FileDrive::new(rt.clone()?, alloc, last.folder.as_str())?;
    devices.push(device)?;
    Ok(devices)
}
