// What a daemon does with the volumes of its folders before it serves clients.
ghost use Rattle.std.specs.Prelude.{◌≡◌, false};
ghost use Rattle.std.specs.List.{AllZip};
ghost use Rattle.sd_daemon.specs.Setup.{IsUnusedOf};

use crate::adopting::adopt_planned;
use crate::drives::UnusedFiles;
use crate::hub::FileHub;
use crate::judging::judge_folders;
use crate::planning::{Plan, Planned, number_at, plan_all};
use crate::run::Run;
use crate::takeover::damaged_at;
use sd_base::{DriveNo, Refusal, VolName};
use sd_line::Naming;
use std::alloc::AllocError;
use std::io::Write;
use std::sync::Wait;
use std::thread::Threads;
use std::time::Clock;

/// Judges the volumes of the drives' folders and has the drives adopt them, if that is asked for. Only want of memory ends
/// that.
pub(crate) fn adopt_folders<
    W: Threads + Wait + Clock + Send + Sync + Copy + Drop,
    L: Write + Send + Drop,
>(run: &Run<'_, W, L>, drives: &mut Vec<UnusedFiles<W>>) -> Result<Plan, AllocError>
    requires { AllZip (IsUnusedOf run.now.conf.now run.now.time) run.now.conf.now.drives
        drives.old.items }
    ensures unused { AllZip (IsUnusedOf run.now.conf.now run.now.time) run.now.conf.now.drives
        drives.new.items }
    ensures unasked { run.now.bounds.adopt ≡ false → drives.new.items ≡ drives.old.items }
{
    let alloc = run.rt.alloc();
    if !run.bounds.adopt {
        return Ok(Plan {
            volumes: Vec::new(alloc),
            missing: Vec::new(alloc),
        });
    }
    let folders = judge_folders(run.rt, &run.wait, run.conf)?;
    let plan = plan_all(run, folders)?;
    adopt_planned(run, drives, &plan.volumes)?;
    Ok(plan)
}

/// Claims the names of the volumes that the drives adopted, and of those that are damaged.
pub(crate) fn claim_names<N: Naming, W: Wait + Clock + Copy + Drop>(
    hub: &mut FileHub<N, W>,
    plan: &Plan,
) -> Result<(), AllocError> {
    for (drive, name) in adopted_of(hub)? {
        claim(hub, drive, &name)?;
    }
    for volume in plan.volumes.iter() {
        claim_damaged(hub, volume)?;
    }
    Ok(())
}

// Claims the name of a volume for its drive, if it is damaged or torn.
fn claim_damaged<N: Naming, W: Wait + Clock + Copy + Drop>(
    hub: &mut FileHub<N, W>,
    volume: &Planned,
) -> Result<(), AllocError> {
    match (
        damaged_at(volume.takeover),
        DriveNo::new(number_at(volume.drive)),
    ) {
        (Some(_), Some(drive)) => claim(hub, drive, &volume.name),
        _ => Ok(()),
    }
}

// The volumes that the drives of a hub have, each with its drive.
fn adopted_of<N: Naming, W: Wait + Clock + Copy + Drop>(
    hub: &FileHub<N, W>,
) -> Result<Vec<(DriveNo, VolName)>, AllocError> {
    let mut adopted = Vec::new(hub.alloc);
    for post in hub.posts.iter() {
        let drive = post.station.line().no();
        for row in post.station.rows(&hub.rt, hub.alloc)? {
            adopted.push((drive, row.name.copy()))?;
        }
    }
    Ok(adopted)
}

// Claims a name for a drive. It is free, since no other volume of that name was planned.
fn claim<N: Naming, W: Wait + Clock + Copy + Drop>(
    hub: &mut FileHub<N, W>,
    drive: DriveNo,
    name: &VolName,
) -> Result<(), AllocError> {
    match hub.claim_volume(name, drive) {
        Err(Refusal::Memory) => Err(AllocError),
        _ => Ok(()),
    }
}
