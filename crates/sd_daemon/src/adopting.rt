// The volumes of the drives' folders are adopted, before clients are served.
ghost use Rattle.std.specs.Prelude.{◌≡◌, All, false};
ghost use Rattle.sd_daemon.specs.Adopting.{AddsAtMost, AdoptsOne, AdoptsPlanned, AllAdopt, KeepsSetup};
ghost use Rattle.sd_daemon.specs.Setup.{IsUnknown};
ghost use Rattle.sd_daemon.specs.Takeover.{is_adopted};

use crate::drives::UnusedFiles;
use crate::planning::{Planned, number_at};
use crate::run::Run;
use crate::takeover::Takeover;
use crate::talk_means::fault_refusal;
use sd_base::{MOST_DRIVES, Refusal};
use sd_drive::Adopted;
use sd_notes::{remove_note, store_note};
use sd_serve::LogLine;
use std::alloc::AllocError;
use std::io::Write;
use std::sync::Wait;
use std::sync::atomic::{AtomicU64, Ordering};
use std::thread;
use std::thread::Threads;
use std::time::Clock;

/// Has the drives adopt the volumes that are planned for them, all drives at once, each its own in their order. The log is
/// told of each.
pub(crate) fn adopt_planned<
    W: Threads + Wait + Clock + Send + Sync + Copy + Drop,
    L: Write + Send + Drop,
>(run: &Run<'_, W, L>, drives: &mut [UnusedFiles<W>], planned: &[Planned]) -> Result<(), AllocError>
    requires unknown { All IsUnknown drives.old }
    ensures { AllAdopt planned.now drives.old drives.new }
{
    let faults = AtomicU64::new(0);
    let lacking = &faults;
    thread::for_each_mut(
        &run.wait,
        drives,
        MOST_DRIVES as usize,
        &|at: usize, drive: &mut UnusedFiles<W>|
            requires { IsUnknown drive.now }
            ensures { KeepsSetup drive.entry.now drive.exit.now
                × AdoptsPlanned at planned.entry.now drive.entry.now drive.exit.now }
        {
            if adopt_own(run, at, drive, planned).is_err() {
                lacking.fetch_add(1, Ordering::SeqCst);
            }
        },
    );
    if faults.load(Ordering::SeqCst) == 0 {
        Ok(())
    } else {
        Err(AllocError)
    }
}

// Has the drive at this place adopt those of the volumes that are planned for it. Calls itself for those before the last one.
fn adopt_own<W: Wait + Clock + Copy + Drop, L: Write>(
    run: &Run<'_, W, L>,
    at: usize,
    drive: &mut UnusedFiles<W>,
    planned: &[Planned],
) -> Result<(), AllocError>
    requires { IsUnknown drive.old }
    ensures setup { KeepsSetup drive.old drive.new }
    ensures adopts { AdoptsPlanned at planned.now drive.old drive.new }
{
    let Some((last, front)) = planned.split_last() else {
        return Ok(());
    };
    adopt_own(run, at, drive, front)?;
    if last.drive != at {
        return Ok(());
    }
    adopt_one(run, drive, last)
}

// Has a drive adopt a volume, if that is planned.
fn adopt_one<W: Wait + Clock + Copy + Drop, L: Write>(
    run: &Run<'_, W, L>,
    drive: &mut UnusedFiles<W>,
    planned: &Planned,
) -> Result<(), AllocError>
    requires { IsUnknown drive.old }
    ensures setup { KeepsSetup drive.old drive.new }
    ensures adopts { AdoptsOne planned.now drive.old drive.new }
    ensures kept { is_adopted planned.now.takeover ≡ false → drive.new ≡ drive.old }
{
    let name = &planned.name;
    let answer = match planned.takeover {
        Takeover::ByNote(note) => drive.adopt(name, Some(&note)),
        Takeover::Whole => drive.adopt(name, None),
        Takeover::AsAsked => adopt_unnoted(run, drive, planned),
        Takeover::Damaged { .. } | Takeover::Torn { .. } | Takeover::Refused(_) => return Ok(()),
    };
    if let Err(Refusal::Memory) = answer {
        return Err(AllocError);
    }
    tell(run, planned, &answer);
    Ok(())
}

// Has a drive adopt a damaged volume by reading all of it. What its note says won't be true, so it is taken away before, and put
// back if the volume is refused.
fn adopt_unnoted<W: Wait + Clock + Copy + Drop, L>(
    run: &Run<'_, W, L>,
    drive: &mut UnusedFiles<W>,
    planned: &Planned,
) -> Result<Adopted, Refusal>
    requires { IsUnknown drive.old }
    ensures setup { KeepsSetup drive.old drive.new }
    ensures adopts { AddsAtMost planned.now.name drive.old drive.new }
{
    let name = &planned.name;
    let Some(conf) = run.conf.drives.as_slice().get(planned.drive) else {
        return Err(Refusal::NoSuchDrive);
    };
    let folder = conf.folder.as_str();
    if let Err(fault) = remove_note(run.rt, run.rt.alloc(), folder, name) {
        return Err(fault_refusal(fault.kind()));
    }
    let answer = drive.adopt(name, None);
    if let (Err(_), Some(note)) = (&answer, planned.note) {
        // If it can't be put back, the volume is without a note.
        let _ = store_note(run.rt, run.rt.alloc(), folder, name, note);
    }
    answer
}

// Tells what came of an adoption.
fn tell<W: Wait + Clock, L: Write>(
    run: &Run<'_, W, L>,
    planned: &Planned,
    answer: &Result<Adopted, Refusal>,
) {
    let drive = number_at(planned.drive);
    let volume = &planned.name;
    let line = match answer {
        Ok(adopted) => LogLine::Adopted {
            drive,
            volume,
            end: adopted.end,
            next: adopted.next_number,
            cut: planned.size.saturating_sub(adopted.end),
            from: read_from(planned.takeover, run.time),
        },
        Err(refusal) => {
            let refusal = *refusal;
            LogLine::NotAdopted {
                drive,
                volume,
                refusal,
            }
        }
    };
    run.log.line(&run.wait, line);
}

// From where on a volume is read beside its label and its noted last block: where the note says that its blocks end, unless that
// isn't heeded, since it tells of a run that isn't over.
fn read_from(takeover: Takeover, time: u32) -> u64 {
    match takeover {
        Takeover::ByNote(note) if note.time < time => note.end,
        _ => 0,
    }
}
