// What comes after damage.
ghost use Rattle.std.specs.Prelude.{◌≡◌, ◌+◌, ◌<◌, ◌≤◌, ◌^◌, max, ℕ, List, length, drop, Some, OnOk, IfOk, IsErrOf};
ghost use Rattle.sd_base.specs.declared.number.SessionKey.{SessionKey as SpecKey};
ghost use Rattle.sd_driver.specs.Meaning.{IsHonest};
ghost use Rattle.sd_driver.specs.Shelf.{Held};
ghost use Rattle.sd_text.specs.Says.{Says, said_view};
ghost use Rattle.sd_volume.specs.Device.{OnlyReads};
ghost use Rattle.sd_volume.specs.Image.{BeginsWithBlock};
ghost use Rattle.sd_volume.specs.Reader.{Shows};
ghost use Rattle.sd_scan.specs.Volume.{Region, TellsBehind, TellsRun};

use crate::chain::Chain;
use crate::fault::ScanFault;
use crate::kind::kind_at;
use crate::line::ScanLine;
use crate::print::print_sessions;
use crate::run::take_run;
use crate::search::{Whole, next_whole};
use crate::sessions::Sessions;
use crate::told::{Told, ToldLine};
use sd_base::VolName;
use sd_driver::Driver;
use sd_text::Printer;
use sd_volume::VolumeReader;
use std::alloc::Global;
use std::io::Write;

/// Tells what is damaged of a volume of that size from a place on, where there is no block that is
/// due; and, apart from all else, what is found after it.
pub(crate) fn tell_behind<D: Driver, W: Write>(
    alloc: Global,
    driver: &mut D,
    reader: &mut VolumeReader,
    name: &VolName,
    end: u64,
    size: u64,
    told: Told,
    out: &mut Printer<W>,
) -> Result<(), ScanFault>
    ensures device { OnlyReads (IsErrOf result ScanFault.Device)
        (D.meaning driver.old) (D.meaning driver.new) }
    ensures tells { (due : List ℕ)
        × Says (said_view W.contents out.old) (said_view W.contents out.new) due
        × (IsHonest (D.meaning driver.old) → Shows reader.old (D.meaning driver.old).shelf
        → (held : Held) → (D.meaning driver.old).shelf.volume reader.old.name ≡ Some held
        → size ≡ length held.bytes
        → OnOk result ((regions : List Region)
        × TellsBehind told name.now held.bytes end regions due)) }
{
    let mut from = end;
    while from < size {
        let kind = kind_at(driver, reader, from, size)?;
        out.line(ToldLine {
            told,
            line: ScanLine::Damage {
                volume: name.copy(),
                at: from,
                kind,
            },
        });
        let Some(whole) = next_whole(driver, reader, from, size)? else {
            return Ok(());
        };
        let next = tell_run(alloc, driver, reader, name, whole, size, told, out)?;
        from = next;
    }
    Ok(())
}

// Tells what is found from a whole block on, up to the next damage, and says where that is.
fn tell_run<D: Driver, W: Write>(
    alloc: Global,
    driver: &mut D,
    reader: &mut VolumeReader,
    name: &VolName,
    whole: Whole,
    size: u64,
    told: Told,
    out: &mut Printer<W>,
) -> Result<u64, ScanFault>
    requires within { whole.at < size }
    ensures name { reader.new.name ≡ reader.old.name }
    ensures device { OnlyReads (IsErrOf result ScanFault.Device)
        (D.meaning driver.old) (D.meaning driver.new) }
    ensures goes_on { IfOk result (λ end. whole.at < end) }
    ensures tells { (due : List ℕ)
        × Says (said_view W.contents out.old) (said_view W.contents out.new) due
        × (IsHonest (D.meaning driver.old) → Shows reader.old (D.meaning driver.old).shelf
        → (held : Held) → (D.meaning driver.old).shelf.volume reader.old.name ≡ Some held
        → size ≡ length held.bytes
        → (key : SpecKey) (body : List ℕ)
        → BeginsWithBlock (drop whole.at held.bytes) key whole.head.number body
        → IfOk result (λ end. TellsRun told name.now held.bytes whole.at whole.head.number end due)) }
    ensures shows { IsHonest (D.meaning driver.old) → Shows reader.old (D.meaning driver.old).shelf
        → OnOk result (Shows reader.new (D.meaning driver.new).shelf) }
{
    out.line(ToldLine {
        told,
        line: ScanLine::Behind {
            volume: name.copy(),
            at: whole.at,
        },
    });
    let mut sessions = Sessions::new(alloc);
    let number = whole.head.number as u64;
    let mut chain = Chain::new(whole.at, None);
    let end = take_run(
        driver,
        reader,
        name,
        whole.at,
        number,
        size,
        &mut chain,
        &mut sessions,
    )?;
    print_sessions(alloc, &sessions, told, out)?;
    Ok(end_behind(whole.at, end))
}

// Where a run ends that begins at a place: after that place, even if a device tells no block there
// any more.
fn end_behind(at: u64, end: u64) -> u64
    requires { at + 1 < 2 ^ 64 }
    ensures { result ≡ max end (at + 1) }
{
    end.max(at + 1)
}
