// Volumes, one after another.
ghost use Rattle.std.specs.Prelude.{◌≡◌, ℕ, List, ◌++◌, length, Some, IfOk, OnOk, IsErrOf};
ghost use Rattle.sd_driver.specs.Meaning.{IsHonest};
ghost use Rattle.sd_driver.specs.Shelf.{Held};
ghost use Rattle.sd_scan.specs.Found.{Found};
ghost use Rattle.sd_scan.specs.Lines.{told_text};
ghost use Rattle.sd_scan.specs.Sessions.{Keeps, keys_in};
ghost use Rattle.sd_scan.specs.declared.line.ScanLine.TheVariants.{Done};
ghost use Rattle.sd_text.specs.Lines.{line};
ghost use Rattle.sd_text.specs.Says.{Says, said_view};
ghost use Rattle.sd_volume.specs.Device.{OnlyReads};
ghost use Rattle.sd_volume.specs.Reader.{Shows};
ghost use Rattle.sd_scan.specs.Scan.{Looks, Scans, ScansVolumes};
ghost use Rattle.sd_scan.specs.Volume.{FindsOn, ScansVolume};

use crate::behind::tell_behind;
use crate::chain::Chain;
use crate::fault::ScanFault;
use crate::line::ScanLine;
use crate::notes::Notes;
use crate::outcome::Outcome;
use crate::print::{both, print_sessions};
use crate::run::take_run;
use crate::sessions::Sessions;
use crate::told::{Told, ToldLine};
use sd_base::VolName;
use sd_driver::Driver;
use sd_text::Printer;
use sd_volume::{VolumeReader, read_label};
use std::alloc::Global;
use std::io::Write;

/// A scan that was not given up: what it came to, and the sessions of the blocks before all damage.
#[derive(Drop)]
pub struct Scanned {
    pub outcome: Outcome,
    pub sessions: Sessions,
}

/// Reads the volumes of these names to their ends, in that order, and prints what is damaged of
/// each of them and what is found after damage; then, of each session that is in the blocks before
/// all damage, what was found of it. After a fault nothing more is printed here.
///
/// Holds one buffer of a block's greatest length, and what `Sessions` keeps. Volumes are not
/// changed, loaded or not.
pub fn scan<D: Driver, W: Write>(
    alloc: Global,
    driver: &mut D,
    names: &[VolName],
    told: Told,
    out: &mut Printer<W>,
) -> Result<Scanned, ScanFault>
    ensures device { OnlyReads (IsErrOf result ScanFault.Device)
        (D.meaning driver.old) (D.meaning driver.new) }
    ensures scans { (due : List ℕ)
        × Says (said_view W.contents out.old) (said_view W.contents out.new) due
        × (IsHonest (D.meaning driver.old) → IfOk result
        (λ scanned. Scans told (D.meaning driver.old).shelf names.now due scanned.outcome)) }
{
    let mut notes = Notes::none(alloc);
    let scanned = look(alloc, driver, names, told, &mut notes, out)?;
    print_done(names, &scanned.sessions, told, out);
    Ok(scanned)
}

/// Reads the volumes of these names as `scan` does, and prints all but the last line. The notes of those that have one are
/// compared with what is found there.
pub(crate) fn look<D: Driver, W: Write>(
    alloc: Global,
    driver: &mut D,
    names: &[VolName],
    told: Told,
    notes: &mut Notes,
    out: &mut Printer<W>,
) -> Result<Scanned, ScanFault>
    ensures device { OnlyReads (IsErrOf result ScanFault.Device)
        (D.meaning driver.old) (D.meaning driver.new) }
    ensures looks { (due : List ℕ)
        × Says (said_view W.contents out.old) (said_view W.contents out.new) due
        × (IsHonest (D.meaning driver.old) → IfOk result (λ scanned.
        Looks told (D.meaning driver.old).shelf names.now due scanned.outcome scanned.sessions)) }
{
    let mut sessions = Sessions::new(alloc);
    let undamaged = scan_volumes(alloc, driver, names, told, notes, &mut sessions, out)?;
    let printed = print_sessions(alloc, &sessions, told, out)?;
    let outcome = Outcome::of_volumes(undamaged).or_worse(printed);
    Ok(Scanned { outcome, sessions })
}

/// Prints the last line: how many volumes were read, and how many sessions are on them.
pub(crate) fn print_done<W: Write>(
    names: &[VolName],
    sessions: &Sessions,
    told: Told,
    out: &mut Printer<W>,
)
    ensures { Says (said_view W.contents out.old) (said_view W.contents out.new)
        (line (told_text told (Done (length names.now) (length (keys_in sessions.now))))) }
{
    out.line(ToldLine {
        told,
        line: ScanLine::Done {
            volumes: names.len(),
            sessions: sessions.len(),
        },
    });
}

// Reads the volumes of these names, and says whether none is damaged.
fn scan_volumes<D: Driver, W: Write>(
    alloc: Global,
    driver: &mut D,
    names: &[VolName],
    told: Told,
    notes: &mut Notes,
    sessions: &mut Sessions,
    out: &mut Printer<W>,
) -> Result<bool, ScanFault>
    ensures device { OnlyReads (IsErrOf result ScanFault.Device)
        (D.meaning driver.old) (D.meaning driver.new) }
    ensures scans { (due : List ℕ)
        × Says (said_view W.contents out.old) (said_view W.contents out.new) due
        × IfOk result (λ undamaged. (more : List Found)
        × ((found : List Found) → Keeps found sessions.old → Keeps (found ++ more) sessions.new)
        × (IsHonest (D.meaning driver.old)
        → ScansVolumes told (D.meaning driver.old).shelf names.now more due undamaged)) }
{
    let mut undamaged = true;
    for name in names {
        let whole = scan_volume(alloc, driver, name, told, notes, sessions, out)?;
        undamaged = both(undamaged, whole);
    }
    Ok(undamaged)
}

// Reads the volume of this name, and says whether its blocks reach to its end.
fn scan_volume<D: Driver, W: Write>(
    alloc: Global,
    driver: &mut D,
    name: &VolName,
    told: Told,
    notes: &mut Notes,
    sessions: &mut Sessions,
    out: &mut Printer<W>,
) -> Result<bool, ScanFault>
    ensures device { OnlyReads (IsErrOf result ScanFault.Device)
        (D.meaning driver.old) (D.meaning driver.new) }
    ensures scans { (due : List ℕ)
        × Says (said_view W.contents out.old) (said_view W.contents out.new) due
        × IfOk result (λ undamaged. (more : List Found)
        × ((found : List Found) → Keeps found sessions.old → Keeps (found ++ more) sessions.new)
        × (IsHonest (D.meaning driver.old)
        → ScansVolume told (D.meaning driver.old).shelf name.now more due undamaged)) }
{
    let size = driver.len(name)?;
    let mut reader = VolumeReader::new(alloc, name)?;
    out.line(ToldLine {
        told,
        line: ScanLine::Volume {
            name: name.copy(),
            size,
        },
    });
    let end = take_image(driver, &mut reader, name, size, notes, sessions)?;
    tell_behind(alloc, driver, &mut reader, name, end, size, told, out)?;
    Ok(end == size)
}

// Takes the blocks of the image of a volume of that size, and says where it ends: at its front, if
// no label of that name begins it.
fn take_image<D: Driver>(
    driver: &mut D,
    reader: &mut VolumeReader,
    name: &VolName,
    size: u64,
    notes: &mut Notes,
    sessions: &mut Sessions,
) -> Result<u64, ScanFault>
    ensures name { reader.new.name ≡ reader.old.name }
    ensures device { OnlyReads (IsErrOf result ScanFault.Device)
        (D.meaning driver.old) (D.meaning driver.new) }
    ensures takes { IfOk result (λ end. (more : List Found)
        × ((found : List Found) → Keeps found sessions.old → Keeps (found ++ more) sessions.new)
        × (IsHonest (D.meaning driver.old) → Shows reader.old (D.meaning driver.old).shelf
        → (held : Held) → (D.meaning driver.old).shelf.volume reader.old.name ≡ Some held
        → size ≡ length held.bytes → FindsOn name.now held.bytes more end)) }
    ensures shows { IsHonest (D.meaning driver.old) → Shows reader.old (D.meaning driver.old).shelf
        → OnOk result (Shows reader.new (D.meaning driver.new).shelf) }
{
    let Some(found) = read_label(driver, reader, name, size)? else {
        return Ok(0);
    };
    let mut chain = Chain::new(found.first, notes.end_of(name));
    let end = take_run(
        driver,
        reader,
        name,
        found.first,
        1,
        size,
        &mut chain,
        sessions,
    )?;
    notes.compare(name, found.label.moment, &chain);
    Ok(end)
}
