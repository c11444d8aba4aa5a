// A volume that an earlier run left on a device is taken over, by its note or without.
ghost use Rattle.std.specs.Prelude.{◌≡◌, ◌≢◌, ◌≤◌, ◌⊎◌, ℕ, List, [], length, IfOk, IfErr, OnOk, OnErr, IsErrOf, IsSome, None, Some};
ghost use Rattle.sd_base.specs.Limits.{most_volume};
ghost use Rattle.sd_driver.specs.Meaning.{IsHonest};
ghost use Rattle.sd_driver.specs.Shelf.{Held, SameShelf, StillLasts, StillLastsBelow};
ghost use Rattle.sd_volume.specs.Adopt.{IsDue, IsAdoptable, AnswersAdoption, CutsAt, KeepsUpTo, status_at};
ghost use Rattle.sd_volume.specs.Device.{CallsAtMost, Counted, OnlyReads, CutsLoaded, KeepsLoaded};
ghost use Rattle.sd_volume.specs.Noted.{CutsFound, IsFound, IsTrusted, KeepsFound};
ghost use Rattle.sd_volume.specs.Reader.{Shows};

use crate::fault::AdoptFault;
use crate::noted::known_end;
use crate::reader::VolumeReader;
use crate::survey::{find_end, read_label};
use crate::volume::{Volume, VolumeStatus};
use sd_base::{MOST_VOLUME, MediaName, VolName};
use sd_driver::Driver;
use sd_note::Note;
use std::alloc::Global;

/// Takes over the volume of that name, which is to be of that media type: reads its label and its blocks one
/// after another up to the first place where there is no whole block with the next number, cuts it there, and
/// makes it last. All its blocks are to be of runs before the one that began at `start_time`. It is full if it
/// ends at `limit` or past it. If a refusal is due, the device is only read, also if it fails in between.
///
/// Calls len once, then reads, each byte once; then load, cut, sync and unload, in this order. Holds one buffer
/// of a block's greatest length, whatever the volume's, which it takes before it calls the device.
pub fn adopt<D: Driver>(
    alloc: Global,
    driver: &mut D,
    name: &VolName,
    media: &MediaName,
    start_time: u32,
    limit: u64,
) -> Result<Volume, AdoptFault>
    requires { (D.meaning driver.old).loaded ≡ None }
    ensures unloaded { (D.meaning driver.new).loaded ≡ None }
    ensures counted { Counted (IsErrOf result AdoptFault.Device) ⊥
        (D.meaning driver.old) (D.meaning driver.new) }
    ensures name { IfOk result (λ volume. volume.name ≡ name.now) }
    ensures media { IfOk result (λ volume. volume.media ≡ media.now) }
    ensures status { IfOk result (λ volume. volume.status ≡ status_at limit volume.end) }
    ensures lasts_below { IfOk result (λ volume. StillLastsBelow volume.end name.now
        (D.meaning driver.old).shelf (D.meaning driver.new).shelf) }
    ensures others_last { StillLastsBelow 0 name.now
        (D.meaning driver.old).shelf (D.meaning driver.new).shelf }
    ensures refused_last { IfErr result (λ fault. fault ≢ AdoptFault.Device
        → StillLasts (D.meaning driver.old).shelf (D.meaning driver.new).shelf) }

    ensures answers { IsHonest (D.meaning driver.old)
        → AnswersAdoption name.now media.now start_time result
        (D.meaning driver.old) (D.meaning driver.new) }
    ensures same { IsHonest (D.meaning driver.old)
        → IfErr result (λ fault. fault ≢ AdoptFault.Device
        → SameShelf (D.meaning driver.old).shelf (D.meaning driver.new).shelf) }
    ensures others { IsHonest (D.meaning driver.old) → (other : List ℕ) → other ≢ name.now
        → (D.meaning driver.new).shelf.volume other ≡ (D.meaning driver.old).shelf.volume other }
{
    adopt_by(alloc, driver, name, media, start_time, limit, None)
}

/// As `adopt`, but reads on from where the note says that the blocks end, if the note fits the volume: its moment is the
/// label's, its time is before `start_time`, and its last block is there, whole, and ends where it says. If the note
/// doesn't fit, it is as if there were none. So it reads the label, the noted last block and what comes after it, or all.
///
/// If what the note says is true, or it doesn't fit, this is what `adopt` answers and leaves. Whatever it says, the volume
/// is cut only where a whole block ends that was found on it, or its label block.
pub fn adopt_noted<D: Driver>(
    alloc: Global,
    driver: &mut D,
    name: &VolName,
    media: &MediaName,
    start_time: u32,
    limit: u64,
    note: &Note,
) -> Result<Volume, AdoptFault>
    requires { (D.meaning driver.old).loaded ≡ None }
    ensures unloaded { (D.meaning driver.new).loaded ≡ None }
    ensures counted { Counted (IsErrOf result AdoptFault.Device) ⊥
        (D.meaning driver.old) (D.meaning driver.new) }
    ensures name { IfOk result (λ volume. volume.name ≡ name.now) }
    ensures media { IfOk result (λ volume. volume.media ≡ media.now) }
    ensures status { IfOk result (λ volume. volume.status ≡ status_at limit volume.end) }
    ensures lasts_below { IfOk result (λ volume. StillLastsBelow volume.end name.now
        (D.meaning driver.old).shelf (D.meaning driver.new).shelf) }
    ensures others_last { StillLastsBelow 0 name.now
        (D.meaning driver.old).shelf (D.meaning driver.new).shelf }
    ensures refused_last { IfErr result (λ fault. fault ≢ AdoptFault.Device
        → StillLasts (D.meaning driver.old).shelf (D.meaning driver.new).shelf) }

    ensures answers { IsHonest (D.meaning driver.old)
        → IsTrusted (Some note.now) name.now start_time (D.meaning driver.old).shelf
        → AnswersAdoption name.now media.now start_time result
        (D.meaning driver.old) (D.meaning driver.new) }
    ensures same { IsHonest (D.meaning driver.old)
        → IfErr result (λ fault. fault ≢ AdoptFault.Device
        → SameShelf (D.meaning driver.old).shelf (D.meaning driver.new).shelf) }
    ensures others { IsHonest (D.meaning driver.old) → (other : List ℕ) → other ≢ name.now
        → (D.meaning driver.new).shelf.volume other ≡ (D.meaning driver.old).shelf.volume other }

    // Whatever the note says:
    ensures cuts { IsHonest (D.meaning driver.old)
        → IfOk result (λ volume. CutsFound name.now media.now start_time volume
        (D.meaning driver.old).shelf (D.meaning driver.new).shelf) }
    ensures keeps { IsHonest (D.meaning driver.old) → KeepsFound name.now media.now start_time
        (D.meaning driver.old).shelf (D.meaning driver.new).shelf }
{
    adopt_by(alloc, driver, name, media, start_time, limit, Some(*note))
}

/// As `adopt_noted` if there is a note, else as `adopt`.
pub fn adopt_by<D: Driver>(
    alloc: Global,
    driver: &mut D,
    name: &VolName,
    media: &MediaName,
    start_time: u32,
    limit: u64,
    note: Option<Note>,
) -> Result<Volume, AdoptFault>
    requires { (D.meaning driver.old).loaded ≡ None }
    ensures unloaded { (D.meaning driver.new).loaded ≡ None }
    ensures counted { Counted (IsErrOf result AdoptFault.Device) ⊥
        (D.meaning driver.old) (D.meaning driver.new) }
    ensures name { IfOk result (λ volume. volume.name ≡ name.now) }
    ensures media { IfOk result (λ volume. volume.media ≡ media.now) }
    ensures status { IfOk result (λ volume. volume.status ≡ status_at limit volume.end) }
    ensures lasts_below { IfOk result (λ volume. StillLastsBelow volume.end name.now
        (D.meaning driver.old).shelf (D.meaning driver.new).shelf) }
    ensures others_last { StillLastsBelow 0 name.now
        (D.meaning driver.old).shelf (D.meaning driver.new).shelf }
    ensures refused_last { IfErr result (λ fault. fault ≢ AdoptFault.Device
        → StillLasts (D.meaning driver.old).shelf (D.meaning driver.new).shelf) }

    ensures answers { IsHonest (D.meaning driver.old)
        → IsTrusted note name.now start_time (D.meaning driver.old).shelf
        → AnswersAdoption name.now media.now start_time result
        (D.meaning driver.old) (D.meaning driver.new) }
    ensures same { IsHonest (D.meaning driver.old)
        → IfErr result (λ fault. fault ≢ AdoptFault.Device
        → SameShelf (D.meaning driver.old).shelf (D.meaning driver.new).shelf) }
    ensures others { IsHonest (D.meaning driver.old) → (other : List ℕ) → other ≢ name.now
        → (D.meaning driver.new).shelf.volume other ≡ (D.meaning driver.old).shelf.volume other }

    // Whatever the note says:
    ensures cuts { IsHonest (D.meaning driver.old)
        → IfOk result (λ volume. CutsFound name.now media.now start_time volume
        (D.meaning driver.old).shelf (D.meaning driver.new).shelf) }
    ensures keeps { IsHonest (D.meaning driver.old) → KeepsFound name.now media.now start_time
        (D.meaning driver.old).shelf (D.meaning driver.new).shelf }
{
    let mut reader = VolumeReader::new(alloc, name)?;
    let volume = survey(driver, &mut reader, name, media, start_time, limit, note)?;
    cut_back(driver, name, volume.end)?;
    Ok(volume)
}

// The volume under the reader's name, as it will be known once it is cut.
fn survey<D: Driver>(
    driver: &mut D,
    reader: &mut VolumeReader,
    name: &VolName,
    media: &MediaName,
    start_time: u32,
    limit: u64,
    note: Option<Note>,
) -> Result<Volume, AdoptFault>
    requires { reader.old.name ≡ name.now }
    ensures device { OnlyReads (IsErrOf result AdoptFault.Device)
        (D.meaning driver.old) (D.meaning driver.new) }
    ensures name { IfOk result (λ volume. volume.name ≡ name.now) }
    ensures media { IfOk result (λ volume. volume.media ≡ media.now) }
    ensures status { IfOk result (λ volume. volume.status ≡ status_at limit volume.end) }

    ensures there { IsHonest (D.meaning driver.old) → IfOk result (λ _. (held : Held)
        × ((D.meaning driver.old).shelf.volume name.now ≡ Some held)) }
    ensures found { IsHonest (D.meaning driver.old) → Shows reader.old (D.meaning driver.old).shelf
        → (held : Held) → (D.meaning driver.old).shelf.volume name.now ≡ Some held
        → IfOk result (IsFound name.now media.now start_time held.bytes) }
    ensures adoptable { IsHonest (D.meaning driver.old)
        → Shows reader.old (D.meaning driver.old).shelf
        → IsTrusted note name.now start_time (D.meaning driver.old).shelf
        → (held : Held) → (D.meaning driver.old).shelf.volume name.now ≡ Some held
        → IfOk result (IsAdoptable name.now media.now start_time held.bytes) }
    ensures due { IsHonest (D.meaning driver.old) → Shows reader.old (D.meaning driver.old).shelf
        → IsTrusted note name.now start_time (D.meaning driver.old).shelf
        → IfErr result (λ fault. fault ≢ AdoptFault.Device → fault ≢ AdoptFault.Memory
        → IsDue fault name.now media.now start_time (D.meaning driver.old).shelf) }
{
    let size = driver.len(name)?;
    if size > MOST_VOLUME {
        return Err(AdoptFault::NotOurVolume);
    }
    find_volume(driver, reader, name, media, start_time, limit, note, size)
}

// The volume under the reader's name, which has that size, as it will be known once it is cut.
fn find_volume<D: Driver>(
    driver: &mut D,
    reader: &mut VolumeReader,
    name: &VolName,
    media: &MediaName,
    start_time: u32,
    limit: u64,
    note: Option<Note>,
    size: u64,
) -> Result<Volume, AdoptFault>
    requires name { reader.old.name ≡ name.now }
    requires most { size ≤ most_volume }
    ensures device { OnlyReads (IsErrOf result AdoptFault.Device)
        (D.meaning driver.old) (D.meaning driver.new) }
    ensures name { IfOk result (λ volume. volume.name ≡ name.now) }
    ensures media { IfOk result (λ volume. volume.media ≡ media.now) }
    ensures status { IfOk result (λ volume. volume.status ≡ status_at limit volume.end) }

    ensures found { IsHonest (D.meaning driver.old) → Shows reader.old (D.meaning driver.old).shelf
        → (held : Held) → (D.meaning driver.old).shelf.volume name.now ≡ Some held
        → size ≡ length held.bytes
        → IfOk result (IsFound name.now media.now start_time held.bytes) }
    ensures adoptable { IsHonest (D.meaning driver.old)
        → Shows reader.old (D.meaning driver.old).shelf
        → IsTrusted note name.now start_time (D.meaning driver.old).shelf
        → (held : Held) → (D.meaning driver.old).shelf.volume name.now ≡ Some held
        → size ≡ length held.bytes
        → IfOk result (IsAdoptable name.now media.now start_time held.bytes) }
    ensures due { IsHonest (D.meaning driver.old) → Shows reader.old (D.meaning driver.old).shelf
        → IsTrusted note name.now start_time (D.meaning driver.old).shelf
        → (held : Held) → (D.meaning driver.old).shelf.volume name.now ≡ Some held
        → size ≡ length held.bytes
        → IfErr result (λ fault. fault ≢ AdoptFault.Device → fault ≢ AdoptFault.Memory
        → IsDue fault name.now media.now start_time (D.meaning driver.old).shelf) }
{
    let Some(found) = read_label(driver, reader, name, size)? else {
        return Err(AdoptFault::NotOurVolume);
    };
    if !found.label.media.is_same(media) {
        return Err(AdoptFault::OtherMedia);
    }
    let known = known_end(driver, reader, &found, size, start_time, note)?;
    let end = find_end(driver, reader, known, size, start_time)?;
    Ok(Volume {
        name: name.copy(),
        pool: found.label.pool.copy(),
        media: media.copy(),
        status: status_at(limit, end.end),
        end: end.end,
        next_number: end.next_number,
        first: found.first,
        last: end.last,
    })
}

// Whether blocks are added to an adopted volume that ends there.
fn status_at(limit: u64, end: u64) -> VolumeStatus
    ensures { result ≡ status_at limit end }
{
    if limit <= end {
        VolumeStatus::Full
    } else {
        VolumeStatus::Append
    }
}

/// Cuts a volume, and makes what is left last.
pub(crate) fn cut_back<D: Driver>(driver: &mut D, name: &VolName, to: u64) -> Result<(), AdoptFault>
    requires { (D.meaning driver.old).loaded ≡ None }
    ensures unloaded { (D.meaning driver.new).loaded ≡ None }
    ensures counted { Counted (IsErrOf result AdoptFault.Device) ⊥
        (D.meaning driver.old) (D.meaning driver.new) }
    ensures faults { IfErr result (λ fault. (fault ≡ AdoptFault.NotOnShelf)
        ⊎ (fault ≡ AdoptFault.Device) ⊎ (fault ≡ AdoptFault.Memory)) }
    ensures calls { CallsAtMost 4 (D.meaning driver.old) (D.meaning driver.new) }
    ensures lasts_below { StillLastsBelow to name.now
        (D.meaning driver.old).shelf (D.meaning driver.new).shelf }
    ensures refused_last { IfErr result (λ fault. fault ≢ AdoptFault.Device
        → StillLasts (D.meaning driver.old).shelf (D.meaning driver.new).shelf) }

    ensures ok { IsHonest (D.meaning driver.old) → OnOk result
        (CutsAt to name.now (D.meaning driver.old).shelf (D.meaning driver.new).shelf) }
    ensures keeps { IsHonest (D.meaning driver.old)
        → KeepsUpTo to name.now (D.meaning driver.old).shelf (D.meaning driver.new).shelf }
    ensures same { IsHonest (D.meaning driver.old)
        → IfErr result (λ fault. fault ≢ AdoptFault.Device
        → SameShelf (D.meaning driver.old).shelf (D.meaning driver.new).shelf) }
    ensures not_there { IsHonest (D.meaning driver.old) → IsErrOf result AdoptFault.NotOnShelf
        → (D.meaning driver.old).shelf.volume name.now ≡ None }
{
    driver.load(name)?;
    let cut = cut_loaded(driver, to);
    driver.unload();
    cut
}

// Cuts the loaded volume, and makes what is left last.
fn cut_loaded<D: Driver>(driver: &mut D, to: u64) -> Result<(), AdoptFault>
    requires { IsSome (D.meaning driver.old).loaded }
    ensures loaded { (D.meaning driver.new).loaded ≡ (D.meaning driver.old).loaded }
    ensures counted { Counted (IsErrOf result AdoptFault.Device) ⊥
        (D.meaning driver.old) (D.meaning driver.new) }
    ensures faults { IfErr result
        (λ fault. (fault ≡ AdoptFault.Device) ⊎ (fault ≡ AdoptFault.Memory)) }
    ensures calls { CallsAtMost 2 (D.meaning driver.old) (D.meaning driver.new) }
    ensures lasts_below { (volume : List ℕ) → (D.meaning driver.old).loaded ≡ Some volume
        → StillLastsBelow to volume (D.meaning driver.old).shelf (D.meaning driver.new).shelf }
    ensures refused_last { IfErr result (λ fault. fault ≢ AdoptFault.Device
        → StillLasts (D.meaning driver.old).shelf (D.meaning driver.new).shelf) }

    ensures ok { IsHonest (D.meaning driver.old) → OnOk result (CutsLoaded to
        (D.meaning driver.old).loaded (D.meaning driver.old).shelf (D.meaning driver.new).shelf) }
    ensures keeps { IsHonest (D.meaning driver.old) → KeepsLoaded to
        (D.meaning driver.old).loaded (D.meaning driver.old).shelf (D.meaning driver.new).shelf }
    ensures same { IsHonest (D.meaning driver.old)
        → IfErr result (λ fault. fault ≢ AdoptFault.Device
        → SameShelf (D.meaning driver.old).shelf (D.meaning driver.new).shelf) }
{
    driver.cut(to)?;
    driver.sync()?;
    Ok(())
}
