// What a call of the device does with the folder.
ghost use Rattle.std.specs.Prelude.{◌≡◌, ◌≢◌, ◌≤◌, ◌⊎◌, ◌↔◌, true, false, length, IfOk, IfErr, OnOk, OnErr, None, IsSome, IsErrOf, ◌<◌, vec_len, vec_capacity};
ghost use Rattle.sd_folder.specs.Meaning.{IsHonest, Goes, SameFiles};
ghost use Rattle.sd_folder.specs.Steps.{Makes, MayMake, EndsAt, Adds, MayAdd, Cuts, MayCut};
ghost use Rattle.sd_filedrive.specs.Known.{Knows, Looks, Fills, SyncsAll, MaySyncAll};
ghost use Rattle.sd_filedrive.specs.Torn.{Covers, IsSound, IsWhole};

use crate::files::{Loaded, Torn};
use sd_base::VolName;
use sd_driver::DriverFault;
use sd_folder::{Access, Folder, FolderFault};

/// Makes the file of a new volume.
pub(crate) fn create_file<F: Folder>(folder: &mut F, name: &VolName) -> Result<F::File, DriverFault>
    ensures goes { Goes (F.meaning folder.old) (F.meaning folder.new) }
    ensures faults { IfErr result (λ fault.
        (fault ≢ DriverFault.NotThere) × (fault ≢ DriverFault.NoRoom)) }
    ensures file { IsHonest (F.meaning folder.old)
        → IfOk result (λ file. F.name_of file ≡ name.now) }
    ensures ok { IsHonest (F.meaning folder.old)
        → OnOk result (Makes name.now (F.meaning folder.old) (F.meaning folder.new)) }
    ensures err { IsHonest (F.meaning folder.old)
        → OnErr result (MayMake name.now (F.meaning folder.old) (F.meaning folder.new)) }
    ensures exists { IsHonest (F.meaning folder.old)
        → IsErrOf result DriverFault.Exists
        → IsSome ((F.meaning folder.old).file name.now) }
    ensures memory { IsHonest (F.meaning folder.old)
        → IsErrOf result DriverFault.Memory
        → SameFiles (F.meaning folder.old) (F.meaning folder.new) }
{
    match folder.create(name.as_str()) {
        Ok(file) => Ok(file),
        Err(FolderFault::Exists) => Err(DriverFault::Exists),
        Err(FolderFault::Memory) => Err(DriverFault::Memory),
        Err(_) => Err(DriverFault::Device),
    }
}

/// Opens the file of a volume.
pub(crate) fn open_file<F: Folder>(
    folder: &mut F,
    name: &VolName,
    access: Access,
) -> Result<F::File, DriverFault>
    ensures looks { Looks (F.meaning folder.old) (F.meaning folder.new) }
    ensures faults { IfErr result (λ fault.
        (fault ≢ DriverFault.Exists) × (fault ≢ DriverFault.NoRoom)) }
    ensures file { IsHonest (F.meaning folder.old)
        → IfOk result (λ file. F.name_of file ≡ name.now) }
    ensures ok { IsHonest (F.meaning folder.old)
        → OnOk result (IsSome ((F.meaning folder.old).file name.now)) }
    ensures not_there { IsHonest (F.meaning folder.old)
        → IsErrOf result DriverFault.NotThere
        → (F.meaning folder.old).file name.now ≡ None }
{
    match folder.open(name.as_str(), access) {
        Ok(file) => Ok(file),
        Err(FolderFault::NotThere) => Err(DriverFault::NotThere),
        Err(FolderFault::Memory) => Err(DriverFault::Memory),
        Err(_) => Err(DriverFault::Device),
    }
}

/// Where the loaded volume ends, if no sync of it failed: asked of the folder if it isn't known.
pub(crate) fn find_end<F: Folder>(
    folder: &mut F,
    loaded: &Loaded<F::File>,
) -> Result<u64, DriverFault>
    requires knows { IsHonest (F.meaning folder.old)
        → Knows (F.name_of loaded.now.file) loaded.now (F.meaning folder.old) }
    ensures looks { Looks (F.meaning folder.old) (F.meaning folder.new) }
    ensures end { IsHonest (F.meaning folder.old)
        → IfOk result (λ end. EndsAt loaded.now.name end (F.meaning folder.old)) }
    ensures whole { OnOk result (loaded.now.is_torn ≡ false) }
    ensures faults { IfErr result (λ fault. fault ≡ DriverFault.Device) }
{
    if loaded.is_torn {
        return Err(DriverFault::Device);
    }
    match loaded.end {
        Some(end) => Ok(end),
        None => length_of(folder, &loaded.file),
    }
}

/// Writes at the volume's end, which was found there.
pub(crate) fn append_at<F: Folder>(
    folder: &mut F,
    loaded: &mut Loaded<F::File>,
    end: u64,
    bytes: &[u8],
) -> Result<(), DriverFault>
    requires knows { IsHonest (F.meaning folder.old)
        → Knows (F.name_of loaded.old.file) loaded.old (F.meaning folder.old) }
    requires end { IsHonest (F.meaning folder.old)
        → EndsAt loaded.old.name end (F.meaning folder.old) }
    ensures goes { Goes (F.meaning folder.old) (F.meaning folder.new) }
    ensures knows { IsHonest (F.meaning folder.old)
        → Knows (F.name_of loaded.new.file) loaded.new (F.meaning folder.new) }
    ensures name { loaded.new.name ≡ loaded.old.name }
    ensures torn { loaded.new.is_torn ≡ loaded.old.is_torn }
    ensures faults { IfErr result (λ fault.
        (fault ≡ DriverFault.NoRoom) ⊎ (fault ≡ DriverFault.Device)) }
    ensures ok { IsHonest (F.meaning folder.old) → OnOk result
        (Adds loaded.old.name bytes.now (F.meaning folder.old) (F.meaning folder.new)) }
    ensures err { IsHonest (F.meaning folder.old) → OnErr result
        (MayAdd loaded.old.name (F.meaning folder.old) (F.meaning folder.new)) }
{
    loaded.end = None;
    match folder.append(&loaded.file, end, bytes) {
        Ok(()) => {
            loaded.end = end.checked_add(bytes.len() as u64);
            Ok(())
        }
        Err(FolderFault::Full) => Err(DriverFault::NoRoom),
        Err(_) => Err(DriverFault::Device),
    }
}

/// Makes the volume last. If that fails it is noted as torn, for which there is room, and no sync of it is tried again.
pub(crate) fn sync_or_note<F: Folder>(
    folder: &mut F,
    loaded: &mut Loaded<F::File>,
    torn: &mut Vec<Torn>,
) -> Result<(), DriverFault>
    requires knows { IsHonest (F.meaning folder.old)
        → Knows (F.name_of loaded.old.file) loaded.old (F.meaning folder.old) }
    requires covers { IsHonest (F.meaning folder.old)
        → Covers torn.old.items (F.meaning folder.old) }
    requires room { loaded.old.is_torn ≡ false → vec_len torn.old < vec_capacity torn.old }
    ensures goes { Goes (F.meaning folder.old) (F.meaning folder.new) }
    ensures knows { IsHonest (F.meaning folder.old)
        → Knows (F.name_of loaded.new.file) loaded.new (F.meaning folder.new) }
    ensures covers { IsHonest (F.meaning folder.old)
        → Covers torn.new.items (F.meaning folder.new) }
    ensures room { loaded.new.is_torn ≡ false → vec_len torn.new < vec_capacity torn.new }
    ensures name { loaded.new.name ≡ loaded.old.name }
    ensures faults { IfErr result (λ fault. fault ≡ DriverFault.Device) }
    ensures ok { IsHonest (F.meaning folder.old) → OnOk result
        (SyncsAll loaded.old.name (F.meaning folder.old) (F.meaning folder.new)) }
    ensures err { IsHonest (F.meaning folder.old) → OnErr result
        (MaySyncAll loaded.old.name (F.meaning folder.old) (F.meaning folder.new)) }
{
    if loaded.is_torn {
        return Err(DriverFault::Device);
    }
    let Ok(()) = sync_at(folder, loaded) else {
        let (name, synced) = (loaded.name.copy(), loaded.synced);
        torn.push(Torn { name, synced }).unwrap();
        return Err(DriverFault::Device);
    };
    Ok(())
}

// Makes the bytes of the volume last, and its name, and looks whether that is the file's still. If that fails, no
// later call tells what the disk has: it is torn.
fn sync_at<F: Folder>(folder: &mut F, loaded: &mut Loaded<F::File>) -> Result<(), DriverFault>
    requires knows { IsHonest (F.meaning folder.old)
        → Knows (F.name_of loaded.old.file) loaded.old (F.meaning folder.old) }
    requires whole { loaded.old.is_torn ≡ false }
    ensures goes { Goes (F.meaning folder.old) (F.meaning folder.new) }
    ensures knows { IsHonest (F.meaning folder.old)
        → Knows (F.name_of loaded.new.file) loaded.new (F.meaning folder.new) }
    ensures name { loaded.new.name ≡ loaded.old.name }
    ensures faults { IfErr result (λ fault. fault ≡ DriverFault.Device) }
    ensures whole { OnOk result (loaded.new.is_torn ≡ false) }
    ensures torn { OnErr result (loaded.new.is_torn ≡ true) }
    ensures ok { IsHonest (F.meaning folder.old) → OnOk result
        (SyncsAll loaded.old.name (F.meaning folder.old) (F.meaning folder.new)) }
    ensures err { IsHonest (F.meaning folder.old) → OnErr result
        (MaySyncAll loaded.old.name (F.meaning folder.old) (F.meaning folder.new)) }
{
    loaded.is_torn = true;
    make_last(folder, loaded)?;
    let Ok(true) = folder.is_there(&loaded.file) else {
        return Err(DriverFault::Device);
    };
    loaded.is_torn = false;
    if let Some(end) = loaded.end {
        loaded.synced = end;
    }
    Ok(())
}

// Has the disk have the volume's bytes, and at first its name.
fn make_last<F: Folder>(folder: &mut F, loaded: &mut Loaded<F::File>) -> Result<(), DriverFault>
    requires knows { IsHonest (F.meaning folder.old)
        → Knows (F.name_of loaded.old.file) loaded.old (F.meaning folder.old) }
    requires torn { loaded.old.is_torn ≡ true }
    requires whole { IsHonest (F.meaning folder.old)
        → IsWhole loaded.old.name (F.meaning folder.old) }
    ensures goes { Goes (F.meaning folder.old) (F.meaning folder.new) }
    ensures knows { IsHonest (F.meaning folder.old)
        → Knows (F.name_of loaded.new.file) loaded.new (F.meaning folder.new) }
    ensures name { loaded.new.name ≡ loaded.old.name }
    ensures torn { loaded.new.is_torn ≡ true }
    ensures faults { IfErr result (λ fault. fault ≡ DriverFault.Device) }
    ensures ok { IsHonest (F.meaning folder.old) → OnOk result
        (SyncsAll loaded.old.name (F.meaning folder.old) (F.meaning folder.new)) }
    ensures err { IsHonest (F.meaning folder.old) → OnErr result
        (MaySyncAll loaded.old.name (F.meaning folder.old) (F.meaning folder.new)) }
{
    let Ok(()) = folder.sync_data(&loaded.file) else {
        return Err(DriverFault::Device);
    };
    if loaded.is_named {
        return Ok(());
    }
    let Ok(()) = folder.sync_name(&loaded.file) else {
        return Err(DriverFault::Device);
    };
    loaded.is_named = true;
    Ok(())
}

/// Fills `into` from the byte at `at` of a file on, and says how many bytes it filled: fewer only at the file's end.
pub(crate) fn fill<F: Folder>(
    folder: &mut F,
    file: &F::File,
    at: u64,
    into: &mut [u8],
) -> Result<usize, DriverFault>
    requires sound { IsHonest (F.meaning folder.old)
        → IsSound (F.name_of file.now) at (length into.old) (F.meaning folder.old) }
    ensures looks { Looks (F.meaning folder.old) (F.meaning folder.new) }
    ensures within { IfOk result (λ count. count ≤ length into.old) }
    ensures faults { IfErr result (λ fault. fault ≡ DriverFault.Device) }
    ensures ok { IsHonest (F.meaning folder.old) → IfOk result (λ count.
        Fills (F.name_of file.now) at (length into.old) count into.new (F.meaning folder.old)) }
{
    let mut count = 0;
    for _ in 0..u64::MAX {
        if count >= into.len() {
            break;
        }
        let Some(from) = at.checked_add(count as u64) else {
            return Err(DriverFault::Device);
        };
        match folder.read_at(file, from, &mut into[count..]) {
            Ok(0) => return Ok(count),
            Ok(more) => count += more,
            Err(FolderFault::Interrupted) => {}
            Err(_) => return Err(DriverFault::Device),
        }
    }
    if count < into.len() {
        return Err(DriverFault::Device);
    }
    Ok(count)
}

/// Ends the file at `to`, if it goes on past that. It ends at `end`.
pub(crate) fn cut_at<F: Folder>(
    folder: &mut F,
    loaded: &mut Loaded<F::File>,
    end: u64,
    to: u64,
) -> Result<(), DriverFault>
    requires knows { IsHonest (F.meaning folder.old)
        → Knows (F.name_of loaded.old.file) loaded.old (F.meaning folder.old) }
    requires end { IsHonest (F.meaning folder.old)
        → EndsAt loaded.old.name end (F.meaning folder.old) }
    ensures goes { Goes (F.meaning folder.old) (F.meaning folder.new) }
    ensures knows { IsHonest (F.meaning folder.old)
        → Knows (F.name_of loaded.new.file) loaded.new (F.meaning folder.new) }
    ensures name { loaded.new.name ≡ loaded.old.name }
    ensures torn { loaded.new.is_torn ≡ loaded.old.is_torn }
    ensures faults { IfErr result (λ fault. fault ≡ DriverFault.Device) }
    ensures ok { IsHonest (F.meaning folder.old) → OnOk result
        (Cuts loaded.old.name to (F.meaning folder.old) (F.meaning folder.new)) }
    ensures err { IsHonest (F.meaning folder.old) → OnErr result
        (MayCut loaded.old.name to (F.meaning folder.old) (F.meaning folder.new)) }
{
    if to >= end {
        loaded.end = Some(end);
        return Ok(());
    }
    loaded.end = None;
    loaded.synced = loaded.synced.min(to);
    match folder.cut(&loaded.file, to) {
        Ok(()) => {
            loaded.end = Some(to);
            Ok(())
        }
        Err(_) => Err(DriverFault::Device),
    }
}

/// How long a file is.
pub(crate) fn length_of<F: Folder>(folder: &mut F, file: &F::File) -> Result<u64, DriverFault>
    ensures looks { Looks (F.meaning folder.old) (F.meaning folder.new) }
    ensures faults { IfErr result (λ fault. fault ≡ DriverFault.Device) }
    ensures ok { IsHonest (F.meaning folder.old) → IfOk result (λ count.
        EndsAt (F.name_of file.now) count (F.meaning folder.old)) }
{
    match folder.len(file) {
        Ok(end) => Ok(end),
        Err(_) => Err(DriverFault::Device),
    }
}
