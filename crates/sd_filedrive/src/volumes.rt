// The volumes of a folder, of which one may be loaded. What a call answers here is not counted yet.
ghost use Rattle.std.specs.Prelude.{◌≡◌, ◌≢◌, ◌≤◌, ◌<◌, ◌⊎◌, true, false, None, Some, IfOk, IfErr, OnOk, OnErr, IsSome, IsErrOf, IsTrue, length, vec_len, vec_capacity};
ghost use Rattle.std.specs.Option.{ForSome};
ghost use Rattle.sd_driver.specs.Shelf.{SameShelf, KeepsStable, KeepsStableTo, Creates, MayCreate, Appends, MayAppend, Syncs, MaySync, Truncates, MayTruncate};
ghost use Rattle.sd_driver.specs.Meaning.{TellsLength, TellsBytes};
ghost use Rattle.sd_folder.specs.Meaning.{IsHonest, Goes, NoneTorn, shelf_of};
ghost use Rattle.sd_filedrive.specs.Known.{Knows, IsOpen, Looks};
ghost use Rattle.sd_filedrive.specs.Torn.{Covers, IsSound};
ghost use Rattle.sd_filedrive.specs.Parts.{loaded_name, opened_name};

use crate::files::{Loaded, Opened, Torn, torn_in};
use crate::steps::{
    append_at, create_file, cut_at, fill, find_end, length_of, open_file, sync_or_note,
};
use sd_base::VolName;
use sd_driver::DriverFault;
use sd_folder::{Access, Folder};
use std::alloc::Global;

/// The volumes of a folder.
#[derive(Drop)]
pub(crate) struct Volumes<F: Folder + Drop> {
    pub folder: F,
    pub loaded: Option<Loaded<F::File>>,
    // The volume that was read last without being loaded.
    reader: Option<Opened<F::File>>,
    // Those of which a sync failed: the system may have dropped what it couldn't write, and no later sync shows that
    // the disk has it. There is room for the loaded one.
    torn: Vec<Torn>,
    ghost knows: { IsHonest (F.meaning folder)
        → ForSome loaded (λ l. Knows (F.name_of l.file) l (F.meaning folder)) },
    ghost opened: { IsHonest (F.meaning folder)
        → ForSome reader (λ o. IsOpen (F.name_of o.file) o.name (F.meaning folder)) },
    ghost covers: { IsHonest (F.meaning folder) → Covers torn.items (F.meaning folder) },
    ghost room: { ForSome loaded
        (λ l. l.is_torn ≡ false → vec_len torn < vec_capacity torn) },
}

impl<F: Folder + Drop> Volumes<F> {
    /// Those of a folder of which no sync failed. None is loaded.
    pub(crate) fn new(folder: F, alloc: Global) -> Volumes<F>
        requires { IsHonest (F.meaning folder) → NoneTorn (F.meaning folder) }
        ensures folder { result.folder ≡ folder }
        ensures none { loaded_name result.loaded ≡ None }
    {
        Volumes {
            folder,
            loaded: None,
            reader: None,
            torn: Vec::new(alloc),
        }
    }

    /// Makes a volume and loads it.
    pub(crate) fn create(&mut self, name: &VolName) -> Result<(), DriverFault>
        ensures goes { Goes (F.meaning self.old.folder) (F.meaning self.new.folder) }
        ensures faults { IfErr result (λ fault.
            (fault ≢ DriverFault.NotThere) × (fault ≢ DriverFault.NoRoom)) }
        ensures memory { IsHonest (F.meaning self.old.folder)
            → IsErrOf result DriverFault.Memory
            → SameShelf (shelf_of (F.meaning self.old.folder))
            (shelf_of (F.meaning self.new.folder)) }
        ensures loaded { OnOk result (loaded_name self.new.loaded ≡ Some name.now) }
        ensures not_loaded { OnErr result
            (loaded_name self.new.loaded ≡ loaded_name self.old.loaded) }
        ensures stable { IsHonest (F.meaning self.old.folder)
            → KeepsStable (shelf_of (F.meaning self.old.folder))
            (shelf_of (F.meaning self.new.folder)) }
        ensures ok { IsHonest (F.meaning self.old.folder) → OnOk result
            (Creates name.now (shelf_of (F.meaning self.old.folder))
            (shelf_of (F.meaning self.new.folder))) }
        ensures err { IsHonest (F.meaning self.old.folder) → OnErr result
            (MayCreate name.now (shelf_of (F.meaning self.old.folder))
            (shelf_of (F.meaning self.new.folder))) }
        ensures exists { IsHonest (F.meaning self.old.folder)
            → IsErrOf result DriverFault.Exists
            → IsSome ((shelf_of (F.meaning self.old.folder)).volume name.now) }
    {
        let Ok(()) = self.torn.reserve(1) else {
            return Err(DriverFault::Memory);
        };
        let file = create_file(&mut self.folder, name)?;
        self.reader = None;
        self.loaded = Some(Loaded {
            name: name.copy(),
            file,
            end: Some(0),
            is_named: false,
            synced: 0,
            is_torn: false,
        });
        Ok(())
    }

    /// Opens a volume's file and loads it, if no sync of it failed.
    pub(crate) fn load(&mut self, name: &VolName) -> Result<(), DriverFault>
        ensures looks { Looks (F.meaning self.old.folder) (F.meaning self.new.folder) }
        ensures faults { IfErr result (λ fault.
            (fault ≢ DriverFault.Exists) × (fault ≢ DriverFault.NoRoom)) }
        ensures loaded { OnOk result (loaded_name self.new.loaded ≡ Some name.now) }
        ensures not_loaded { OnErr result
            (loaded_name self.new.loaded ≡ loaded_name self.old.loaded) }
        ensures ok { IsHonest (F.meaning self.old.folder) → OnOk result
            (IsSome ((shelf_of (F.meaning self.old.folder)).volume name.now)) }
        ensures not_there { IsHonest (F.meaning self.old.folder)
            → IsErrOf result DriverFault.NotThere
            → (shelf_of (F.meaning self.old.folder)).volume name.now ≡ None }
    {
        let Ok(()) = self.torn.reserve(1) else {
            return Err(DriverFault::Memory);
        };
        let None = torn_in(&self.torn, name) else {
            return Err(DriverFault::Device);
        };
        let file = open_file(&mut self.folder, name, Access::ReadWrite)?;
        self.reader = None;
        self.loaded = Some(Loaded {
            name: name.copy(),
            file,
            end: None,
            is_named: false,
            synced: 0,
            is_torn: false,
        });
        Ok(())
    }

    pub(crate) fn unload(&mut self)
        ensures folder { self.new.folder ≡ self.old.folder }
        ensures loaded { loaded_name self.new.loaded ≡ None }
    {
        self.loaded = None;
    }

    /// The length of a volume.
    pub(crate) fn len(&mut self, name: &VolName) -> Result<u64, DriverFault>
        ensures loaded { loaded_name self.new.loaded ≡ loaded_name self.old.loaded }
        ensures looks { Looks (F.meaning self.old.folder) (F.meaning self.new.folder) }
        ensures faults { IfErr result (λ fault.
            (fault ≢ DriverFault.Exists) × (fault ≢ DriverFault.NoRoom)) }
        ensures ok { IsHonest (F.meaning self.old.folder) → IfOk result
            (λ count. TellsLength name.now count (shelf_of (F.meaning self.old.folder))) }
        ensures not_there { IsHonest (F.meaning self.old.folder)
            → IsErrOf result DriverFault.NotThere
            → (shelf_of (F.meaning self.old.folder)).volume name.now ≡ None }
    {
        if self.is_loaded(name) {
            return self.loaded_len();
        }
        self.find_reader(name)?;
        self.opened_len()
    }

    /// Reads a volume. Of one of which a sync failed only what an earlier sync had shown to last.
    pub(crate) fn read_at(
        &mut self,
        name: &VolName,
        at: u64,
        into: &mut [u8],
    ) -> Result<usize, DriverFault>
        ensures loaded { loaded_name self.new.loaded ≡ loaded_name self.old.loaded }
        ensures looks { Looks (F.meaning self.old.folder) (F.meaning self.new.folder) }
        ensures within { IfOk result (λ count. count ≤ length into.old) }
        ensures faults { IfErr result (λ fault.
            (fault ≢ DriverFault.Exists) × (fault ≢ DriverFault.NoRoom)) }
        ensures ok { IsHonest (F.meaning self.old.folder) → IfOk result (λ count.
            TellsBytes name.now at (length into.old) count into.new
            (shelf_of (F.meaning self.old.folder))) }
        ensures not_there { IsHonest (F.meaning self.old.folder)
            → IsErrOf result DriverFault.NotThere
            → (shelf_of (F.meaning self.old.folder)).volume name.now ≡ None }
    {
        if !self.may_read(name, at, into.len()) {
            return Err(DriverFault::Device);
        }
        if self.is_loaded(name) {
            return self.read_loaded(name, at, into);
        }
        self.find_reader(name)?;
        self.read_opened(name, at, into)
    }

    /// Writes at the end of the loaded volume. If that fails, what was written stays, and is not written again.
    pub(crate) fn append(&mut self, bytes: &[u8]) -> Result<(), DriverFault>
        requires { IsSome (loaded_name self.old.loaded) }
        ensures goes { Goes (F.meaning self.old.folder) (F.meaning self.new.folder) }
        ensures faults { IfErr result (λ fault.
            (fault ≡ DriverFault.NoRoom) ⊎ (fault ≡ DriverFault.Device)) }
        ensures loaded { loaded_name self.new.loaded ≡ loaded_name self.old.loaded }
        ensures stable { IsHonest (F.meaning self.old.folder)
            → KeepsStable (shelf_of (F.meaning self.old.folder))
            (shelf_of (F.meaning self.new.folder)) }
        ensures ok { IsHonest (F.meaning self.old.folder) → OnOk result
            (Appends bytes.now (loaded_name self.old.loaded)
            (shelf_of (F.meaning self.old.folder)) (shelf_of (F.meaning self.new.folder))) }
        ensures err { IsHonest (F.meaning self.old.folder) → OnErr result
            (MayAppend (loaded_name self.old.loaded)
            (shelf_of (F.meaning self.old.folder)) (shelf_of (F.meaning self.new.folder))) }
    {
        let Some(loaded) = &mut self.loaded else {
            unreachable!()
        };
        let end = find_end(&mut self.folder, loaded)?;
        append_at(&mut self.folder, loaded, end, bytes)
    }

    /// Makes the loaded volume last. If that fails it is noted as torn.
    pub(crate) fn sync(&mut self) -> Result<(), DriverFault>
        requires { IsSome (loaded_name self.old.loaded) }
        ensures goes { Goes (F.meaning self.old.folder) (F.meaning self.new.folder) }
        ensures faults { IfErr result (λ fault. fault ≡ DriverFault.Device) }
        ensures loaded { loaded_name self.new.loaded ≡ loaded_name self.old.loaded }
        ensures stable { IsHonest (F.meaning self.old.folder)
            → KeepsStable (shelf_of (F.meaning self.old.folder))
            (shelf_of (F.meaning self.new.folder)) }
        ensures ok { IsHonest (F.meaning self.old.folder) → OnOk result
            (Syncs (loaded_name self.old.loaded)
            (shelf_of (F.meaning self.old.folder)) (shelf_of (F.meaning self.new.folder))) }
        ensures err { IsHonest (F.meaning self.old.folder) → OnErr result
            (MaySync (loaded_name self.old.loaded)
            (shelf_of (F.meaning self.old.folder)) (shelf_of (F.meaning self.new.folder))) }
    {
        let Some(loaded) = &mut self.loaded else {
            unreachable!()
        };
        sync_or_note(&mut self.folder, loaded, &mut self.torn)
    }

    /// Ends the loaded volume at `to`.
    pub(crate) fn cut(&mut self, to: u64) -> Result<(), DriverFault>
        requires { IsSome (loaded_name self.old.loaded) }
        ensures goes { Goes (F.meaning self.old.folder) (F.meaning self.new.folder) }
        ensures faults { IfErr result (λ fault. fault ≡ DriverFault.Device) }
        ensures loaded { loaded_name self.new.loaded ≡ loaded_name self.old.loaded }
        ensures stable { IsHonest (F.meaning self.old.folder)
            → KeepsStableTo to (loaded_name self.old.loaded)
            (shelf_of (F.meaning self.old.folder)) (shelf_of (F.meaning self.new.folder)) }
        ensures ok { IsHonest (F.meaning self.old.folder) → OnOk result
            (Truncates to (loaded_name self.old.loaded)
            (shelf_of (F.meaning self.old.folder)) (shelf_of (F.meaning self.new.folder))) }
        ensures err { IsHonest (F.meaning self.old.folder) → OnErr result
            (MayTruncate to (loaded_name self.old.loaded)
            (shelf_of (F.meaning self.old.folder)) (shelf_of (F.meaning self.new.folder))) }
    {
        let Some(loaded) = &mut self.loaded else {
            unreachable!()
        };
        let end = find_end(&mut self.folder, loaded)?;
        cut_at(&mut self.folder, loaded, end, to)
    }

    // Whether so many bytes of a volume may be read from a place on. All may if no sync of it failed.
    fn may_read(&self, name: &VolName, at: u64, room: usize) -> bool
        ensures { IsTrue result → IsHonest (F.meaning self.now.folder)
            → IsSound name.now at room (F.meaning self.now.folder) }
    {
        match torn_in(&self.torn, name) {
            None => true,
            Some(synced) => match at.checked_add(room as u64) {
                None => false,
                Some(end) => end <= synced,
            },
        }
    }

    // Whether this volume is the loaded one.
    fn is_loaded(&self, name: &VolName) -> bool
        ensures { result ≡ true → loaded_name self.now.loaded ≡ Some name.now }
    {
        match &self.loaded {
            Some(loaded) => loaded.name.is_same(name),
            None => false,
        }
    }

    // Whether this volume is the one that was read last.
    fn is_read(&self, name: &VolName) -> bool
        ensures { result ≡ true → opened_name self.now.reader ≡ Some name.now }
    {
        match &self.reader {
            Some(opened) => opened.name.is_same(name),
            None => false,
        }
    }

    // Opens a volume's file for reading, if it isn't open.
    fn find_reader(&mut self, name: &VolName) -> Result<(), DriverFault>
        ensures looks { Looks (F.meaning self.old.folder) (F.meaning self.new.folder) }
        ensures faults { IfErr result (λ fault.
            (fault ≢ DriverFault.Exists) × (fault ≢ DriverFault.NoRoom)) }
        ensures loaded { loaded_name self.new.loaded ≡ loaded_name self.old.loaded }
        ensures reader { OnOk result (opened_name self.new.reader ≡ Some name.now) }
        ensures not_there { IsHonest (F.meaning self.old.folder)
            → IsErrOf result DriverFault.NotThere
            → (shelf_of (F.meaning self.old.folder)).volume name.now ≡ None }
    {
        if self.is_read(name) {
            return Ok(());
        }
        self.reader = None;
        let file = open_file(&mut self.folder, name, Access::Read)?;
        self.reader = Some(Opened {
            name: name.copy(),
            file,
        });
        Ok(())
    }

    // Reads the loaded volume.
    fn read_loaded(
        &mut self,
        name: &VolName,
        at: u64,
        into: &mut [u8],
    ) -> Result<usize, DriverFault>
        requires loaded { loaded_name self.old.loaded ≡ Some name.now }
        requires sound { IsHonest (F.meaning self.old.folder)
            → IsSound name.now at (length into.old) (F.meaning self.old.folder) }
        ensures loaded { loaded_name self.new.loaded ≡ loaded_name self.old.loaded }
        ensures looks { Looks (F.meaning self.old.folder) (F.meaning self.new.folder) }
        ensures within { IfOk result (λ count. count ≤ length into.old) }
        ensures faults { IfErr result (λ fault. fault ≡ DriverFault.Device) }
        ensures ok { IsHonest (F.meaning self.old.folder) → IfOk result (λ count.
            TellsBytes name.now at (length into.old) count into.new
            (shelf_of (F.meaning self.old.folder))) }
    {
        let Some(loaded) = &self.loaded else {
            unreachable!()
        };
        fill(&mut self.folder, &loaded.file, at, into)
    }

    // Reads the volume whose file was opened for that.
    fn read_opened(
        &mut self,
        name: &VolName,
        at: u64,
        into: &mut [u8],
    ) -> Result<usize, DriverFault>
        requires opened { opened_name self.old.reader ≡ Some name.now }
        requires sound { IsHonest (F.meaning self.old.folder)
            → IsSound name.now at (length into.old) (F.meaning self.old.folder) }
        ensures loaded { loaded_name self.new.loaded ≡ loaded_name self.old.loaded }
        ensures looks { Looks (F.meaning self.old.folder) (F.meaning self.new.folder) }
        ensures within { IfOk result (λ count. count ≤ length into.old) }
        ensures faults { IfErr result (λ fault. fault ≡ DriverFault.Device) }
        ensures ok { IsHonest (F.meaning self.old.folder) → IfOk result (λ count.
            TellsBytes name.now at (length into.old) count into.new
            (shelf_of (F.meaning self.old.folder))) }
    {
        let Some(opened) = &self.reader else {
            unreachable!()
        };
        fill(&mut self.folder, &opened.file, at, into)
    }

    // The length of the loaded volume.
    fn loaded_len(&mut self) -> Result<u64, DriverFault>
        requires { IsSome (loaded_name self.old.loaded) }
        ensures loaded { loaded_name self.new.loaded ≡ loaded_name self.old.loaded }
        ensures looks { Looks (F.meaning self.old.folder) (F.meaning self.new.folder) }
        ensures faults { IfErr result (λ fault. fault ≡ DriverFault.Device) }
        ensures ok { IsHonest (F.meaning self.old.folder) → (name : _)
            → loaded_name self.old.loaded ≡ Some name
            → IfOk result (λ count.
            TellsLength name count (shelf_of (F.meaning self.old.folder))) }
    {
        let Some(loaded) = &self.loaded else {
            unreachable!()
        };
        length_of(&mut self.folder, &loaded.file)
    }

    // The length of the volume whose file was opened for reading.
    fn opened_len(&mut self) -> Result<u64, DriverFault>
        requires { IsSome (opened_name self.old.reader) }
        ensures loaded { loaded_name self.new.loaded ≡ loaded_name self.old.loaded }
        ensures looks { Looks (F.meaning self.old.folder) (F.meaning self.new.folder) }
        ensures faults { IfErr result (λ fault. fault ≡ DriverFault.Device) }
        ensures ok { IsHonest (F.meaning self.old.folder) → (name : _)
            → opened_name self.old.reader ≡ Some name
            → IfOk result (λ count.
            TellsLength name count (shelf_of (F.meaning self.old.folder))) }
    {
        let Some(opened) = &self.reader else {
            unreachable!()
        };
        length_of(&mut self.folder, &opened.file)
    }
}
