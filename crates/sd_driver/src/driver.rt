// A device that holds volumes under names, of which at most one is loaded.
ghost use Rattle.std.specs.Prelude.{◌≡◌, ◌≢◌, ◌≤◌, ◌⊎◌, None, Some, IfOk, IfErr, OnOk, OnErr, IsSome, IsErrOf, length};
ghost use Rattle.sd_driver.specs.Shelf.{SameShelf, Passes, KeepsStable, KeepsStableTo, Creates, MayCreate, Appends, MayAppend, Syncs, MaySync, Truncates, MayTruncate};
ghost use Rattle.sd_driver.specs.Meaning.{Meaning, IsHonest, CountsFailures, SameCounts, Unchanged, TellsLength, TellsBytes};

use sd_base::VolName;

/// Why a device refused a call.
#[derive(Clone, Copy, Debug, PartialEq, Eq)]
pub enum DriverFault {
    /// No volume of that name (load, len, read).
    NotThere,
    /// A volume of that name is there already (create).
    Exists,
    /// The device is full (append). What is past the volume's old end may be anything.
    NoRoom,
    /// The device failed, and counted that. Past the old end, past where a cut was to end, and under a
    /// name that was new there may be anything; all else is as it was.
    Device,
    /// Out of memory, and nothing happened. A sync takes none.
    Memory,
}

/// A device that holds volumes. Its meaning says what it is: the shelf, the loaded volume, how many
/// calls failed, and whether it is honest. An honest device does what its calls name, and tells what it
/// holds. Of any other only the counts, the loaded name and the stable bytes are known.
///
/// `failures` counts the calls that the device failed. At `u64::MAX` it can't rise, and every call that can
/// fail answers `Device`.
pub trait Driver: Send {
    ghost meaning: { Self → Meaning };

    /// A new empty volume, which is then loaded.
    fn create(&mut self, name: &VolName) -> Result<(), DriverFault>
        requires { (meaning self.old).loaded ≡ None }
        ensures counts { CountsFailures result (meaning self.old) (meaning self.new) }
        ensures faults { IfErr result
            (λ fault. (fault ≢ DriverFault.NotThere) × (fault ≢ DriverFault.NoRoom)) }
        ensures memory { IsErrOf result DriverFault.Memory
            → Unchanged (meaning self.old) (meaning self.new) }
        ensures passes { Passes (meaning self.old).shelf (meaning self.new).shelf }
        ensures stable { KeepsStable (meaning self.old).shelf (meaning self.new).shelf }
        ensures loaded { OnOk result ((meaning self.new).loaded ≡ Some name.now) }
        ensures not_loaded { OnErr result ((meaning self.new).loaded ≡ None) }

        ensures ok { IsHonest (meaning self.old)
            → OnOk result (Creates name.now (meaning self.old).shelf (meaning self.new).shelf) }
        ensures err { IsHonest (meaning self.old)
            → OnErr result (MayCreate name.now (meaning self.old).shelf (meaning self.new).shelf) }
        ensures exists { IsHonest (meaning self.old)
            → IsErrOf result DriverFault.Exists
            → IsSome ((meaning self.old).shelf.volume name.now) };

    /// Loads a volume.
    fn load(&mut self, name: &VolName) -> Result<(), DriverFault>
        requires { (meaning self.old).loaded ≡ None }
        ensures counts { CountsFailures result (meaning self.old) (meaning self.new) }
        ensures faults { IfErr result
            (λ fault. (fault ≢ DriverFault.Exists) × (fault ≢ DriverFault.NoRoom)) }
        ensures memory { IsErrOf result DriverFault.Memory
            → Unchanged (meaning self.old) (meaning self.new) }
        ensures passes { Passes (meaning self.old).shelf (meaning self.new).shelf }
        ensures stable { KeepsStable (meaning self.old).shelf (meaning self.new).shelf }
        ensures loaded { OnOk result ((meaning self.new).loaded ≡ Some name.now) }
        ensures not_loaded { OnErr result ((meaning self.new).loaded ≡ None) }

        ensures ok { IsHonest (meaning self.old)
            → OnOk result (IsSome ((meaning self.old).shelf.volume name.now)) }
        ensures not_there { IsHonest (meaning self.old)
            → IsErrOf result DriverFault.NotThere
            → (meaning self.old).shelf.volume name.now ≡ None }
        ensures same { IsHonest (meaning self.old)
            → SameShelf (meaning self.old).shelf (meaning self.new).shelf };

    /// Unloads the volume, if one is loaded. Can't fail.
    fn unload(&mut self)
        ensures counts { SameCounts (meaning self.old) (meaning self.new) }
        ensures passes { Passes (meaning self.old).shelf (meaning self.new).shelf }
        ensures stable { KeepsStable (meaning self.old).shelf (meaning self.new).shelf }
        ensures loaded { (meaning self.new).loaded ≡ None }
        ensures same { IsHonest (meaning self.old)
            → SameShelf (meaning self.old).shelf (meaning self.new).shelf };

    /// The length of a volume, in bytes.
    fn len(&mut self, name: &VolName) -> Result<u64, DriverFault>
        ensures counts { CountsFailures result (meaning self.old) (meaning self.new) }
        ensures faults { IfErr result
            (λ fault. (fault ≢ DriverFault.Exists) × (fault ≢ DriverFault.NoRoom)) }
        ensures memory { IsErrOf result DriverFault.Memory
            → Unchanged (meaning self.old) (meaning self.new) }
        ensures passes { Passes (meaning self.old).shelf (meaning self.new).shelf }
        ensures stable { KeepsStable (meaning self.old).shelf (meaning self.new).shelf }
        ensures loaded { (meaning self.new).loaded ≡ (meaning self.old).loaded }

        ensures ok { IsHonest (meaning self.old)
            → IfOk result (λ count. TellsLength name.now count (meaning self.old).shelf) }
        ensures not_there { IsHonest (meaning self.old)
            → IsErrOf result DriverFault.NotThere
            → (meaning self.old).shelf.volume name.now ≡ None }
        ensures same { IsHonest (meaning self.old)
            → SameShelf (meaning self.old).shelf (meaning self.new).shelf };

    /// Fills `into` from the byte at `at` of a volume on, and says how many bytes it filled: all, or fewer
    /// only at the volume's end. After a fault `into` may hold anything.
    fn read_at(&mut self, name: &VolName, at: u64, into: &mut [u8]) -> Result<usize, DriverFault>
        ensures within { IfOk result (λ count. count ≤ length into.old) }
        ensures counts { CountsFailures result (meaning self.old) (meaning self.new) }
        ensures faults { IfErr result
            (λ fault. (fault ≢ DriverFault.Exists) × (fault ≢ DriverFault.NoRoom)) }
        ensures memory { IsErrOf result DriverFault.Memory
            → Unchanged (meaning self.old) (meaning self.new) }
        ensures passes { Passes (meaning self.old).shelf (meaning self.new).shelf }
        ensures stable { KeepsStable (meaning self.old).shelf (meaning self.new).shelf }
        ensures loaded { (meaning self.new).loaded ≡ (meaning self.old).loaded }

        ensures ok { IsHonest (meaning self.old)
            → IfOk result (λ count.
            TellsBytes name.now at (length into.old) count into.new (meaning self.old).shelf) }
        ensures not_there { IsHonest (meaning self.old)
            → IsErrOf result DriverFault.NotThere
            → (meaning self.old).shelf.volume name.now ≡ None }
        ensures same { IsHonest (meaning self.old)
            → SameShelf (meaning self.old).shelf (meaning self.new).shelf };

    /// Adds bytes at the end of the loaded volume. They are not stable before a sync.
    fn append(&mut self, bytes: &[u8]) -> Result<(), DriverFault>
        requires { IsSome (meaning self.old).loaded }
        ensures counts { CountsFailures result (meaning self.old) (meaning self.new) }
        ensures faults { IfErr result
            (λ fault. (fault ≢ DriverFault.NotThere) × (fault ≢ DriverFault.Exists)) }
        ensures memory { IsErrOf result DriverFault.Memory
            → Unchanged (meaning self.old) (meaning self.new) }
        ensures passes { Passes (meaning self.old).shelf (meaning self.new).shelf }
        ensures stable { KeepsStable (meaning self.old).shelf (meaning self.new).shelf }
        ensures loaded { (meaning self.new).loaded ≡ (meaning self.old).loaded }

        ensures ok { IsHonest (meaning self.old) → OnOk result
            (Appends bytes.now (meaning self.old).loaded
            (meaning self.old).shelf (meaning self.new).shelf) }
        ensures err { IsHonest (meaning self.old) → OnErr result
            (MayAppend (meaning self.old).loaded
            (meaning self.old).shelf (meaning self.new).shelf) };

    /// Makes all bytes of the loaded volume stable: a stop leaves them. Takes no memory.
    fn sync(&mut self) -> Result<(), DriverFault>
        requires { IsSome (meaning self.old).loaded }
        ensures counts { CountsFailures result (meaning self.old) (meaning self.new) }
        ensures faults { IfErr result (λ fault. fault ≡ DriverFault.Device) }
        ensures passes { Passes (meaning self.old).shelf (meaning self.new).shelf }
        ensures stable { KeepsStable (meaning self.old).shelf (meaning self.new).shelf }
        ensures loaded { (meaning self.new).loaded ≡ (meaning self.old).loaded }

        ensures ok { IsHonest (meaning self.old) → OnOk result
            (Syncs (meaning self.old).loaded (meaning self.old).shelf (meaning self.new).shelf) }
        ensures err { IsHonest (meaning self.old) → OnErr result
            (MaySync (meaning self.old).loaded (meaning self.old).shelf (meaning self.new).shelf) };

    /// Takes away what is past the byte at `to` of the loaded volume.
    fn cut(&mut self, to: u64) -> Result<(), DriverFault>
        requires { IsSome (meaning self.old).loaded }
        ensures counts { CountsFailures result (meaning self.old) (meaning self.new) }
        ensures faults { IfErr result
            (λ fault. (fault ≡ DriverFault.Device) ⊎ (fault ≡ DriverFault.Memory)) }
        ensures memory { IsErrOf result DriverFault.Memory
            → Unchanged (meaning self.old) (meaning self.new) }
        ensures passes { Passes (meaning self.old).shelf (meaning self.new).shelf }
        ensures stable { KeepsStableTo to (meaning self.old).loaded
            (meaning self.old).shelf (meaning self.new).shelf }
        ensures loaded { (meaning self.new).loaded ≡ (meaning self.old).loaded }

        ensures ok { IsHonest (meaning self.old) → OnOk result
            (Truncates to (meaning self.old).loaded
            (meaning self.old).shelf (meaning self.new).shelf) }
        ensures err { IsHonest (meaning self.old) → OnErr result
            (MayTruncate to (meaning self.old).loaded
            (meaning self.old).shelf (meaning self.new).shelf) };

    /// How many calls the device has failed.
    fn failures(&self) -> u64
        ensures { result ≡ (meaning self.now).failures };
}
