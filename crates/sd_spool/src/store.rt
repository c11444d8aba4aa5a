// A store of bytes: they are appended, read back, and all thrown away at once.
ghost use Rattle.std.specs.Prelude.{◌≡◌, ◌++◌, [], take, drop, length, OnOk, OnErr, IsErrOf};
ghost use Rattle.sd_spool.specs.Meaning.{Meaning, IsHonest, CountsFailures, MayAppend, MayClear};

/// Why a store refused a call.
#[derive(Clone, Copy, Debug, PartialEq, Eq)]
pub enum SpoolStoreFault {
    /// The store failed, and counted that.
    Device,
    /// Out of memory, and nothing happened.
    Memory,
}

/// A store of bytes for a spool. Its meaning says what it is: whether it is honest, the bytes that were
/// appended since the last clear, and how many calls failed. An honest store keeps those bytes and tells
/// them. Of any other only the count of failures is known.
///
/// `failures` counts the calls that the store failed. At `u64::MAX` it can't rise, and every call that can
/// fail answers `Device`.
pub trait SpoolStore: Send {
    ghost meaning: { Self → Meaning };

    /// Adds bytes after those that are there. After a fault some of them may be there.
    fn append(&mut self, bytes: &[u8]) -> Result<(), SpoolStoreFault>
        ensures counts { CountsFailures result (meaning self.old) (meaning self.new) }
        ensures memory { IsErrOf result SpoolStoreFault.Memory
            → meaning self.new ≡ meaning self.old }
        ensures ok { IsHonest (meaning self.old) → OnOk result
            ((meaning self.new).bytes ≡ (meaning self.old).bytes ++ bytes.now) }
        ensures err { IsHonest (meaning self.old) → OnErr result
            (MayAppend (meaning self.old).bytes (meaning self.new).bytes) };

    /// Fills `into` with the bytes from `at` on. If there are fewer than it has room for, that is a fault of
    /// the store. After a fault `into` may hold anything.
    fn read_at(&mut self, at: u64, into: &mut [u8]) -> Result<(), SpoolStoreFault>
        ensures counts { CountsFailures result (meaning self.old) (meaning self.new) }
        ensures memory { IsErrOf result SpoolStoreFault.Memory
            → meaning self.new ≡ meaning self.old }
        ensures ok { IsHonest (meaning self.old) → OnOk result
            (into.new ≡ take (length into.old) (drop at (meaning self.old).bytes)) }
        ensures same { IsHonest (meaning self.old)
            → (meaning self.new).bytes ≡ (meaning self.old).bytes };

    /// Throws all bytes away. After a fault they stay, or none is left.
    fn clear(&mut self) -> Result<(), SpoolStoreFault>
        ensures counts { CountsFailures result (meaning self.old) (meaning self.new) }
        ensures memory { IsErrOf result SpoolStoreFault.Memory
            → meaning self.new ≡ meaning self.old }
        ensures ok { IsHonest (meaning self.old) → OnOk result ((meaning self.new).bytes ≡ []) }
        ensures err { IsHonest (meaning self.old) → OnErr result
            (MayClear (meaning self.old).bytes (meaning self.new).bytes) };

    /// How many calls the store has failed.
    fn failures(&self) -> u64
        ensures { result ≡ (meaning self.now).failures };
}
