// Where the bodies of a spool lie in its store.
ghost use Rattle.std.specs.Prelude.{◌≡◌, ◌↔◌, ◌+◌, ◌^◌, ◌<◌, ◌≤◌, ◌++◌, [], false, true, length, IfOk, OnOk, OnErr, IsErrOf, IsTrue};
ghost use Rattle.sd_spool.specs.Meaning.{IsHonest, CountsFailures, MayAppend};
ghost use Rattle.sd_spool.specs.Job.{EndsAt, HasCause, state_of, begin_extent, begin_bytes};

use crate::store::{SpoolStore, SpoolStoreFault};

/// A body in the store: the place of its first byte, how many it has, and its first and last FileIndex.
#[derive(Clone, Copy, Drop)]
pub struct SpoolEntry {
    pub at: u64,
    pub length: usize,
    pub first: u32,
    pub last: u32,
}

/// How far the bytes in the store go.
#[derive(Drop)]
pub struct Extent {
    /// Where the next body would begin.
    pub end: u64,
    /// A call that changes the store has failed since it was last cleared, so that its bytes may not end there.
    pub torn: bool,
}

impl Extent {
    /// Whether the store is as a clear leaves it.
    pub fn is_clear(&self) -> bool
        ensures { IsTrue result ↔ (self.now ≡ record { end = 0; torn = false }) }
    {
        self.end == 0 && !self.torn
    }

    // Makes the store ready for a body: clears it if that body will be the only one.
    fn begin<S: SpoolStore>(&mut self, store: &mut S, is_first: bool) -> Result<(), SpoolStoreFault>
        requires { EndsAt (S.meaning store.old) self.old }
        ensures ends { EndsAt (S.meaning store.new) self.new }
        ensures cause { HasCause (IsErrOf result SpoolStoreFault.Device)
            (state_of (S.meaning store.old)) (state_of (S.meaning store.new)) }
        ensures ok { OnOk result (self.new ≡ begin_extent is_first self.old) }
        ensures bytes { IsHonest (S.meaning store.old) → OnOk result
            ((S.meaning store.new).bytes ≡ begin_bytes is_first (S.meaning store.old).bytes) }
        ensures behind { is_first ≡ false → S.meaning store.new ≡ S.meaning store.old }
        ensures err { OnErr result ((is_first ≡ true) × (self.new.end ≡ self.old.end)) }
    {
        if !is_first || self.is_clear() {
            return Ok(());
        }
        let cleared = store.clear();
        match cleared {
            Ok(()) => {
                self.end = 0;
                self.torn = false;
            }
            Err(_) => self.torn = true,
        }
        cleared
    }

    // Appends the bytes of a body.
    fn append<S: SpoolStore>(&mut self, store: &mut S, bytes: &[u8]) -> Result<(), SpoolStoreFault>
        requires ends { EndsAt (S.meaning store.old) self.old }
        requires fits { self.old.end + length bytes.now < 2 ^ 64 }
        ensures ends { EndsAt (S.meaning store.new) self.new }
        ensures counts { CountsFailures result (S.meaning store.old) (S.meaning store.new) }
        ensures memory { IsErrOf result SpoolStoreFault.Memory
            → (S.meaning store.new ≡ S.meaning store.old) × (self.new ≡ self.old) }
        ensures device { IsErrOf result SpoolStoreFault.Device
            → self.new ≡ record { end = self.old.end; torn = true } }
        ensures ok { OnOk result
            (self.new ≡ record { end = self.old.end + length bytes.now; torn = self.old.torn }) }
        ensures bytes { IsHonest (S.meaning store.old) → OnOk result
            ((S.meaning store.new).bytes ≡ (S.meaning store.old).bytes ++ bytes.now) }
        ensures stand { IsHonest (S.meaning store.old)
            → MayAppend (S.meaning store.old).bytes (S.meaning store.new).bytes }
    {
        match store.append(bytes) {
            Ok(()) => {
                self.end += bytes.len() as u64;
                Ok(())
            }
            Err(SpoolStoreFault::Memory) => Err(SpoolStoreFault::Memory),
            Err(SpoolStoreFault::Device) => {
                self.torn = true;
                Err(SpoolStoreFault::Device)
            }
        }
    }

    /// Puts the bytes of a body into the store, and tells their place. If no other body is in it, what is
    /// there is cleared away first.
    pub fn put<S: SpoolStore>(
        &mut self,
        store: &mut S,
        is_first: bool,
        bytes: &[u8],
    ) -> Result<u64, SpoolStoreFault>
        requires ends { EndsAt (S.meaning store.old) self.old }
        requires fits { (begin_extent is_first self.old).end + length bytes.now < 2 ^ 64 }
        ensures ends { EndsAt (S.meaning store.new) self.new }
        ensures cause { HasCause (IsErrOf result SpoolStoreFault.Device)
            (state_of (S.meaning store.old)) (state_of (S.meaning store.new)) }
        ensures at { IfOk result (λ at. at ≡ (begin_extent is_first self.old).end) }
        ensures end { OnOk result
            (self.new.end ≡ (begin_extent is_first self.old).end + length bytes.now) }
        ensures torn { OnOk result (self.new.torn ≡ (begin_extent is_first self.old).torn) }
        ensures bytes { IsHonest (S.meaning store.old) → OnOk result ((S.meaning store.new).bytes
            ≡ begin_bytes is_first (S.meaning store.old).bytes ++ bytes.now) }
        ensures within { OnErr result (self.new.end ≤ self.old.end) }
        ensures stand { is_first ≡ false → IsHonest (S.meaning store.old)
            → MayAppend (S.meaning store.old).bytes (S.meaning store.new).bytes }
        ensures memory { is_first ≡ false → IsErrOf result SpoolStoreFault.Memory
            → (S.meaning store.new ≡ S.meaning store.old) × (self.new ≡ self.old) }
        ensures device { is_first ≡ false → IsErrOf result SpoolStoreFault.Device
            → self.new ≡ record { end = self.old.end; torn = true } }
    {
        self.begin(store, is_first)?;
        let at = self.end;
        self.append(store, bytes)?;
        Ok(at)
    }
}
