// A reader of a volume's bytes, over one buffer whatever the volume's length.
ghost use Rattle.std.specs.Prelude.{◌≡◌, ◌≢◌, ◌+◌, ◌-◌, ◌≤◌, ◌<◌, ◌^◌, ◌↔◌, [], length, min, take, drop, IfOk, IfErr, OnOk, IsErrOf, IsOk, IsTrue, None, ◌⊎◌};
ghost use Rattle.sd_base.specs.Limits.{most_block, most_volume};
ghost use Rattle.sd_driver.specs.Meaning.{IsHonest, Unchanged};
ghost use Rattle.sd_driver.specs.Shelf.{Shelf, Held, BeginsWith};
ghost use Rattle.sd_volume.specs.Device.{OnlyReads};
ghost use Rattle.sd_volume.specs.Reader.{Shows, ShowsPart, HoldsPart, HoldsFrom};

use sd_base::{MOST_BLOCK, MOST_VOLUME, VolName};
use sd_driver::{Driver, DriverFault};
use std::alloc::{AllocError, Global};
use std::marker::Model;

/// Reads a volume in parts of at most one block's greatest length. It keeps what it has read and not yet gone
/// past, so that going through a volume from front to end asks the device for each byte once. In a contract it
/// is a `ReaderView`.
#[derive(Drop)]
pub struct VolumeReader {
    name: VolName,
    buffer: Vec<u8>,
    /// The place in the volume of the buffer's first byte.
    from: u64,
    /// How many bytes of the buffer, from its front, are the volume's.
    held: usize,
    /// Where the bytes that are shown begin in the buffer, and how many they are.
    start: usize,
    count: usize,
}

impl Model for VolumeReader {
    ghost use Rattle.std.specs.Prelude.{take, drop};
    ghost use Rattle.sd_volume.specs.Reader.{ReaderView, FitsBuffer};

    ghost Value = { ReaderView };

    ghost view = { λ r. record {
      name = r.name;
      from = r.from;
      bytes = take r.held r.buffer.items;
      shown = take r.count (drop r.start r.buffer.items);
    } };

    ghost invariant = { λ r. FitsBuffer r.buffer.items r.held r.start r.count };
}

impl VolumeReader {
    /// A reader of the volume of this name, which holds nothing yet.
    pub fn new(alloc: Global, name: &VolName) -> Result<Self, AllocError>
        ensures name { IfOk result (λ reader. reader.name ≡ name.now) }
        ensures bytes { IfOk result (λ reader. reader.bytes ≡ []) }
        ensures shows { IfOk result (λ reader. (shelf : Shelf) → Shows reader shelf) }
    {
        Ok(VolumeReader {
            name: name.copy(),
            buffer: vec![in alloc; 0; MOST_BLOCK]?,
            from: 0,
            held: 0,
            start: 0,
            count: 0,
        })
    }

    /// Turns to the volume of this name, and holds nothing of it yet. Takes no memory.
    pub fn turn_to_volume(&mut self, name: &VolName)
        ensures name { self.new.name ≡ name.now }
        ensures bytes { self.new.bytes ≡ [] }
        ensures shown { self.new.shown ≡ [] }
        ensures shows { (shelf : Shelf) → Shows self.new shelf }
    {
        self.name = name.copy();
        self.from = 0;
        self.held = 0;
        self.start = 0;
        self.count = 0;
    }

    /// Makes the `count` bytes from `at` on be shown, or as many as there are before the volume's end. Asks
    /// the device for nothing if it holds them already, else once.
    pub fn fill<D: Driver>(
        &mut self,
        driver: &mut D,
        at: u64,
        count: usize,
    ) -> Result<(), DriverFault>
        requires { count ≤ most_block }
        ensures name { self.new.name ≡ self.old.name }
        ensures most { OnOk result (length self.new.shown ≤ count) }
        ensures device { OnlyReads (IsErrOf result DriverFault.Device)
            (D.meaning driver.old) (D.meaning driver.new) }
        ensures faults { IfErr result
            (λ fault. (fault ≢ DriverFault.Exists) × (fault ≢ DriverFault.NoRoom)) }

        ensures shown { IsHonest (D.meaning driver.old)
            → Shows self.old (D.meaning driver.old).shelf
            → OnOk result (ShowsPart at count self.new (D.meaning driver.new).shelf) }
        ensures shows { IsHonest (D.meaning driver.old)
            → Shows self.old (D.meaning driver.old).shelf
            → Shows self.new (D.meaning driver.new).shelf }
        ensures not_there { IsHonest (D.meaning driver.old) → IsErrOf result DriverFault.NotThere
            → (D.meaning driver.old).shelf.volume self.old.name ≡ None }

        // What it holds is not read again, and what is read fills the buffer.
        ensures held { HoldsPart at count self.old
            → IsOk result × Unchanged (D.meaning driver.old) (D.meaning driver.new) }
        ensures read { IsHonest (D.meaning driver.old)
            → Shows self.old (D.meaning driver.old).shelf
            → ¬ HoldsPart at count self.old
            → OnOk result (HoldsFrom at self.new (D.meaning driver.new).shelf) }
    {
        if self.holds(at, count) {
            self.show(at, count);
            return Ok(());
        }
        self.refill(driver, at)?;
        self.show(at, count);
        Ok(())
    }

    /// The bytes that the last call of `fill` made be shown.
    pub fn shown(&self) -> &[u8]
        ensures shown { result.now ≡ self.now.shown }
        ensures most { length result.now ≤ most_block }
    {
        &self.buffer[self.start..self.start + self.count]
    }

    // Whether all these bytes are in the buffer.
    fn holds(&self, at: u64, count: usize) -> bool
        ensures { IsTrue result ↔ HoldsPart at count self.now }
    {
        at >= self.from
            && at - self.from <= self.held as u64
            && count <= self.held - (at - self.from) as usize
    }

    // Has the buffer begin at `at`, with as many bytes as it has room for.
    fn refill<D: Driver>(&mut self, driver: &mut D, at: u64) -> Result<(), DriverFault>
        ensures name { self.new.name ≡ self.old.name }
        ensures from { OnOk result (self.new.from ≡ at) }
        ensures device { OnlyReads (IsErrOf result DriverFault.Device)
            (D.meaning driver.old) (D.meaning driver.new) }
        ensures faults { IfErr result
            (λ fault. (fault ≢ DriverFault.Exists) × (fault ≢ DriverFault.NoRoom)) }

        ensures holds { IsHonest (D.meaning driver.old)
            → Shows self.old (D.meaning driver.old).shelf
            → OnOk result (HoldsFrom at self.new (D.meaning driver.new).shelf) }
        ensures shows { IsHonest (D.meaning driver.old)
            → Shows self.old (D.meaning driver.old).shelf
            → Shows self.new (D.meaning driver.new).shelf }
        ensures not_there { IsHonest (D.meaning driver.old) → IsErrOf result DriverFault.NotThere
            → (D.meaning driver.old).shelf.volume self.old.name ≡ None }
    {
        self.turn_to(at);
        let name = self.name.copy();
        let held = self.held;
        let count = read_behind(driver, &name, at, held, &mut self.buffer)?;
        self.held = held + count;
        Ok(())
    }

    // Moves what it holds from `at` on to the buffer's front. Bytes past the greatest length of a volume are
    // given up.
    fn turn_to(&mut self, at: u64)
        ensures name { self.new.name ≡ self.old.name }
        ensures from { self.new.from ≡ at }
        ensures fits { at + length self.new.bytes < 2 ^ 64 }
        ensures shows { (shelf : Shelf) → Shows self.old shelf → Shows self.new shelf }
    {
        let kept = self.kept_from(at);
        let held = self.held;
        self.buffer.copy_within(held - kept..held, 0);
        self.from = at;
        self.held = kept;
        self.start = 0;
        self.count = 0;
    }

    // How many of the bytes that it holds are at `at` or after it.
    fn kept_from(&self, at: u64) -> usize
        ensures most { result ≤ length self.now.bytes }
        ensures there { (result ≡ 0)
            ⊎ ((self.now.from ≤ at) × (at + result ≡ self.now.from + length self.now.bytes)) }
        ensures fits { at + result < 2 ^ 64 }
    {
        if at < self.from || at > MOST_VOLUME || at - self.from > self.held as u64 {
            return 0;
        }
        self.held - (at - self.from) as usize
    }

    fn show(&mut self, at: u64, count: usize)
        requires from { self.old.from ≤ at }
        requires within { at ≤ self.old.from + length self.old.bytes }
        ensures { self.new ≡ record self.old {
          shown = take count (drop (at - self.old.from) self.old.bytes);
        } }
    {
        let start = (at - self.from) as usize;
        self.start = start;
        self.count = count.min(self.held - start);
    }
}

// Reads into the buffer, after its first `held` bytes, what comes after them on the volume, and says how
// many bytes that were.
fn read_behind<D: Driver>(
    driver: &mut D,
    name: &VolName,
    at: u64,
    held: usize,
    buffer: &mut [u8],
) -> Result<usize, DriverFault>
    requires held { held ≤ length buffer.old }
    requires fits { at + held < 2 ^ 64 }
    ensures within { IfOk result (λ count. held + count ≤ length buffer.old) }
    ensures kept { take held buffer.new ≡ take held buffer.old }
    ensures device { OnlyReads (IsErrOf result DriverFault.Device)
        (D.meaning driver.old) (D.meaning driver.new) }
    ensures faults { IfErr result
        (λ fault. (fault ≢ DriverFault.Exists) × (fault ≢ DriverFault.NoRoom)) }

    ensures bytes { IsHonest (D.meaning driver.old) → (volume : Held)
        → (D.meaning driver.old).shelf.volume name.now ≡ Some volume
        → BeginsWith (drop at volume.bytes) (take held buffer.old)
        → IfOk result (λ count.
        take (held + count) buffer.new ≡ take (length buffer.old) (drop at volume.bytes)) }
    ensures not_there { IsHonest (D.meaning driver.old) → IsErrOf result DriverFault.NotThere
        → (D.meaning driver.old).shelf.volume name.now ≡ None }
{
    driver.read_at(name, at + held as u64, &mut buffer[held..])
}
