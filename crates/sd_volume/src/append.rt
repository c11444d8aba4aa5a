// A block more on a volume.
ghost use Rattle.std.specs.Prelude.{◌≡◌, ◌≢◌, ◌+◌, ◌≤◌, ◌<◌, ◌⊎◌, List, ℕ, length, OnOk, OnErr, Some};
ghost use Rattle.sd_base.specs.Limits.{block_header, least_block, least_body, most_body, most_volume};
ghost use Rattle.sd_base.specs.Count.{Rose};
ghost use Rattle.sd_driver.specs.Meaning.{IsHonest, Unchanged};
ghost use Rattle.sd_driver.specs.Shelf.{StillLasts};
ghost use Rattle.sd_volume.specs.declared.volume.VolumeStatus.TheVariants.{Append, Full, Error};
ghost use Rattle.sd_volume.specs.Append.{IfPlaced, IfNotPlaced, end_with, AddsBlock, KeepsBlocks};
ghost use Rattle.sd_volume.specs.Device.{Counted, CallsAtMost};

use crate::volume::{Volume, VolumeStatus};
use sd_base::{BLOCK_HEADER, SessionKey};
use sd_block::FramedBody;
use sd_driver::{Driver, DriverFault};

/// What became of a block that was to be added to a volume.
#[derive(Clone, Copy, Debug, PartialEq, Eq)]
pub enum Appended {
    /// It is there, with so many bytes, its header included.
    At { start: u64, length: u64 },
    /// It would pass the limit, or the device is full. The volume is full from now on.
    NoRoom,
    /// The device failed. What comes after the volume's blocks may be anything from now on.
    Fault,
    /// Out of memory. All is as before, and the block may be added again.
    Memory,
}

/// Adds the next block, with `body` of the session `key`, at the end of the loaded volume. If it would end past
/// `limit`, the device is asked for nothing; else the block is sealed where its body is, and the device is called
/// once. Takes no memory of its own.
pub fn append_block<D: Driver>(
    driver: &mut D,
    volume: &mut Volume,
    key: SessionKey,
    body: &mut FramedBody,
    limit: u64,
) -> Appended
    requires loaded { (D.meaning driver.old).loaded ≡ Some volume.old.name }
    requires status { volume.old.status ≡ Append }
    requires least { least_body ≤ length body.old.bytes }
    requires most { length body.old.bytes ≤ most_body }
    requires limit { limit ≤ most_volume }

    ensures body { body.new.bytes ≡ body.old.bytes }
    ensures placed { IfPlaced result (λ start size.
        (start ≡ volume.old.end) × (size ≡ block_header + length body.old.bytes)) }
    ensures end { IfPlaced result (λ start size. volume.new ≡ record volume.old {
      end = volume.old.end + size;
      next_number = volume.old.next_number + 1;
      last = volume.old.end;
    }) }
    ensures full { result ≡ Appended.NoRoom → volume.new ≡ record volume.old { status = Full } }
    ensures error { result ≡ Appended.Fault → volume.new ≡ record volume.old { status = Error } }
    ensures memory { result ≡ Appended.Memory → volume.new ≡ volume.old }

    ensures past { limit < end_with volume.old body.old.bytes → result ≡ Appended.NoRoom }
    ensures unchanged { (limit < end_with volume.old body.old.bytes) ⊎ (result ≡ Appended.Memory)
        → Unchanged (D.meaning driver.old) (D.meaning driver.new) }
    ensures counted { Counted (result ≡ Appended.Fault)
        ((result ≡ Appended.NoRoom) × (end_with volume.old body.old.bytes ≤ limit))
        (D.meaning driver.old) (D.meaning driver.new) }
    ensures calls { CallsAtMost 1 (D.meaning driver.old) (D.meaning driver.new) }
    ensures loaded { (D.meaning driver.new).loaded ≡ (D.meaning driver.old).loaded }
    ensures lasts { StillLasts (D.meaning driver.old).shelf (D.meaning driver.new).shelf }

    ensures adds { IsHonest (D.meaning driver.old) → IfPlaced result (λ _ _.
        AddsBlock (record { key = key; body = body.old.bytes })
        volume.old (D.meaning driver.old).shelf volume.new (D.meaning driver.new).shelf) }
    ensures keeps { IsHonest (D.meaning driver.old) → IfNotPlaced result (KeepsBlocks
        volume.old (D.meaning driver.old).shelf volume.new (D.meaning driver.new).shelf) }
    ensures others { IsHonest (D.meaning driver.old) → (other : List ℕ) → other ≢ volume.old.name
        → (D.meaning driver.new).shelf.volume other ≡ (D.meaning driver.old).shelf.volume other }
{
    let size = (BLOCK_HEADER + body.len()) as u64;
    if volume.end + size > limit {
        volume.status = VolumeStatus::Full;
        return Appended::NoRoom;
    }
    body.seal(key, volume.next_number);
    let Err(fault) = driver.append(body.as_block()) else {
        return Appended::At {
            start: volume.advance(size),
            length: size,
        };
    };
    match fault {
        DriverFault::NoRoom => {
            volume.status = VolumeStatus::Full;
            Appended::NoRoom
        }
        DriverFault::Memory => Appended::Memory,
        _ => {
            volume.status = VolumeStatus::Error;
            Appended::Fault
        }
    }
}

impl Volume {
    // A block of that size was added at the end. Answers where it begins.
    fn advance(&mut self, size: u64) -> u64
        requires least { least_block ≤ size }
        requires most { self.old.end + size ≤ most_volume }
        ensures start { result ≡ self.old.end }
        ensures volume { self.new ≡ record self.old {
          end = self.old.end + size;
          next_number = self.old.next_number + 1;
          last = self.old.end;
        } }
    {
        self.last = self.end;
        self.end += size;
        self.next_number += 1;
        self.last
    }
}
