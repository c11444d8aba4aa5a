// The piece in the hand becomes a block of the loaded volume.
ghost use Rattle.std.specs.Prelude.{◌≡◌, ◌≢◌, ◌≤◌, ◌<◌, ℕ, List, length, OnErr, IfSome, IfNone, MatchOption, Some, Ok};
ghost use Rattle.sd_base.specs.Limits.{most_volume};
ghost use Rattle.sd_driver.specs.Meaning.{IsHonest, Unchanged};
ghost use Rattle.sd_driver.specs.Shelf.{StillLasts};
ghost use Rattle.sd_volume.specs.declared.volume.VolumeStatus.TheVariants.{Append};
ghost use Rattle.sd_volume.specs.Device.{Counted, CallsAtMost, OthersStay};
ghost use Rattle.sd_drive.specs.Shelf.{KeepsPieces};
ghost use Rattle.sd_drive.specs.Moves.{Places, PlacesOn, RoomAfter, TakesOn, TakesBlocks, NeedsNone, IsWithin, LimitAllows, hand_after};
ghost use Rattle.sd_drive.specs.Placing.{PlacesAt};

use crate::drive::Drive;
use sd_base::{BLOCK_HEADER, PoolName};
use sd_driver::Driver;
use sd_journal::Journal;
use sd_lane::Piece;
use sd_span::Placement;
use sd_volume::{Appended, Volume, VolumeStatus, append_block};
use std::alloc::AllocError;

/// What a place came to.
#[derive(Drop)]
pub enum Placed {
    /// The piece's block is there, and the hand is empty.
    At(Placement),
    /// No volume is loaded that takes blocks of the drive's pool.
    NeedVolume,
    /// The loaded volume has no room for the block, and takes no more. The piece is still in the hand.
    VolumeFull,
    /// The device failed, and the loaded volume takes no more. The piece is still in the hand.
    VolumeError,
    /// The hand is empty.
    Idle,
}

impl<D: Driver> Drive<D> {
    /// Places the piece in the hand after the last block of the loaded volume. Makes room for the journal's entry
    /// first, and calls the device once, or not at all if the block would pass the limit. After an Err all is as
    /// before, but for that room.
    pub fn place(&mut self) -> Result<Placed, AllocError>
        ensures places { Places result self.old self.new }
        ensures counted { Counted (result ≡ Ok Placed.VolumeError)
            ((result ≡ Ok Placed.VolumeFull) × LimitAllows self.old)
            (D.meaning self.old.device) (D.meaning self.new.device) }
        ensures keeps { KeepsPieces (D.meaning self.old.device) (D.meaning self.new.device)
            self.old.journal self.new.journal self.old.hand self.new.hand }
        ensures calls { CallsAtMost 1 (D.meaning self.old.device) (D.meaning self.new.device) }
        ensures later { StillLasts (D.meaning self.old.device).shelf
            (D.meaning self.new.device).shelf }
        ensures unchanged { OnErr result
            (Unchanged (D.meaning self.old.device) (D.meaning self.new.device)) }
        ensures not_asked { ¬ LimitAllows self.old
            → Unchanged (D.meaning self.old.device) (D.meaning self.new.device) }
        ensures others { IsHonest (D.meaning self.old.device)
            → OthersStay (D.meaning self.old.device).loaded
            (D.meaning self.old.device).shelf (D.meaning self.new.device).shelf }
    {
        let Some(piece) = &mut self.hand else {
            return Ok(Placed::Idle);
        };
        let Some(at) = open_place(&self.volumes, self.loaded, &self.pool) else {
            return Ok(Placed::NeedVolume);
        };
        let placed = place_on(
            &mut self.driver,
            &mut self.volumes[at],
            &mut self.journal,
            piece,
            self.limits.volume,
        );
        empty_after(&placed, &mut self.hand);
        placed
    }

    /// The pool of which the drive needs a volume. None if its loaded volume takes blocks of its pool, or if it never served a
    /// session.
    pub fn wanted_pool(&self) -> Option<PoolName>
        ensures { MatchOption result (NeedsNone self.now)
            (λ pool. ¬ TakesBlocks self.now × (self.now.pool ≡ Some pool)) }
    {
        let None = open_place(&self.volumes, self.loaded, &self.pool) else {
            return None;
        };
        let Some(pool) = &self.pool else {
            return None;
        };
        Some(pool.copy())
    }
}

// Empties the hand if its piece was placed.
fn empty_after(placed: &Result<Placed, AllocError>, hand: &mut Option<Piece>)
    ensures { hand.new ≡ hand_after placed.now hand.old }
{
    if let Ok(Placed::At(_)) = placed {
        *hand = None;
    }
}

// The place of the loaded volume, if it takes blocks of the pool.
fn open_place(volumes: &[Volume], loaded: Option<usize>, pool: &Option<PoolName>) -> Option<usize>
    requires { IfSome loaded (λ at. at < length volumes.now) }
    ensures open { IfSome result (λ at. (volume : _)
        × TakesOn volumes.now loaded pool.now at volume) }
    ensures within { IfSome result (λ at. at < length volumes.now) }
    ensures none { IfNone result
        ((at : ℕ) (volume : _) → ¬ TakesOn volumes.now loaded pool.now at volume) }
{
    let at = loaded?;
    let Some(pool) = pool else {
        return None;
    };
    if volumes[at].is_appendable_for(pool) {
        Some(at)
    } else {
        None
    }
}

// Places a piece on the loaded volume, and notes that.
fn place_on<D: Driver>(
    driver: &mut D,
    volume: &mut Volume,
    journal: &mut Journal,
    piece: &mut Piece,
    limit: u64,
) -> Result<Placed, AllocError>
    requires loaded { (D.meaning driver.old).loaded ≡ Some volume.old.name }
    requires status { volume.old.status ≡ Append }
    requires limit { limit ≤ most_volume }
    ensures piece { piece.new ≡ piece.old }
    ensures on { PlacesOn result limit piece.old volume.old volume.new
        journal.old.entries journal.new.entries }
    ensures room { RoomAfter result piece.old.key journal.old.ready journal.new.ready }
    ensures counted { Counted (result ≡ Ok Placed.VolumeError)
        ((result ≡ Ok Placed.VolumeFull) × IsWithin limit piece.old volume.old)
        (D.meaning driver.old) (D.meaning driver.new) }
    ensures loaded { (D.meaning driver.new).loaded ≡ (D.meaning driver.old).loaded }
    ensures calls { CallsAtMost 1 (D.meaning driver.old) (D.meaning driver.new) }
    ensures later { StillLasts (D.meaning driver.old).shelf (D.meaning driver.new).shelf }
    ensures unchanged { OnErr result (Unchanged (D.meaning driver.old) (D.meaning driver.new)) }
    ensures not_asked { ¬ IsWithin limit piece.old volume.old
        → Unchanged (D.meaning driver.old) (D.meaning driver.new) }

    ensures at { IsHonest (D.meaning driver.old) → PlacesAt result piece.old
        volume.old (D.meaning driver.old).shelf volume.new (D.meaning driver.new).shelf }
    ensures others { IsHonest (D.meaning driver.old) → (other : List ℕ) → other ≢ volume.old.name
        → (D.meaning driver.new).shelf.volume other ≡ (D.meaning driver.old).shelf.volume other }
{
    let size = (BLOCK_HEADER + piece.body.bytes.len()) as u64;
    let end = volume.end();
    if end + size <= limit {
        journal.ready(piece.key)?;
    }
    match append_block(driver, volume, piece.key, &mut piece.body.bytes, limit) {
        Appended::At { start, length } => {
            journal.note(placement(piece, volume, start, length));
            Ok(Placed::At(placement(piece, volume, start, length)))
        }
        Appended::NoRoom => Ok(Placed::VolumeFull),
        Appended::Fault => Ok(Placed::VolumeError),
        Appended::Memory => Err(AllocError),
    }
}

// Where the block of a piece lies.
fn placement(piece: &Piece, volume: &Volume, start: u64, length: u64) -> Placement
    ensures { result ≡ record {
      key = piece.now.key;
      volume = volume.now.name;
      start = start;
      length = length;
      first = piece.now.body.first;
      last = piece.now.body.last;
    } }
{
    Placement {
        key: piece.key,
        volume: volume.name().copy(),
        start,
        length,
        first: piece.body.first,
        last: piece.body.last,
    }
}
