// A drive of which nothing was used yet.
ghost use Rattle.std.specs.Prelude.{◌≡◌, ◌≢◌, ◌≤◌, ℕ, [], None, Some, IfErr, IfOk, IfSome, IsErrOf, IsSome, OnErr, slice_get};
ghost use Rattle.std.specs.Option.{option_copied};
ghost use Rattle.sd_base.specs.Limits.{most_lanes};
ghost use Rattle.sd_drive.specs.Limits.{AreLimits};
ghost use Rattle.sd_drive.specs.Moves.{index_of};
ghost use Rattle.sd_driver.specs.Meaning.{IsHonest};
ghost use Rattle.sd_driver.specs.Shelf.{SameShelf, StillLasts, StillLastsBelow};
ghost use Rattle.sd_line.specs.Side.{SeatIs};
ghost use Rattle.sd_lines.specs.Unused.{AdoptsUnused, IsNamed};
ghost use Rattle.sd_volume.specs.Adopt.{IsDue, KeepsWholeBlocks};
ghost use Rattle.sd_volume.specs.Fault.{adopt_refusal};
ghost use Rattle.sd_volume.specs.Noted.{IsTrueNote};
ghost use Rattle.sd_volume.specs.declared.fault.AdoptFault.{AdoptFault as SpecFault};

use sd_base::{DriveNo, MediaName, Refusal, VolName};
use sd_drive::{Adopted, Drive, Limits, NotMade};
use sd_driver::Driver;
use sd_line::{CloseBook, LaneEnd, Line, Naming, Seat};
use sd_note::Note;
use sd_ruled::RuledLanes;
use sd_spool::SpoolStore;
use std::alloc::Global;
use std::marker::Model;
use std::sync::Wait;

/// A drive, the queue before it and the ledger of its closes, of which no line is made yet and nothing was used; it may have
/// adopted volumes. In a contract it is an `UnusedIs`: by that the lines of a daemon are named, before the first of them is made.
#[derive(Drop)]
pub struct UnusedDrive<D: Driver, R: Wait + Drop> {
    drive: Drive<D>,
    lanes: RuledLanes<R>,
    book: CloseBook<D>,
}

impl<D: Driver, R: Wait + Drop> Model for UnusedDrive<D, R> {
    ghost use Rattle.std.specs.Prelude.{◌≡◌, ◌≤◌, [], None};
    ghost use Rattle.sd_base.specs.Limits.{most_lanes};
    ghost use Rattle.sd_drive.specs.Limits.{AreLimits};
    ghost use Rattle.sd_lines.specs.Unused.{UnusedIs};

    ghost Value = { UnusedIs D };

    ghost view = { λ u. record {
      table = u.lanes.table;
      book = u.book.id;
      lanes = u.lanes.lanes;
      room = u.lanes.capacity;
      media = u.drive.media;
      limits = u.drive.limits;
      device = u.drive.device;
      volumes = u.drive.volumes;
    } };

    ghost invariant = { λ u. record {
      limits : AreLimits u.drive.limits;
      loaded : u.drive.loaded ≡ None;
      journal : u.drive.journal ≡ [];
      hand : u.drive.hand ≡ None;
      lanes : u.lanes.lanes ≤ most_lanes;
      taken : u.lanes.taken ≡ [];
      held : u.lanes.held ≡ [];
    } };
}

impl<D: Driver + Drop, R: Wait + Drop> UnusedDrive<D, R> {
    /// A drive with this device, and a queue for so many lanes with this room. If out of memory, the device comes back.
    pub fn new(
        rt: R,
        alloc: Global,
        device: D,
        media: MediaName,
        limits: Limits,
        lanes: u32,
        room: usize,
    ) -> Result<Self, D>
        requires limits { AreLimits limits }
        requires lanes { (lanes ≤ most_lanes) × (1 ≤ room) }
        ensures lanes { IfOk result (λ unused. (unused.lanes ≡ lanes) × (unused.room ≡ room)) }
        ensures media { IfOk result (λ unused. unused.media ≡ media) }
        ensures limits { IfOk result (λ unused. unused.limits ≡ limits) }
        ensures volumes { IfOk result (λ unused. unused.volumes ≡ []) }
        ensures honest { IfOk result
            (λ unused. (D.meaning unused.device).honest ≡ (D.meaning device).honest) }
        ensures back { IfErr result (λ back. back ≡ device) }
    {
        let Ok(lanes) = RuledLanes::new(rt, alloc, lanes, room) else {
            return Err(device);
        };
        let Ok(book) = CloseBook::new(alloc) else {
            return Err(device);
        };
        match Drive::new(alloc, device, media, limits) {
            Ok(drive) => Ok(UnusedDrive { drive, lanes, book }),
            Err(NotMade { driver }) => Err(driver),
        }
    }

    /// The media of the drive.
    pub fn media(&self) -> &MediaName
        ensures { result.now ≡ self.now.media }
    {
        self.drive.media()
    }

    /// Takes over a volume that an earlier run left, as `Drive::adopt`; or by its note, if there is one, as
    /// `Drive::adopt_noted`: then what the note says is to be true of the volume. Already labelled, if the drive has a volume
    /// of that name. None is loaded, so the drive is never in use.
    pub fn adopt(&mut self, name: &VolName, note: Option<&Note>) -> Result<Adopted, Refusal>
        requires known { IsHonest (D.meaning self.old.device) → IfSome (option_copied note)
            (λ given. IsTrueNote given name.now (D.meaning self.old.device).shelf) }
        ensures refused { IsSome (index_of self.old.volumes name.now)
            → IsErrOf result Refusal.AlreadyLabelled × (self.new ≡ self.old) }
        ensures ok { IfOk result (λ answer. AdoptsUnused name.now answer
            (D.meaning self.old.device) (D.meaning self.new.device) self.old self.new) }
        ensures err { OnErr result (self.new ≡ record self.old { device = self.new.device }) }
        ensures honest { (D.meaning self.new.device).honest ≡ (D.meaning self.old.device).honest }
        ensures due { IsHonest (D.meaning self.old.device) → index_of self.old.volumes name.now ≡ None
            → IfErr result (λ fault. fault ≢ Refusal.DeviceFault → fault ≢ Refusal.Memory
            → (cause : SpecFault) × (fault ≡ adopt_refusal cause) × IsDue cause name.now
            self.old.media self.old.limits.time (D.meaning self.old.device).shelf) }
        ensures same { IsHonest (D.meaning self.old.device)
            → IfErr result (λ fault. fault ≢ Refusal.DeviceFault
            → SameShelf (D.meaning self.old.device).shelf (D.meaning self.new.device).shelf) }
        ensures whole_blocks { IsHonest (D.meaning self.old.device) → KeepsWholeBlocks name.now
            (D.meaning self.old.device).shelf (D.meaning self.new.device).shelf }
        ensures others_last { StillLastsBelow 0 name.now
            (D.meaning self.old.device).shelf (D.meaning self.new.device).shelf }
        ensures refused_last { IfErr result (λ fault. fault ≢ Refusal.DeviceFault
            → StillLasts (D.meaning self.old.device).shelf (D.meaning self.new.device).shelf) }
    {
        match note {
            Some(note) => self.drive.adopt_noted(name, note),
            None => self.drive.adopt(name),
        }
    }

    /// The drive's line of this number, and the ends of its lanes, each with one of the stores, in their order. `None`
    /// if out of memory, or if there are fewer stores than lanes.
    pub(crate) fn begin<N: Naming, S: SpoolStore + Drop>(
        self,
        rt: R,
        alloc: Global,
        no: DriveNo,
        stores: Vec<S>,
    ) -> Option<(Line<D, N, R>, Vec<LaneEnd<N, S>>)>
        requires { IsNamed N.table N.time no self }
    {
        let UnusedDrive { drive, lanes, book } = self;
        let Ok((line, seats)) = Line::<D, N, R>::new(rt, alloc, no, drive, lanes, book) else {
            return None;
        };
        let mut stores = stores;
        stores.reverse();
        let ends = ends_of(alloc, seats, stores)?;
        Some((line, ends))
    }
}

// The ends of the lanes of these seats, which sent nothing, with these stores, the last one first.
fn ends_of<N: Naming, S: SpoolStore + Drop>(
    alloc: Global,
    seats: Vec<Seat<N>>,
    mut stores: Vec<S>,
) -> Option<Vec<LaneEnd<N, S>>>
    requires { (k : ℕ) (seat : SeatIs) → slice_get seats.items k ≡ Some seat → seat.seat.sent ≡ [] }
{
    let mut ends = Vec::with_capacity(alloc, seats.len()).ok()?;
    for seat in seats {
        let store = stores.pop()?;
        ends.push(LaneEnd::new(alloc, seat, store)).ok()?;
    }
    Some(ends)
}
