// A session that was closed before a stop: over devices in memory, over folders in memory, and over any devices; of a world, and of a
// line while threads run.
ghost use Rattle.std.specs.Prelude.{◌≡◌, ◌<◌, ◌≤◌, ◌+◌, ℕ, List, true, IfOk};
ghost use Rattle.std.specs.Global.{Global as TheGlobal};
ghost use Rattle.atomic_table.specs.Seated.{TableId};
ghost use Rattle.sd_base.specs.declared.number.SessionKey.{SessionKey as SpecKey};
ghost use Rattle.sd_driver.specs.Meaning.{IsHonest};
ghost use Rattle.sd_driver.specs.Shelf.{Shelf, AfterStop};
ghost use Rattle.sd_filedrive.specs.Drive.{meaning_of as drive_meaning};
ghost use Rattle.sd_lane.specs.Queue.{PlainView};
ghost use Rattle.sd_line.specs.Ends.{RestsOn};
ghost use Rattle.sd_line.specs.Parts.{PartIs};
ghost use Rattle.sd_drive.specs.Receipt.{ReceiptIs};
ghost use Rattle.sd_line.specs.Side.{CloseIs, SideIs, ToldTokenIs};
ghost use Rattle.sd_memdrive.specs.Drive.{meaning_of};
ghost use Rattle.sd_memdrive.specs.declared.drive.MemDrive.{MemDrive as SpecDrive};
ghost use Rattle.sd_session.specs.Session.{store_of};
ghost use Rattle.sd_world.specs.Honest.{StoreIsTrue};
ghost use Rattle.sd_world.specs.World.{WorldView};
ghost use Rattle.sd_readback.specs.Reading.{Reads, volumes_on};
ghost use Rattle.sd_span.specs.declared.span.Span.{Span as SpecSpan};
ghost use Rattle.sd_theorem.specs.Gives.{GivesAll};
ghost use Rattle.sd_theorem.specs.Runs.{RunsOn, NonePurgesOf};
ghost use Rattle.sd_theorem.specs.Start.{Start};
ghost use Rattle.sd_theorem.specs.Stops.{WasClosed};
ghost use Rattle.sd_theorem.specs.Told.{WereAdopted};
ghost use Rattle.sd_theorem.specs.ToldCloses.{WasShownClosed, WasToldClosed};
ghost use Rattle.sd_theorem.specs.Lists.{MemoryStart, in_memory, over, ClosedBy, LeftSince, OfItsList};

use crate::laws::stop_theorem;
use crate::running::{shown_closes_come_back, told_closes_come_back};
use sd_base::{Refusal, SessionKey};
use sd_core::{ReadEnd, Sink, Span, World};
use sd_driver::Driver;
use sd_filedrive::FolderDrive;
use sd_lane::PlainLanes;
use sd_line::{DriveSide, Naming};
use sd_memdrive::MemDrive;
use sd_memfolder::MemoryFolder;
use sd_spool::{MemSpool, SpoolStore};
use std::alloc::{AllocError, Global};

/// The device after a stop that came after the first `calls` of its changes, with `tail` after what lasted of each
/// volume. If a session was closed on it by then, its spans still read to its list.
pub fn leave(
    alloc: Global,
    device: &MemDrive,
    calls: u64,
    tail: &[u8],
) -> Result<MemDrive, AllocError>
    requires { calls ≤ (meaning_of device.now).shelf.moment }
    ensures { IfOk result (λ left. (start : MemoryStart) (key : SpecKey) (spans : List SpecSpan)
        (w : WorldView SpecDrive) (c : WasClosed in_memory start key spans w)
        → c.closed.d.device ≡ device.now → ClosedBy c calls
        → OfItsList c (λ records. Reads (volumes_on (meaning_of left).shelf) key spans records true)) }
{
    stop_theorem::<MemDrive, PlainLanes, MemSpool, Global>();
    device.after_stop(alloc, calls, tail)
}

/// `leave` for a device over a folder in memory, in a world with any spools: the device is one over what the stop left of the
/// folder.
pub fn leave_folder<S: SpoolStore + Drop>(
    alloc: Global,
    device: &FolderDrive<MemoryFolder>,
    calls: u64,
    tail: &[u8],
) -> Result<FolderDrive<MemoryFolder>, AllocError>
    requires { calls ≤ (drive_meaning device.now).shelf.moment }
    ensures honest { IfOk result (λ left. IsHonest (drive_meaning left)) }
    ensures stop { IfOk result (λ left.
        AfterStop calls (drive_meaning device.now).shelf (drive_meaning left).shelf) }
    ensures left { IfOk result (λ left. (start : Start _ PlainView S TheGlobal) (key : SpecKey)
        (spans : List SpecSpan) (w : WorldView _)
        (c : WasClosed (over (λ d. drive_meaning d) (λ s. S.meaning s)) start key spans w)
        → c.closed.d.device ≡ device.now → ClosedBy c calls
        → OfItsList c (λ records. Reads (volumes_on (drive_meaning left).shelf) key spans records true)) }
{
    stop_theorem::<FolderDrive<MemoryFolder>, PlainLanes, S, Global>();
    let left = device.folder().after_stop(alloc, calls, tail)?;
    Ok(FolderDrive::of_folder(left, alloc))
}

/// Reads a session back that was closed in an earlier run, of a lower time. If this run's drive was made over what a stop
/// left, adopted the volumes, and none of them was purged, the sink got the session's list.
pub fn read_again<K: Sink>(
    world: &mut World<MemDrive, PlainLanes, MemSpool>,
    key: SessionKey,
    spans: &[Span],
    sink: &mut K,
) -> Result<ReadEnd, Refusal>
    ensures { (start : MemoryStart) (w : WorldView SpecDrive)
        (c : WasClosed in_memory start key spans.now w) (left : Shelf) → LeftSince c left
        → (runs : RunsOn TheGlobal in_memory left world.old)
        → WereAdopted (runs.at + 1) spans.now runs.deeds
        → key.time < world.old.limits.time
        → NonePurgesOf spans.now runs.deeds
        → OfItsList c (λ records. GivesAll records true (K.got sink.old) (K.got sink.new) result) }
{
    read_again_over(world, key, spans, sink)
}

/// `read_again` over any devices and any spools.
pub fn read_again_over<D: Driver + Drop, S: SpoolStore + Drop, K: Sink>(
    world: &mut World<D, PlainLanes, S>,
    key: SessionKey,
    spans: &[Span],
    sink: &mut K,
) -> Result<ReadEnd, Refusal>
    ensures { (start : Start _ PlainView S TheGlobal) (w : WorldView _)
        (c : WasClosed (over (λ d. D.meaning d) (λ s. S.meaning s)) start key spans.now w)
        (left : Shelf) → LeftSince c left
        → (runs : RunsOn TheGlobal (over (λ d. D.meaning d) (λ s. S.meaning s)) left world.old)
        → WereAdopted (runs.at + 1) spans.now runs.deeds
        → key.time < world.old.limits.time
        → NonePurgesOf spans.now runs.deeds
        → OfItsList c (λ records. GivesAll records true (K.got sink.old) (K.got sink.new) result) }
{
    stop_theorem::<D, PlainLanes, S, Global>();
    world.read(key, spans, sink)
}

/// `leave_folder` for the device of a line, by what lies under its lock while threads run: a session that was told closed by then
/// still reads to the records that it was told to be taken.
pub fn leave_side<N: Naming>(
    alloc: Global,
    side: &DriveSide<FolderDrive<MemoryFolder>, N>,
    calls: u64,
    tail: &[u8],
) -> Result<FolderDrive<MemoryFolder>, AllocError>
    requires { calls ≤ (drive_meaning side.now.drive.device).shelf.moment }
    ensures honest { IfOk result (λ left. IsHonest (drive_meaning left)) }
    ensures stop { IfOk result (λ left.
        AfterStop calls (drive_meaning side.now.drive.device).shelf (drive_meaning left).shelf) }
    ensures left { IfOk result (λ left. (part : PartIs) (c : CloseIs _)
        → WasToldClosed (λ d. drive_meaning d) N.table N.time side.now part c
        → (drive_meaning c.drive.device).shelf.moment ≤ calls
        → RestsOn part.spools (StoreIsTrue (store_of part.session))
        → Reads (volumes_on (drive_meaning left).shelf) c.receipt.key c.receipt.spans part.told true) }
    ensures shown { IfOk result (λ left. (token : ToldTokenIs _) (part : PartIs) (r : ReceiptIs)
        → (was : WasShownClosed (λ d. drive_meaning d) N.time side.now token part r)
        → (drive_meaning was.shows.drive.device).shelf.moment ≤ calls
        → RestsOn part.spools (StoreIsTrue (store_of part.session))
        → Reads (volumes_on (drive_meaning left).shelf) r.key r.spans part.told true) }
{
    told_closes_come_back::<FolderDrive<MemoryFolder>, PlainLanes, MemSpool, Global>();
    shown_closes_come_back::<FolderDrive<MemoryFolder>, PlainLanes, MemSpool, Global>();
    let left = leave_folder::<MemSpool>(alloc, side.drive().device(), calls, tail)?;
    Ok(left)
}

/// Reads a session back that was told closed under the lock of a line, in a later run, of a lower time. If this run's drive was made
/// over what a stop since then left, adopted the volumes, and none of them was purged, the sink got the records that the
/// session was told to be taken.
pub fn read_told_again<D: Driver + Drop, S: SpoolStore + Drop, K: Sink>(
    world: &mut World<D, PlainLanes, S>,
    key: SessionKey,
    spans: &[Span],
    sink: &mut K,
) -> Result<ReadEnd, Refusal>
    ensures { (table : ℕ → TableId) (time : ℕ → ℕ) (side : SideIs _) (part : PartIs)
        (c : CloseIs _) → WasToldClosed (λ d. D.meaning d) table time side part c
        → IsHonest (D.meaning side.drive.device)
        → RestsOn part.spools (StoreIsTrue (store_of part.session))
        → (c.receipt.key ≡ key) × (c.receipt.spans ≡ spans.now)
        → (left : Shelf) → AfterStop (D.meaning c.drive.device).shelf.moment
        (D.meaning side.drive.device).shelf left
        → (runs : RunsOn TheGlobal (over (λ d. D.meaning d) (λ s. S.meaning s)) left world.old)
        → WereAdopted (runs.at + 1) spans.now runs.deeds
        → key.time < world.old.limits.time
        → NonePurgesOf spans.now runs.deeds
        → GivesAll part.told true (K.got sink.old) (K.got sink.new) result }
{
    told_closes_come_back::<D, PlainLanes, S, Global>();
    world.read(key, spans, sink)
}
