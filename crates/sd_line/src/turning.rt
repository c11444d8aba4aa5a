// The three parts of a turn: a take, a place, and a sync.
ghost use Rattle.sd_line.specs.Turns.{Takes, PlacesBy, SyncsBy, is_sync_due};
ghost use Rattle.std.specs.Prelude.{◌≡◌, IfSome, Some};

use crate::counts::LaneCounts;
use crate::gate::{Gate, Point};
use sd_base::{Refusal, SessionKey};
use sd_drive::{Drive, Placed};
use sd_driver::Driver;
use sd_ruled::{DriveSeat, LaneQueue};
use std::alloc::AllocError;
use std::sync::Wait;

/// What a turn came to.
#[derive(Drop)]
pub struct Turned {
    /// Whether a piece was taken from the queue.
    pub took: bool,
    /// What the drive answered to the place; an error if out of memory.
    pub place: Result<Placed, AllocError>,
    /// What it answered to the sync, if there was one.
    pub sync: Option<Result<(), Refusal>>,
}

// Takes a piece from the queue, if the hand is empty, and counts it.
pub(crate) fn take<D: Driver, R: Wait + Drop>(
    drive: &mut Drive<D>,
    seat: &mut DriveSeat,
    counts: &mut LaneCounts,
    queue: &LaneQueue<R>,
) -> bool
    requires queue { seat.old.table ≡ queue.now.table }
    requires counts { counts.old ≡ seat.old.taken }
    ensures takes { Takes result drive.old seat.old drive.new seat.new }
    ensures counts { counts.new ≡ seat.new.taken }
{
    if drive.hand().is_some() {
        return false;
    }
    let Some(queued) = seat.take_queued(queue) else {
        return false;
    };
    counts.add(&queued);
    drive.give(queued.piece);
    true
}

// Places the piece in the hand; the gate is told before and after, if there is one.
pub(crate) fn place<D: Driver, G: Gate>(
    drive: &mut Drive<D>,
    gate: &G,
) -> Result<Placed, AllocError>
    ensures { PlacesBy (λ d. D.meaning d) result drive.old drive.new }
{
    let Some(key) = key_in_hand(drive) else {
        return drive.place();
    };
    gate.at(Point::BeforePlace, key);
    let placed = drive.place();
    gate.at(Point::AfterPlace, key);
    placed
}

// The session of the piece in the hand.
fn key_in_hand<D: Driver>(drive: &Drive<D>) -> Option<SessionKey> {
    Some(drive.hand()?.key)
}

// Whether there was nothing to place, or no volume for it.
pub(crate) fn is_sync_due(placed: &Result<Placed, AllocError>) -> bool
    ensures { result ≡ is_sync_due placed.now }
{
    matches!(placed, Ok(Placed::Idle | Placed::NeedVolume))
}

// Syncs the loaded volume, if that is due.
pub(crate) fn sync<D: Driver>(drive: &mut Drive<D>, due: bool) -> Option<Result<(), Refusal>>
    ensures { SyncsBy (λ d. D.meaning d) due result drive.old drive.new }
{
    if due { Some(drive.sync()) } else { None }
}
