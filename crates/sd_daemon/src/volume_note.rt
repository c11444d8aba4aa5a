// What the note of a volume says while its daemon runs.
ghost use Rattle.std.specs.Prelude.{◌≡◌, ◌≤◌, ◌+◌, ◌↔◌, false, true, IsTrue};
ghost use Rattle.sd_daemon.specs.Notes.{EarlierTime, extent_known, greatest_time, known_after_sync, note_for};

use sd_note::Note;
use sd_stations::{Extent, VolumeRow};

/// So many bytes of a volume may await a sync until they are synced for its note.
const MOST_UNSYNCED: u64 = 268_435_456;

/// What is known of a volume beside what its drive publishes.
#[derive(Clone, Copy)]
pub(crate) struct Known {
    /// The moment of its label.
    pub(crate) moment: i64,
    /// The time of the run.
    pub(crate) run: u32,
    /// Behind this place its blocks may be of this run.
    pub(crate) own_from: u64,
    /// No block up to that place is of a later time.
    pub(crate) earlier: u32,
    /// How far its notes' thread had the disk have its blocks.
    pub(crate) own_synced: Option<Extent>,
    /// Whether that thread may have the disk have more: not after a sync of its own failed. The system tells a fault once, and
    /// a later sync answers well though the disk lacks what was written.
    pub(crate) may_sync: bool,
}

/// What its note is to say of a volume.
pub(crate) fn note_for(known: Known, row: &VolumeRow) -> Note
    ensures { result ≡ note_for known row.now }
{
    let extent = extent_for(known.own_synced, row);
    Note {
        moment: known.moment,
        end: extent.end,
        last: extent.last,
        next_number: extent.next_number,
        time: time_for(known, extent),
        torn: if row.is_torn { Some(extent.end) } else { None },
    }
}

// How far the disk is known to have a volume: as far as its drive says, or as far as its note had it synced. After a sync of
// it failed, only what its drive says counts.
fn extent_for(own: Option<Extent>, row: &VolumeRow) -> Extent
    ensures { result ≡ extent_known own row.now.is_torn row.now.synced }
{
    match own {
        Some(own) if !row.is_torn && own.end > row.synced.end => own,
        _ => row.synced,
    }
}

// No block that is noted is of a later time than this.
fn time_for(known: Known, extent: Extent) -> u32
    ensures { result ≡ greatest_time known extent }
{
    if extent.next_number <= 1 {
        0
    } else if extent.end > known.own_from {
        known.run
    } else {
        known.earlier
    }
}

/// No block of a volume that came at the start, and whose blocks ended there then, was of a later time than this, by the note
/// that was read then. Of what a note doesn't tell of, it is known that the run before was earlier.
pub(crate) fn earlier_time(run: u32, moment: i64, end: u64, note: Option<Note>) -> u32
    ensures { EarlierTime run moment end note result }
{
    match note {
        Some(note) if note.moment == moment && note.end == end && note.time < run => note.time,
        _ => run.saturating_sub(1),
    }
}

/// Whether so much of a volume awaits a sync that it is synced for its note.
pub(crate) fn is_sync_due(known: Known, noted: Note, row: &VolumeRow) -> bool
    ensures { IsTrue result ↔ ((known.may_sync ≡ true) × (row.now.is_torn ≡ false)
        × (noted.end + 268_435_456 ≤ row.now.extent.end)) }
{
    known.may_sync
        && !row.is_torn
        && noted.end <= row.extent.end
        && row.extent.end - noted.end >= MOST_UNSYNCED
}

/// What is known of a volume after a sync for its note, which began when its blocks went so far.
pub(crate) fn known_after_sync(known: Known, extent: Extent, is_synced: bool) -> Known
    ensures { result ≡ known_after_sync known extent is_synced }
{
    Known {
        own_synced: if is_synced { Some(extent) } else { None },
        may_sync: is_synced,
        ..known
    }
}
