// The journal of a drive.
ghost use Rattle.std.specs.Prelude.{◌≡◌, ◌++◌, ◌∷◌, [], false, IfOk, OnOk, OnErr};
ghost use Rattle.std.specs.List.{list_any};
ghost use Rattle.sd_base.specs.Key.{is_key};
ghost use Rattle.sd_span.specs.Spans.{EndFits, spans_of, placements_of};
ghost use Rattle.sd_journal.specs.Kept.{marked};
ghost use Rattle.sd_journal.specs.Journal.{placements, noted, is_unsynced, IsReady, with_key, without_key, any_awaits_sync, settled, purged, counts_of, fails, has_on, progress_of};

use crate::cells::Cells;
use crate::counts::Counts;
use crate::lying::{Lying, add_if, add_unless, any_lies, mark_those};
use crate::mark::Mark;
use crate::names::Names;
use crate::noted::Noted;
use crate::shares::Shares;
use crate::told::Told;
use http_server::Log;
use sd_base::{Items, SessionKey, VolName};
use sd_span::{Placement, Progress, Span};
use std::alloc::{AllocError, Global};
use std::marker::Model;

/// Where a drive's blocks lie, in the order in which that was noted, and which of them are synced. In a
/// contract it is its entries and the sessions that are ready.
///
/// A session is found by its key's hash. What is asked of it looks at its own stretches alone, but for `placements`; `note`
/// costs the same however many entries there are. A sync that is over looks at the sessions that awaited one, and at their
/// stretches. A purge looks at those that have blocks on the volume; to find these it goes through one item of 12 bytes for each
/// stretch.
///
/// An entry takes 12 bytes, one that isn't behind the one before it 52, a stretch 68, and a session 56; none of them more if
/// the volume's name is long: each name is in the journal once. What the entries are, with the mark of each, contracts see by
/// what was done, of which nothing is held. To note a block, to settle or purge a volume and to tell whether it awaits a sync, the
/// name is looked for once: the last entry's first, then all of them in turn.
#[derive(Drop)]
pub struct Journal {
    alloc: Global,
    // All that was done, as contracts see it.
    told: Log<Told, ()>,
    // The blocks of the entries.
    cells: Cells,
    // The names of the volumes that they are on.
    names: Names,
    // Of each session its stretches and counts.
    shares: Shares,
    // The sessions that await a sync, each with the volume.
    awaiting: Vec<Lying>,
    // Those that began a stretch, each with the volume.
    on: Vec<Lying>,
    // The sessions for whose next placement there is room.
    ready: Vec<SessionKey>,
}

impl Model for Journal {
    ghost use Rattle.sd_journal.specs.Journal.{JournalView};
    ghost use Rattle.sd_journal.specs.Kept.{replay, IsKept};
    ghost use Rattle.std.specs.Vec.{vec_len, vec_capacity};

    ghost Value = { JournalView };

    ghost view = { λ j. record { entries = replay j.told.items; ready = j.ready.items } };

    ghost invariant = { λ j. IsKept (replay j.told.items) j.names j.cells j.ready.items
        j.awaiting.items (vec_len j.awaiting) (vec_capacity j.awaiting)
        j.on.items (vec_len j.on) (vec_capacity j.on) j.shares };
}

impl Journal {
    /// A journal without entries; takes no memory.
    pub fn new(alloc: Global) -> Self
        ensures entries { result.entries ≡ [] }
        ensures ready { result.ready ≡ [] }
    {
        Journal {
            alloc,
            told: Log::new(),
            cells: Cells::new(alloc),
            names: Names::new(alloc),
            shares: Shares::new(alloc),
            awaiting: Vec::new(alloc),
            on: Vec::new(alloc),
            ready: Vec::new(alloc),
        }
    }

    /// Makes room for the next placement of the session `key`. The entries stay, and what was ready is so
    /// still. After an Err all is as before; it is returned if out of memory, or if the journal would
    /// have more names of volumes than 32 bits can number, or more entries that aren't behind the one before.
    pub fn ready(&mut self, key: SessionKey) -> Result<(), AllocError>
        ensures ok { OnOk result (self.new ≡ record self.old {
          ready = with_key key self.old.ready;
        }) }
        ensures ready { OnOk result (IsReady key self.new) }
        ensures err { OnErr result (self.new ≡ self.old) }
    {
        if is_among(&self.ready, key) {
            return Ok(());
        }
        let ready = self.ready.as_slice().len();
        self.names.reserve(ready + 1)?;
        self.cells.reserve(ready + 1)?;
        self.awaiting.reserve(ready + 1)?;
        self.on.reserve(ready + 1)?;
        self.ready.reserve(1)?;
        self.shares.ready(self.alloc, key)?;
        self.ready.push_reserved(key);
        Ok(())
    }

    /// Notes a block that was placed, as not synced yet, and uses up the room that was made for it. Takes
    /// no memory.
    pub fn note(&mut self, placement: Placement)
        requires end { EndFits placement }
        requires ready { IsReady placement.key self.old }
        ensures { self.new ≡ record {
          entries = self.old.entries ++ noted placement ∷ [];
          ready = without_key placement.key self.old.ready;
        } }
    {
        let key = placement.key;
        self.ready.retain(|ready| !(key == *ready));
        let volume = self
            .names
            .index_of(&placement.volume, self.cells.last_volume());
        let noted = Noted {
            key,
            start: placement.start,
            length: placement.length,
            volume,
            first: placement.first,
            last: placement.last,
        };
        let (was, begins) = self.shares.note(&noted);
        self.cells.push(noted, was);
        let lying = Lying { volume, key };
        add_if(&mut self.on, begins, lying);
        add_unless(&mut self.awaiting, lying);
        self.told = self.told.and(&Told::Noted(placement), &());
    }

    /// A sync of the volume succeeded: each entry on it that awaited it is synced. Takes no memory.
    pub fn synced(&mut self, volume: &VolName)
        ensures { self.new ≡ record self.old {
          entries = settled Mark.Synced volume.now self.old.entries;
        } }
    {
        self.remark(volume, Mark::Synced);
    }

    /// A sync of the volume failed: each entry on it that awaited it is lost, and the sessions of those
    /// entries fail. Takes no memory.
    pub fn sync_failed(&mut self, volume: &VolName)
        ensures { self.new ≡ record self.old {
          entries = settled Mark.Lost volume.now self.old.entries;
        } }
    {
        self.remark(volume, Mark::Lost);
    }

    /// The volume was purged: the blocks of all entries on it are gone. The entries stay, and so do spans and
    /// placements; but none of those blocks counts as synced any more, or lost. Takes no memory.
    pub fn purged(&mut self, volume: &VolName)
        ensures { self.new ≡ record self.old {
          entries = purged volume.now self.old.entries;
        } }
    {
        self.remark(volume, Mark::Purged);
    }

    // Each entry that takes it by a call on the volume gets this mark.
    fn remark(&mut self, volume: &VolName, mark: Mark)
        requires { is_unsynced mark ≡ false }
        ensures { self.new ≡ record self.old {
          entries = marked mark volume.now self.old.entries;
        } }
    {
        let Some(place) = self.names.find(volume, self.cells.last_volume()) else {
            return;
        };
        mark_those(&self.on, &self.awaiting, &mut self.shares, place, mark);
        self.awaiting.retain(|one| !(place == one.volume));
        self.told = self.told.and(&Told::Marked(mark, volume.copy()), &());
    }

    /// Whether an entry awaits a sync of the volume.
    pub fn has_unsynced(&self, volume: &VolName) -> bool
        ensures { result ≡ any_awaits_sync volume.now self.now.entries }
    {
        match self.names.find(volume, self.cells.last_volume()) {
            Some(place) => any_lies(&self.awaiting, place),
            None => false,
        }
    }

    /// How many blocks of the session were placed, and how many of them are synced.
    pub fn count(&self, key: SessionKey) -> Counts
        ensures { result ≡ counts_of key self.now.entries }
    {
        match self.shares.get(key) {
            Some(share) => share.counts(),
            None => Counts {
                placed: 0,
                synced: 0,
            },
        }
    }

    /// Whether the session fails: whether an entry of it is lost.
    pub fn fails(&self, key: SessionKey) -> bool
        ensures { result ≡ fails key self.now.entries }
    {
        match self.shares.get(key) {
            Some(share) => share.fails(),
            None => false,
        }
    }

    /// Whether an entry of the session is on the volume, be its block there or gone.
    pub fn has_on(&self, key: SessionKey, volume: &VolName) -> bool
        ensures { result ≡ has_on key volume.now self.now.entries }
    {
        let Some(share) = self.shares.get(key) else {
            return false;
        };
        match self.names.find(volume, self.cells.last_volume()) {
            Some(place) => share.is_on(place),
            None => false,
        }
    }

    /// How far the session's blocks are, and whether it fails.
    pub fn progress(&self, key: SessionKey) -> Progress
        ensures { result ≡ progress_of key self.now.entries }
    {
        let Counts { placed, synced } = self.count(key);
        Progress {
            placed,
            synced,
            failed: self.fails(key),
        }
    }

    /// The spans of the session: the longest stretches of its own placements on one volume, numbered 1, 2
    /// and on.
    pub fn spans(&self, key: SessionKey) -> Result<Items<Span>, AllocError>
        ensures { IfOk result (λ spans. spans ≡ spans_of key (placements self.now.entries)) }
    {
        match self.shares.get(key) {
            Some(share) => share.spans(self.alloc, &self.names),
            None => Ok(Items::new(self.alloc)),
        }
    }

    /// The session's own placements, in order. Looks at all entries.
    pub fn placements(&self, key: SessionKey) -> Result<Items<Placement>, AllocError>
        ensures { IfOk result (λ own. own ≡ placements_of key (placements self.now.entries)) }
    {
        self.cells.placements(self.alloc, &self.names, key)
    }
}

fn is_among(ready: &[SessionKey], key: SessionKey) -> bool
    ensures { result ≡ list_any (is_key key) ready.now }
{
    for one in ready {
        if key == *one {
            return true;
        }
    }
    false
}
