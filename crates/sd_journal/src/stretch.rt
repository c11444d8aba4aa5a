// A stretch of a session's blocks on one volume.
ghost use Rattle.std.specs.Prelude.{◌≡◌, ◌+◌, ◌<◌, ◌≤◌, ◌^◌};
ghost use Rattle.sd_base.specs.FileIndex.{first_nonzero};
ghost use Rattle.sd_journal.specs.Stretch.{HasName, span_of, begun_by, longer_by, with_mark, counted};

use crate::mark::Mark;
use crate::names::Names;
use crate::noted::Noted;
use sd_span::Span;

/// Blocks of a session that lie on one volume, one after another but for those of other sessions: the place of that volume's
/// name, what their span says, and how many of them are synced, aren't yet, or are lost.
#[derive(Drop)]
pub(crate) struct Stretch {
    pub(crate) volume: u32,
    pub(crate) first: u32,
    pub(crate) last: u32,
    pub(crate) start: u64,
    pub(crate) end: u64,
    pub(crate) unsynced: u64,
    pub(crate) synced: u64,
    pub(crate) lost: u64,
}

// What a stretch costs.
const _: () = prove!(size_of::<Stretch>() == 56);

impl Stretch {
    /// The stretch of one block.
    pub(crate) fn begun_by(noted: &Noted) -> Self
        requires { noted.now.start + noted.now.length < 2 ^ 64 }
        ensures { result ≡ begun_by noted.now }
    {
        Stretch {
            volume: noted.volume,
            first: noted.first,
            last: noted.last,
            start: noted.start,
            end: noted.start + noted.length,
            unsynced: 1,
            synced: 0,
            lost: 0,
        }
    }

    /// Goes on to the end of one block more.
    pub(crate) fn go_on(&mut self, noted: &Noted)
        requires end { noted.now.start + noted.now.length < 2 ^ 64 }
        requires count { self.old.unsynced + 1 < 2 ^ 64 }
        ensures { self.new ≡ longer_by self.old noted.now }
    {
        self.first = first_of(self.first, noted.first);
        self.last = first_of(noted.last, self.last);
        self.end = noted.start + noted.length;
        self.unsynced += 1;
    }

    /// Its blocks that aren't synced yet have this mark from now on; after a purge all of them are gone.
    pub(crate) fn mark(&mut self, mark: Mark)
        requires { counted self.old < 2 ^ 64 }
        ensures { self.new ≡ with_mark mark self.old }
    {
        match mark {
            Mark::Unsynced => {}
            Mark::Synced => {
                self.synced += self.unsynced;
                self.unsynced = 0;
            }
            Mark::Lost => {
                self.lost += self.unsynced;
                self.unsynced = 0;
            }
            Mark::Purged => {
                self.unsynced = 0;
                self.synced = 0;
                self.lost = 0;
            }
        }
    }

    /// The span of this number that it is.
    pub(crate) fn span(&self, names: &Names, vol_index: u64) -> Span
        requires { HasName names.now.names self.now }
        ensures { result ≡ record (span_of names.now.names self.now) { vol_index = vol_index } }
    {
        Span {
            volume: names.get(self.volume).copy(),
            vol_index,
            first: self.first,
            last: self.last,
            start: self.start,
            end: self.end,
        }
    }
}

/// The first of two FileIndexes that is not 0, if one is.
pub(crate) fn first_of(index: u32, other: u32) -> u32
    ensures { result ≡ first_nonzero index other }
{
    if index == 0 { other } else { index }
}
