// A block as a journal keeps it.
ghost use Rattle.std.specs.Prelude.{◌≡◌, true};
ghost use Rattle.sd_journal.specs.Noted.{placement_of, IsNamed};

use crate::names::Names;
use sd_base::SessionKey;
use sd_span::Placement;

/// What a placement says of its block. Of its volume it has the place among the journal's names: a name takes 136 bytes.
#[derive(Clone, Copy, Drop)]
pub(crate) struct Noted {
    pub(crate) key: SessionKey,
    pub(crate) start: u64,
    pub(crate) length: u64,
    pub(crate) volume: u32,
    pub(crate) first: u32,
    pub(crate) last: u32,
}

impl Noted {
    /// Whether the two are one.
    pub(crate) fn is_same(&self, other: &Noted) -> bool
        ensures { result ≡ true → self.now ≡ other.now }
    {
        self.key == other.key
            && self.start == other.start
            && self.length == other.length
            && self.volume == other.volume
            && self.first == other.first
            && self.last == other.last
    }

    /// The placement, with its volume's name.
    pub(crate) fn placement(&self, names: &Names) -> Placement
        requires { IsNamed names.now.names self.now }
        ensures { result ≡ placement_of names.now.names self.now }
    {
        Placement {
            key: self.key,
            volume: names.get(self.volume).copy(),
            start: self.start,
            length: self.length,
            first: self.first,
            last: self.last,
        }
    }
}
