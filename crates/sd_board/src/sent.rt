// What a session sent.
ghost use Rattle.std.specs.Prelude.{◌≡◌};
ghost use Rattle.sd_board.specs.Slots.{same_sent};

use sd_base::SessionKey;

/// What the session that used a lane last sent: so many pieces, with this key.
#[derive(Clone, Copy, Debug, PartialEq, Eq)]
pub struct Sent {
    pub key: SessionKey,
    pub sent: u64,
}

impl Sent {
    /// Whether both are of the same session, and as much.
    pub(crate) fn is_same(self, other: Sent) -> bool
        ensures { result ≡ same_sent self other }
    {
        self.key.time == other.key.time && self.key.id == other.key.id && self.sent == other.sent
    }
}
