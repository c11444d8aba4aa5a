// What comes of steps.
ghost use Rattle.std.specs.Prelude.{◌≡◌, ◌+◌, ◌||◌, ◌∷◌, []};
ghost use Rattle.sd_base.specs.Count.{counted};
ghost use Rattle.sd_core.specs.Rounds.{Tells};

use sd_machine::Reply;

/// What came of a round: whether something moved, and how many blocks were placed.
#[derive(Clone, Copy, Debug, PartialEq, Eq)]
pub struct Round {
    pub moved: bool,
    pub placed: u64,
}

impl Round {
    /// No step yet.
    pub(crate) fn new() -> Self
        ensures { Tells result [] }
    {
        Round {
            moved: false,
            placed: 0,
        }
    }

    /// What came of the one step that was answered so.
    pub(crate) fn of(reply: &Reply) -> Self
        ensures { Tells result (reply.now ∷ []) }
    {
        match reply {
            Reply::Placed { .. } => Round {
                moved: true,
                placed: 1,
            },
            Reply::Spooled
            | Reply::Sent
            | Reply::InHand { .. }
            | Reply::Mounted { .. }
            | Reply::VolumeFull
            | Reply::VolumeError => Round {
                moved: true,
                placed: 0,
            },
            _ => Round::new(),
        }
    }

    /// What came of these steps and of the later ones.
    pub(crate) fn and(self, later: Round) -> Self
        ensures moved { result.moved ≡ (self.moved || later.moved) }
        ensures placed { result.placed ≡ counted (self.placed + later.placed) }
    {
        Round {
            moved: self.moved || later.moved,
            placed: self.placed.saturating_add(later.placed),
        }
    }
}
