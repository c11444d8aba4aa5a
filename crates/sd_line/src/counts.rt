// How many pieces a drive took of each lane.
ghost use Rattle.std.specs.Prelude.{◌≡◌, ◌++◌, ◌∷◌, ◌+◌, ℕ, [], length};
ghost use Rattle.sd_lane.specs.Queue.{pieces_of};
ghost use Rattle.sd_line.specs.Counts.{Counts};

use http_server::Log;
use sd_base::{LaneNo, MOST_LANES};
use sd_lane::Queued;
use std::marker::Model;

// How many pieces were taken of each lane. In a contract it is what was taken, of which nothing is held.
//
// A count that is `u64::MAX` stays there, and says only that there are as many at least.
#[derive(Drop)]
pub(crate) struct LaneCounts {
    counts: [u64; MOST_LANES as usize],
    taken: Log<Queued, ()>,
}

impl Model for LaneCounts {
    ghost use Rattle.std.specs.Prelude.{List};
    ghost use Rattle.sd_lane.specs.declared.piece.Queued.{Queued};
    ghost use Rattle.sd_line.specs.Counts.{CountsEach, taken_of};

    ghost Value = { List Queued };

    ghost view = { λ c. taken_of c.taken.items };

    ghost invariant = { λ c. CountsEach c.counts (taken_of c.taken.items) };
}

impl LaneCounts {
    // Nothing was taken.
    pub(crate) fn new() -> Self
        ensures { result ≡ [] }
    {
        LaneCounts {
            counts: [0; MOST_LANES as usize],
            taken: Log::new(),
        }
    }

    // Counts a piece more.
    pub(crate) fn add(&mut self, queued: &Queued)
        ensures { self.new ≡ self.old ++ queued.now ∷ [] }
    {
        let at = (queued.lane.get() - 1) as usize;
        self.counts[at] = one_more(self.counts[at]);
        self.taken = self.taken.and(queued, &());
    }

    // How many were taken of a lane.
    pub(crate) fn get(&self, lane: LaneNo) -> u64
        ensures { Counts result (length (pieces_of lane self.now)) }
    {
        self.counts[(lane.get() - 1) as usize]
    }
}

// A count of one more.
pub(crate) fn one_more(count: u64) -> u64
    ensures { (many : ℕ) → Counts count many → Counts result (many + 1) }
{
    if count < u64::MAX { count + 1 } else { count }
}
