// The lane of a drive that a new session gets.
ghost use Rattle.std.specs.Prelude.{◌≡◌, ◌+◌, ◌≤◌, length, MatchOption, IsTrue, Some};
ghost use Rattle.sd_base.specs.Choice.{FirstOf, NoneOf};
ghost use Rattle.sd_base.specs.Limits.{most_lanes};

use sd_base::LaneNo;

/// The lowest lane that is free. `free` says of each lane of a drive, from the first on, whether it is.
pub fn lowest_free_lane(free: &[bool]) -> Option<LaneNo>
    requires { length free.now ≤ most_lanes }
    ensures { MatchOption result (NoneOf IsTrue free.now)
        (λ lane. (place : _) × (lane ≡ place + 1) × FirstOf IsTrue (λ _ _. ⊥) free.now place) }
{
    let place = free.iter().position(|is_free| *is_free)?;
    LaneNo::new(place as u32 + 1)
}
