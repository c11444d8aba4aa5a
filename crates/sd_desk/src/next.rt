// The volume that a drive takes next.
ghost use Rattle.std.specs.Prelude.{◌≡◌, MatchOption, Some};
ghost use Rattle.sd_base.specs.Choice.{FirstOf, NoneOf};
ghost use Rattle.sd_desk.specs.Next.{TakesBlocksOf};

use sd_base::{PoolName, VolName};
use sd_volume::Volume;

/// The first of the volumes to which blocks of the pool are added. Looks at them one after another.
pub fn next_volume(volumes: &[Volume], pool: &PoolName) -> Option<VolName>
    ensures { MatchOption result (NoneOf (TakesBlocksOf pool.now) volumes.now)
        (λ name. (place : _) × (first : FirstOf (TakesBlocksOf pool.now)
        (λ _ _. ⊥) volumes.now place)
        × (name ≡ first.first.name)) }
{
    for volume in volumes {
        if volume.is_appendable_for(pool) {
            return Some(volume.name().copy());
        }
    }
    None
}
