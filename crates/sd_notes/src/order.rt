// Names in their order.
ghost use Rattle.std.specs.Prelude.{◌≡◌, IsPermutation};
ghost use Rattle.std.specs.Cmp.Lexicographic.{slice_cmp};
ghost use Rattle.std.specs.Ordering.{nat_cmp};
ghost use Rattle.sd_notes.specs.Order.{InOrder, sort_key};

use crate::key::sort_key;
use sd_base::VolName;
use std::cmp::Ordering;

/// The names in their order. Takes no memory.
pub(crate) fn in_order(mut names: Vec<VolName>) -> Vec<VolName>
    ensures all { IsPermutation names.items result.items }
    ensures order { InOrder result.items }
{
    names.sort_unstable_by(|one, other| compare(one, other));
    names
}

// Which of two names comes before the other.
fn compare(one: &VolName, other: &VolName) -> Ordering
    ensures { result ≡ slice_cmp nat_cmp (sort_key one.now) (sort_key other.now) }
{
    sort_key(one).as_slice().cmp(sort_key(other).as_slice())
}
