// Values that were seen one after another, as contracts see them. Nothing of them is held: so a sink that lets
// its records go can still say which it got.
ghost use Rattle.std.specs.Prelude.{◌≡◌, ◌++◌, ◌∷◌, []};
ghost use Rattle.sd_base.specs.Seen.{seen_of};

use std::marker::Model;
use std::snapshot::Snapshot;

/// One value or more that were seen. In a contract it is their list; it takes no memory.
#[derive(Drop)]
pub struct Seen<T> {
    before: Option<Snapshot<Seen<T>>>,
    last: Snapshot<T>,
}

impl<T> Model for Seen<T> {
    ghost use Rattle.std.specs.Prelude.{List, ◌++◌, ◌∷◌, [], None, Some, length};

    ghost Value = { List T };

    ghost view = { λ s.
        (elim s.before as (λ _. List T) [ None ↦ [] | Some b ↦ b.value ])
        ++ s.last.value ∷ [] };

    ghost size = { λ l. length l };
}

impl<T> Seen<T> {
    /// What was seen before, and this.
    pub fn with(before: &Option<Seen<T>>, value: &T) -> Self
        ensures { result ≡ seen_of before.now ++ value.now ∷ [] }
    {
        let before = match before {
            None => None,
            Some(seen) => Some(Snapshot::of(seen)),
        };
        Seen {
            before,
            last: Snapshot::of(value),
        }
    }
}
