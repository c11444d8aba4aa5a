// A list as contracts see it. Nothing of it is held.
ghost use Rattle.std.specs.Prelude.{◌≡◌, ◌∷◌, ◌++◌, []};

use sd_base::Seen;
use std::marker::Model;

/// A list that was shown element by element. In a contract it is that list; it takes no memory.
#[derive(Drop)]
pub struct Shown<T> {
    seen: Option<Seen<T>>,
}

impl<T> Model for Shown<T> {
    ghost use Rattle.std.specs.Prelude.{List};
    ghost use Rattle.sd_base.specs.Seen.{seen_of};

    ghost Value = { List T };

    ghost view = { λ s. seen_of s.seen };
}

impl<T> Shown<T> {
    pub fn nothing() -> Self
        ensures { result ≡ [] }
    {
        Shown { seen: None }
    }

    pub fn with(&self, x: &T) -> Self
        ensures { result ≡ self.now ++ x.now ∷ [] }
    {
        Shown {
            seen: Some(Seen::with(&self.seen, x)),
        }
    }

    /// A list as it is in memory.
    pub fn of(xs: &[T]) -> Self
        ensures { result ≡ xs.now }
    {
        let mut shown = Shown::nothing();
        for x in xs {
            shown = shown.with(x);
        }
        shown
    }
}
