// The fragments of a body, one after another.
ghost use Rattle.std.specs.Prelude.{◌≡◌, ◌+◌, ℕ, List, [], ◌++◌, length, drop, IfSome, Some};
ghost use Rattle.sd_record.specs.Fragment.{Fragment as SpecFragment, fragment_bytes, GoesOn, IsFragment, StandsAt};

use sd_record::{Fragment, next_fragment};

/// The fragment at a place and the place after it, if one is there.
pub(crate) fn fragment_at(body: &[u8], at: usize) -> Option<(Fragment<'_>, usize)>
    ensures found { IfSome result (λ found. StandsAt body.now at found.0 found.1) }
    ensures read_back { (f : SpecFragment) (rest : List ℕ) → IsFragment f → (GoesOn f → rest ≡ [])
        → drop at body.now ≡ fragment_bytes f ++ rest
        → result ≡ Some (f, at + 12 + length f.part) }
{
    match next_fragment(body, at) {
        Ok(found) => found,
        Err(_) => None,
    }
}
