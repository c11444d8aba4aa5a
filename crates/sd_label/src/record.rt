// The record that a label is read from.
ghost use Rattle.std.specs.Prelude.{◌≡◌, length, IfOk, Ok};
ghost use Rattle.sd_record.specs.Fragment.{Fragment as SpecFragment, IsFragment, fragment_bytes};

use crate::label::NotOurs;
use sd_record::{Fragment, next_fragment};

/// The record that is all of `bytes`, with its whole data.
pub fn whole_record(bytes: &[u8]) -> Result<Fragment<'_>, NotOurs>
    ensures fits { IfOk result (λ found. IsFragment found) }
    ensures whole { IfOk result (λ found. found.size ≡ length found.part) }
    ensures bytes { IfOk result (λ found. bytes.now ≡ fragment_bytes found) }
    ensures read_back { (f : SpecFragment) → IsFragment f → f.size ≡ length f.part
        → bytes.now ≡ fragment_bytes f → result ≡ Ok f }
{
    let Ok(Some((record, next))) = next_fragment(bytes, 0) else {
        return Err(NotOurs);
    };
    if next != bytes.len() || record.size as usize != record.part.len() {
        return Err(NotOurs);
    }
    Ok(record)
}
