// What names are sorted by: numbers in them count as numbers.
ghost use Rattle.std.specs.Prelude.{◌≡◌, ◌≤◌, ◌+◌, ◌++◌, length};
ghost use Rattle.sd_base.specs.Limits.{most_name};
ghost use Rattle.sd_notes.specs.Order.{digits_before, mark, sort_key};

use arrayvec::ArrayVec;
use sd_base::{NAME_LENGTH, VolName};

// The most bytes of a key: its name's, and two more before each number.
const MOST_KEY: usize = 3 * NAME_LENGTH;

/// What a name is sorted by, as bytes.
pub(crate) type SortKey = ArrayVec<u8, MOST_KEY>;

/// The key of a name: its characters, and before each number, which is as long as can be, a byte 0 and the count of its
/// digits.
pub(crate) fn sort_key(name: &VolName) -> SortKey
    ensures { result.items ≡ sort_key name.now }
{
    let text = name.as_str().as_bytes();
    let mut key = ArrayVec::new();
    let mut in_number = false;
    for at in 0..text.len() {
        push_mark(&mut key, in_number, &text[at..]);
        key.push(text[at]);
        in_number = text[at].is_ascii_digit();
    }
    key
}

// Puts into a key what comes before the rest of a name, in a number or not.
fn push_mark(key: &mut SortKey, in_number: bool, text: &[u8])
    requires room { length key.old.items + 2 ≤ MOST_KEY }
    requires most { length text.now ≤ most_name }
    ensures { key.new.items ≡ key.old.items ++ mark in_number text.now }
{
    let digits = digits_before(text);
    if !in_number && digits > 0 {
        key.push(0);
        key.push(digits as u8);
    }
}

// How many digits a text begins with.
fn digits_before(text: &[u8]) -> usize
    ensures count { result ≡ digits_before text.now }
    ensures most { result ≤ length text.now }
{
    let mut count = 0;
    while count < text.len() && text[count].is_ascii_digit() {
        count += 1;
    }
    count
}
