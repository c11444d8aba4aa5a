// The FileIndexes of the records in a body.
ghost use Rattle.std.specs.Prelude.{◌≡◌, ℤ};
ghost use Rattle.sd_base.specs.FileIndex.{first_nonzero};
ghost use Rattle.sd_pack.specs.Body.{file_index};
ghost use Rattle.sd_scan.specs.Found.{HasIndexes};

use crate::fragment::fragment_at;
use sd_record::Fragment;

/// The first and the last FileIndex of the records or parts in a body, 0 and 0 if none.
#[derive(Clone, Copy, Debug, PartialEq, Eq)]
pub struct Indexes {
    pub first: u32,
    pub last: u32,
}

/// The FileIndexes of a body, which is read up to the first place where there is no fragment.
pub fn indexes_in(body: &[u8]) -> Indexes
    ensures { HasIndexes body.now result.first result.last }
{
    let mut found = Indexes { first: 0, last: 0 };
    let mut at = 0;
    while let Some((fragment, next)) = fragment_at(body, at) {
        found = found.with(file_index(&fragment));
        at = next;
    }
    found
}

impl Indexes {
    // With one fragment more.
    fn with(self, index: u32) -> Self
        ensures { result ≡ record {
          first = first_nonzero self.first index;
          last = first_nonzero index self.last;
        } }
    {
        Indexes {
            first: first_of(self.first, index),
            last: first_of(index, self.last),
        }
    }
}

// The FileIndex of a record's fragment, and 0 of a label.
fn file_index(fragment: &Fragment<'_>) -> u32
    ensures { result ≡ file_index fragment.now.index }
{
    if fragment.index > 0 {
        fragment.index as u32
    } else {
        0
    }
}

// The first of two numbers that is not 0, if one is.
fn first_of(index: u32, other: u32) -> u32
    ensures { result ≡ first_nonzero index other }
{
    if index == 0 { other } else { index }
}
