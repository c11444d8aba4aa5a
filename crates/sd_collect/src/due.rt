// What is due of a record, and which fragments begin one or go on with it.
ghost use Rattle.std.specs.Prelude.{◌≡◌, ◌-◌, ◌≤◌, ◌↔◌, IsTrue};
ghost use Rattle.sd_collect.specs.Collect.{Begins, due_in};
ghost use Rattle.sd_unpack.specs.Damage.{Continues};

use sd_base::MOST_DATA;
use sd_record::Fragment;

/// What is still due of a record that has begun.
#[derive(Clone, Copy, Debug, PartialEq, Eq)]
pub struct Due {
    pub index: u32,
    pub stream: u32,
    pub left: u32,
}

impl Due {
    /// What is due after `taken` bytes more.
    pub(crate) fn after(self, taken: usize) -> Self
        requires { taken ≤ self.left }
        ensures { result ≡ record self { left = self.left - taken } }
    {
        Due {
            index: self.index,
            stream: self.stream,
            left: self.left - taken as u32,
        }
    }
}

/// Whether the fragment could be the first of a record.
pub(crate) fn begins(fragment: &Fragment<'_>) -> bool
    ensures { IsTrue result ↔ Begins fragment.now }
{
    fragment.index >= 1 && fragment.stream >= 1 && fragment.size as usize <= MOST_DATA
}

/// Whether the fragment goes on with the record that is due.
pub(crate) fn continues(due: Due, fragment: &Fragment<'_>) -> bool
    ensures { IsTrue result ↔ Continues (due_in due) fragment.now }
{
    let same_record = i64::from(fragment.index) == i64::from(due.index)
        && i64::from(fragment.stream) == -i64::from(due.stream);
    same_record && fragment.size == due.left && !fragment.part.is_empty()
}
