// How far the session has come.
ghost use Rattle.std.specs.Prelude.{◌≡◌, ◌-◌, ◌≤◌, [], ◌∷◌, ◌++◌, List, length};
ghost use Rattle.sd_base.specs.Record.{Record};
ghost use Rattle.sd_unpack.specs.Stage.{AreTotalsOf};

use sd_label::Totals;

/// What is still due of an unfinished record.
#[derive(Clone, Copy, Debug, PartialEq, Eq)]
pub(crate) struct Due {
    pub(crate) index: u32,
    pub(crate) stream: u32,
    pub(crate) left: u32,
}

impl Due {
    /// What is due after `taken` bytes more.
    pub(crate) fn after(self, taken: usize) -> Self
        requires { taken ≤ self.left }
        ensures { result ≡ record self { left = self.left - taken } }
    {
        Due {
            index: self.index,
            stream: self.stream,
            left: self.left - taken as u32,
        }
    }
}

/// How far the session has come.
#[derive(Clone, Copy, Debug, PartialEq, Eq)]
pub(crate) enum Stage {
    /// Nothing has come.
    Fresh,
    /// The start label has come, and all records since are whole.
    Whole,
    /// The last record isn't whole.
    Partway(Due),
    /// The end label has come.
    Closed,
}

/// The totals with one record more of `size` data bytes, or none if a label can't hold them.
pub(crate) fn totals_with(totals: Option<Totals>, size: usize) -> Option<Totals>
    ensures { (records : List Record) (one : Record) → AreTotalsOf totals records
        → size ≡ length one.bytes → AreTotalsOf result (records ++ one ∷ []) }
{
    let totals = totals?;
    let records = totals.records.checked_add(1)?;
    let bytes = totals.bytes.checked_add(size as u64)?;
    Some(Totals { records, bytes })
}
