// One call of a plan, and how it fails.
ghost use Rattle.std.specs.Prelude.{◌≡◌};
ghost use Rattle.sd_plan.specs.Plan.{part_of};

/// How a planned call fails: before it does anything, with the first half of an append's bytes done
/// (rounded down), or with all of it done. A call that isn't an append treats `Half` as `Before`.
#[derive(Clone, Copy, Debug, PartialEq, Eq)]
pub enum When {
    Before,
    Half,
    After,
}

/// One entry of a plan: the `nth` call of that kind fails, counted from 1 over every call of the kind,
/// failed and refused ones too.
#[derive(Clone, Copy, Debug, PartialEq, Eq)]
pub struct Fail<K> {
    pub call: K,
    pub nth: u64,
    pub when: When,
}

/// What of an append is done, if it is to fail so: the first half of its bytes, rounded down, or all.
pub fn part(due: Option<When>, bytes: &[u8]) -> &[u8]
    ensures { result.now ≡ part_of due bytes.now }
{
    match due {
        Some(When::Half) => &bytes[..bytes.len() / 2],
        _ => bytes,
    }
}
