// The volumes of a folder, in the order in which they are read.
ghost use Rattle.std.specs.Prelude.{◌≡◌, ◌≤◌, ℕ, length, OnOk};
ghost use Rattle.std.specs.List.{insert};

use sd_base::VolName;
use std::alloc::AllocError;

/// A volume with its label: its name, when it was labelled, and its bytes.
#[derive(Drop)]
pub(crate) struct Labelled {
    pub(crate) name: VolName,
    pub(crate) moment: i64,
    pub(crate) size: u64,
}

/// Puts a volume before the first of these that comes after it.
pub(crate) fn place(volumes: &mut Vec<Labelled>, one: Labelled) -> Result<(), AllocError>
    ensures { OnOk result ((at : ℕ) × (at ≤ length volumes.old.items)
        × (volumes.new.items ≡ insert volumes.old.items at one)) }
{
    let at = place_for(volumes, &one);
    volumes.insert(at, one)?;
    Ok(())
}

fn place_for(volumes: &[Labelled], one: &Labelled) -> usize
    ensures { result ≤ length volumes.now }
{
    for (at, other) in volumes.iter().enumerate() {
        if comes_before(one, other) {
            return at;
        }
    }
    volumes.len()
}

// Whether the one was labelled before the other, or at the same moment and its name comes first.
fn comes_before(one: &Labelled, other: &Labelled) -> bool {
    if one.moment == other.moment {
        one.name.as_str() < other.name.as_str()
    } else {
        one.moment < other.moment
    }
}
