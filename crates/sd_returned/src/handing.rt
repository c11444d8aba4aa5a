// What jobs came to is taken apart, as it is handed in to settle their line.
ghost use Rattle.std.specs.Prelude.{◌≡◌, ◌++◌, IfOk, OnOk};
ghost use Rattle.std.specs.Option.{option_to_list};
ghost use Rattle.sd_returned.specs.Listed.{lane_ends, receipts_in};

use sd_drive::Receipt;
use sd_jobs::JobEnd;
use sd_line::{LaneEnd, Naming};
use sd_spool::SpoolStore;
use std::alloc::{AllocError, Global};

/// What is handed in.
#[derive(Drop)]
pub(crate) struct Handed<N: Naming, S: SpoolStore> {
    pub(crate) ends: Vec<LaneEnd<N, S>>,
    pub(crate) receipts: Vec<Receipt>,
}

/// The ends of the lanes and the receipts of what jobs came to.
pub(crate) fn hand_in<N: Naming, S: SpoolStore + Drop>(
    alloc: Global,
    all: Vec<JobEnd<N, S>>,
) -> Result<Handed<N, S>, AllocError>
    ensures ends { IfOk result (λ handed. handed.ends.items ≡ lane_ends all.items) }
    ensures receipts { IfOk result (λ handed. handed.receipts.items ≡ receipts_in all.items) }
{
    let mut ends = Vec::new(alloc);
    let mut receipts = Vec::new(alloc);
    for one in all {
        let JobEnd {
            lane_end,
            taken: _,
            receipt,
            stop: _,
        } = one;
        ends.push(lane_end)?;
        put(receipt, &mut receipts)?;
    }
    Ok(Handed { ends, receipts })
}

// Puts a receipt behind the others, if there is one.
fn put(receipt: Option<Receipt>, receipts: &mut Vec<Receipt>) -> Result<(), AllocError>
    ensures { OnOk result (receipts.new.items ≡ receipts.old.items ++ option_to_list receipt) }
{
    if let Some(receipt) = receipt {
        receipts.push(receipt)?;
    }
    Ok(())
}
