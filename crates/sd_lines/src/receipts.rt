// The receipts of the sessions that were closed at a drive.
ghost use Rattle.std.specs.Prelude.{◌≡◌, ◌+◌, ◌-◌, ◌≤◌, ◌++◌, ◌∷◌, [], OnErr, OnOk};
ghost use Rattle.sd_lines.specs.Receipts.{ReceiptsAre};

use sd_drive::Receipt;
use std::alloc::{AllocError, Global};
use std::marker::Model;

/// The receipts that are kept, in the order of the closes; and for how many more there is room that was promised. In a
/// contract they are `ReceiptsAre`.
#[derive(Drop)]
pub struct Receipts {
    kept: Vec<Receipt>,
    promised: usize,
}

impl Model for Receipts {
    ghost use Rattle.std.specs.Prelude.{◌+◌, ◌≤◌, length};
    ghost use Rattle.std.specs.Vec.{vec_capacity};
    ghost use Rattle.sd_lines.specs.Receipts.{ReceiptsAre};

    ghost Value = { ReceiptsAre };

    ghost view = { λ r. record { kept = r.kept.items; promised = r.promised } };

    ghost invariant = { λ r. length r.kept.items + r.promised ≤ vec_capacity r.kept };
}

impl Receipts {
    /// None is kept, and no room is promised. Takes no memory.
    pub(crate) fn new(alloc: Global) -> Self
        ensures { result ≡ record { kept = []; promised = 0 } }
    {
        Receipts {
            kept: Vec::new(alloc),
            promised: 0,
        }
    }

    /// Promises room for one receipt more, before its session is closed.
    pub(crate) fn promise(&mut self) -> Result<(), AllocError>
        ensures ok { OnOk result (self.new ≡ record self.old {
          promised = self.old.promised + 1;
        }) }
        ensures err { OnErr result (self.new ≡ self.old) }
    {
        let Some(promised) = self.promised.checked_add(1) else {
            return Err(AllocError);
        };
        if let Err(AllocError) = self.kept.reserve(promised) {
            return Err(AllocError);
        }
        self.promised = promised;
        Ok(())
    }

    /// Keeps a receipt, for which room was promised. That promise ends. Takes no memory.
    pub(crate) fn keep(&mut self, receipt: Receipt)
        ensures { 1 ≤ self.old.promised → self.new ≡ record {
          kept = self.old.kept ++ receipt ∷ [];
          promised = self.old.promised - 1;
        } }
    {
        if self.promised == 0 {
            return;
        }
        self.promised -= 1;
        self.kept.push_reserved(receipt);
    }

    /// Ends a promise. Takes no memory.
    pub(crate) fn end_promise(&mut self)
        ensures { self.new ≡ record self.old { promised = self.old.promised - 1 } }
    {
        self.promised = self.promised.saturating_sub(1);
    }

    /// Those that are kept, in the order of the closes.
    pub fn into_kept(self) -> Vec<Receipt>
        ensures { result.items ≡ self.kept }
    {
        self.kept
    }
}
