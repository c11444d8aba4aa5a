// Where what is salvaged of a session goes.
ghost use Rattle.std.specs.Prelude.{◌≡◌, [], ◌∷◌, ◌++◌, List, OnOk};
ghost use Rattle.sd_base.specs.Record.{Record};
ghost use Rattle.sd_collect.specs.Whole.{Place};

use sd_base::{Rec, VolName};
use std::alloc::AllocError;

/// What the whole records of a session are handed over to, in order, and what is told from which places on some may be lost. In
/// a contract `got` is the list of the records that it got, and `lost` that of the places.
pub trait Salvaged {
    ghost got: { Self → List Record };

    ghost lost: { Self → List Place };

    /// Takes the next record.
    fn put(&mut self, rec: Rec) -> Result<(), AllocError>
        ensures ok { OnOk result (got self.new ≡ got self.old ++ rec ∷ []) }
        ensures lost { OnOk result (lost self.new ≡ lost self.old) };

    /// Is told that some of the session may be lost from that place of the volume on.
    fn lose(&mut self, volume: &VolName, at: u64)
        ensures got { got self.new ≡ got self.old }
        ensures lost { lost self.new
            ≡ lost self.old ++ record { volume = volume.now; at = at } ∷ [] };
}
