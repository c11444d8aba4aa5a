// Where the records of a session that is read back go.
ghost use Rattle.std.specs.Prelude.{◌≡◌, [], ◌∷◌, ◌++◌, List, OnOk, OnErr};
ghost use Rattle.sd_base.specs.Record.{Record};

use sd_base::Rec;
use std::alloc::AllocError;

/// What records are handed over to, in order. In a contract `got` is the list of those that it got.
pub trait Sink {
    ghost got: { Self → List Record };

    /// Takes the next record; if out of memory, the record is gone, and the sink is as before.
    fn put(&mut self, rec: Rec) -> Result<(), AllocError>
        ensures ok { OnOk result (got self.new ≡ got self.old ++ rec ∷ []) }
        ensures err { OnErr result (got self.new ≡ got self.old) };
}

impl Sink for Vec<Rec> {
    ghost got = { λ v. v.items };

    fn put(&mut self, rec: Rec) -> Result<(), AllocError> {
        self.push(rec)?;
        Ok(())
    }
}
