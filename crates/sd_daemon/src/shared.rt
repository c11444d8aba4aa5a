// That threads may share a value, for the proof of who lends it to them: beside all else that a thread is lent, the prover
// doesn't find it.
ghost use Rattle.std.specs.Thread.{IsSync};

/// Threads may share the value. Does nothing.
pub(crate) fn share<T: Sync>(_value: &T)
    ensures { IsSync T.row }
{}
