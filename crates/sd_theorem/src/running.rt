// The theorem of running threads, in three laws.
ghost use Rattle.sd_theorem.specs.ThreadStops.{ThreadStopTheorem};
ghost use Rattle.sd_theorem.specs.Threads.{ThreadTheorem};
ghost use Rattle.sd_theorem.specs.ToldCloses.{ShownClosesComeBack, ToldClosesComeBack};

/// The theorem of running threads: whatever threads did, the world of a settled line is that of a list machine, in
/// which each lane's pieces are as its seat sent them and each receipt is as the journal gives it; and from there on
/// the session theorem holds.
pub fn thread_theorem<D>()
    ensures { ThreadTheorem D }
{}

/// The stop theorem for them: what was closed while threads ran, or since, comes back after any stop.
pub fn thread_stop_theorem<D, Q, S, Z>()
    ensures { ThreadStopTheorem D Q S Z }
{}

/// At every moment while threads run: what was told to be closed under a drive's lock comes back from then on after any stop,
/// also one inside a call, and in later runs. Nothing has to be settled for it.
pub fn told_closes_come_back<D, Q, S, Z>()
    ensures { ToldClosesComeBack D Q S Z }
{}

/// So does what a token shows to have been told closed: such a token comes with the answer to a close, and who has it learns under
/// the drive's lock that the close stands.
pub fn shown_closes_come_back<D, Q, S, Z>()
    ensures { ShownClosesComeBack D Q S Z }
{}
