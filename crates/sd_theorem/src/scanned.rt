// What a scan finds, whoever placed it, and what it prints of sessions.
ghost use Rattle.sd_theorem.specs.Closed.{PlacementsSay, ScanTellsClosed, ScanTellsSession, ScanTellsTold};
ghost use Rattle.sd_theorem.specs.Placed.{PlacedBlocksAreFound, ScanTellsSpans};

/// What a scan finds on a volume of a drive before all damage has in it the blocks of the journal:
/// at their places, in their order, one after another.
pub fn placed_blocks_are_found()
    ensures { PlacedBlocksAreFound }
{}

/// The spans that a scan tells of a session are those of its placements, if these say the
/// FileIndexes of its bodies, no other block of it is on the volumes, and they come in the order in
/// which its blocks were placed on them.
pub fn scan_tells_spans()
    ensures { ScanTellsSpans }
{}

/// What the drives of a world placed of a session says the FileIndexes of its bodies, while the
/// session neither failed nor was purged.
pub fn placements_say<D>()
    ensures { PlacementsSay D }
{}

/// A scan of complete volumes, in the order of their use, prints the spans that a world tells of a
/// session, while that neither failed nor was purged.
pub fn scan_tells_session<D>()
    ensures { ScanTellsSession D }
{}

/// Of a session that is closed it prints that all of it is there, and the spans that its close
/// answered; and by them the volumes read to the session's records.
pub fn scan_tells_closed<D>()
    ensures { ScanTellsClosed D }
{}

/// So it does of each session that a daemon told to be closed, whatever it was asked before and
/// since.
pub fn scan_tells_told<D, Q, S, Z>()
    ensures { ScanTellsTold D Q S Z }
{}
