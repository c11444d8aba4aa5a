// What holds of the placements in a drive's journal, whatever was placed, labelled, adopted or synced since.
ghost use Rattle.sd_world.specs.Ends.{PlacedEndWithBlocks, KeptSpansEndWithBlocks, AdoptionKeepsSpans};
ghost use Rattle.sd_world.specs.Lasting.{AdoptionKeepsLasting, SyncedSpansLast, LastingSpansStay, LastingSpansMark, LastingSpansKept, LastingSpansSurvive};
ghost use Rattle.sd_world.specs.Restore.{PlacedAmongBlocks, PlacedRead};

/// Each placement is where a block of its volume begins and ends, after the label and whole blocks.
pub fn placed_among_blocks()
    ensures { PlacedAmongBlocks }
{}

/// The spans that the journal gives of a session now, or gave at any earlier moment, read to exactly the records
/// that are whole in the bodies that were placed by then.
pub fn placed_read()
    ensures { PlacedRead }
{}

/// The spans of a drive's journal end where whole blocks of their volumes do.
pub fn placed_end_with_blocks()
    ensures { PlacedEndWithBlocks }
{}

/// Spans whose bytes are kept still end where whole blocks do.
pub fn kept_spans_end_with_blocks()
    ensures { KeptSpansEndWithBlocks }
{}

/// Adopting a volume cuts off no byte of spans that end where whole blocks do.
pub fn adoption_keeps_spans()
    ensures { AdoptionKeepsSpans }
{}

/// Whatever an adoption answers, a label block and whole blocks that lasted still last.
pub fn adoption_keeps_lasting()
    ensures { AdoptionKeepsLasting }
{}

/// If all blocks of a session are synced, its spans last from that moment on.
pub fn synced_spans_last()
    ensures { SyncedSpansLast }
{}

/// Spans that last still do as long as whole blocks do.
pub fn lasting_spans_stay()
    ensures { LastingSpansStay }
{}

/// No stop leaves less of a volume than what spans that last reach over.
pub fn lasting_spans_mark()
    ensures { LastingSpansMark }
{}

/// What a stop leaves has the bytes of spans that last.
pub fn lasting_spans_kept()
    ensures { LastingSpansKept }
{}

/// What a stop left has spans that last from then on.
pub fn lasting_spans_survive()
    ensures { LastingSpansSurvive }
{}
