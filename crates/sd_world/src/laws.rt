// What holds of a world, whatever happens to it.
ghost use Rattle.sd_world.specs.Deeds.{StepsLead, LeadsJoin, LeadsKeep, LeadsRun};
ghost use Rattle.sd_world.specs.Devices.{GoingOnJoins, MovesGoOn};
ghost use Rattle.sd_world.specs.Grows.{GrowthsJoin, JournalsGrow};
ghost use Rattle.sd_world.specs.Reads.{ClosedReads, ClosedIsCountable, CancelledReads, ToldSpansRead};
ghost use Rattle.sd_world.specs.Seats.{MovesKeepSeats};
ghost use Rattle.sd_world.specs.Stands.{StepsKeepSpans};
ghost use Rattle.sd_world.specs.Stays.{ClosedSpansLast, PlacedIsFound, ClosedIsFound};
ghost use Rattle.sd_world.specs.MachineSteps.{MovesAreSteps, NotYetIsOutstanding, FreshMatches, ReadingKeepsMatches};
ghost use Rattle.sd_world.specs.Fails.{MovesFailByCause, MovesPurgeByCause};
ghost use Rattle.sd_world.specs.Honest.{MovesKeepHonesty};
ghost use Rattle.sd_world.specs.Kept.{MovesKeepRules, MovesKeepClaims, MovesKeepClosed};
ghost use Rattle.sd_world.specs.Memory.{MovesWantMemory};

/// A move keeps the rules of worlds.
pub fn moves_keep_rules<D>()
    ensures { MovesKeepRules D }
{}

/// A move keeps closed sessions closed or purged, and their spans until their drive is retired.
pub fn moves_keep_closed<D>()
    ensures { MovesKeepClosed D }
{}

/// A move keeps what is claimed, and notes no volume as purged but one that it purged.
pub fn moves_keep_claims<D>()
    ensures { MovesKeepClaims D }
{}

/// In a move exactly the sessions fail that have a cause.
pub fn moves_fail_by_cause<D>()
    ensures { MovesFailByCause D }
{}

/// In a move exactly the sessions are purged that have a cause.
pub fn moves_purge_by_cause<D>()
    ensures { MovesPurgeByCause D }
{}

/// A move that is answered 'out of memory' changes no session, and is of an event that takes memory.
pub fn moves_want_memory<D>()
    ensures { MovesWantMemory D }
{}

/// A move of a world whose devices and stores are honest leaves them so.
pub fn moves_keep_honesty<D>()
    ensures { MovesKeepHonesty D }
{}

/// A move of a world is a step of each list machine that it matches.
pub fn moves_are_steps<D>()
    ensures { MovesAreSteps D }
{}

/// The close of an ended session is answered 'not yet' exactly if something of it is outstanding.
pub fn not_yet_is_outstanding<D>()
    ensures { NotYetIsOutstanding D }
{}

/// A world without sessions matches the empty list machine of its run.
pub fn fresh_matches<D>()
    ensures { FreshMatches D }
{}

/// Reading a session back changes no list machine that the world matches.
pub fn reading_keeps_matches<D>()
    ensures { ReadingKeepsMatches D }
{}

/// The spans of a closed session read to exactly the records of the machine's session.
pub fn closed_reads<D>()
    ensures { ClosedReads D }
{}

/// These records are no more than the session's end label can tell.
pub fn closed_is_countable()
    ensures { ClosedIsCountable }
{}

/// The spans that a cancelled session had at any moment read to records that begin those of the machine's session.
pub fn cancelled_reads<D>()
    ensures { CancelledReads D }
{}

/// The spans that were told of a session at any earlier moment read so too, once it is cancelled.
pub fn told_spans_read<D>()
    ensures { ToldSpansRead D }
{}

/// The spans of a closed session last from the close on.
pub fn closed_spans_last<D>()
    ensures { ClosedSpansLast D }
{}

/// The volumes of the spans that a drive's journal gave at any moment are claimed for the drive.
pub fn placed_is_found<D>()
    ensures { PlacedIsFound D }
{}

/// The volumes of a closed session's spans are claimed for its drive.
pub fn closed_is_found<D>()
    ensures { ClosedIsFound D }
{}

/// A move takes no placement out of a journal, nor changes one: it may put more after them;
/// and it brings no drive online.
pub fn journals_grow<D>()
    ensures { JournalsGrow D }
{}

/// What moves do to journals, one after another, they do together.
pub fn growths_join<D>()
    ensures { GrowthsJoin D }
{}

/// A move leaves each session its key and its drive.
pub fn moves_keep_seats<D>()
    ensures { MovesKeepSeats D }
{}

/// Whatever an event is answered, each device that is left is as honest as it was. Whole blocks that lasted on it still
/// last, but those of a volume that the event purged.
pub fn moves_go_on<D>()
    ensures { MovesGoOn D }
{}

/// What goes on by one event and by the next goes on by both.
pub fn going_on_joins<D>()
    ensures { GoingOnJoins D }
{}

/// A step leaves closed sessions their spans, and what it tells of spans is found at the session's drive.
pub fn steps_keep_spans<D>()
    ensures { StepsKeepSpans D }
{}

/// Steps one after another are deeds, with the same events and replies.
pub fn steps_lead<D>()
    ensures { StepsLead D }
{}

/// What leads to a world, and on from there, leads all the way.
pub fn leads_join<D>()
    ensures { LeadsJoin D }
{}

/// Whatever a world did, it keeps its rules, and what a world keeps of an earlier one.
pub fn leads_keep<D>()
    ensures { LeadsKeep D }
{}

/// Whatever a world did is a run of each list machine that it matched.
pub fn leads_run<D>()
    ensures { LeadsRun D }
{}
