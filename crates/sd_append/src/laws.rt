// What a conversation is as a whole, whatever its port answers.
ghost use Rattle.sd_append.specs.Laws.{AppendedIsTaken, RepliesAnswerTurns, SessionsAreOver};

/// However a talk ends, each session that it opened is over by what its port was asked: before another was asked to be opened, an
/// event of it was answered so that it goes on no more, or its cancel is the last thing asked. And each event that the port was
/// asked is an open at the talk's moment, while no session goes on, or one of the session that was opened last.
pub fn sessions_are_over<E>()
    ensures { SessionsAreOver E }
{}

/// The packets of a talk part into turns, one after the other: a signal, a command with its one reply, a data phase, or
/// a read. What the port was asked and what went out is, turn by turn, what each of these asks and says, in order, and
/// nothing else. If a data phase is accepted, the port has taken the record of each of its payloads under its header,
/// in order; if it is refused, a front of those. And the talk ends by where it is after its last turn.
pub fn replies_answer_turns<E>()
    ensures { RepliesAnswerTurns E }
{}

/// If `3000 OK append data` goes out for a data phase, the port was asked to append the record of each of its payloads
/// under its header, in order and nothing else, and took each.
pub fn appended_is_taken()
    ensures { AppendedIsTaken }
{}
