//! What was told of closed sessions, and laws of it, without code: from the moment of a close on, no stop leaves less of a
//! volume than the told spans, and on what it leaves they read to the records whose bodies the session sent.
#![tactic(auto)]

ghost use Rattle.sd_closes.specs.Pieces.{OwnOnly};
ghost use Rattle.sd_closes.specs.Stands.{CloseStands, ToldComesBack, ToldStays};

/// What was told stands after each turn of a drive, and after each event of an operator there: these promise of the
/// device that it goes on.
pub fn told_stays()
    ensures { ToldStays }
{}

/// What stands comes back after any stop, also one inside a call, while the device is honest.
pub fn told_comes_back()
    ensures { ToldComesBack }
{}

/// Of all that a drive took, the pieces of a session are those that its lane sent last, if no more of its key were taken.
pub fn own_only()
    ensures { OwnOnly }
{}

/// What is told at a close stands: each block of the session is synced, and they are of the bodies that it sent.
pub fn close_stands()
    ensures { CloseStands }
{}
