// What holds of all replies of a talk's port to events of its session.
ghost use Rattle.sd_lines.specs.Allowed.{RepliesAllowed};

/// Each reply to a record, an end, a close or a cancel is one that a step of the list machine may give, in which the session is as the
/// port's part of it; and the part goes where the machine goes.
#[tactic(auto, using(crate::proofs::AllowedLemmas::all_allowed))]
pub fn replies_are_allowed()
    ensures { RepliesAllowed }
{}
