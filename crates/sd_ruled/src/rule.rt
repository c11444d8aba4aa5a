// The rule of the queue, and its kinds of step.
use crossbeam_queue::RuledArrayQueue;
use crossbeam_queue::protocol::{Join, Lesson, Outcome, Protocol, Split};
use sd_lane::Queued;
use std::marker::Model;

/// The queue under its rule.
pub type Ring = RuledArrayQueue<Queued, Knows, InOrder>;

/// One thread's right to take steps on the queue.
pub type Pass = crossbeam_queue::Pass<Queued, Knows>;

/// What a pass knows. No value of it is made.
pub struct Knows {
    nothing: (),
}

impl Model for Knows {
    ghost use Rattle.sd_ruled.specs.Passes.{PassView, of_nobody};

    ghost Value = { PassView };

    ghost view = { λ _. of_nobody };
}

/// Of each lane, what was taken and then what is held is what it sent.
pub struct InOrder;

impl Protocol<Queued, Knows> for InOrder {
    ghost use Rattle.std.specs.Prelude.{[]};
    ghost use Rattle.sd_ruled.specs.Passes.{of_owner};
    ghost use Rattle.sd_ruled.specs.Rule.{Keeps};

    ghost holds = { Keeps };

    ghost first = { of_owner 0 [] [] };
}

/// A push by a lane's pass.
pub struct Sends;

impl Outcome<Queued, Knows> for Sends {
    ghost use Rattle.sd_ruled.specs.Steps.{Sent};

    ghost then = { Sent };
}

impl Lesson<Queued, Knows> for Sends {
    ghost use Rattle.sd_ruled.specs.Steps.{Tells};

    ghost fact = { Tells };
}

/// A take by the drive's pass.
pub struct Takes;

impl Outcome<Queued, Knows> for Takes {
    ghost use Rattle.sd_ruled.specs.Steps.{Took};

    ghost then = { Took };
}

impl Lesson<Queued, Knows> for Takes {
    ghost use Rattle.sd_ruled.specs.Steps.{Tells};

    ghost fact = { Tells };
}

/// A push by the only pass.
pub struct Puts;

impl Outcome<Queued, Knows> for Puts {
    ghost use Rattle.sd_ruled.specs.Steps.{Put};

    ghost then = { Put };
}

impl Lesson<Queued, Knows> for Puts {
    ghost use Rattle.sd_ruled.specs.Steps.{Tells};

    ghost fact = { Tells };
}

/// A take by the only pass.
pub struct Gets;

impl Outcome<Queued, Knows> for Gets {
    ghost use Rattle.sd_ruled.specs.Steps.{Got};

    ghost then = { Got };
}

impl Lesson<Queued, Knows> for Gets {
    ghost use Rattle.sd_ruled.specs.Steps.{Tells};

    ghost fact = { Tells };
}

/// A take by the only pass of a piece that it will put back.
pub struct Lifts;

impl Outcome<Queued, Knows> for Lifts {
    ghost use Rattle.sd_ruled.specs.Steps.{Lifted};

    ghost then = { Lifted };
}

impl Lesson<Queued, Knows> for Lifts {
    ghost use Rattle.sd_ruled.specs.Steps.{Tells};

    ghost fact = { Tells };
}

/// One lane more, while one pass has all.
pub struct Opens;

impl Split<Knows> for Opens {
    ghost use Rattle.sd_ruled.specs.Passes.{one_lane_more, of_nobody};

    ghost left = { one_lane_more };

    ghost right = { λ v. of_nobody };
}

/// The next lane gets a pass of its own.
pub struct Cuts;

impl Split<Knows> for Cuts {
    ghost use Rattle.sd_ruled.specs.Passes.{without_lane, only_lane};

    ghost left = { without_lane };

    ghost right = { only_lane };
}

/// A lane's pass comes back to the drive's.
pub struct Meets;

impl Join<Knows> for Meets {
    ghost use Rattle.sd_ruled.specs.Passes.{with_lane, of_nobody};

    ghost both = { with_lane };

    ghost spent = { of_nobody };
}

/// The only pass has found the queue empty.
pub struct Rests;

impl Split<Knows> for Rests {
    ghost use Rattle.sd_ruled.specs.Passes.{at_rest, of_nobody};

    ghost left = { at_rest };

    ghost right = { λ v. of_nobody };
}

/// A lane's pass comes to the drive's as a guest.
pub struct Visits;

impl Join<Knows> for Visits {
    ghost use Rattle.sd_ruled.specs.Passes.{with_guest, of_nobody};

    ghost both = { with_guest };

    ghost spent = { of_nobody };
}

/// The guest goes.
pub struct Goes;

impl Split<Knows> for Goes {
    ghost use Rattle.sd_ruled.specs.Passes.{without_guest, guest_alone};

    ghost left = { without_guest };

    ghost right = { guest_alone };
}

/// A pass that is nobody's, to stand in a seat for a moment.
pub struct Blanks;

impl Split<Knows> for Blanks {
    ghost use Rattle.sd_ruled.specs.Passes.{of_nobody};

    ghost left = { λ v. v };

    ghost right = { λ v. of_nobody };
}
