// The worker of a line.
ghost use Rattle.sd_line.specs.Turns.{MayTurn};

use crate::gate::Gate;
use crate::line::Line;
use crate::naming::Naming;
use crate::turning::Turned;
use sd_driver::Driver;
use std::sync::Wait;

/// What places the pieces that the lanes of a line push, turn by turn.
pub struct DriveWorker;

impl DriveWorker {
    /// One turn, with the line's lock held.
    pub fn turn<D: Driver, N: Naming, R: Wait + Drop, G: Gate>(
        line: &Line<D, N, R>,
        gate: &G,
    ) -> Turned
        ensures { MayTurn (λ d. D.meaning d) result }
    {
        line.turn(gate)
    }
}
