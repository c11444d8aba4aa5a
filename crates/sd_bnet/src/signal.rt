// The number of a signal is a type of its own, so that no signal reads as a length.
ghost use Rattle.std.specs.Prelude.{◌≡◌, ◌↔◌, pos, ◌<ℤ◌, IsSome, IfSome};

use std::marker::Model;

/// The number of a signal, from -1 down: -1 is end of data, -4 terminate (as: Bacula Developer's
/// Guide, network protocol). In a contract it is that number.
#[derive(Clone, Copy, Debug, PartialEq, Eq)]
pub struct SignalNo {
    number: i32,
}

impl Model for SignalNo {
    ghost use Rattle.std.specs.Prelude.{ℤ, pos, ◌<ℤ◌};

    ghost Value = { ℤ };

    ghost view = { λ s. s.number };

    ghost invariant = { λ s. s.number <ℤ pos 0 };

    ghost inverse = { λ z. record { number = z } };
}

impl SignalNo {
    /// The signal of this number, or `None` if it isn't negative.
    pub fn new(number: i32) -> Option<Self>
        ensures negative { IsSome result ↔ (number <ℤ pos 0) }
        ensures number { IfSome result (λ signal. signal ≡ number) }
    {
        if number >= 0 {
            return None;
        }
        Some(SignalNo { number })
    }

    pub fn get(self) -> i32
        ensures number { result ≡ self }
        ensures negative { result <ℤ pos 0 }
    {
        self.number
    }
}
