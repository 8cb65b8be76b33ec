//! The number of a step in a log.

ghost use Rattle.std.specs.Prelude.{◌≡◌, ◌<◌, ◌^◌};

use std::marker::Model;

/// The number of a log step, which contracts see as that number. Steps are counted from 1; a number that
/// no step has is still a value, so that a list of hints can name it.
#[derive(Clone, Copy, PartialEq, Eq, PartialOrd, Ord, Hash)]
pub struct StepId {
    number: u32,
}

impl Model for StepId {
    ghost use Rattle.std.specs.Prelude.{ℕ};

    ghost Value = { ℕ };

    ghost view = { λ s. s.number };

    ghost inverse = { λ n. record { number = n } };
}

impl StepId {
    /// The step of a number.
    pub fn new(number: u32) -> StepId
        ensures { result ≡ number }
    {
        StepId { number }
    }

    /// The step's number.
    pub fn number(self) -> u32
        ensures { result ≡ self }
    {
        self.number
    }
}
