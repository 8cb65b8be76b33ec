//! Why an event wasn't taken.

use lists::Memory as OutOfMemory;

/// Why an event wasn't taken: the core has no such step, or memory was refused.
#[derive(Clone, Copy, PartialEq, Eq)]
pub enum StepStop {
    NotAStep,
    Memory,
}

impl From<OutOfMemory> for StepStop {
    ghost use Rattle.std.specs.Prelude.{◌≡◌};
    ghost use Rattle.core_events.specs.declared.stop.StepStop.TheVariants.{Memory};

    ghost from_gives = { λ _ stop. stop ≡ Memory };

    fn from(_error: OutOfMemory) -> StepStop {
        StepStop::Memory
    }
}
