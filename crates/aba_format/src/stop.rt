//! Why reading stops at a line.

ghost use Rattle.std.specs.Prelude.{◌≡◌};

use af_format::LineCause;
use lists::Memory;
use std::alloc::AllocFailed;

/// Why reading stops at a line.
#[derive(Clone, Copy, PartialEq, Eq)]
pub(crate) enum LineStop {
    /// The line has a fault.
    Cause(LineCause),
    /// An allocation was refused, which says nothing of the line.
    Memory,
}

impl From<Memory> for LineStop {
    ghost use Rattle.aba_format.specs.declared.stop.LineStop.TheVariants.{Memory as want};

    ghost from_gives = { λ _ stop. stop ≡ want };

    fn from(_memory: Memory) -> LineStop {
        LineStop::Memory
    }
}

impl From<LineCause> for LineStop {
    ghost use Rattle.aba_format.specs.declared.stop.LineStop.TheVariants.{Cause as of_cause};

    ghost from_gives = { λ cause stop. stop ≡ of_cause cause };

    fn from(cause: LineCause) -> LineStop {
        LineStop::Cause(cause)
    }
}

impl<T: Drop> From<AllocFailed<T>> for LineStop {
    ghost use Rattle.aba_format.specs.declared.stop.LineStop.TheVariants.{Memory as want};

    ghost from_gives = { λ _ stop. stop ≡ want };

    fn from(_error: AllocFailed<T>) -> LineStop {
        LineStop::Memory
    }
}
