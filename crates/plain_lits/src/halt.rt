//! Why a search stopped without an answer.

use lists::Memory as OutOfMemory;

/// Why a search stopped: the budget was spent at a number of units, the log was full, or memory was refused.
#[derive(Clone, Copy, Debug, PartialEq, Eq)]
pub enum Halt {
    Spent(u64),
    LogFull,
    Memory,
}

impl From<OutOfMemory> for Halt {
    ghost use Rattle.std.specs.Prelude.{◌≡◌};
    ghost use Rattle.plain_lits.specs.declared.halt.Halt.TheVariants.{Memory};

    ghost from_gives = { λ _ halt. halt ≡ Memory };

    fn from(_error: OutOfMemory) -> Halt {
        Halt::Memory
    }
}
