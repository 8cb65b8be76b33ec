//! Why a log takes no further step.

use lists::Memory as OutOfMemory;

/// Why a step wasn't added: the log is full, the check of the hints failed at a place, or memory was refused.
/// The log is as before then.
#[derive(Clone, Copy, Debug, PartialEq, Eq)]
pub enum LogFault {
    LogFull,
    Rejected(u64),
    Memory,
}

impl From<OutOfMemory> for LogFault {
    ghost use Rattle.std.specs.Prelude.{◌≡◌};
    ghost use Rattle.hinted_log.specs.declared.fault.LogFault.TheVariants.{Memory};

    ghost from_gives = { λ _ fault. fault ≡ Memory };

    fn from(_error: OutOfMemory) -> LogFault {
        LogFault::Memory
    }
}
