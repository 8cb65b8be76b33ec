//! Why a text is no answer.

ghost use Rattle.std.specs.Prelude.{◌≡◌};
ghost use Rattle.iccma_tasks.specs.Names.{cause_name};

use lists::Memory;
use std::alloc::{AllocError, AllocFailed};
use thiserror::Error;

/// What is wrong with a line. Of several at one line the first of this order is told.
#[derive(Clone, Copy, Debug, PartialEq, Eq)]
pub enum AnswerCause {
    /// All lines are skipped.
    Empty,
    /// The line has no form that is open here.
    BadLine,
    /// A field that must be a number from 1 to `semantics::MAX_ARGUMENT` is none.
    BadNumber,
    /// The numbers of a set don't rise.
    NotRising,
}

/// Why a text is no answer, or could not be read.
#[derive(Clone, Copy, Debug, PartialEq, Eq, Error)]
pub enum AnswerFault {
    /// The first line with a fault, counted from 1 with the skipped lines; for `Empty` the number of
    /// lines plus one.
    #[error("line {line}: {}", cause.name())]
    At {
        /// The line's number.
        line: usize,
        /// What is wrong with it.
        cause: AnswerCause,
    },
    /// An allocation was refused. It says nothing of the text.
    #[error("out of memory")]
    Memory,
}

impl AnswerCause {
    /// The name of the cause, as it is printed.
    pub fn name(self) -> &'static str
        ensures { result.now ≡ cause_name self }
    {
        match self {
            AnswerCause::Empty => "Empty",
            AnswerCause::BadLine => "BadLine",
            AnswerCause::BadNumber => "BadNumber",
            AnswerCause::NotRising => "NotRising",
        }
    }
}

impl From<Memory> for AnswerFault {
    ghost use Rattle.std.specs.Prelude.{◌≡◌};
    ghost use Rattle.iccma_tasks.specs.declared.fault.AnswerFault.{AnswerFault};

    ghost from_gives = { λ _ fault. fault ≡ AnswerFault.Memory };

    fn from(_error: Memory) -> AnswerFault {
        AnswerFault::Memory
    }
}

impl From<AllocError> for AnswerFault {
    ghost use Rattle.std.specs.Prelude.{◌≡◌};
    ghost use Rattle.iccma_tasks.specs.declared.fault.AnswerFault.{AnswerFault};

    ghost from_gives = { λ _ fault. fault ≡ AnswerFault.Memory };

    fn from(_error: AllocError) -> AnswerFault {
        AnswerFault::Memory
    }
}

impl<T: Drop> From<AllocFailed<T>> for AnswerFault {
    ghost use Rattle.std.specs.Prelude.{◌≡◌};
    ghost use Rattle.iccma_tasks.specs.declared.fault.AnswerFault.{AnswerFault};

    ghost from_gives = { λ _ fault. fault ≡ AnswerFault.Memory };

    fn from(_error: AllocFailed<T>) -> AnswerFault {
        AnswerFault::Memory
    }
}
