//! Why a text is no CNF, or no LRAT.

ghost use Rattle.std.specs.Prelude.{◌≡◌};
ghost use Rattle.lrat_text.specs.Causes.{cnf_cause_name, lrat_cause_name};

use lists::Memory;
use std::alloc::{AllocError, AllocFailed};
use thiserror::Error;

/// What is wrong with a line of a CNF. Of several causes at one line the first of this list is told.
#[derive(Clone, Copy, Debug, PartialEq, Eq)]
pub enum CnfCause {
    /// The first line that is not skipped doesn't begin with the field `p`. Where all lines are skipped, this is told of
    /// the line behind the last.
    NoHeader,
    /// The header is not `p cnf V C` with two numbers of at most [`crate::MAX_VARIABLE`].
    BadHeader,
    /// A field of a later line is no number with `-` before it or not.
    BadNumber,
    /// A variable is over V.
    OutOfRange,
    /// There are not C clauses, or the last one is open. This is told of the line behind the last.
    ClauseCount,
}

/// What is wrong with a line of an LRAT text. Of several causes at one line the first of this list is told.
#[derive(Clone, Copy, Debug, PartialEq, Eq)]
pub enum LratCause {
    /// The line has fewer than three fields, its last one is not `0`, or not exactly two of them are `0`.
    BadLine,
    /// The id or a hint is no number, or a literal is none with `-` before it or not.
    BadNumber,
    /// A variable is 0 or over that of the CNF's header.
    OutOfRange,
    /// The id is not above the number of clauses of the CNF, and above all ids before it.
    IdOrder,
}

/// Why a text is no CNF, or could not be read.
#[derive(Clone, Copy, Debug, PartialEq, Eq, Error)]
pub enum CnfFault {
    /// The first line with a fault, counted from 1 with the skipped lines.
    #[error("line {line}: {}", cause.name())]
    At {
        /// The line's number.
        line: usize,
        /// What is wrong with it.
        cause: CnfCause,
    },
    /// An allocation was refused. It says nothing of the text.
    #[error("out of memory")]
    Memory,
}

/// Why a text is no LRAT, or could not be read.
#[derive(Clone, Copy, Debug, PartialEq, Eq, Error)]
pub enum LratFault {
    /// The first line with a fault, counted from 1 with the skipped lines.
    #[error("line {line}: {}", cause.name())]
    At {
        /// The line's number.
        line: usize,
        /// What is wrong with it.
        cause: LratCause,
    },
    /// An allocation was refused. It says nothing of the text.
    #[error("out of memory")]
    Memory,
}

impl CnfCause {
    /// The name of the cause, as it is printed.
    pub fn name(self) -> &'static str
        ensures { result.now ≡ cnf_cause_name self }
    {
        match self {
            CnfCause::NoHeader => "NoHeader",
            CnfCause::BadHeader => "BadHeader",
            CnfCause::BadNumber => "BadNumber",
            CnfCause::OutOfRange => "OutOfRange",
            CnfCause::ClauseCount => "ClauseCount",
        }
    }
}

impl LratCause {
    /// The name of the cause, as it is printed.
    pub fn name(self) -> &'static str
        ensures { result.now ≡ lrat_cause_name self }
    {
        match self {
            LratCause::BadLine => "BadLine",
            LratCause::BadNumber => "BadNumber",
            LratCause::OutOfRange => "OutOfRange",
            LratCause::IdOrder => "IdOrder",
        }
    }
}

impl From<Memory> for CnfFault {
    ghost use Rattle.lrat_text.specs.declared.fault.CnfFault.{CnfFault};

    ghost from_gives = { λ _ fault. fault ≡ CnfFault.Memory };

    fn from(_error: Memory) -> CnfFault {
        CnfFault::Memory
    }
}

impl From<Memory> for LratFault {
    ghost use Rattle.lrat_text.specs.declared.fault.LratFault.{LratFault};

    ghost from_gives = { λ _ fault. fault ≡ LratFault.Memory };

    fn from(_error: Memory) -> LratFault {
        LratFault::Memory
    }
}
