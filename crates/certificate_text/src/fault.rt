//! Why a text is no certificate.

ghost use Rattle.std.specs.Prelude.{◌≡◌};
ghost use Rattle.certificate_text.specs.Names.{cause_name};

use lists::Memory;
use std::alloc::{AllocError, AllocFailed};
use thiserror::Error;

/// What is wrong with a line. Of several at one line the first of this list is told, and behind the line `end` there is
/// `AfterEnd` alone.
#[derive(Clone, Copy, Debug, PartialEq, Eq)]
pub enum CertCause {
    /// The first line that is not skipped isn't `cert 1`. Where all lines are skipped, this is told of the line behind
    /// the last.
    NoHeader,
    /// The first field is not open here, `r` or `end` has further fields, `s` has not one further field, `d` has none
    /// that is `0`, or `a` has none.
    BadLine,
    /// A field of `w`, of `s` or of the hints is no number, a number of `w` is not from 1 to
    /// `semantics::MAX_ARGUMENT`, or that of `s` or a hint is 0.
    BadNumber,
    /// The numbers of `w` don't rise.
    NotRising,
    /// A field of `d` before its first `0` is no literal whose numbers are within their bounds.
    BadAtom,
    /// There is no axiom of this name, or the arguments don't fit it.
    BadAxiom,
    /// The lines end before `end`. This is told of the line behind the last.
    NoEnd,
    /// The line follows `end`.
    AfterEnd,
}

/// Why a text is no certificate, or could not be read.
#[derive(Clone, Copy, Debug, PartialEq, Eq, Error)]
pub enum CertFault {
    /// The first line with a fault, counted from 1 with the skipped lines.
    #[error("line {line}: {}", cause.name())]
    At {
        /// The line's number.
        line: usize,
        /// What is wrong with it.
        cause: CertCause,
    },
    /// An allocation was refused. It says nothing of the text.
    #[error("out of memory")]
    Memory,
}

impl CertCause {
    /// The name of the cause, as it is printed.
    pub fn name(self) -> &'static str
        ensures { result.now ≡ cause_name self }
    {
        match self {
            CertCause::NoHeader => "NoHeader",
            CertCause::BadLine => "BadLine",
            CertCause::BadNumber => "BadNumber",
            CertCause::NotRising => "NotRising",
            CertCause::BadAtom => "BadAtom",
            CertCause::BadAxiom => "BadAxiom",
            CertCause::NoEnd => "NoEnd",
            CertCause::AfterEnd => "AfterEnd",
        }
    }
}

impl From<Memory> for CertFault {
    ghost use Rattle.certificate_text.specs.declared.fault.CertFault.{CertFault};

    ghost from_gives = { λ _ fault. fault ≡ CertFault.Memory };

    fn from(_error: Memory) -> CertFault {
        CertFault::Memory
    }
}

impl From<AllocError> for CertFault {
    ghost use Rattle.certificate_text.specs.declared.fault.CertFault.{CertFault};

    ghost from_gives = { λ _ fault. fault ≡ CertFault.Memory };

    fn from(_error: AllocError) -> CertFault {
        CertFault::Memory
    }
}

impl<T: Drop> From<AllocFailed<T>> for CertFault {
    ghost use Rattle.certificate_text.specs.declared.fault.CertFault.{CertFault};

    ghost from_gives = { λ _ fault. fault ≡ CertFault.Memory };

    fn from(_error: AllocFailed<T>) -> CertFault {
        CertFault::Memory
    }
}
