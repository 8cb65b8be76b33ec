//! Why a text gave no framework.

ghost use Rattle.std.specs.Prelude.{◌≡◌};
ghost use Rattle.apx_tgf.specs.Faults.{cause_name};

use lists::Memory;
use thiserror::Error;

/// What is wrong with a line. Where several causes stand on one line, the first of this list is told.
#[derive(Clone, Copy, Debug, PartialEq, Eq)]
pub enum NameCause {
    /// The line has no form that a line may have where it stands; in TGF a second line `#` has none.
    BadLine,
    /// With this line there are more than `semantics::MAX_ARGUMENT` names.
    TooManyArguments,
    /// With this line there are more than `af_format::MAX_ATTACK_LINES` attacks, of which a repeated one counts each
    /// time.
    TooManyLines,
    /// The line is the first with an attack of or on a name that isn't declared. This is told after the last line,
    /// where no line has another fault.
    UnknownName,
}

impl NameCause {
    /// The name of the cause, as it is printed.
    pub fn name(self) -> &'static str
        ensures { result.now ≡ cause_name self }
    {
        match self {
            NameCause::BadLine => "BadLine",
            NameCause::TooManyArguments => "TooManyArguments",
            NameCause::TooManyLines => "TooManyLines",
            NameCause::UnknownName => "UnknownName",
        }
    }
}

/// A line of a text that is wrong.
#[derive(Clone, Copy, Debug, PartialEq, Eq, Error)]
#[error("line {line} {}", .cause.name())]
pub struct NameFault {
    /// The line's number. The first line has number 1.
    pub line: usize,
    /// What is wrong with it.
    pub cause: NameCause,
}

/// Why a text gave no framework.
#[derive(Clone, Copy, Debug, PartialEq, Eq, Error)]
pub enum ReadFault {
    /// The text has a fault.
    #[error(transparent)]
    Line(NameFault),
    /// An allocation was refused, which says nothing of the text.
    #[error("Memory")]
    Memory,
}

impl From<Memory> for ReadFault {
    ghost use Rattle.apx_tgf.specs.declared.fault.ReadFault.TheVariants.{Memory as want};

    ghost from_gives = { λ _ fault. fault ≡ want };

    fn from(_memory: Memory) -> ReadFault {
        ReadFault::Memory
    }
}

impl From<NameFault> for ReadFault {
    ghost use Rattle.apx_tgf.specs.declared.fault.ReadFault.TheVariants.{Line as of_line};

    ghost from_gives = { λ line fault. fault ≡ of_line line };

    fn from(line: NameFault) -> ReadFault {
        ReadFault::Line(line)
    }
}
