//! Why a text gave no framework.

ghost use Rattle.std.specs.Prelude.{◌≡◌};
ghost use Rattle.af_format.specs.Causes.{cause_name};

use lists::Memory;
use thiserror::Error;

/// What is wrong with a line. Where several causes stand on one line, the first of this list is told.
#[derive(Clone, Copy, Debug, PartialEq, Eq)]
pub enum LineCause {
    /// The first line that is not skipped doesn't begin with the field `p`. Where all lines are skipped,
    /// this is told of the line behind the last.
    NoHeader,
    /// The header's second field is that of the other kind of framework.
    WrongKind,
    /// The header is not `p`, the kind of framework and one number.
    BadHeader,
    /// A later line begins with the field `p`.
    SecondHeader,
    /// A later line has not the fields of a line of its kind: two in the text of an abstract framework; in that of an
    /// assumption-based one `a` and one more, `c` and two more, or `r` and one more at least.
    BadLine,
    /// A field of a later line that has to be a number is none.
    BadNumber,
    /// The header's number is over `semantics::MAX_ARGUMENT`, or another number is not from 1 to the header's.
    OutOfRange,
    /// The line is the 10,000,001st attack line, the 10,000,001st `c` line or the 1,000,001st rule line.
    TooManyLines,
    /// With this line some atom is an assumption and the head of a rule. This cause and those behind it stand in the
    /// text of an assumption-based framework alone.
    NotFlat,
    /// The line is the first that gives a contrary to an atom that is no assumption. This is told after the last line,
    /// where no line has another fault.
    ContraryOfNonAssumption,
}

impl LineCause {
    /// The name of the cause, as it is printed.
    pub fn name(self) -> &'static str
        ensures { result.now ≡ cause_name self }
    {
        match self {
            LineCause::NoHeader => "NoHeader",
            LineCause::WrongKind => "WrongKind",
            LineCause::BadHeader => "BadHeader",
            LineCause::SecondHeader => "SecondHeader",
            LineCause::BadLine => "BadLine",
            LineCause::BadNumber => "BadNumber",
            LineCause::OutOfRange => "OutOfRange",
            LineCause::TooManyLines => "TooManyLines",
            LineCause::NotFlat => "NotFlat",
            LineCause::ContraryOfNonAssumption => "ContraryOfNonAssumption",
        }
    }
}

/// A line of a text that is wrong.
#[derive(Clone, Copy, Debug, PartialEq, Eq, Error)]
#[error("line {line} {}", .cause.name())]
pub struct LineFault {
    /// The line's number. The first line has number 1.
    pub line: usize,
    /// What is wrong with it.
    pub cause: LineCause,
}

/// Why a text gave no framework.
#[derive(Clone, Copy, Debug, PartialEq, Eq, Error)]
pub enum ReadFault {
    /// The text has a fault.
    #[error(transparent)]
    Line(LineFault),
    /// An allocation was refused, which says nothing of the text.
    #[error("Memory")]
    Memory,
}

impl From<Memory> for ReadFault {
    ghost use Rattle.af_format.specs.declared.fault.ReadFault.TheVariants.{Memory as want};

    ghost from_gives = { λ _ fault. fault ≡ want };

    fn from(_memory: Memory) -> ReadFault {
        ReadFault::Memory
    }
}

impl From<LineFault> for ReadFault {
    ghost use Rattle.af_format.specs.declared.fault.ReadFault.TheVariants.{Line as of_line};

    ghost from_gives = { λ line fault. fault ≡ of_line line };

    fn from(line: LineFault) -> ReadFault {
        ReadFault::Line(line)
    }
}
