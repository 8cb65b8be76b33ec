//! Why a text gave no script.

ghost use Rattle.std.specs.Prelude.{◌≡◌};
ghost use Rattle.script_text.specs.ScriptFaults.{cause_name};

use lists::Memory;
use thiserror::Error;

/// What is wrong with a line. Where several causes stand on one line, the first of this list is told.
#[derive(Clone, Copy, Debug, PartialEq, Eq)]
pub enum ScriptCause {
    /// The first field is no number from 1 to 8.
    BadSession,
    /// The fields behind it begin with the name of no command, or too many or too few fields follow the name, or `ask`
    /// or `begin` stands inside a group of the session, or `end` outside one, or `use` behind a line of the session.
    BadCommand,
    /// What is asked is no task's name.
    BadTask,
    /// A field that must be a number is none.
    BadNumber,
    /// The task asks about a number that isn't there, or a number is there that it doesn't ask about.
    BadQuery,
    /// A group is open behind the last line. It is told at the number of lines plus one.
    OpenGroup,
    /// A group has an edit more than it may have: it is told at that edit.
    GroupTooLong,
    /// A group has no edit: it is told at its end.
    EmptyGroup,
    /// The framework that a session uses is none of those that there are.
    BadFramework,
}

impl ScriptCause {
    /// The name of the cause, as it is printed.
    pub fn name(self) -> &'static str
        ensures { result.now ≡ cause_name self }
    {
        match self {
            ScriptCause::BadSession => "BadSession",
            ScriptCause::BadCommand => "BadCommand",
            ScriptCause::BadTask => "BadTask",
            ScriptCause::BadNumber => "BadNumber",
            ScriptCause::BadQuery => "BadQuery",
            ScriptCause::OpenGroup => "OpenGroup",
            ScriptCause::GroupTooLong => "GroupTooLong",
            ScriptCause::EmptyGroup => "EmptyGroup",
            ScriptCause::BadFramework => "BadFramework",
        }
    }
}

/// Why a text gave no script.
#[derive(Clone, Copy, Debug, PartialEq, Eq, Error)]
pub enum ScriptFault {
    /// The line of that number, counted from 1, is wrong.
    #[error("line {line} {}", .cause.name())]
    At {
        /// The line's number.
        line: usize,
        /// What is wrong with it.
        cause: ScriptCause,
    },
    /// An allocation was refused, which says nothing of the text.
    #[error("Memory")]
    Memory,
}

impl From<Memory> for ScriptFault {
    ghost use Rattle.script_text.specs.declared.fault.ScriptFault.TheVariants.{Memory as want};

    ghost from_gives = { λ _ fault. fault ≡ want };

    fn from(_memory: Memory) -> ScriptFault {
        ScriptFault::Memory
    }
}

/// Why a line gave no command.
#[derive(Clone, Copy, PartialEq, Eq)]
pub(crate) enum LineStop {
    /// The line is wrong.
    Wrong(ScriptCause),
    /// An allocation was refused.
    Memory,
}

impl From<Memory> for LineStop {
    ghost use Rattle.script_text.specs.declared.fault.LineStop.TheVariants.{Memory as want};

    ghost from_gives = { λ _ halt. halt ≡ want };

    fn from(_memory: Memory) -> LineStop {
        LineStop::Memory
    }
}

impl From<ScriptCause> for LineStop {
    ghost use Rattle.script_text.specs.declared.fault.LineStop.TheVariants.{Wrong};

    ghost from_gives = { λ cause halt. halt ≡ Wrong cause };

    fn from(cause: ScriptCause) -> LineStop {
        LineStop::Wrong(cause)
    }
}
