//! What a query is answered with.

ghost use Rattle.std.specs.Prelude.{◌≡◌};

use certificate_claims::Certificate;
use edit_rules::QueryFault;
use iccma_tasks::Answer;
use lists::Memory as OutOfMemory;
use plain_lits::Halt;

/// An answer, the certificate that shows it, and how many units of the budget it took.
#[derive(Drop)]
pub struct Answered {
    pub answer: Answer,
    pub certificate: Certificate,
    pub units: u64,
}

/// Why a query has no answer.
#[derive(Clone, Copy, PartialEq, Eq)]
pub enum AnswerStop {
    /// The query doesn't fit the framework.
    Query(QueryFault),
    /// So many units were spent, which is the budget's limit, and a further new clause was in hand.
    Spent(u64),
    /// There are more extensions than may be listed.
    TooMany,
    /// The log had no room for a step.
    LogFull,
    /// An allocation was refused.
    Memory,
}

impl From<Halt> for AnswerStop {
    ghost use Rattle.oracle_core.specs.Answering.{stop_of};

    ghost from_gives = { λ halt stop. stop ≡ stop_of halt };

    fn from(halt: Halt) -> AnswerStop {
        match halt {
            Halt::Spent(count) => AnswerStop::Spent(count),
            Halt::LogFull => AnswerStop::LogFull,
            Halt::Memory => AnswerStop::Memory,
        }
    }
}

impl From<OutOfMemory> for AnswerStop {
    ghost use Rattle.oracle_core.specs.declared.reply.AnswerStop.TheVariants.{Memory};

    ghost from_gives = { λ _ stop. stop ≡ Memory };

    fn from(_error: OutOfMemory) -> AnswerStop {
        AnswerStop::Memory
    }
}

impl From<QueryFault> for AnswerStop {
    ghost use Rattle.oracle_core.specs.declared.reply.AnswerStop.TheVariants.{Query};

    ghost from_gives = { λ fault stop. stop ≡ Query fault };

    fn from(fault: QueryFault) -> AnswerStop {
        AnswerStop::Query(fault)
    }
}
