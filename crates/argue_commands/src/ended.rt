//! How a run ends, and what the session of a query keeps.

ghost use Rattle.std.specs.Prelude.{◌≡◌};
ghost use Rattle.argue_commands.specs.Statuses.{code_of};

use af_format::LineCause;
use apx_tgf::NameCause;
use argue_outside::Role;
use certificate_claims::Cause as Failure;
use certificate_text::CertCause;
use edit_rules::QueryFault;
use iccma_tasks::AnswerCause;
use lrat_text::{CnfCause, LratCause};
use oracle_core::{AnswerStop, Answered, Engine};
use script_text::ScriptCause;

/// What is wrong with a line of an input: a variant for each kind of text.
#[derive(Clone, Copy)]
pub enum FaultCause {
    /// A line of a framework.
    Framework(LineCause),
    /// A line of a script.
    Script(ScriptCause),
    /// A line of an answer.
    Answer(AnswerCause),
    /// A line of a certificate.
    Certificate(CertCause),
    /// A line of a framework whose arguments have names.
    Name(NameCause),
    /// A line of a CNF.
    Cnf(CnfCause),
    /// A line of a refutation in the format LRAT.
    Lrat(LratCause),
}

/// Why an input is refused.
#[derive(Clone, Copy)]
pub enum Refusal {
    /// The text read in this role has its first fault at this line, counted from 1.
    Line(Role, usize, FaultCause),
    /// The query doesn't fit the framework.
    Query(QueryFault),
    /// No argument has the name that the query asks about.
    UnknownName,
    /// The certificate has no refutation of this number, counted from 1.
    NoRefutation(u32),
}

/// Why what was to be checked isn't accepted.
#[derive(Clone, Copy)]
pub enum Rejection {
    /// The certificate isn't accepted for the answer: why, and the numbers of the refutation and of the step or the set.
    Certificate(Failure, usize, usize),
    /// The line of a refutation that has this id fails, and no line before it does.
    Step(u32),
    /// All lines of a refutation pass, and each has a literal.
    NoEmptyClause,
}

/// Which bound was met.
#[derive(Clone, Copy)]
pub enum Limit {
    /// An input has more than `MAX_INPUT` bytes.
    Input,
    /// There are more than `MAX_EXTENSIONS` extensions.
    Extensions,
    /// The log of the search has `LOG_LIMIT` steps.
    Log,
}

/// How a run ended, as its exit status says it.
#[derive(Clone, Copy)]
pub enum Status {
    /// The query got its answer, or each line of a script its reply, and all output was taken.
    Done,
    /// The words aren't well-formed.
    Usage,
    /// An input is refused.
    InputRefused(Refusal),
    /// The file that is read in this role couldn't be read.
    ReadFault(Role),
    /// The output wasn't taken whole.
    WriteFault,
    /// Memory was refused.
    WantOfMemory,
    /// The budget of new clauses was spent.
    Unknown,
    /// A bound was met.
    Limit(Limit),
    /// A certificate or a refutation isn't accepted.
    Rejected(Rejection),
}

impl Status {
    /// The exit status of the process.
    pub fn code(self) -> u8
        ensures { result ≡ code_of self }
    {
        match self {
            Status::Done => 0,
            Status::Usage => 1,
            Status::InputRefused(_) => 2,
            Status::ReadFault(_) => 3,
            Status::WriteFault => 4,
            Status::WantOfMemory => 5,
            Status::Unknown => 6,
            Status::Limit(_) => 7,
            Status::Rejected(_) => 8,
        }
    }
}

/// What a session keeps: the answer to its query with the certificate, or why there is none; and its engine, which
/// means the log of what was added for the query, the side clauses with their sets, and the clause that was in hand
/// when the budget was spent.
#[derive(Drop)]
pub struct KeptSession {
    pub reply: Result<Answered, AnswerStop>,
    pub engine: Engine,
}
