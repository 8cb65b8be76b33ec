//! The answer to a query by names on the framework in a file.

ghost use Rattle.std.specs.Prelude.{◌≡◌, ◌≤◌, length, IfErr, IfOk, IsErrOf, IsSome, true};
ghost use Rattle.std.specs.Option.{option_map};
ghost use Rattle.argue_outside.specs.Outside.{OtherCountsKept};
ghost use Rattle.num_text.specs.declared.limit.TheConstants.{MAX_INPUT};
ghost use Rattle.semantics.specs.declared.argument.TheConstants.{MAX_ARGUMENT};
ghost use Rattle.semantics.specs.Frameworks.{af};
ghost use Rattle.iccma_tasks.specs.Tasks.{FitsTask};
ghost use Rattle.argue_words.specs.Words.{names_texts};
ghost use Rattle.argue_commands.specs.Inputs.{reading};
ghost use Rattle.argue_commands.specs.Solves.{IsSessionOf};
ghost use Rattle.argue_commands.specs.Texts.{common_text};
ghost use Rattle.named_commands.specs.NamedTexts.{named_reply};
ghost use Rattle.named_commands.specs.Namings.{AnswersNamed, AnswersNamedFile, EndsNaming, IsNumberAsked, IsUnknown};
ghost use Rattle.named_commands.specs.Namings.{StopsNaming, fits_name, names_status};

use crate::naming::Naming;
use crate::texts::reply_text;
use apx_tgf::{NamedAf, Names, ReadFault, read_named};
use argue_commands::input::read_input;
use argue_commands::query::Solving;
use argue_commands::solving::answer;
use argue_commands::{FaultCause, KeptSession, Refusal, Status};
use argue_outside::{Files, Role};
use argue_words::NamesWords;
use dung_notions::AfPlain;
use edit_rules::Framework;
use iccma_tasks::{Query, Task};
use lists::{Bytes, Memory};
use std::alloc::Global;

/// The session of a query by names, and the text of its answer by names: no bytes where it has no answer.
#[derive(Drop)]
pub struct NamedSession {
    pub session: KeptSession,
    pub text: Bytes,
}

/// The status of a run whose framework with names has this fault.
pub(crate) fn names_refused(fault: ReadFault) -> Status
    ensures { result ≡ names_status fault }
{
    match fault {
        ReadFault::Line(fault) => Status::InputRefused(Refusal::Line(
            Role::Framework(1),
            fault.line,
            FaultCause::Name(fault.cause),
        )),
        ReadFault::Memory => Status::WantOfMemory,
    }
}

// The number of the argument that is asked about, where one is.
fn number_asked(names: &Names<'_>, name: Option<&str>) -> Result<Option<u32>, Status>
    requires { length names.now ≤ MAX_ARGUMENT }
    ensures ok { IfOk result (IsNumberAsked names.now (option_map (λ text. text.now) name.entry)) }
    ensures err { IfErr result (IsUnknown names.now (option_map (λ text. text.now) name.entry)) }
{
    let Some(name) = name else {
        return Ok(None);
    };
    match names.number_of(name.as_bytes()) {
        Some(number) => Ok(Some(number as u32)),
        None => Err(Status::InputRefused(Refusal::UnknownName)),
    }
}

// The query of a task and a number, where the task wants what is given.
fn query_with(task: Task, number: Option<u32>) -> Query
    requires { FitsTask task.problem number }
    ensures { result ≡ record { task = task; number = number } }
{
    match Query::new(task, number) {
        Some(query) => query,
        None => unreachable!(),
    }
}

// The session of a query of numbers, and the text of its answer by names.
fn answered(
    alloc: Global,
    names: &Names<'_>,
    framework: AfPlain,
    solving: &Solving,
) -> Result<NamedSession, Memory>
    ensures session { IfOk result (λ s. IsSessionOf (af framework) solving.now s.session) }
    ensures text { IfOk result (λ s. s.text ≡ named_reply names.now s.session.reply) }
{
    let session = answer(alloc, Framework::Af(framework), solving)?;
    let text = reply_text(alloc, names, &session.reply)?;
    Ok(NamedSession { session, text })
}

// The session of a query by names on the framework that a text describes.
fn solve_text(
    alloc: Global,
    bytes: &[u8],
    naming: &Naming,
    name: Option<&str>,
) -> Result<NamedSession, Status>
    requires within { length bytes.now ≤ MAX_INPUT }
    requires fits { fits_name naming.now.task.problem (option_map (λ text. text.now) name) ≡ true }
    ensures ok { IfOk result (λ s. AnswersNamed bytes.now naming.now (option_map (λ text. text.now) name.entry)
        s.session s.text) }
    ensures err { IfErr result
        (StopsNaming bytes.now naming.now (option_map (λ text. text.now) name.entry)) }
{
    let named = match read_named(alloc, naming.format, bytes) {
        Ok(named) => named,
        Err(fault) => return Err(names_refused(fault)),
    };
    let number = match number_asked(&named.names, name) {
        Ok(number) => number,
        Err(end) => return Err(end),
    };
    let solving = Solving {
        query: query_with(naming.task, number),
        budget: naming.budget,
    };
    let NamedAf { names, framework } = named;
    match answered(alloc, &names, framework, &solving) {
        Ok(session) => Ok(session),
        Err(Memory) => Err(Status::WantOfMemory),
    }
}

/// The session of a query by names on the framework in a file, with the text of its answer, or the status of the run that
/// stops before.
pub fn solve_names<F: Files>(
    alloc: Global,
    files: &mut F,
    naming: &Naming,
    words: &NamesWords<'_>,
) -> Result<NamedSession, Status>
    requires { fits_name naming.now.task.problem (names_texts words.now).name ≡ true }
    ensures ok { IfOk result (λ s. AnswersNamedFile (F.holds files.old words.now.file.now) naming.now
        (names_texts words.now).name s.session s.text) }
    ensures err { IfErr result (EndsNaming (reading F.Files files.old files.new) naming.now (names_texts words.now)) }
    ensures told { IfErr result (λ end. IsSome (common_text end)) }
    ensures quiet { (IsErrOf result (Status.ReadFault (Role.Framework 1)) → ⊥)
        → F.read_count files.new ≡ F.read_count files.old }
    ensures others { OtherCountsKept (Role.Framework 1) (F.read_count files.old) (F.read_count files.new) }
    ensures same { F.holds files.new ≡ F.holds files.old }
    ensures writes { F.write_count files.new ≡ F.write_count files.old }
{
    let bytes = match read_input(alloc, files, Role::Framework(1), words.file) {
        Ok(bytes) => bytes,
        Err(end) => return Err(end),
    };
    solve_text(alloc, bytes.as_slice(), naming, words.name)
}
