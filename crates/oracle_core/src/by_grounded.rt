//! The queries that the grounded set answers.

ghost use Rattle.std.specs.Prelude.{◌≡◌, ◌↔◌, [], ◌∷◌, IfOk, IfSome, IsNone, Some, false};
ghost use Rattle.certificate_claims.specs.Rights.{IsExtension};
ghost use Rattle.iccma_tasks.specs.Tasks.{FitsTask};
ghost use Rattle.edit_rules.specs.Kinds.{framework_of};
ghost use Rattle.oracle_core.specs.Answers.{IsAnswerBy, IsShownBy, answer_by, no_certificate};
ghost use Rattle.oracle_face.specs.Logs.{OracleLog};
ghost use Rattle.session_log.specs.Ends as ends;
ghost use Rattle.session_log.specs.Ends.{IsShownBy as IsShownByLog};

use crate::reply::Answered;
use certificate_claims::Certificate;
use edit_rules::Framework;
use framework_solver::kinds::accepts;
use iccma_tasks::{Answer, Problem, Query, Semantics, Task};
use lists::{Items, Memory};
use set_lists::NumSet;
use std::alloc::Global;

/// Whether the grounded set answers a task: those of the grounded semantics, whether all complete sets accept an argument,
/// and some complete set.
pub fn is_by_grounded(task: Task) -> bool
    ensures { result ≡ ends.is_by_grounded task.problem task.semantics }
{
    match (task.problem, task.semantics) {
        (Problem::AllExtensions, _) => false,
        (_, Semantics::Grounded) => true,
        (Problem::Sceptical | Problem::SomeExtension, Semantics::Complete) => true,
        _ => false,
    }
}

/// The grounded set of a framework.
fn grounded_set(alloc: Global, framework: &Framework) -> Result<NumSet, Memory>
    ensures { IfOk result (IsExtension (framework_of framework.now) Semantics.Grounded) }
{
    match framework {
        Framework::Af(plain) => {
            let grounded = plain.grounded(alloc)?;
            Ok(grounded.set)
        }
        Framework::Aba(plain) => plain.grounded(alloc),
    }
}

/// The list of one set.
fn alone(alloc: Global, set: NumSet) -> Result<Answer, Memory>
    ensures { IfOk result (λ answer. answer ≡ Answer.Sets (set ∷ [])) }
{
    let mut sets = Items::new(alloc);
    sets.push(set)?;
    Ok(Answer::Sets(sets))
}

/// The answer by the grounded set, which accepts a number or doesn't, to whether all extensions accept it.
fn sceptical(grounded: NumSet, number: u32, accepted: bool) -> Answer
    ensures { result ≡ answer_by Problem.Sceptical (Some number) accepted grounded }
{
    if accepted {
        return Answer::Yes(None);
    }
    Answer::No(Some(grounded))
}

/// The answer by the grounded set, which accepts a number or doesn't, to whether some extension accepts it.
fn credulous(grounded: NumSet, number: u32, accepted: bool) -> Answer
    ensures { result ≡ answer_by Problem.Credulous (Some number) accepted grounded }
{
    if accepted {
        return Answer::Yes(Some(grounded));
    }
    Answer::No(None)
}

/// The answer by the grounded set.
fn answer_of(
    alloc: Global,
    framework: &Framework,
    problem: Problem,
    number: Option<u32>,
    grounded: NumSet,
) -> Result<Answer, Memory>
    requires { FitsTask problem number }
    ensures { IfOk result (IsAnswerBy (framework_of framework.now) problem number grounded) }
{
    match (problem, number) {
        (Problem::Credulous, Some(number)) => {
            let accepted = accepts(alloc, framework, number, &grounded)?;
            Ok(credulous(grounded, number, accepted))
        }
        (Problem::Sceptical, Some(number)) => {
            let accepted = accepts(alloc, framework, number, &grounded)?;
            Ok(sceptical(grounded, number, accepted))
        }
        _ => alone(alloc, grounded),
    }
}

/// The answer of the queries that need no search: those of the grounded semantics, whether all complete sets accept an
/// argument, and some complete set. None exactly for the others. The certificate is empty, and no unit is taken. Time
/// and memory are linear in the framework; `Memory` says that an allocation was refused.
pub fn answer_by_grounded(
    alloc: Global,
    framework: &Framework,
    query: &Query,
) -> Result<Option<Answered>, Memory>
    ensures shown { IfOk result (λ found. IfSome found (λ a. IsShownBy (framework_of framework.now) query.now a.answer
        a.certificate)) }
    ensures units { IfOk result (λ found. IfSome found (λ a. a.units ≡ 0)) }
    ensures empty { IfOk result (λ found. IfSome found (λ a. a.certificate.refutations ≡ [])) }
    ensures by_log { IfOk result (λ found. IfSome found (λ a. (log : OracleLog)
        → IsShownByLog (framework_of framework.now) query.now a.answer a.certificate.sets log)) }
    ensures others { IfOk result (λ found. IsNone found
        ↔ (ends.is_by_grounded query.now.task.problem query.now.task.semantics ≡ false)) }
{
    let task = query.task();
    let answered = is_by_grounded(task);
    if !answered {
        return Ok(None);
    }
    let _form = framework.kind();
    let grounded = grounded_set(alloc, framework)?;
    let answer = answer_of(alloc, framework, task.problem, query.number(), grounded)?;
    let certificate = Certificate {
        sets: Items::new(alloc),
        refutations: Items::new(alloc),
    };
    Ok(Some(Answered {
        answer,
        certificate,
        units: 0,
    }))
}
