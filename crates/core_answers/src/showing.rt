//! Whether a log shows an answer.

ghost use Rattle.std.specs.Prelude.{◌≡◌, ◌↔◌, ◌<◌, ℕ, List, [], ◌∷◌, length, slice_index_or, IfOk, IsTrue};
ghost use Rattle.semantics.specs.Laws.{HasSameMembers};
ghost use Rattle.semantics.specs.Sets.{IsListed};
ghost use Rattle.iccma_tasks.specs.declared.answer.Answer.TheVariants.{Sets};
ghost use Rattle.iccma_tasks.specs.declared.task.Problem.TheVariants.{AllExtensions};
ghost use Rattle.certificate_claims.specs.Acceptance.{Tests, no_claim};
ghost use Rattle.certificate_claims.specs.Claims.{row_of, sets_of};
ghost use Rattle.certificate_claims.specs.Refutations.{Claim as TableClaim};
ghost use Rattle.edit_rules.specs.Kinds.{framework_of};
ghost use Rattle.session_log.specs.Ends.{AreDifferent, AreTooMany, HasRefuting, IsShownBy, some_asked};
ghost use Rattle.answer_claims.specs.ClaimParts.{AreClaims};
ghost use Rattle.core_answers.specs.Showing.{ShowAlone, is_past_tests};

use crate::refuting::is_refuted;
use answer_claims::{Claim, claims_of, row};
use certificate_check::check;
use certificate_claims::{Cause, Certificate, Verdict};
use core_logs::CoreLog;
use edit_rules::Framework;
use iccma_tasks::{Answer, Problem, Query, Semantics, Task};
use lists::{Items, Memory};
use set_lists::NumSet;
use std::alloc::Global;

/// The same sets again.
fn copies(alloc: Global, sets: &[NumSet]) -> Result<Items<NumSet>, Memory>
    ensures { IfOk result (λ copies. copies ≡ sets.now) }
{
    let mut copies = Items::new(alloc);
    for set in sets {
        copies.push(set.copy(alloc)?)?;
    }
    Ok(copies)
}

/// Whether a verdict is told of no direct test: these come before the number of refutations.
fn is_past_tests(verdict: Verdict) -> bool
    ensures { result ≡ is_past_tests verdict }
{
    matches!(
        verdict,
        Verdict::Accepted | Verdict::Rejected(Cause::RefutationCount, _, _)
    )
}

/// Whether the direct tests of an answer and of its certificate's sets pass. The check of a certificate without
/// refutations tells.
fn pass_tests(
    alloc: Global,
    framework: &Framework,
    query: &Query,
    answer: &Answer,
    sets: &[NumSet],
) -> Result<bool, Memory>
    ensures { IfOk result (λ pass. IsTrue pass ↔ Tests (framework_of framework.now) query.now
        (row_of (framework_of framework.now) query.now answer.now) (sets_of answer.now) sets.now) }
{
    let certificate = Certificate {
        sets: copies(alloc, sets)?,
        refutations: Items::new(alloc),
    };
    let verdict = check(alloc, framework, query, answer, &certificate)?;
    Ok(is_past_tests(verdict))
}

/// Whether steps of a log refute all claims.
fn are_refuted(
    alloc: Global,
    framework: &Framework,
    log: &CoreLog,
    claims: &[Claim],
) -> Result<bool, Memory>
    ensures { IfOk result (λ are. (list : List TableClaim) → AreClaims (framework_of framework.now) claims.now list
        → IsTrue are ↔ ((k : ℕ) → k < length list
        → HasRefuting (framework_of framework.now) log.now (slice_index_or list k no_claim))) }
{
    for index in 0..claims.len() {
        let refuted = is_refuted(alloc, framework, log, &claims[index])?;
        if !refuted {
            return Ok(false);
        }
    }
    Ok(true)
}

/// Whether a log shows an answer with its certificate's sets: the direct tests pass, and steps refute the claims.
pub(crate) fn is_shown(
    alloc: Global,
    framework: &Framework,
    query: &Query,
    answer: &Answer,
    sets: &[NumSet],
    log: &CoreLog,
) -> Result<bool, Memory>
    ensures { IfOk result (λ is. IsTrue is
        ↔ IsShownBy (framework_of framework.now) query.now answer.now sets.now log.now) }
{
    let pass = pass_tests(alloc, framework, query, answer, sets)?;
    if !pass {
        return Ok(false);
    }
    let row = row(alloc, framework, query, answer)?;
    let claims = claims_of(alloc, framework, &row, sets)?;
    let refuted = are_refuted(alloc, framework, log, claims.as_slice())?;
    Ok(refuted)
}

/// Whether a log shows a set as an answer to the query for one extension.
fn shows_alone(
    alloc: Global,
    framework: &Framework,
    semantics: Semantics,
    set: &NumSet,
    log: &CoreLog,
) -> Result<bool, Memory>
    ensures { IfOk result (λ shows. IsTrue shows
        ↔ IsShownBy (framework_of framework.now) (some_asked semantics) (Sets (set.now ∷ [])) [] log.now) }
{
    let task = Task {
        problem: Problem::SomeExtension,
        semantics,
    };
    match Query::new(task, None) {
        None => Ok(false),
        Some(query) => {
            let mut one = Items::new(alloc);
            one.push(set.copy(alloc)?)?;
            let answer = Answer::Sets(one);
            Ok(is_shown(alloc, framework, &query, &answer, &[], log)?)
        }
    }
}

/// Whether it does so of each of the sets.
fn show_alone(
    alloc: Global,
    framework: &Framework,
    semantics: Semantics,
    sets: &[NumSet],
    log: &CoreLog,
) -> Result<bool, Memory>
    ensures { IfOk result (λ show. IsTrue show ↔ ShowAlone (framework_of framework.now) semantics log.now sets.now) }
{
    for index in 0..sets.len() {
        let shows = shows_alone(alloc, framework, semantics, &sets[index], log)?;
        if !shows {
            return Ok(false);
        }
    }
    Ok(true)
}

/// Whether two sets have the same members.
fn is_same(set: &NumSet, other: &NumSet) -> bool
    ensures { IsTrue result ↔ HasSameMembers set.now other.now }
{
    set.within(other) && other.within(set)
}

/// Whether one of the sets has the same members as a set.
fn is_listed(sets: &[NumSet], set: &NumSet) -> bool
    ensures { IsTrue result ↔ IsListed sets.now set.now }
{
    sets.iter().any(|other| is_same(other, set))
}

/// Whether no two of the sets have the same members. It compares each two of them.
fn they_differ(sets: &[NumSet]) -> bool
    ensures { IsTrue result ↔ AreDifferent sets.now }
{
    for index in 0..sets.len() {
        let again = is_listed(&sets[..index], &sets[index]);
        if again {
            return false;
        }
    }
    true
}

/// Whether a task asks for all extensions.
fn asks_for_all(task: Task) -> bool
    ensures { IsTrue result ↔ (task.problem ≡ AllExtensions) }
{
    matches!(task.problem, Problem::AllExtensions)
}

/// Whether a query asks for all extensions, and the sets are more than so many different ones, each shown as an answer
/// to the query for one.
pub(crate) fn are_too_many(
    alloc: Global,
    framework: &Framework,
    query: &Query,
    most: u32,
    sets: &[NumSet],
    log: &CoreLog,
) -> Result<bool, Memory>
    ensures { IfOk result (λ are. IsTrue are
        ↔ AreTooMany (framework_of framework.now) query.now most log.now sets.now) }
{
    let task = query.task();
    if !asks_for_all(task) {
        return Ok(false);
    }
    if sets.len() as u64 <= most as u64 {
        return Ok(false);
    }
    if !they_differ(sets) {
        return Ok(false);
    }
    let show = show_alone(alloc, framework, task.semantics, sets, log)?;
    Ok(show)
}
