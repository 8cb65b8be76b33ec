//! What shows an answer.

ghost use Rattle.std.specs.Prelude.{◌≡◌, [], ◌∷◌, IfOk};
ghost use Rattle.iccma_tasks.specs.declared.task.Problem.TheVariants.{Sceptical};
ghost use Rattle.query_answers.specs.Forms.{decided_evidence, evidence_of, evidence_with, ideal_answer};
ghost use Rattle.query_answers.specs.Forms.{ideal_evidence, sceptical_evidence, shown_with, shown_without};

use cegar_preferred::Accepting;
use enumerate_block::Deciding;
use iccma_tasks::{Answer, Problem};
use ideal_set::IdealSet;
use lists::{Items, Memory};
use oracle_face::{Found, StepId};
use set_lists::NumSet;
use std::alloc::Global;

/// An answer, the sets of its certificate, and for each claim of its row in the table of certificates, in order, the
/// log step that refutes it.
pub struct Evidence {
    pub answer: Answer,
    pub sets: Items<NumSet>,
    pub steps: Items<StepId>,
}

impl Drop for Evidence {
    fn drop(self) {
        let Evidence {
            answer: _,
            sets: _,
            steps: _,
        } = self;
    }
}

impl Evidence {
    /// The answer, the sets and the steps. It takes no memory.
    pub fn into_parts(self) -> (Answer, Items<NumSet>, Items<StepId>)
        ensures answer { result.0 ≡ self.answer }
        ensures sets { result.1 ≡ self.sets }
        ensures steps { result.2 ≡ self.steps }
    {
        let Evidence {
            answer,
            sets,
            steps,
        } = self;
        (answer, sets, steps)
    }
}

/// What came of a query.
#[derive(Drop)]
pub enum SearchOutcome {
    /// The answer, with what shows it.
    Shown(Evidence),
    /// There are more extensions than may be listed.
    TooMany,
}

/// The answer that a set shows.
fn with_set(alloc: Global, problem: Problem, set: NumSet) -> Result<Answer, Memory>
    ensures { IfOk result (λ answer. answer ≡ shown_with problem set) }
{
    match problem {
        Problem::Credulous => Ok(Answer::Yes(Some(set))),
        Problem::Sceptical => Ok(Answer::No(Some(set))),
        Problem::SomeExtension | Problem::AllExtensions => {
            let mut sets = Items::new(alloc);
            sets.push(set)?;
            Ok(Answer::Sets(sets))
        }
    }
}

/// The answer where there is no set that shows the other one.
fn without_set(problem: Problem) -> Answer
    ensures { result ≡ shown_without problem }
{
    match problem {
        Problem::Sceptical => Answer::Yes(None),
        Problem::Credulous | Problem::SomeExtension | Problem::AllExtensions => Answer::No(None),
    }
}

/// An answer that one step shows, beside these sets.
fn by_step(
    alloc: Global,
    answer: Answer,
    sets: Items<NumSet>,
    step: StepId,
) -> Result<Evidence, Memory>
    ensures { IfOk result (λ evidence. evidence ≡ record { answer = answer; sets = sets; steps = step ∷ [] }) }
{
    let mut steps = Items::new(alloc);
    steps.push(step)?;
    Ok(Evidence {
        answer,
        sets,
        steps,
    })
}

/// The answer that a found set shows, or that a step shows which refutes that there is one.
pub(crate) fn of_found(alloc: Global, problem: Problem, found: Found) -> Result<Evidence, Memory>
    ensures { IfOk result (λ evidence. evidence ≡ evidence_of problem found) }
{
    match found {
        Found::Set(set) => Ok(Evidence {
            answer: with_set(alloc, problem, set)?,
            sets: Items::new(alloc),
            steps: Items::new(alloc),
        }),
        Found::Refuted(step) => by_step(alloc, without_set(problem), Items::new(alloc), step),
    }
}

/// The answer that a set shows together with a step.
pub(crate) fn of_set(
    alloc: Global,
    problem: Problem,
    set: NumSet,
    step: StepId,
) -> Result<Evidence, Memory>
    ensures { IfOk result (λ evidence. evidence ≡ evidence_with problem set step) }
{
    let answer = with_set(alloc, problem, set)?;
    by_step(alloc, answer, Items::new(alloc), step)
}

/// Whether all preferred sets accept the query: `NO` by one that doesn't, or `YES` by a cover.
pub(crate) fn of_accepting(alloc: Global, accepting: Accepting) -> Result<Evidence, Memory>
    ensures { IfOk result (λ evidence. evidence ≡ sceptical_evidence accepting) }
{
    match accepting {
        Accepting::Counter(found) => {
            of_set(alloc, Problem::Sceptical, found.set, found.refutation)
        }
        Accepting::Cover(sets, step) => {
            by_step(alloc, without_set(Problem::Sceptical), sets, step)
        }
    }
}

/// Whether a set with a widest range shows the answer: by one that does, or by a cover of ranges that shows that none
/// does.
pub(crate) fn of_deciding(
    alloc: Global,
    problem: Problem,
    deciding: Deciding,
) -> Result<Evidence, Memory>
    ensures { IfOk result (λ evidence. evidence ≡ decided_evidence problem deciding) }
{
    match deciding {
        Deciding::Witness(found) => of_set(alloc, problem, found.set, found.refutation),
        Deciding::NoWitness(sets, steps) => Ok(Evidence {
            answer: without_set(problem),
            sets,
            steps,
        }),
    }
}

/// The answer of the ideal set, which accepts the query or doesn't.
fn by_ideal(alloc: Global, problem: Problem, accepts: bool, set: NumSet) -> Result<Answer, Memory>
    ensures { IfOk result (λ answer. answer ≡ ideal_answer problem accepts set) }
{
    match (problem, accepts) {
        (Problem::Credulous, false) | (Problem::Sceptical, true) => Ok(without_set(problem)),
        _ => with_set(alloc, problem, set),
    }
}

/// The answer of the ideal set, with the set and the others as its certificate's sets.
pub(crate) fn of_ideal(
    alloc: Global,
    problem: Problem,
    accepts: bool,
    found: IdealSet,
) -> Result<Evidence, Memory>
    ensures { IfOk result (λ evidence. evidence ≡ ideal_evidence problem accepts found) }
{
    let mut sets = found.others.into_vec();
    sets.insert(0, found.set.copy(alloc)?)?;
    let mut steps = Items::new(alloc);
    steps.push(found.unattacked)?;
    steps.push(found.largest)?;
    Ok(Evidence {
        answer: by_ideal(alloc, problem, accepts, found.set)?,
        sets: Items::from_vec(sets),
        steps,
    })
}
