//! Answers that a set of a mode shows, or that a step shows which refutes that there is one.

ghost use Rattle.std.specs.Prelude.{IfOk};
ghost use Rattle.iccma_tasks.specs.declared.task.Problem.TheVariants.{Credulous};
ghost use Rattle.iccma_tasks.specs.declared.task.Semantics.TheVariants.{Complete, Stable};
ghost use Rattle.oracle_face.specs.Growing.{halt_of};
ghost use Rattle.oracle_face.specs.Logs.{IsKept};
ghost use Rattle.query_answers.specs.Answers.{AsksAbout, AsksBy, AsksSome, IsAdmissibleIn, IsCompleted, IsEvidence};
ghost use Rattle.query_answers.specs.Answers.{problem_of};
ghost use Rattle.goal_lists.specs.Runs.{MadeNone, Ran};
ghost use Rattle.query_answers.specs.Answers.{RanFor};

use crate::evidence::{Evidence, of_found};
use goal_lists::{Wanted, search_for, search_query};
use iccma_tasks::{Problem, Query};
use meaning_atoms::Atom;
use oracle_face::{Budget, Found, Halt, Oracle};
use std::alloc::Global;

/// By the stable sets: one that accepts the query, one that doesn't, or one alone, as the problem asks. It asks the
/// oracle once.
pub(crate) fn stable<O: Oracle>(
    alloc: Global,
    oracle: &mut O,
    budget: &mut Budget,
    query: &Query,
) -> Result<Evidence, Halt>
    requires { AsksBy (O.framework oracle.old) query.now Stable }
    ensures shown { IfOk result (IsEvidence (O.framework oracle.old) query.now (O.log oracle.new)) }
    ensures ran { RanFor O.Oracle query.now oracle.old oracle.new budget.old budget.new (halt_of result) }
{
    let problem = query.task().problem;
    match query.number() {
        None => stable_set(alloc, oracle, budget, query),
        Some(goal) => match problem {
            Problem::Sceptical => stable_about(alloc, oracle, budget, query, goal, false),
            Problem::Credulous | Problem::SomeExtension | Problem::AllExtensions => {
                stable_about(alloc, oracle, budget, query, goal, true)
            }
        },
    }
}

/// A stable set, or the step that refutes that there is one.
fn stable_set<O: Oracle>(
    alloc: Global,
    oracle: &mut O,
    budget: &mut Budget,
    query: &Query,
) -> Result<Evidence, Halt>
    requires { AsksSome (O.framework oracle.old) query.now Stable }
    ensures shown { IfOk result (IsEvidence (O.framework oracle.old) query.now (O.log oracle.new)) }
    ensures ran { RanFor O.Oracle query.now oracle.old oracle.new budget.old budget.new (halt_of result) }
{
    let _number = query.number();
    let wanted = Wanted {
        ins: &[],
        outs: &[],
        ranged: &[],
        asks: &[],
    };
    let found = search_for(alloc, oracle, budget, Atom::St, &wanted)?;
    let evidence = of_found(alloc, Problem::SomeExtension, found)?;
    Ok(evidence)
}

/// A stable set that accepts the number, or where `accepted` is false, one that doesn't, shows the answer, or the step
/// that refutes that there is one.
fn stable_about<O: Oracle>(
    alloc: Global,
    oracle: &mut O,
    budget: &mut Budget,
    query: &Query,
    goal: u32,
    accepted: bool,
) -> Result<Evidence, Halt>
    requires { AsksAbout (O.framework oracle.old) query.now (problem_of accepted) Stable goal }
    ensures shown { IfOk result (IsEvidence (O.framework oracle.old) query.now (O.log oracle.new)) }
    ensures ran { RanFor O.Oracle query.now oracle.old oracle.new budget.old budget.new (halt_of result) }
{
    let found = search_query(alloc, oracle, budget, Atom::St, goal, accepted, &[])?;
    let evidence = of_found(alloc, query.task().problem, found)?;
    Ok(evidence)
}

/// Whether a complete set accepts the query: one that holds an admissible set which does. It asks the oracle twice
/// where there is one, and else once.
pub(crate) fn complete<O: Oracle>(
    alloc: Global,
    oracle: &mut O,
    budget: &mut Budget,
    query: &Query,
) -> Result<Evidence, Halt>
    requires { AsksBy (O.framework oracle.old) query.now Complete }
    ensures shown { IfOk result (IsEvidence (O.framework oracle.old) query.now (O.log oracle.new)) }
    ensures ran { RanFor O.Oracle query.now oracle.old oracle.new budget.old budget.new (halt_of result) }
{
    match query.number() {
        Some(goal) => complete_with(alloc, oracle, budget, query, goal),
        None => unreachable!(),
    }
}

/// Whether a complete set accepts the number that the query asks about.
fn complete_with<O: Oracle>(
    alloc: Global,
    oracle: &mut O,
    budget: &mut Budget,
    query: &Query,
    goal: u32,
) -> Result<Evidence, Halt>
    requires { AsksAbout (O.framework oracle.old) query.now Credulous Complete goal }
    ensures shown { IfOk result (IsEvidence (O.framework oracle.old) query.now (O.log oracle.new)) }
    ensures ran { RanFor O.Oracle query.now oracle.old oracle.new budget.old budget.new (halt_of result) }
{
    let found = search_query(alloc, oracle, budget, Atom::Ad, goal, true, &[])?;
    let grown = completed(alloc, oracle, budget, found)?;
    let evidence = of_found(alloc, Problem::Credulous, grown)?;
    Ok(evidence)
}

/// A complete set that holds the found admissible one. Where none was found, the step that refutes it stays. It asks
/// the oracle once where one was.
fn completed<O: Oracle>(
    alloc: Global,
    oracle: &mut O,
    budget: &mut Budget,
    found: Found,
) -> Result<Found, Halt>
    requires found { IsAdmissibleIn (O.framework oracle.old) found }
    requires kept { IsKept (O.framework oracle.old) (O.log oracle.old) }
    ensures completed { IfOk result (IsCompleted (O.framework oracle.old) found) }
    ensures ran { Ran O.Oracle MadeNone 1 oracle.old oracle.new budget.old budget.new (halt_of result) }
{
    match found {
        Found::Refuted(step) => Ok(Found::Refuted(step)),
        Found::Set(set) => {
            let wanted = Wanted {
                ins: set.as_slice(),
                outs: &[],
                ranged: &[],
                asks: &[],
            };
            search_for(alloc, oracle, budget, Atom::Co, &wanted)
        }
    }
}
