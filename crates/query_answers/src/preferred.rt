//! Answers by the preferred sets.

ghost use Rattle.std.specs.Prelude.{IfOk};
ghost use Rattle.iccma_tasks.specs.declared.task.Problem.TheVariants.{Credulous, Sceptical};
ghost use Rattle.iccma_tasks.specs.declared.task.Semantics.TheVariants.{Preferred};
ghost use Rattle.oracle_face.specs.Growing.{halt_of};
ghost use Rattle.query_answers.specs.Answers.{AsksAbout, AsksBy, BeginsLargest, IsEvidence, RanFor};

use crate::evidence::{Evidence, of_accepting, of_found, of_set};
use cegar_preferred::{accept_all, maximal_from};
use goal_lists::search_query;
use iccma_tasks::{Problem, Query};
use meaning_atoms::Atom;
use oracle_face::{Budget, Found, Halt, Oracle};
use set_lists::NumSet;
use std::alloc::Global;

/// By the preferred sets: whether one accepts the query, whether each does, or one of them.
pub(crate) fn preferred<O: Oracle>(
    alloc: Global,
    oracle: &mut O,
    budget: &mut Budget,
    query: &Query,
) -> Result<Evidence, Halt>
    requires { AsksBy (O.framework oracle.old) query.now Preferred }
    ensures shown { IfOk result (IsEvidence (O.framework oracle.old) query.now (O.log oracle.new)) }
    ensures ran { RanFor O.Oracle query.now oracle.old oracle.new budget.old budget.new (halt_of result) }
{
    let problem = query.task().problem;
    match query.number() {
        None => {
            let empty = NumSet::new(alloc);
            largest(alloc, oracle, budget, query, &empty)
        }
        Some(goal) => match problem {
            Problem::Sceptical => in_each(alloc, oracle, budget, query, goal),
            Problem::Credulous | Problem::SomeExtension | Problem::AllExtensions => {
                in_some(alloc, oracle, budget, query, goal)
            }
        },
    }
}

/// Whether a preferred set accepts the query: one that holds an admissible set which does. No preferred set does where
/// no admissible one does.
fn in_some<O: Oracle>(
    alloc: Global,
    oracle: &mut O,
    budget: &mut Budget,
    query: &Query,
    goal: u32,
) -> Result<Evidence, Halt>
    requires { AsksAbout (O.framework oracle.old) query.now Credulous Preferred goal }
    ensures shown { IfOk result (IsEvidence (O.framework oracle.old) query.now (O.log oracle.new)) }
    ensures ran { RanFor O.Oracle query.now oracle.old oracle.new budget.old budget.new (halt_of result) }
{
    match search_query(alloc, oracle, budget, Atom::Ad, goal, true, &[])? {
        Found::Set(set) => largest(alloc, oracle, budget, query, &set),
        Found::Refuted(step) => {
            let evidence = of_found(alloc, Problem::Credulous, Found::Refuted(step))?;
            Ok(evidence)
        }
    }
}

/// A preferred set that holds the admissible one, which shows the answer.
fn largest<O: Oracle>(
    alloc: Global,
    oracle: &mut O,
    budget: &mut Budget,
    query: &Query,
    set: &NumSet,
) -> Result<Evidence, Halt>
    requires { BeginsLargest (O.framework oracle.old) query.now set.now }
    ensures shown { IfOk result (IsEvidence (O.framework oracle.old) query.now (O.log oracle.new)) }
    ensures ran { RanFor O.Oracle query.now oracle.old oracle.new budget.old budget.new (halt_of result) }
{
    let maximal = maximal_from(alloc, oracle, budget, set)?;
    let evidence = of_set(alloc, query.task().problem, maximal.set, maximal.refutation)?;
    Ok(evidence)
}

/// Whether each preferred set accepts the query.
fn in_each<O: Oracle>(
    alloc: Global,
    oracle: &mut O,
    budget: &mut Budget,
    query: &Query,
    goal: u32,
) -> Result<Evidence, Halt>
    requires { AsksAbout (O.framework oracle.old) query.now Sceptical Preferred goal }
    ensures shown { IfOk result (IsEvidence (O.framework oracle.old) query.now (O.log oracle.new)) }
    ensures ran { RanFor O.Oracle query.now oracle.old oracle.new budget.old budget.new (halt_of result) }
{
    let accepting = accept_all(alloc, oracle, budget, goal)?;
    let evidence = of_accepting(alloc, accepting)?;
    Ok(evidence)
}
