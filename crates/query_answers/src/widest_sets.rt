//! Answers by the sets of a mode that have widest ranges: the stage sets, or the semi-stable ones.

ghost use Rattle.std.specs.Prelude.{IfOk};
ghost use Rattle.certificate_claims.specs.Claims.{widest_semantics};
ghost use Rattle.oracle_face.specs.Growing.{halt_of};
ghost use Rattle.query_answers.specs.Answers.{AsksAbout, AsksBy, AsksSome, IsEvidence, RanFor, problem_of};

use crate::evidence::{Evidence, of_deciding, of_set};
use enumerate_block::decide;
use iccma_tasks::{Problem, Query};
use oracle_face::{Budget, Halt, Oracle};
use semantics::Mode;
use semi_stable::widest_in;
use set_lists::NumSet;
use std::alloc::Global;

/// By the sets of the mode with widest ranges: whether one accepts the query, whether each does, or one of them.
pub(crate) fn by_widest<O: Oracle>(
    alloc: Global,
    oracle: &mut O,
    budget: &mut Budget,
    mode: Mode,
    query: &Query,
) -> Result<Evidence, Halt>
    requires { AsksBy (O.framework oracle.old) query.now (widest_semantics mode) }
    ensures shown { IfOk result (IsEvidence (O.framework oracle.old) query.now (O.log oracle.new)) }
    ensures ran { RanFor O.Oracle query.now oracle.old oracle.new budget.old budget.new (halt_of result) }
{
    let problem = query.task().problem;
    match query.number() {
        None => widest_set(alloc, oracle, budget, mode, query),
        Some(goal) => match problem {
            Problem::Sceptical => decided(alloc, oracle, budget, mode, query, goal, false),
            Problem::Credulous | Problem::SomeExtension | Problem::AllExtensions => {
                decided(alloc, oracle, budget, mode, query, goal, true)
            }
        },
    }
}

/// A set of the mode with a widest range, which there always is: one whose range grew from that of the empty set.
fn widest_set<O: Oracle>(
    alloc: Global,
    oracle: &mut O,
    budget: &mut Budget,
    mode: Mode,
    query: &Query,
) -> Result<Evidence, Halt>
    requires { AsksSome (O.framework oracle.old) query.now (widest_semantics mode) }
    ensures shown { IfOk result (IsEvidence (O.framework oracle.old) query.now (O.log oracle.new)) }
    ensures ran { RanFor O.Oracle query.now oracle.old oracle.new budget.old budget.new (halt_of result) }
{
    let _number = query.number();
    let empty = NumSet::new(alloc);
    let widest = widest_in(alloc, oracle, budget, mode, &empty)?;
    let evidence = of_set(alloc, Problem::SomeExtension, widest.set, widest.refutation)?;
    Ok(evidence)
}

/// Such a set that accepts the number, or where `accepted` is false, one that doesn't, shows the answer; where there is
/// none, a cover of ranges does.
fn decided<O: Oracle>(
    alloc: Global,
    oracle: &mut O,
    budget: &mut Budget,
    mode: Mode,
    query: &Query,
    goal: u32,
    accepted: bool,
) -> Result<Evidence, Halt>
    requires { AsksAbout (O.framework oracle.old) query.now (problem_of accepted) (widest_semantics mode) goal }
    ensures shown { IfOk result (IsEvidence (O.framework oracle.old) query.now (O.log oracle.new)) }
    ensures ran { RanFor O.Oracle query.now oracle.old oracle.new budget.old budget.new (halt_of result) }
{
    let deciding = decide(alloc, oracle, budget, mode, goal, accepted)?;
    let evidence = of_deciding(alloc, query.task().problem, deciding)?;
    Ok(evidence)
}
