//! Answers by the ideal set.

ghost use Rattle.std.specs.Prelude.{IfOk};
ghost use Rattle.iccma_tasks.specs.declared.task.Semantics.TheVariants.{Ideal};
ghost use Rattle.oracle_face.specs.Growing.{halt_of};
ghost use Rattle.query_answers.specs.Answers.{AsksBy, IsEvidence, IsSaid, RanFor};

use crate::evidence::{Evidence, of_ideal};
use iccma_tasks::Query;
use ideal_set::ideal as ideal_set_of;
use lists::Memory;
use oracle_face::{Budget, Halt, Oracle};
use set_lists::NumSet;
use std::alloc::Global;

/// By the ideal set: whether it accepts the query, or the set itself.
pub(crate) fn by_ideal_set<O: Oracle>(
    alloc: Global,
    oracle: &mut O,
    budget: &mut Budget,
    query: &Query,
) -> Result<Evidence, Halt>
    requires { AsksBy (O.framework oracle.old) query.now Ideal }
    ensures shown { IfOk result (IsEvidence (O.framework oracle.old) query.now (O.log oracle.new)) }
    ensures ran { RanFor O.Oracle query.now oracle.old oracle.new budget.old budget.new (halt_of result) }
{
    let _number = query.number();
    let found = ideal_set_of(alloc, oracle, budget)?;
    let accepts = accepts_query(alloc, oracle, query, &found.set)?;
    let evidence = of_ideal(alloc, query.task().problem, accepts, found)?;
    Ok(evidence)
}

/// Whether a set accepts the query, where one is asked about.
fn accepts_query<O: Oracle>(
    alloc: Global,
    oracle: &O,
    query: &Query,
    set: &NumSet,
) -> Result<bool, Memory>
    ensures { IfOk result (IsSaid (O.framework oracle.now) query.now.number set.now) }
{
    match query.number() {
        Some(goal) => oracle.accepts(alloc, goal, set),
        None => Ok(true),
    }
}
