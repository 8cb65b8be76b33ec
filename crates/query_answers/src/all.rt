//! All extensions.

ghost use Rattle.std.specs.Prelude.{◌≡◌, IfOk};
ghost use Rattle.enumerate_block.specs.Extensions.{answer_of};
ghost use Rattle.oracle_face.specs.Growing.{halt_of};
ghost use Rattle.query_answers.specs.Answers.{AsksAll, IsOutcome, RanFor};
ghost use Rattle.query_answers.specs.Forms.{all_outcome};

use crate::evidence::{Evidence, SearchOutcome};
use enumerate_block::{Extensions, all};
use iccma_tasks::{Answer, Query};
use lists::Items;
use oracle_face::{Budget, Halt, Oracle};
use set_lists::NumSet;
use std::alloc::Global;

/// All extensions, at most so many.
pub(crate) fn all_extensions<O: Oracle>(
    alloc: Global,
    oracle: &mut O,
    budget: &mut Budget,
    query: &Query,
    most: usize,
) -> Result<SearchOutcome, Halt>
    requires { AsksAll (O.framework oracle.old) query.now }
    ensures outcome { IfOk result (IsOutcome (O.framework oracle.old) query.now most (O.log oracle.new)) }
    ensures ran { RanFor O.Oracle query.now oracle.old oracle.new budget.old budget.new (halt_of result) }
{
    let _number = query.number();
    let extensions = all(alloc, oracle, budget, query.task(), most)?;
    Ok(outcome_of(alloc, extensions))
}

/// The outcome of a list.
fn outcome_of(alloc: Global, extensions: Extensions) -> SearchOutcome
    ensures { result ≡ all_outcome extensions }
{
    match extensions {
        Extensions::All(sets, steps) => {
            let evidence = Evidence {
                answer: listed(sets),
                sets: Items::new(alloc),
                steps,
            };
            SearchOutcome::Shown(evidence)
        }
        Extensions::TooMany => SearchOutcome::TooMany,
    }
}

/// The answer that lists the sets, or says that there are none.
fn listed(sets: Items<NumSet>) -> Answer
    ensures { result ≡ answer_of sets }
{
    if sets.is_empty() {
        Answer::No(None)
    } else {
        Answer::Sets(sets)
    }
}
