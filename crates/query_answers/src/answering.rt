//! The answer to a query.

ghost use Rattle.std.specs.Prelude.{◌≡◌, ◌+◌, ◌*◌, false, length, IfOk};
ghost use Rattle.edit_rules.specs.Fitting.{Fits};
ghost use Rattle.oracle_face.specs.Growing.{HasRun, halt_of};
ghost use Rattle.oracle_face.specs.Logs.{IsKept};
ghost use Rattle.session_log.specs.Ends.{MadeFor, is_by_grounded};
ghost use Rattle.query_answers.specs.Answers.{AsksOne, IsEvidence, IsOutcome, RanFor};

use crate::all::all_extensions;
use crate::complete_stable::{complete, stable};
use crate::evidence::{Evidence, SearchOutcome};
use crate::ideal::by_ideal_set;
use crate::preferred::preferred;
use crate::widest_sets::by_widest;
use iccma_tasks::{Problem, Query, Semantics};
use oracle_face::{Budget, Halt, Oracle};
use semantics::Mode;
use std::alloc::Global;

/// Answers a query that needs a search, with what shows the answer; all extensions are listed where they are at most so
/// many. The side clauses that it has the oracle keep are those that the query's certificate may have, each made from
/// an admissible set, or for stage sets from a conflict-free one. The halt is the oracle's, or want of memory; the
/// oracle keeps what it has learned.
pub fn answer<O: Oracle>(
    alloc: Global,
    oracle: &mut O,
    budget: &mut Budget,
    query: &Query,
    most: usize,
) -> Result<SearchOutcome, Halt>
    requires fits { Fits (O.framework oracle.old) query.now }
    requires by_search { is_by_grounded query.now.task.problem query.now.task.semantics ≡ false }
    ensures outcome { IfOk result (IsOutcome (O.framework oracle.old) query.now most (O.log oracle.new)) }
    ensures run { HasRun (MadeFor (O.framework oracle.old) query.now) (2 * length (O.log oracle.new).sides + 2)
        (O.framework oracle.old) (O.log oracle.old) (O.log oracle.new) (O.pending oracle.new) budget.old budget.new
        (halt_of result) }
    ensures framework { O.framework oracle.new ≡ O.framework oracle.old }
    ensures kept { IsKept (O.framework oracle.new) (O.log oracle.new) }
    ensures follows { O.follows oracle.old oracle.new }
{
    match query.task().problem {
        Problem::AllExtensions => all_extensions(alloc, oracle, budget, query, most),
        Problem::Credulous | Problem::Sceptical | Problem::SomeExtension => {
            let evidence = one(alloc, oracle, budget, query)?;
            Ok(SearchOutcome::Shown(evidence))
        }
    }
}

/// The answer that one set shows, or that there is none.
fn one<O: Oracle>(
    alloc: Global,
    oracle: &mut O,
    budget: &mut Budget,
    query: &Query,
) -> Result<Evidence, Halt>
    requires { AsksOne (O.framework oracle.old) query.now }
    ensures shown { IfOk result (IsEvidence (O.framework oracle.old) query.now (O.log oracle.new)) }
    ensures ran { RanFor O.Oracle query.now oracle.old oracle.new budget.old budget.new (halt_of result) }
{
    match query.task().semantics {
        Semantics::Complete => complete(alloc, oracle, budget, query),
        Semantics::Stable => stable(alloc, oracle, budget, query),
        Semantics::Preferred => preferred(alloc, oracle, budget, query),
        Semantics::SemiStable => by_widest(alloc, oracle, budget, Mode::Ad, query),
        Semantics::Stage => by_widest(alloc, oracle, budget, Mode::Cf, query),
        Semantics::Ideal => by_ideal_set(alloc, oracle, budget, query),
        Semantics::Grounded => unreachable!(),
    }
}
