//! All extensions.

ghost use Rattle.std.specs.Prelude.{◌≡◌, false, IfOk};
ghost use Rattle.iccma_tasks.specs.declared.task.Semantics.{Semantics};
ghost use Rattle.certificate_claims.specs.Claims.{widest_semantics};
ghost use Rattle.oracle_face.specs.Kinds.{is_assumption_based};
ghost use Rattle.oracle_face.specs.Growing.{halt_of};
ghost use Rattle.enumerate_block.specs.Extensions.{IsListOf, IsListTask, IsModeOf, MadeForAll, with_step, with_steps};
ghost use Rattle.goal_lists.specs.Runs.{RanInAll};

use crate::{Listed, Ranged, all_preferred, all_widest, all_with_mode};
use iccma_tasks::{Semantics, Task};
use lists::{Items, Memory};
use meaning_atoms::Atom;
use oracle_face::{Budget, Halt, Oracle, StepId};
use semantics::Mode;
use set_lists::NumSet;
use std::alloc::Global;

/// What came of listing all extensions.
#[derive(Drop)]
pub enum Extensions {
    /// All of them, in the order of their lists, and the log steps that refute the claims of their certificate, in
    /// order.
    All(Items<NumSet>, Items<StepId>),
    /// More than the limit were found.
    TooMany,
}

/// All extensions, at most so many. Where there are k, it asks k + 1 times for a complete or a stable set; for a
/// preferred set that lies in none of those found also k + 1 times, besides what it asks to grow each; and where
/// semi-stable or stage sets have r ranges, r + 1 times for a range that lies in none of those found and k times for
/// sets with these ranges, besides what it asks to grow each range.
pub fn all<O: Oracle>(
    alloc: Global,
    oracle: &mut O,
    budget: &mut Budget,
    task: Task,
    limit: usize,
) -> Result<Extensions, Halt>
    requires { IsListTask (O.framework oracle.old) task }
    ensures listed { IfOk result (IsListOf (O.framework oracle.old) (O.log oracle.new) task.semantics limit) }
    ensures ran { RanInAll O.Oracle (λ f. MadeForAll f task.semantics) oracle.old oracle.new budget.old budget.new
        (halt_of result) }
{
    match task.semantics {
        Semantics::Complete => {
            all_tested(alloc, oracle, budget, Semantics::Complete, Atom::Co, limit)
        }
        Semantics::Stable => all_tested(alloc, oracle, budget, Semantics::Stable, Atom::St, limit),
        Semantics::Preferred => all_largest(alloc, oracle, budget, limit),
        Semantics::SemiStable => all_ranged(alloc, oracle, budget, Mode::Ad, limit),
        Semantics::Stage => all_ranged(alloc, oracle, budget, Mode::Cf, limit),
        Semantics::Grounded | Semantics::Ideal => unreachable!(),
    }
}

/// All sets of the mode that says that a set is an extension.
fn all_tested<O: Oracle>(
    alloc: Global,
    oracle: &mut O,
    budget: &mut Budget,
    semantics: Semantics,
    mode: Atom,
    limit: usize,
) -> Result<Extensions, Halt>
    requires { IsModeOf semantics mode }
    ensures listed { IfOk result (IsListOf (O.framework oracle.old) (O.log oracle.new) semantics limit) }
    ensures ran { RanInAll O.Oracle (λ f. MadeForAll f semantics) oracle.old oracle.new budget.old budget.new (halt_of
        result) }
{
    let listed = all_with_mode(alloc, oracle, budget, mode, limit)?;
    let extensions = extensions_of(alloc, listed)?;
    Ok(extensions)
}

/// All preferred sets.
fn all_largest<O: Oracle>(
    alloc: Global,
    oracle: &mut O,
    budget: &mut Budget,
    limit: usize,
) -> Result<Extensions, Halt>
    ensures listed { IfOk result (IsListOf (O.framework oracle.old) (O.log oracle.new) Semantics.Preferred limit) }
    ensures ran { RanInAll O.Oracle (λ f. MadeForAll f Semantics.Preferred) oracle.old oracle.new budget.old budget.new
        (halt_of result) }
{
    let listed = all_preferred(alloc, oracle, budget, limit)?;
    let extensions = extensions_of(alloc, listed)?;
    Ok(extensions)
}

/// All sets of the mode with widest ranges, in an abstract framework.
fn all_ranged<O: Oracle>(
    alloc: Global,
    oracle: &mut O,
    budget: &mut Budget,
    mode: Mode,
    limit: usize,
) -> Result<Extensions, Halt>
    requires { is_assumption_based (O.framework oracle.old) ≡ false }
    ensures listed { IfOk result (IsListOf (O.framework oracle.old) (O.log oracle.new) (widest_semantics mode) limit) }
    ensures ran { RanInAll O.Oracle (λ f. MadeForAll f (widest_semantics mode)) oracle.old oracle.new budget.old
        budget.new (halt_of result) }
{
    let ranged = all_widest(alloc, oracle, budget, mode, limit)?;
    Ok(extensions_with(ranged))
}

/// The list with its step.
fn extensions_of(alloc: Global, listed: Listed) -> Result<Extensions, Memory>
    ensures { IfOk result (λ extensions. extensions ≡ with_step listed) }
{
    match listed {
        Listed::Whole(sets, step) => {
            let mut steps = Items::new(alloc);
            steps.push(step)?;
            Ok(Extensions::All(Items::from_vec(sets), steps))
        }
        Listed::TooMany => Ok(Extensions::TooMany),
    }
}

/// The list with its steps.
fn extensions_with(ranged: Ranged) -> Extensions
    ensures { result ≡ with_steps ranged }
{
    match ranged {
        Ranged::Whole(sets, steps) => Extensions::All(Items::from_vec(sets), steps),
        Ranged::TooMany => Extensions::TooMany,
    }
}
