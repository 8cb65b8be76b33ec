//! Admissible sets that hold none of given numbers.

ghost use Rattle.std.specs.Prelude.{IfOk};
ghost use Rattle.lists.specs.Members.{IsWithin};
ghost use Rattle.certificate_claims.specs.SetLiterals.{members};
ghost use Rattle.oracle_face.specs.Growing.{closes, halt_of};
ghost use Rattle.ideal_set.specs.Ideals.{IsFree, IsLargerFree, IsLargestFree, MadeForIdeal};
ghost use Rattle.goal_lists.specs.Runs.{Ran};

use goal_lists::{Wanted, outside, search_beside};
use meaning_atoms::Atom;
use oracle_face::{Budget, Found, Halt, Oracle, StepId};
use set_lists::NumSet;
use std::alloc::Global;

/// An admissible set that holds none of the numbers in hand, and the log step that refutes that there is a larger one.
#[derive(Drop)]
pub(crate) struct Free {
    pub(crate) set: NumSet,
    pub(crate) refutation: StepId,
}

/// An admissible set that holds a set, something more and none of the numbers; or the step that refutes it.
fn larger_free<O: Oracle>(
    alloc: Global,
    oracle: &mut O,
    budget: &mut Budget,
    hit: &NumSet,
    set: &NumSet,
) -> Result<Found, Halt>
    requires hit { IsWithin hit.now (members (O.framework oracle.old)) }
    requires free { IsFree (O.framework oracle.old) hit.now set.now }
    ensures larger { IfOk result (IsLargerFree (O.framework oracle.old) (O.log oracle.new) hit.now set.now) }
    ensures ran { Ran O.Oracle MadeForIdeal (closes result) oracle.old oracle.new budget.old budget.new
        (halt_of result) }
{
    let side = outside(alloc, oracle.members(), set)?;
    let wanted = Wanted {
        ins: set.as_slice(),
        outs: hit.as_slice(),
        ranged: &[],
        asks: &[],
    };
    search_beside(alloc, oracle, budget, Atom::Ad, &wanted, &side, set)
}

/// An admissible set that holds none of the numbers and lies in no larger one that holds none. The search begins with
/// such a set and goes on from what each search finds: where the set grows k times, it asks k + 1 times.
pub(crate) fn largest_free<O: Oracle>(
    alloc: Global,
    oracle: &mut O,
    budget: &mut Budget,
    hit: &NumSet,
    start: &NumSet,
) -> Result<Free, Halt>
    requires hit { IsWithin hit.now (members (O.framework oracle.old)) }
    requires start { IsFree (O.framework oracle.old) hit.now start.now }
    ensures largest { IfOk result (IsLargestFree (O.framework oracle.old) (O.log oracle.new) hit.now) }
    ensures ran { Ran O.Oracle MadeForIdeal 1 oracle.old oracle.new budget.old budget.new (halt_of result) }
{
    let _members = oracle.members();
    let mut grown = start.copy(alloc)?;
    loop {
        match larger_free(alloc, oracle, budget, hit, &grown)? {
            Found::Set(found) => grown = found,
            Found::Refuted(refutation) => {
                return Ok(Free {
                    set: grown,
                    refutation,
                });
            }
        }
    }
}
