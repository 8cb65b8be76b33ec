//! Sets that lie in no larger admissible one.

ghost use Rattle.std.specs.Prelude.{IfOk};
ghost use Rattle.meaning_atoms.specs.declared.atom.Atom.TheVariants.{Ad};
ghost use Rattle.meaning_atoms.specs.Worlds.{HoldsOf};
ghost use Rattle.oracle_face.specs.Growing.{closes, halt_of};
ghost use Rattle.certificate_claims.specs.SetLiterals.{outside as outside_of};
ghost use Rattle.goal_lists.specs.Sides.{IsAskOf};
ghost use Rattle.cegar_preferred.specs.Largest.{IsLarger, IsMaximalFrom, MadeOutside};
ghost use Rattle.goal_lists.specs.Runs.{Ran};

use goal_lists::{Wanted, outside, search_beside};
use meaning_atoms::Atom;
use oracle_face::{AskId, Budget, Found, Halt, Oracle, StepId};
use set_lists::NumSet;
use std::alloc::Global;

/// A set that lies in no larger admissible one, and the log step that shows it.
#[derive(Drop)]
pub struct Maximal {
    pub set: NumSet,
    pub refutation: StepId,
}

/// A preferred set that holds an admissible one. The search goes on from what each search finds, outside it, until
/// there is nothing larger: where the set grows k times, it asks k + 1 times. Each side clause is made from an
/// admissible set.
pub fn maximal_from<O: Oracle>(
    alloc: Global,
    oracle: &mut O,
    budget: &mut Budget,
    set: &NumSet,
) -> Result<Maximal, Halt>
    requires { HoldsOf (O.framework oracle.old) set.now Ad }
    ensures maximal { IfOk result (IsMaximalFrom (O.framework oracle.old) (O.log oracle.new) set.now) }
    ensures ran { Ran O.Oracle MadeOutside 1 oracle.old oracle.new budget.old budget.new (halt_of result) }
{
    let _members = oracle.members();
    let mut grown = set.copy(alloc)?;
    loop {
        match larger(alloc, oracle, budget, &grown)? {
            Found::Set(found) => grown = found,
            Found::Refuted(refutation) => {
                return Ok(Maximal {
                    set: grown,
                    refutation,
                });
            }
        }
    }
}

/// An admissible set that is larger, or the step that shows that there is none.
fn larger<O: Oracle>(
    alloc: Global,
    oracle: &mut O,
    budget: &mut Budget,
    set: &NumSet,
) -> Result<Found, Halt>
    requires { HoldsOf (O.framework oracle.old) set.now Ad }
    ensures larger { IfOk result (IsLarger (O.framework oracle.old) (O.log oracle.new) set.now) }
    ensures ran { Ran O.Oracle MadeOutside (closes result) oracle.old oracle.new budget.old budget.new
        (halt_of result) }
{
    let side = outside(alloc, oracle.members(), set)?;
    let wanted = Wanted {
        ins: set.as_slice(),
        outs: &[],
        ranged: &[],
        asks: &[],
    };
    search_beside(alloc, oracle, budget, Atom::Ad, &wanted, &side, set)
}

/// Keeps the side clause that something lies outside an admissible set, and gives its number.
pub fn oblige_outside<O: Oracle>(
    alloc: Global,
    oracle: &mut O,
    budget: &mut Budget,
    set: &NumSet,
) -> Result<AskId, Halt>
    requires { HoldsOf (O.framework oracle.old) set.now Ad }
    ensures asked { IfOk result (IsAskOf (O.log oracle.new).sides (outside_of (O.framework oracle.old) set.now)) }
    ensures ran { Ran O.Oracle MadeOutside 0 oracle.old oracle.new budget.old budget.new (halt_of result) }
{
    let side = outside(alloc, oracle.members(), set)?;
    oracle.oblige(alloc, &side, set, budget)
}
