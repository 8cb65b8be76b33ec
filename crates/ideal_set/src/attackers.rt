//! Admissible sets that attack a set, and what is left of the set without what they attack.

ghost use Rattle.std.specs.Prelude.{◌⊎◌, Contains, IfOk, OnOk};
ghost use Rattle.lists.specs.Members.{IsSetOf};
ghost use Rattle.meaning_atoms.specs.declared.atom.Atom.TheVariants.{Ad};
ghost use Rattle.meaning_atoms.specs.Worlds.{HoldsOf};
ghost use Rattle.oracle_face.specs.Growing.{closes, halt_of};
ghost use Rattle.ideal_set.specs.Ideals.{AreAttackers, Attacks, Hits, IsAsked, IsCut, IsCutBeside, IsFree};
ghost use Rattle.ideal_set.specs.Ideals.{IsPruned, Keeps, MadeForIdeal};
ghost use Rattle.goal_lists.specs.Runs.{Ran};

use goal_lists::{Wanted, attacked, search_beside};
use lists::{Items, Memory};
use meaning_atoms::Atom;
use oracle_face::{Budget, Found, Halt, Oracle};
use set_lists::NumSet;
use std::alloc::Global;

/// Admissible sets, of which each attacks what was left of a grown one or is a grown one, and what they attack.
#[derive(Drop)]
pub(crate) struct Attackers {
    pub(crate) sets: Items<NumSet>,
    pub(crate) hit: NumSet,
}

/// An admissible set that attacks a member of a set, or the step that refutes that there is one.
pub(crate) fn attacker<O: Oracle>(
    alloc: Global,
    oracle: &mut O,
    budget: &mut Budget,
    set: &NumSet,
) -> Result<Found, Halt>
    requires { HoldsOf (O.framework oracle.old) set.now Ad }
    ensures attacks { IfOk result (Attacks (O.framework oracle.old) (O.log oracle.new) set.now) }
    ensures asked { IfOk result (IsAsked (O.framework oracle.old) (O.log oracle.new) set.now) }
    ensures ran { Ran O.Oracle MadeForIdeal (closes result) oracle.old oracle.new budget.old budget.new
        (halt_of result) }
{
    let _members = oracle.members();
    let side = attacked(alloc, oracle.is_aba(), set)?;
    let wanted = Wanted {
        ins: &[],
        outs: &[],
        ranged: &[],
        asks: &[],
    };
    search_beside(alloc, oracle, budget, Atom::Ad, &wanted, &side, set)
}

/// The numbers, and what an admissible set attacks: what is in its range and no member.
fn with_hits<O: Oracle>(
    alloc: Global,
    oracle: &O,
    hit: &NumSet,
    set: &NumSet,
) -> Result<NumSet, Memory>
    requires { HoldsOf (O.framework oracle.now) set.now Ad }
    ensures { IfOk result (IsSetOf (λ a. Contains hit.now a ⊎ Hits (O.framework oracle.now) set.now a)) }
{
    let range = oracle.range(alloc, set)?;
    let struck = range.minus(alloc, set)?;
    hit.union(alloc, &struck)
}

/// Takes an admissible set, with what it attacks.
fn keep<O: Oracle>(
    alloc: Global,
    oracle: &O,
    found: &mut Attackers,
    set: NumSet,
) -> Result<(), Memory>
    requires { HoldsOf (O.framework oracle.now) set Ad }
    ensures { OnOk result (Keeps (O.framework oracle.now) set found.old found.new) }
{
    found.hit = with_hits(alloc, oracle, &found.hit, &set)?;
    found.sets.push(set)?;
    Ok(())
}

/// Takes an admissible set that attacks another one. What is left of the other is its largest admissible part without
/// what the sets attack.
fn cut<O: Oracle>(
    alloc: Global,
    oracle: &O,
    found: &mut Attackers,
    set: &NumSet,
    other: NumSet,
) -> Result<NumSet, Memory>
    requires set { HoldsOf (O.framework oracle.now) set.now Ad }
    requires other { HoldsOf (O.framework oracle.now) other Ad }
    ensures { IfOk result (IsCut (O.framework oracle.now) other found.old found.new) }
{
    keep(alloc, oracle, found, other)?;
    oracle.admissible_part(alloc, set, &found.hit)
}

/// Takes a set that was grown to its end, and an admissible one that attacks it, as `cut` does. The ideal set lies in
/// the grown one, so it holds nothing that this attacks; and without what it attacks there is nothing larger to be
/// found later, which spares a third of the searches.
pub(crate) fn cut_grown<O: Oracle>(
    alloc: Global,
    oracle: &O,
    found: &mut Attackers,
    set: &NumSet,
    other: NumSet,
) -> Result<NumSet, Memory>
    requires set { HoldsOf (O.framework oracle.now) set.now Ad }
    requires other { HoldsOf (O.framework oracle.now) other Ad }
    ensures { IfOk result (IsCutBeside (O.framework oracle.now) set.now other found.old found.new) }
{
    keep(alloc, oracle, found, set.copy(alloc)?)?;
    cut(alloc, oracle, found, set, other)
}

/// What is left of a set when no admissible set attacks it any more. Each turn asks for one that does; so it asks
/// k + 1 times for k such sets, with no growing between.
pub(crate) fn prune<O: Oracle>(
    alloc: Global,
    oracle: &mut O,
    budget: &mut Budget,
    found: &mut Attackers,
    set: &NumSet,
) -> Result<NumSet, Halt>
    requires found { AreAttackers (O.framework oracle.old) (O.log oracle.old) found.old }
    requires set { IsFree (O.framework oracle.old) found.old.hit set.now }
    ensures pruned { IfOk result (IsPruned (O.framework oracle.old) (O.log oracle.new) found.old found.new) }
    ensures ran { Ran O.Oracle MadeForIdeal 1 oracle.old oracle.new budget.old budget.new (halt_of result) }
{
    let _members = oracle.members();
    let mut part = set.copy(alloc)?;
    loop {
        match attacker(alloc, oracle, budget, &part)? {
            Found::Set(other) => part = cut(alloc, oracle, found, &part, other)?,
            Found::Refuted(_step) => return Ok(part),
        }
    }
}
