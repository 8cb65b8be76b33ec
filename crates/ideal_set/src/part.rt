//! The largest admissible part of a set.

ghost use Rattle.std.specs.Prelude.{◌≡◌, ◌↔◌, ℕ, Contains, IfOk, OnOk, map};
ghost use Rattle.attack_index.specs.PairOrder.{reversed};
ghost use Rattle.semantics.specs.Framework.{IsConflictFree};
ghost use Rattle.semantics.specs.Frameworks.{af};
ghost use Rattle.oracle_face.specs.Parts.{IsLargestPart};
ghost use Rattle.ideal_set.specs.Rounds.{GainsAttacksOf, HasEndIn, IsRound};

use dung_notions::AfPlain;
use lists::Memory;
use set_lists::NumSet;
use std::alloc::Global;

/// The pairs with their ends exchanged.
fn turned(alloc: Global, pairs: &[(u32, u32)]) -> Result<Vec<(u32, u32)>, Memory>
    ensures { IfOk result (λ v. v.items ≡ map reversed pairs.now) }
{
    Ok(pairs.iter().map(|pair| (pair.1, pair.0)).collect(alloc)?)
}

/// Adds the attacks that an argument makes or suffers.
fn add_attacks_of(
    alloc: Global,
    plain: &AfPlain,
    argument: u32,
    found: &mut Vec<(u32, u32)>,
) -> Result<(), Memory>
    ensures { OnOk result (GainsAttacksOf plain.now argument found.old.items found.new.items) }
{
    let suffered = turned(alloc, plain.attackers_of(argument))?;
    found.extend_from_slice(plain.targets_of(argument))?;
    found.extend_from_slice(&suffered)?;
    Ok(())
}

/// The attacks that have an end in a set.
fn attacks_round(alloc: Global, plain: &AfPlain, set: &NumSet) -> Result<Vec<(u32, u32)>, Memory>
    ensures { IfOk result (λ found. (p : ℕ × ℕ) → Contains found.items p ↔ HasEndIn plain.now set.now p) }
{
    let mut found = Vec::new(alloc);
    for member in set.as_slice() {
        add_attacks_of(alloc, plain, *member, &mut found)?;
    }
    Ok(found)
}

/// The framework of the attacks that have an end in a set.
fn framework_round(alloc: Global, plain: &AfPlain, set: &NumSet) -> Result<AfPlain, Memory>
    ensures { IfOk result (IsRound plain.now set.now) }
{
    let live = NumSet::from_rising(alloc, plain.live())?;
    let attacks = attacks_round(alloc, plain, set)?;
    AfPlain::new(alloc, live, attacks)
}

/// The largest admissible set that is part of a conflict-free one and has none of the numbers. Of the attacks round
/// the members that are left, the grounded set strikes just those that can't be defended; so it takes time linear in
/// the arguments, in these attacks, and in what it takes to put numbers in order. `Memory` says that an allocation was
/// refused.
pub fn largest_part(
    alloc: Global,
    plain: &AfPlain,
    set: &NumSet,
    without: &NumSet,
) -> Result<NumSet, Memory>
    requires { IsConflictFree plain.now set.now }
    ensures { IfOk result (IsLargestPart (af plain.now) set.now without.now) }
{
    let _live = plain.live();
    let left = set.minus(alloc, without)?;
    let round = framework_round(alloc, plain, &left)?;
    let grounded = round.grounded(alloc)?;
    let range = round.range_of(alloc, &grounded.set)?;
    let struck = range.minus(alloc, &grounded.set)?;
    left.minus(alloc, &struck)
}
