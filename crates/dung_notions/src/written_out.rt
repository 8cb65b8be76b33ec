//! Frameworks from lists that are written out.

ghost use Rattle.std.specs.Prelude.{◌↔◌, ℕ, Contains, IfOk, IsTrue, OnOk};
ghost use Rattle.lists.specs.Members.{IsSetOf};
ghost use Rattle.attack_index.specs.semantics.specs.Arguments.{IsArgument};
ghost use Rattle.dung_notions.specs.WrittenOut.{HasAdded, IsBetween};

use crate::af_plain::AfPlain;
use lists::Memory;
use semantics::is_argument;
use set_lists::NumSet;
use std::alloc::Global;

impl AfPlain {
    /// The framework of those of the numbers that arguments may have, and of those of the attacks whose ends are
    /// among them. `Memory` says that an allocation was refused. Only tests call it: a command reads its framework from
    /// a text.
    pub fn of_lists(
        alloc: Global,
        numbers: &[u32],
        attacks: &[(u32, u32)],
    ) -> Result<AfPlain, Memory>
        ensures live { IfOk result (λ f. IsSetOf (λ a. Contains numbers.now a × IsArgument a) f.live) }
        ensures attacks { IfOk result (λ f. (p : ℕ × ℕ)
            → Contains f.attacks p ↔ (Contains attacks.now p × IsBetween f.live p)) }
    {
        let live = arguments(alloc, numbers)?;
        let between = attacks_between(alloc, &live, attacks)?;
        AfPlain::new(alloc, live, between)
    }
}

/// Adds a number if an argument may have it.
fn add_argument(found: &mut Vec<u32>, number: u32) -> Result<(), Memory>
    ensures { OnOk result (HasAdded IsArgument number found.old.items found.new.items) }
{
    if is_argument(number) {
        found.push(number)?;
    }
    Ok(())
}

/// Those of the numbers that arguments may have.
fn arguments(alloc: Global, numbers: &[u32]) -> Result<NumSet, Memory>
    ensures { IfOk result (IsSetOf (λ a. Contains numbers.now a × IsArgument a)) }
{
    let mut found = Vec::new(alloc);
    for number in numbers {
        add_argument(&mut found, *number)?;
    }
    NumSet::from_slice(alloc, &found)
}

/// Whether both ends of an attack are live.
fn is_between(live: &NumSet, attack: (u32, u32)) -> bool
    ensures { IsTrue result ↔ IsBetween live.now attack }
{
    live.contains(attack.0) && live.contains(attack.1)
}

/// Adds an attack if both its ends are live.
fn add_between(live: &NumSet, found: &mut Vec<(u32, u32)>, attack: (u32, u32)) -> Result<(), Memory>
    ensures { OnOk result (HasAdded (IsBetween live.now) attack found.old.items found.new.items) }
{
    if is_between(live, attack) {
        found.push(attack)?;
    }
    Ok(())
}

/// The attacks whose ends are live.
fn attacks_between(
    alloc: Global,
    live: &NumSet,
    attacks: &[(u32, u32)],
) -> Result<Vec<(u32, u32)>, Memory>
    ensures { IfOk result (λ found. (p : ℕ × ℕ)
        → Contains found.items p ↔ (Contains attacks.now p × IsBetween live.now p)) }
{
    let mut found = Vec::new(alloc);
    for attack in attacks {
        add_between(live, &mut found, *attack)?;
    }
    Ok(found)
}
