//! Tests of a set of arguments of an abstract framework. A set's members mark what they attack; the tests then look at
//! the members, at the attacks on them, and at the attacks that leave them. Whether a set is complete also rests on the
//! arguments that nothing attacks, which are listed once for all sets.

ghost use Rattle.std.specs.Prelude.{◌↔◌, ℕ, ◌<◌, Contains, IfOk, IsTrue, OnOk, length};
ghost use Rattle.attack_index.specs.semantics.specs.Framework.{Attacks, IsAttackedBy, Defends, IsAdmissible, IsComplete};
ghost use Rattle.attack_index.specs.semantics.specs.Framework.{IsConflictFree, IsStable};
ghost use Rattle.attack_index.specs.semantics.specs.Frameworks.{IsNumberedAf};
ghost use Rattle.marked_sets.specs.Marks.{AreMarked, MarksAlso, is_marked};
ghost use Rattle.marked_sets.specs.Unattacked.{AreUnattacked, GainsUnattacked, HoldsReached, IsUnattacked};

use crate::marks::Marks;
use dung_notions::AfPlain;
use lists::Memory;
use set_lists::NumSet;
use std::alloc::Global;

/// Whether a set is admissible. The time is linear in its members, the attacks on them and the attacks that leave them,
/// but for a look-up of each member among the live arguments. `marks` is room that one test leaves to the next.
pub fn is_admissible(
    alloc: Global,
    plain: &AfPlain,
    set: &NumSet,
    marks: &mut Marks,
) -> Result<bool, Memory>
    ensures { IfOk result (λ is. IsTrue is ↔ IsAdmissible plain.now set.now) }
{
    mark_attacked(alloc, plain, set, marks)?;
    let apart = are_free(plain, set, marks);
    if !apart {
        return Ok(false);
    }
    let defended = defends_itself(plain, set, marks);
    Ok(defended)
}

/// Whether a set is conflict-free. The time is linear in its members and the attacks that leave them, but for a look-up
/// of each member among the live arguments.
pub fn is_conflict_free(
    alloc: Global,
    plain: &AfPlain,
    set: &NumSet,
    marks: &mut Marks,
) -> Result<bool, Memory>
    ensures { IfOk result (λ is. IsTrue is ↔ IsConflictFree plain.now set.now) }
{
    mark_attacked(alloc, plain, set, marks)?;
    let apart = are_free(plain, set, marks);
    Ok(apart)
}

/// Whether a set is stable. A stable set and what it attacks are all live arguments, and the time is linear in these
/// and the attacks that leave the set, but for look-ups of its members.
pub fn is_stable(
    alloc: Global,
    plain: &AfPlain,
    set: &NumSet,
    marks: &mut Marks,
) -> Result<bool, Memory>
    ensures { IfOk result (λ is. IsTrue is ↔ IsStable plain.now set.now) }
{
    mark_attacked(alloc, plain, set, marks)?;
    let apart = are_free(plain, set, marks);
    if !apart {
        return Ok(false);
    }
    let others = attacks_others(plain, set, marks);
    Ok(others)
}

/// Whether a set is complete, where the arguments that nothing attacks are listed. The time is linear in the set, in the
/// attacks on what it attacks and in those that leave this, but for look-ups and for the order of what is reached.
pub fn is_complete(
    alloc: Global,
    plain: &AfPlain,
    unattacked: &[u32],
    set: &NumSet,
    marks: &mut Marks,
) -> Result<bool, Memory>
    requires { AreUnattacked plain.now unattacked.now }
    ensures { IfOk result (λ is. IsTrue is ↔ IsComplete plain.now set.now) }
{
    let _live = plain.live();
    mark_attacked(alloc, plain, set, marks)?;
    let apart = are_free(plain, set, marks);
    if !apart {
        return Ok(false);
    }
    let defended = defends_itself(plain, set, marks);
    if !defended {
        return Ok(false);
    }
    let holds = holds_all(set, unattacked);
    if !holds {
        return Ok(false);
    }
    let complete = holds_reached(alloc, plain, set, marks)?;
    Ok(complete)
}

/// The live arguments that nothing attacks.
pub fn unattacked(alloc: Global, plain: &AfPlain) -> Result<Vec<u32>, Memory>
    ensures { IfOk result (λ found. AreUnattacked plain.now found.items) }
{
    let mut found = Vec::new(alloc);
    for argument in plain.live() {
        add_if_unattacked(&mut found, plain, *argument)?;
    }
    Ok(found)
}

/// Adds an argument if nothing attacks it.
fn add_if_unattacked(found: &mut Vec<u32>, plain: &AfPlain, argument: u32) -> Result<(), Memory>
    ensures { OnOk result (GainsUnattacked plain.now argument found.old.items found.new.items) }
{
    let alone = is_unattacked(plain, argument);
    if !alone {
        return Ok(());
    }
    found.push(argument)?;
    Ok(())
}

/// Whether nothing attacks an argument.
fn is_unattacked(plain: &AfPlain, argument: u32) -> bool
    ensures { IsTrue result ↔ IsUnattacked plain.now argument }
{
    plain.attackers_of(argument).is_empty()
}

/// Whether the numbers are members.
fn holds_all(set: &NumSet, numbers: &[u32]) -> bool
    ensures { IsTrue result ↔ ((x : ℕ) → Contains numbers.now x → Contains set.now x) }
{
    numbers.iter().all(|number| set.contains(*number))
}

/// Whether the set holds what it defends and reaches by two attacks or fewer; what it attacks is marked.
fn holds_reached(
    alloc: Global,
    plain: &AfPlain,
    set: &NumSet,
    attacked: &Marks,
) -> Result<bool, Memory>
    requires { AreMarked (IsAttackedBy plain.now set.now) attacked.now }
    ensures { IfOk result (λ holds. IsTrue holds ↔ HoldsReached plain.now set.now) }
{
    let range = plain.range_of(alloc, set)?;
    let reached = plain.range_of(alloc, &range)?;
    let holds = holds_defended(plain, set, attacked, reached.as_slice());
    Ok(holds)
}

/// Whether the set holds each of the numbers that it defends; what it attacks is marked.
fn holds_defended(plain: &AfPlain, set: &NumSet, attacked: &Marks, numbers: &[u32]) -> bool
    requires { AreMarked (IsAttackedBy plain.now set.now) attacked.now }
    ensures { IsTrue result ↔ ((a : ℕ) → Contains numbers.now a → Defends plain.now set.now a → Contains set.now a) }
{
    numbers
        .iter()
        .all(|argument| is_held(plain, set, attacked, *argument))
}

/// Whether an argument is a member, if all its attackers are marked.
fn is_held(plain: &AfPlain, set: &NumSet, attacked: &Marks, argument: u32) -> bool
    ensures { IsTrue result ↔ (((b : ℕ) → Attacks plain.now b argument → IsTrue (is_marked attacked.now b))
        → Contains set.now argument) }
{
    set.contains(argument) || !is_defended(plain, attacked, argument)
}

/// Marks what a set attacks, and nothing else.
fn mark_attacked(
    alloc: Global,
    plain: &AfPlain,
    set: &NumSet,
    marks: &mut Marks,
) -> Result<(), Memory>
    ensures { OnOk result (AreMarked (IsAttackedBy plain.now set.now) marks.new) }
{
    marks.clear(alloc, bound_of(plain))?;
    for member in set.as_slice() {
        mark_targets(plain, *member, marks);
    }
    Ok(())
}

/// One more than the largest live argument, or 0 where there is none.
fn bound_of(plain: &AfPlain) -> usize
    ensures above { (a : ℕ) → Contains plain.now.live a → a < result }
    ensures form { IsNumberedAf plain.now }
{
    match plain.live().last() {
        Some(largest) => *largest as usize + 1,
        None => 0,
    }
}

/// Marks what an argument attacks, beside what is marked.
fn mark_targets(plain: &AfPlain, argument: u32, marks: &mut Marks)
    requires { (b a : ℕ) → Attacks plain.now b a → a < length marks.old }
    ensures { MarksAlso (Attacks plain.now argument) marks.old marks.new }
{
    let targets = plain.targets_of(argument);
    for pair in targets {
        marks.mark(pair.1);
    }
}

/// Whether the members are live and none is attacked by a member; what the set attacks is marked.
fn are_free(plain: &AfPlain, set: &NumSet, attacked: &Marks) -> bool
    requires { AreMarked (IsAttackedBy plain.now set.now) attacked.now }
    ensures { IsTrue result ↔ IsConflictFree plain.now set.now }
{
    set.as_slice()
        .iter()
        .all(|member| is_free(plain, attacked, *member))
}

/// Whether an argument is live and not marked.
fn is_free(plain: &AfPlain, attacked: &Marks, argument: u32) -> bool
    ensures { IsTrue result ↔ (Contains plain.now.live argument × ¬ IsTrue (is_marked attacked.now argument)) }
{
    plain.is_live(argument) && !attacked.has(argument)
}

/// Whether the set attacks each attacker of a member; what it attacks is marked.
fn defends_itself(plain: &AfPlain, set: &NumSet, attacked: &Marks) -> bool
    requires { AreMarked (IsAttackedBy plain.now set.now) attacked.now }
    ensures { IsTrue result ↔ ((a : ℕ) → Contains set.now a → Defends plain.now set.now a) }
{
    set.as_slice()
        .iter()
        .all(|member| is_defended(plain, attacked, *member))
}

/// Whether each attacker of an argument is marked.
fn is_defended(plain: &AfPlain, attacked: &Marks, argument: u32) -> bool
    ensures { IsTrue result ↔ ((b : ℕ) → Attacks plain.now b argument → IsTrue (is_marked attacked.now b)) }
{
    plain
        .attackers_of(argument)
        .iter()
        .all(|pair| attacked.has(pair.1))
}

/// Whether the set attacks each live argument outside it; what it attacks is marked.
fn attacks_others(plain: &AfPlain, set: &NumSet, attacked: &Marks) -> bool
    requires { AreMarked (IsAttackedBy plain.now set.now) attacked.now }
    ensures { IsTrue result ↔ ((a : ℕ) → Contains plain.now.live a → ¬ Contains set.now a
        → IsAttackedBy plain.now set.now a) }
{
    plain
        .live()
        .iter()
        .all(|argument| is_covered(set, attacked, *argument))
}

/// Whether a number is marked, if it is no member.
fn is_covered(set: &NumSet, attacked: &Marks, number: u32) -> bool
    ensures { IsTrue result ↔ (¬ Contains set.now number → IsTrue (is_marked attacked.now number)) }
{
    attacked.has(number) || set.contains(number)
}
