//! The axioms that an edit calls for.

ghost use Rattle.std.specs.Prelude.{◌≡◌, ◌↔◌, ◌≤◌, ◌++◌, Contains, IfNone, IfOk, IfSome, Ok, OnOk, map};
ghost use Rattle.semantics.specs.Framework.{Af};
ghost use Rattle.semantics.specs.Frameworks.{af, IsNumberedAf};
ghost use Rattle.meaning_atoms.specs.declared.axiom.AxiomName.{AxiomName as AName};
ghost use Rattle.semantics.specs.Arguments.{IsArgument};
ghost use Rattle.af_encoding.specs.Changes.{Gains, HasNoneAfter, IsAlone, IsCalledByAttack, IsCalledByLoss, IsCalledByPair};
ghost use Rattle.af_encoding.specs.Changes.{IsCalledByPairs, IsCalledFor, IsEdited, IsEffectOf, IsNextAfter, IsPast};
ghost use Rattle.af_encoding.specs.Changes.{GainsCalled, IsPlaceBefore};

use crate::needed_axioms::push_all;
use dung_notions::AfPlain;
use edit_rules::{Edit, Effect};
use lists::{Items, Memory};
use meaning_atoms::AfAxiom::{A1, A2, A3, A4, A5, A6, A7, A8, A9, A10, A11, A12, A13};
use meaning_atoms::AxiomName;
use std::alloc::Global;

/// The axioms that a search needs of a framework behind an edit and did not need before it. `plain` is the framework
/// behind the edit, and `effect` what the edit did. They are found from the neighbours of what came or went in the
/// rising lists of attackers, in time logarithmic in these for each attack that came or went. `Memory` says that an
/// allocation was refused.
pub fn changed(alloc: Global, plain: &AfPlain, effect: &Effect) -> Result<Items<AxiomName>, Memory>
    requires { IsEdited (af plain.now) effect.now }
    ensures { IfOk result (λ names. (before : Af) → IsNumberedAf before
        → IsEffectOf (af before) (af plain.now) effect.now → (name : AName) → Contains names name ↔ IsCalledFor (af before) (af plain.now) name) }
{
    let _live = plain.live();
    let mut names = Vec::new(alloc);
    push_changed(plain, &mut names, effect)?;
    Ok(Items::from_vec(names))
}

/// Adds the axioms that an edit calls for.
fn push_changed(plain: &AfPlain, names: &mut Vec<AxiomName>, effect: &Effect) -> Result<(), Memory>
    requires form { IsNumberedAf plain.now }
    requires effect { IsEdited (af plain.now) effect.now }
    ensures { OnOk result (GainsCalled plain.now effect.now names.old.items names.new.items) }
{
    match &effect.edit {
        Edit::ArgAdd(argument) => push_argument(names, *argument),
        Edit::ArgDrop(argument) => {
            push_targets(plain, names, *argument, effect.dropped.as_slice())
        }
        Edit::AttackAdd(attacker, target) => push_attack(plain, names, *attacker, *target),
        Edit::AttackDrop(attacker, target) => push_past(plain, names, *target, *attacker),
        Edit::AsmAdd(_, _)
        | Edit::AsmDrop(_)
        | Edit::ConSet(_, _)
        | Edit::ConAdd(_, _)
        | Edit::ConDrop(_, _)
        | Edit::RuleAdd(_, _)
        | Edit::RuleDrop(_) => Ok(()),
    }
}

/// Adds the axioms of an argument without attackers.
fn push_argument(names: &mut Vec<AxiomName>, argument: u32) -> Result<(), Memory>
    ensures { OnOk result (Gains (IsAlone argument) names.old.items names.new.items) }
{
    let a = argument;
    push_all(
        names,
        &[
            A1(a),
            A6(a, 1),
            A7(a),
            A9(a, 1),
            A10(a),
            A11(a),
            A12(a),
            A13(a),
        ],
    )
}

/// Adds the axioms of an attack that came.
fn push_attack(
    plain: &AfPlain,
    names: &mut Vec<AxiomName>,
    attacker: u32,
    target: u32,
) -> Result<(), Memory>
    requires form { IsNumberedAf plain.now }
    requires argument { IsArgument attacker }
    ensures { OnOk result (Gains (IsCalledByAttack plain.now attacker target) names.old.items names.new.items) }
{
    let (a, b) = (target, attacker);
    let start = place_before(plain, a, b);
    push_all(
        names,
        &[
            A2(b, a),
            A3(b, a),
            A4(b, a),
            A5(a, start, b),
            A8(a, start, b),
        ],
    )?;
    push_step(plain, names, a, b + 1, b)
}

/// Adds the axioms of the step past an attacker that went.
fn push_past(
    plain: &AfPlain,
    names: &mut Vec<AxiomName>,
    target: u32,
    attacker: u32,
) -> Result<(), Memory>
    requires form { IsNumberedAf plain.now }
    requires low { 1 ≤ attacker }
    ensures { OnOk result (Gains (IsCalledByLoss plain.now attacker target) names.old.items names.new.items) }
{
    let start = place_before(plain, target, attacker);
    push_step(plain, names, target, start, attacker)
}

/// Adds the axioms of the step past a dropped argument for each of its targets.
fn push_targets(
    plain: &AfPlain,
    names: &mut Vec<AxiomName>,
    argument: u32,
    dropped: &[(u32, u32)],
) -> Result<(), Memory>
    requires form { IsNumberedAf plain.now }
    requires low { 1 ≤ argument }
    ensures { OnOk result (Gains (IsCalledByPairs plain.now argument dropped.now) names.old.items names.new.items) }
{
    for attack in dropped {
        push_target(plain, names, argument, *attack)?;
    }
    Ok(())
}

/// Adds the axioms of the step past a dropped argument, where the attack left it and reached another one.
fn push_target(
    plain: &AfPlain,
    names: &mut Vec<AxiomName>,
    argument: u32,
    attack: (u32, u32),
) -> Result<(), Memory>
    requires form { IsNumberedAf plain.now }
    requires low { 1 ≤ argument }
    ensures { OnOk result (Gains (IsCalledByPair plain.now argument attack) names.old.items names.new.items) }
{
    if attack.0 != argument || attack.1 == argument {
        return Ok(());
    }
    push_past(plain, names, attack.1, argument)
}

/// Adds the axioms of the step of the walk from a place to the first attacker past a number, or of the walk's end.
fn push_step(
    plain: &AfPlain,
    names: &mut Vec<AxiomName>,
    target: u32,
    start: u32,
    number: u32,
) -> Result<(), Memory>
    requires form { IsNumberedAf plain.now }
    ensures { OnOk result (Gains (IsPast plain.now target (λ k. k ≡ start) number) names.old.items names.new.items) }
{
    match next_after(plain, target, number) {
        Some(next) => push_all(names, &[A5(target, start, next), A8(target, start, next)]),
        None => push_all(names, &[A6(target, start), A9(target, start)]),
    }
}

/// The place from which the walk along the attackers of an argument comes to a number.
fn place_before(plain: &AfPlain, argument: u32, number: u32) -> u32
    requires form { IsNumberedAf plain.now }
    requires low { 1 ≤ number }
    ensures { IsPlaceBefore plain.now argument number result }
{
    let attackers = plain.attackers_of(argument);
    let before = attackers.partition_point(|pair| pair.1 < number);
    if before == 0 {
        return 1;
    }
    attackers[before - 1].1 + 1
}

/// The first attacker of an argument past a number.
fn next_after(plain: &AfPlain, argument: u32, number: u32) -> Option<u32>
    ensures some { IfSome result (IsNextAfter plain.now argument number) }
    ensures none { IfNone result (HasNoneAfter plain.now argument number) }
{
    let attackers = plain.attackers_of(argument);
    let first = attackers.partition_point(|pair| pair.1 <= number);
    match attackers.get(first) {
        Some(attacker) => Some(attacker.1),
        None => None,
    }
}
