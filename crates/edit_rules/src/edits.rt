//! Edits of a framework.

ghost use Rattle.std.specs.Prelude.{◌≡◌, ◌↔◌, ◌==◌, ◌⊎◌, ◌∷◌, ◌++◌, [], ℕ, not, Contains};
ghost use Rattle.std.specs.Prelude.{IfOk, IfErr, OnErr, OnOk, filter, Ok, Err};
ghost use Rattle.std.specs.List.Sorted.{IsStrictlyIncreasing};
ghost use Rattle.semantics.specs.Arguments.{IsArgument};
ghost use Rattle.semantics.specs.Framework.{Af};
ghost use Rattle.semantics.specs.Frameworks.{IsNumberedAf, af};
ghost use Rattle.edit_rules.specs.Kinds.{framework_of};
ghost use Rattle.edit_rules.specs.Edits.{af_with_argument};
ghost use Rattle.edit_rules.specs.Edits.{argument_added, argument_dropped, attack_added, attack_dropped};
ghost use Rattle.edit_rules.specs.Numbers.{with_number};
ghost use Rattle.edit_rules.specs.Edits.{edit_outcome, end_refusals, is_end, outside, row_outcome, unknown};
ghost use Rattle.edit_rules.specs.Applying.{AreTold, ComesTo};
ghost use Rattle.edit_rules.specs.declared.effect.EditFault.TheVariants.{Memory};

use crate::framework::Framework;
use crate::{Edit, EditFault, Effect, apply_aba, numbers_but};
use dung_notions::AfPlain;
use lists::{Items, Memory as OutOfMemory};
use semantics::MAX_ARGUMENT;
use set_lists::NumSet;
use std::alloc::Global;

/// Changes a framework by an edit. Each edit refuses in the order of its row: `WrongKind`, `OutOfRange` with the first
/// number outside its range, and then what the edit itself asks for. After every `Err` the framework is as before.
/// The time is linear in the framework. An attack comes or goes in place: nothing is sorted or made anew.
pub fn apply(alloc: Global, framework: &mut Framework, edit: &Edit) -> Result<Effect, EditFault>
    ensures done { IfOk result (λ effect.
        edit_outcome (framework_of framework.old) edit.now ≡ Ok (framework_of framework.new, effect)) }
    ensures fault { IfErr result (λ fault.
        (fault ≡ Memory) ⊎ (edit_outcome (framework_of framework.old) edit.now ≡ Err fault)) }
    ensures kept { OnErr result (framework.new ≡ framework.old) }
{
    match framework {
        Framework::Af(plain) => apply_af(alloc, plain, edit),
        Framework::Aba(plain) => apply_aba(alloc, plain, edit),
    }
}

/// Changes an abstract framework by an edit.
fn apply_af(alloc: Global, plain: &mut AfPlain, edit: &Edit) -> Result<Effect, EditFault>
    ensures done { IfOk result (λ effect. edit_outcome (af plain.old) edit.now ≡ Ok (af plain.new, effect)) }
    ensures fault { IfErr result (λ fault. (fault ≡ Memory) ⊎ (edit_outcome (af plain.old) edit.now ≡ Err fault)) }
    ensures kept { OnErr result (plain.new ≡ plain.old) }
{
    match edit {
        Edit::ArgAdd(number) => {
            let (after, effect) = add_argument(alloc, plain, *number)?;
            *plain = after;
            Ok(effect)
        }
        Edit::ArgDrop(number) => {
            let (after, effect) = drop_argument(alloc, plain, *number)?;
            *plain = after;
            Ok(effect)
        }
        Edit::AttackAdd(attacker, target) => add_attack(alloc, plain, *attacker, *target),
        Edit::AttackDrop(attacker, target) => drop_attack(alloc, plain, *attacker, *target),
        Edit::AsmAdd(_, _)
        | Edit::AsmDrop(_)
        | Edit::ConSet(_, _)
        | Edit::ConAdd(_, _)
        | Edit::ConDrop(_, _)
        | Edit::RuleAdd(_, _)
        | Edit::RuleDrop(_) => Err(EditFault::WrongKind),
    }
}

/// Refuses a number that no argument may have.
fn check_range(number: u32) -> Result<(), EditFault>
    ensures told { AreTold (outside number ∷ []) result }
    ensures argument { OnOk result (IsArgument number) }
{
    if number < 1 || MAX_ARGUMENT < number {
        return Err(EditFault::OutOfRange(number));
    }
    Ok(())
}

/// Refuses an argument that isn't live.
fn check_live(plain: &AfPlain, argument: u32) -> Result<(), EditFault>
    ensures told { AreTold (unknown plain.now argument ∷ []) result }
    ensures live { OnOk result (Contains plain.now.live argument) }
{
    if !plain.is_live(argument) {
        return Err(EditFault::UnknownArgument(argument));
    }
    Ok(())
}

/// Refuses the ends of an attack, which must be live arguments.
pub fn check_ends(plain: &AfPlain, attacker: u32, target: u32) -> Result<(), EditFault>
    ensures told { AreTold (end_refusals plain.now attacker target) result }
    ensures live { OnOk result (Contains plain.now.live attacker × Contains plain.now.live target) }
{
    check_range(attacker)?;
    check_range(target)?;
    check_live(plain, attacker)?;
    check_live(plain, target)
}

/// Makes an argument live.
fn add_argument(alloc: Global, plain: &AfPlain, number: u32) -> Result<(AfPlain, Effect), EditFault>
    ensures { ComesTo (row_outcome (argument_added plain.now number)) result }
{
    check_range(number)?;
    if plain.is_live(number) {
        return Err(EditFault::ArgumentIsThere);
    }
    let after = with_argument(alloc, plain, number)?;
    Ok((after, Effect::of_edit(alloc, Edit::ArgAdd(number))))
}

/// Takes an argument away with its attacks.
fn drop_argument(
    alloc: Global,
    plain: &AfPlain,
    number: u32,
) -> Result<(AfPlain, Effect), EditFault>
    ensures { ComesTo (row_outcome (argument_dropped plain.now number)) result }
{
    check_range(number)?;
    check_live(plain, number)?;
    let attacks = plain.attacks(alloc)?;
    let dropped = attacks_at(alloc, &attacks, number)?;
    let after = without_argument(alloc, plain, number)?;
    Ok((
        after,
        Effect::with_dropped(alloc, Edit::ArgDrop(number), dropped),
    ))
}

/// Adds an attack.
fn add_attack(
    alloc: Global,
    plain: &mut AfPlain,
    attacker: u32,
    target: u32,
) -> Result<Effect, EditFault>
    ensures done { IfOk result (λ effect.
        row_outcome (attack_added plain.old attacker target) ≡ Ok (af plain.new, effect)) }
    ensures fault { IfErr result (λ fault.
        (fault ≡ Memory) ⊎ (row_outcome (attack_added plain.old attacker target) ≡ Err fault)) }
    ensures kept { OnErr result (plain.new ≡ plain.old) }
{
    let _form = plain.live();
    check_ends(plain, attacker, target)?;
    if plain.has_attack(attacker, target) {
        return Err(EditFault::AttackIsThere);
    }
    plain.insert_attack(attacker, target)?;
    Ok(Effect::of_edit(alloc, Edit::AttackAdd(attacker, target)))
}

/// Takes an attack away.
fn drop_attack(
    alloc: Global,
    plain: &mut AfPlain,
    attacker: u32,
    target: u32,
) -> Result<Effect, EditFault>
    ensures done { IfOk result (λ effect.
        row_outcome (attack_dropped plain.old attacker target) ≡ Ok (af plain.new, effect)) }
    ensures fault { IfErr result (λ fault.
        (fault ≡ Memory) ⊎ (row_outcome (attack_dropped plain.old attacker target) ≡ Err fault)) }
    ensures kept { OnErr result (plain.new ≡ plain.old) }
{
    let _form = plain.live();
    check_ends(plain, attacker, target)?;
    if !plain.has_attack(attacker, target) {
        return Err(EditFault::NoSuchAttack);
    }
    plain.remove_attack(attacker, target);
    Ok(Effect::of_edit(alloc, Edit::AttackDrop(attacker, target)))
}

/// The framework with an argument more.
fn with_argument(alloc: Global, plain: &AfPlain, number: u32) -> Result<AfPlain, OutOfMemory>
    requires { IsArgument number }
    ensures { IfOk result (λ after. after ≡ af_with_argument plain.now number) }
{
    let mut live = NumSet::from_rising(alloc, plain.live())?;
    live.insert(number)?;
    let attacks = plain.attacks(alloc)?;
    AfPlain::new(alloc, live, attacks)
}

/// The framework without an argument and its attacks.
fn without_argument(alloc: Global, plain: &AfPlain, number: u32) -> Result<AfPlain, OutOfMemory>
    ensures { IfOk result (λ after. after ≡ record {
      live = filter (λ a. not (a == number)) plain.now.live;
      attacks = filter (λ p. not (is_end number p)) plain.now.attacks;
    }) }
{
    let live = numbers_but(alloc, plain.live(), number)?;
    let attacks = plain.attacks(alloc)?;
    let kept = attacks_but(alloc, &attacks, number)?;
    AfPlain::new(alloc, live, kept)
}

/// The attacks of which the argument is no end.
fn attacks_but(
    alloc: Global,
    attacks: &[(u32, u32)],
    gone: u32,
) -> Result<Vec<(u32, u32)>, OutOfMemory>
    ensures { IfOk result (λ kept. kept.items ≡ filter (λ p. not (is_end gone p)) attacks.now) }
{
    Ok(
        attacks
            .iter()
            .copied()
            .filter(|pair| pair.0 != gone && pair.1 != gone)
            .collect(alloc)?,
    )
}

/// The attacks of which the argument is an end.
fn attacks_at(
    alloc: Global,
    attacks: &[(u32, u32)],
    argument: u32,
) -> Result<Items<(u32, u32)>, OutOfMemory>
    ensures { IfOk result (λ found. found ≡ filter (is_end argument) attacks.now) }
{
    let found = attacks
        .iter()
        .copied()
        .filter(|pair| pair.0 == argument || pair.1 == argument)
        .collect(alloc)?;
    Ok(Items::from_vec(found))
}
