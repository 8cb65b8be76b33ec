//! Groups of edits that make attacks come or go in place. What they do is worked out first, beside the framework: the
//! edits are tested against it, and each attack that they name is noted, with whether it is there at the end. Then the
//! attacks that weren't there come; where there is no memory for one, those before it go again, which takes none. At
//! last the attacks that aren't there at the end go.

ghost use Rattle.std.specs.Prelude.{◌≡◌, ◌⊎◌, ◌<◌, ◌+◌, map, take, length, filter};
ghost use Rattle.std.specs.Prelude.{Err, IfErr, IfNone, IfOk, IfSome, IsTrue, OnErr, OnOk};
ghost use Rattle.semantics.specs.Framework.{Af};
ghost use Rattle.semantics.specs.Frameworks.{af};
ghost use Rattle.indexmap.specs.IndexMap.{keys};
ghost use Rattle.edit_rules.specs.declared.edit.Edit.TheVariants.{AttackAdd, AttackDrop};
ghost use Rattle.edit_rules.specs.declared.effect.EditFault.TheVariants.{Memory as NoMemory};
ghost use Rattle.edit_rules.specs.Edits.{edit_outcome};
ghost use Rattle.edit_rules.specs.Effects.{plain_effect};
ghost use Rattle.edit_rules.specs.Replay.{replay};
ghost use Rattle.edit_groups.specs.Changes.{AreTakenIn, IsChanged, IsTakenIn, comes, goes, told_of};
ghost use Rattle.edit_groups.specs.Taking.{IsGroupFault, IsGroupTaken};

use crate::attack_changes::{AttackChanges, has_attack, is_there};
use crate::pair_lists::{insert_all, remove_all};
use crate::taking::{Effects, GroupFault, fault_at};
use dung_notions::AfPlain;
use edit_rules::{Edit, EditFault, Effect, check_ends};
use lists::{Items, Memory};
use std::alloc::Global;

/// Changes an abstract framework in place by a group of edits, or leaves it as it was. `None` says that one of the
/// edits makes no attack come or go.
pub(crate) fn apply_in_place(
    alloc: Global,
    plain: &mut AfPlain,
    edits: &[Edit],
) -> Result<Option<Effects>, GroupFault>
    ensures taken { IfOk result (λ done. IfSome done (λ effects.
        IsGroupTaken (af plain.old) edits.now effects.kept (af plain.new))) }
    ensures told { IfOk result (λ done. IfSome done (λ effects. effects.told ≡ effects.kept)) }
    ensures none { IfOk result (λ done. IfNone done (plain.new ≡ plain.old)) }
    ensures fault { IfErr result (IsGroupFault (af plain.old) edits.now) }
    ensures kept { OnErr result (plain.new ≡ plain.old) }
{
    match changes_of(alloc, plain, edits)? {
        Some(changes) => Ok(Some(make(alloc, plain, edits, &changes)?)),
        None => Ok(None),
    }
}

/// Makes the changes of edits that are taken, and tells their effects.
fn make(
    alloc: Global,
    plain: &mut AfPlain,
    edits: &[Edit],
    changes: &AttackChanges,
) -> Result<Effects, Memory>
    requires { AreTakenIn plain.old edits.now changes.now }
    ensures taken { IfOk result (λ effects. IsGroupTaken (af plain.old) edits.now effects.kept (af plain.new)) }
    ensures told { IfOk result (λ effects. effects.told ≡ effects.kept) }
    ensures kept { OnErr result (plain.new ≡ plain.old) }
{
    let kept = plain_effects(alloc, edits)?;
    let told = plain_effects(alloc, edits)?;
    make_changes(alloc, plain, edits, changes)?;
    Ok(Effects { kept, told })
}

/// Makes the changes of edits that are taken.
fn make_changes(
    alloc: Global,
    plain: &mut AfPlain,
    edits: &[Edit],
    changes: &AttackChanges,
) -> Result<(), Memory>
    requires { AreTakenIn plain.old edits.now changes.now }
    ensures behind { OnOk result (af plain.new ≡ replay (af plain.old) edits.now) }
    ensures kept { OnErr result (plain.new ≡ plain.old) }
{
    let coming = pairs_coming(alloc, plain, changes)?;
    let going = pairs_going(alloc, changes)?;
    insert_all(plain, coming.as_slice())?;
    remove_all(plain, going.as_slice());
    Ok(())
}

/// The pairs of the attacks that are there behind the changes and weren't before.
fn pairs_coming(
    alloc: Global,
    plain: &AfPlain,
    changes: &AttackChanges,
) -> Result<Vec<(u32, u32)>, Memory>
    ensures { IfOk result (λ pairs. pairs.items
        ≡ filter (λ p. comes plain.now.attacks p (told_of changes.now p)) (keys changes.now.there)) }
{
    Ok(
        changes
            .there
            .keys()
            .copied()
            .filter(|pair| comes_behind(plain, changes, *pair))
            .collect(alloc)?,
    )
}

/// The pairs of the attacks that aren't there behind the changes, of those that the edits name.
fn pairs_going(alloc: Global, changes: &AttackChanges) -> Result<Vec<(u32, u32)>, Memory>
    ensures { IfOk result (λ pairs. pairs.items
        ≡ filter (λ p. goes (told_of changes.now p)) (keys changes.now.there)) }
{
    Ok(
        changes
            .there
            .keys()
            .copied()
            .filter(|pair| goes_behind(changes, *pair))
            .collect(alloc)?,
    )
}

/// Whether an attack is there behind the changes that wasn't before.
fn comes_behind(plain: &AfPlain, changes: &AttackChanges, pair: (u32, u32)) -> bool
    ensures { result ≡ comes plain.now.attacks pair (told_of changes.now pair) }
{
    match changes.find(pair) {
        Some(there) => there && !has_attack(plain, pair),
        None => false,
    }
}

/// Whether the edits name an attack that isn't there behind them.
fn goes_behind(changes: &AttackChanges, pair: (u32, u32)) -> bool
    ensures { result ≡ goes (told_of changes.now pair) }
{
    match changes.find(pair) {
        Some(there) => !there,
        None => false,
    }
}

/// What edits do that take nothing along.
fn plain_effects(alloc: Global, edits: &[Edit]) -> Result<Items<Effect>, Memory>
    ensures { IfOk result (λ effects. effects ≡ map plain_effect edits.now) }
{
    let mut effects = Items::new(alloc);
    for edit in edits {
        effects.push(Effect::of_edit(alloc, edit.copy(alloc)?))?;
    }
    Ok(effects)
}

/// The changes that edits make, one behind the other, where each of them makes an attack come or go and is taken.
fn changes_of(
    alloc: Global,
    plain: &AfPlain,
    edits: &[Edit],
) -> Result<Option<AttackChanges>, GroupFault>
    ensures taken { IfOk result (λ told. IfSome told (AreTakenIn plain.now edits.now)) }
    ensures fault { IfErr result (IsGroupFault (af plain.now) edits.now) }
{
    let _form = plain.live();
    let mut changes = AttackChanges::new(alloc);
    for index in 0..edits.len() {
        if !take_at(plain, edits, index, &mut changes)? {
            return Ok(None);
        }
    }
    Ok(Some(changes))
}

/// Notes the change of the edit at an index, behind those of the edits before it. It answers false for an edit that
/// makes no attack come or go.
fn take_at(
    plain: &AfPlain,
    edits: &[Edit],
    index: usize,
    changes: &mut AttackChanges,
) -> Result<bool, GroupFault>
    requires index { index < length edits.now }
    requires taken { AreTakenIn plain.now (take index edits.now) changes.old }
    ensures taken { IfOk result (λ told. IsTrue told → AreTakenIn plain.now (take (index + 1) edits.now) changes.new) }
    ensures fault { IfErr result (IsGroupFault (af plain.now) edits.now) }
{
    match take_edit(plain, &edits[index], changes) {
        Ok(told) => Ok(told),
        Err(fault) => Err(fault_at(index as u64 + 1, fault)),
    }
}

/// Notes the change of an edit that makes an attack come or go, and answers false for every other.
fn take_edit(plain: &AfPlain, edit: &Edit, changes: &mut AttackChanges) -> Result<bool, EditFault>
    ensures taken { IfOk result (λ told. IsTrue told → IsTakenIn plain.now edit.now changes.old changes.new) }
    ensures fault { IfErr result (λ fault. (fault ≡ NoMemory)
        ⊎ ((g : Af) → IsChanged plain.now changes.old g → edit_outcome (af g) edit.now ≡ Err fault)) }
{
    match edit {
        Edit::AttackAdd(attacker, target) => take_addition(plain, changes, *attacker, *target),
        Edit::AttackDrop(attacker, target) => take_removal(plain, changes, *attacker, *target),
        _ => Ok(false),
    }
}

/// Notes an attack that comes.
fn take_addition(
    plain: &AfPlain,
    changes: &mut AttackChanges,
    attacker: u32,
    target: u32,
) -> Result<bool, EditFault>
    ensures taken { OnOk result (IsTakenIn plain.now (AttackAdd attacker target) changes.old changes.new) }
    ensures fault { IfErr result (λ fault. (fault ≡ NoMemory) ⊎ ((g : Af) → IsChanged plain.now changes.old g
        → edit_outcome (af g) (AttackAdd attacker target) ≡ Err fault)) }
{
    check_ends(plain, attacker, target)?;
    if is_there(plain, changes, (attacker, target)) {
        return Err(EditFault::AttackIsThere);
    }
    changes.note((attacker, target), true)?;
    Ok(true)
}

/// Notes an attack that goes.
fn take_removal(
    plain: &AfPlain,
    changes: &mut AttackChanges,
    attacker: u32,
    target: u32,
) -> Result<bool, EditFault>
    ensures taken { OnOk result (IsTakenIn plain.now (AttackDrop attacker target) changes.old changes.new) }
    ensures fault { IfErr result (λ fault. (fault ≡ NoMemory) ⊎ ((g : Af) → IsChanged plain.now changes.old g
        → edit_outcome (af g) (AttackDrop attacker target) ≡ Err fault)) }
{
    check_ends(plain, attacker, target)?;
    if !is_there(plain, changes, (attacker, target)) {
        return Err(EditFault::NoSuchAttack);
    }
    changes.note((attacker, target), false)?;
    Ok(true)
}
