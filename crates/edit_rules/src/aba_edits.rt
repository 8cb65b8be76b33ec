//! Edits of a flat assumption-based framework.

ghost use Rattle.std.specs.Prelude.{◌≡◌, ◌⊎◌, IfOk, IfErr, OnErr, Ok, Err};
ghost use Rattle.edit_rules.specs.declared.edit.Edit.TheVariants.{RuleAdd};
ghost use Rattle.edit_rules.specs.declared.effect.EditFault.TheVariants.{Memory};
ghost use Rattle.edit_rules.specs.AbaEdits.{aba_outcome, aba_row_outcome};
ghost use Rattle.edit_rules.specs.AbaEdits.{assumption_added, assumption_dropped, contrary_set};
ghost use Rattle.edit_rules.specs.AbaEdits.{contrary_added, contrary_dropped, rule_added, rule_dropped};
ghost use Rattle.edit_rules.specs.Refusals.{NoneStands};
ghost use Rattle.edit_rules.specs.AbaEdits.{contraries_of, contrary_effect, rule_effect};
ghost use Rattle.edit_rules.specs.Parts.{ComesTo};

use crate::checks::{
    check_assumption, check_contrary_add, check_contrary_drop, check_drop, check_pair, check_rule,
    check_rule_drop,
};
use crate::makes::{
    body_at, rule_index, with_assumption, with_contrary, with_pair, with_rule, without_assumption,
    without_pair, without_rule,
};
use crate::{Edit, EditFault, Effect};
use aba_notions::AbaPlain;
use lists::{Items, Memory as OutOfMemory};
use std::alloc::Global;

/// Changes a flat assumption-based framework by an edit. Each edit refuses in the order of its row: `WrongKind` where
/// it is an edit of abstract frameworks, `OutOfRange` with the first number outside its range, in the order of the
/// edit's numbers, and then what the edit itself asks for. `RuleAdd` tells `OutOfRange(1000001)` last, where no number
/// is left for a rule. After every `Err` the framework is as before. The time is linear in the framework.
pub fn apply_aba(alloc: Global, plain: &mut AbaPlain, edit: &Edit) -> Result<Effect, EditFault>
    ensures done { IfOk result (λ effect. aba_outcome plain.old edit.now ≡ Ok (plain.new, effect)) }
    ensures fault { IfErr result (λ fault. (fault ≡ Memory) ⊎ (aba_outcome plain.old edit.now ≡ Err fault)) }
    ensures kept { OnErr result (plain.new ≡ plain.old) }
{
    let (after, effect) = copy_edited(alloc, plain, edit)?;
    *plain = after;
    Ok(effect)
}

/// The framework after an edit, and what the edit did.
fn copy_edited(
    alloc: Global,
    plain: &AbaPlain,
    edit: &Edit,
) -> Result<(AbaPlain, Effect), EditFault>
    ensures { ComesTo (aba_outcome plain.now edit.now) result }
{
    match edit {
        Edit::ArgAdd(_) | Edit::ArgDrop(_) | Edit::AttackAdd(_, _) | Edit::AttackDrop(_, _) => {
            Err(EditFault::WrongKind)
        }
        Edit::AsmAdd(assumption, contrary) => add_assumption(alloc, plain, *assumption, *contrary),
        Edit::AsmDrop(assumption) => drop_assumption(alloc, plain, *assumption),
        Edit::ConSet(assumption, contrary) => set_contrary(alloc, plain, *assumption, *contrary),
        Edit::ConAdd(assumption, contrary) => add_contrary(alloc, plain, *assumption, *contrary),
        Edit::ConDrop(assumption, contrary) => drop_contrary(alloc, plain, *assumption, *contrary),
        Edit::RuleAdd(head, body) => add_rule(alloc, plain, *head, body.as_slice()),
        Edit::RuleDrop(number) => drop_rule(alloc, plain, *number),
    }
}

/// Makes an atom an assumption.
fn add_assumption(
    alloc: Global,
    plain: &AbaPlain,
    assumption: u32,
    contrary: u32,
) -> Result<(AbaPlain, Effect), EditFault>
    ensures { ComesTo (aba_row_outcome (assumption_added plain.now assumption contrary)) result }
{
    check_assumption(plain, assumption, contrary)?;
    let after = with_assumption(alloc, plain, assumption, contrary)?;
    let edit = Edit::AsmAdd(assumption, contrary);
    Ok((after, Effect::of_edit(alloc, edit)))
}

/// Makes an assumption one no longer.
fn drop_assumption(
    alloc: Global,
    plain: &AbaPlain,
    assumption: u32,
) -> Result<(AbaPlain, Effect), EditFault>
    ensures { ComesTo (aba_row_outcome (assumption_dropped plain.now assumption)) result }
{
    check_drop(plain, assumption)?;
    let after = without_assumption(alloc, plain, assumption)?;
    let gone = contraries_in(alloc, plain, assumption)?;
    let edit = Edit::AsmDrop(assumption);
    Ok((after, effect_of(alloc, edit, gone)))
}

/// Gives an assumption one contrary alone, or none where that is 0.
fn set_contrary(
    alloc: Global,
    plain: &AbaPlain,
    assumption: u32,
    contrary: u32,
) -> Result<(AbaPlain, Effect), EditFault>
    ensures { ComesTo (aba_row_outcome (contrary_set plain.now assumption contrary)) result }
{
    check_pair(plain, 0, assumption, contrary)?;
    let after = with_contrary(alloc, plain, assumption, contrary)?;
    let gone = contraries_in(alloc, plain, assumption)?;
    let edit = Edit::ConSet(assumption, contrary);
    Ok((after, effect_of(alloc, edit, gone)))
}

/// Gives an assumption one contrary more.
fn add_contrary(
    alloc: Global,
    plain: &AbaPlain,
    assumption: u32,
    contrary: u32,
) -> Result<(AbaPlain, Effect), EditFault>
    ensures { ComesTo (aba_row_outcome (contrary_added plain.now assumption contrary)) result }
{
    check_contrary_add(plain, assumption, contrary)?;
    let after = with_pair(alloc, plain, assumption, contrary)?;
    let edit = Edit::ConAdd(assumption, contrary);
    Ok((after, Effect::of_edit(alloc, edit)))
}

/// Takes one contrary of an assumption away.
fn drop_contrary(
    alloc: Global,
    plain: &AbaPlain,
    assumption: u32,
    contrary: u32,
) -> Result<(AbaPlain, Effect), EditFault>
    ensures { ComesTo (aba_row_outcome (contrary_dropped plain.now assumption contrary)) result }
{
    check_contrary_drop(plain, assumption, contrary)?;
    let after = without_pair(alloc, plain, assumption, contrary)?;
    let edit = Edit::ConDrop(assumption, contrary);
    Ok((after, Effect::of_edit(alloc, edit)))
}

/// Adds a rule.
fn add_rule(
    alloc: Global,
    plain: &AbaPlain,
    head: u32,
    body: &[u32],
) -> Result<(AbaPlain, Effect), EditFault>
    ensures { ComesTo (aba_row_outcome (rule_added plain.now head body.now)) result }
{
    check_rule(plain, head, body)?;
    let after = with_rule(alloc, plain, head, body)?;
    let edit = rule_edit(alloc, head, body)?;
    Ok((after, numbered_effect(alloc, edit, plain.next())))
}

/// Takes a rule away.
fn drop_rule(alloc: Global, plain: &AbaPlain, number: u32) -> Result<(AbaPlain, Effect), EditFault>
    ensures { ComesTo (aba_row_outcome (rule_dropped plain.now number)) result }
{
    check_rule_drop(plain, number)?;
    let after = without_rule(alloc, plain, number)?;
    Ok((after, effect_of_drop(alloc, plain, number)?))
}

/// The edit that adds a rule.
fn rule_edit(alloc: Global, head: u32, body: &[u32]) -> Result<Edit, OutOfMemory>
    ensures { IfOk result (λ edit. edit ≡ RuleAdd head body.now) }
{
    let body = Items::from_vec(Vec::from_slice(alloc, body)?);
    Ok(Edit::RuleAdd(head, body))
}

/// The contraries of an atom, rising. It has none where it is no assumption.
fn contraries_in(
    alloc: Global,
    plain: &AbaPlain,
    assumption: u32,
) -> Result<Items<u32>, OutOfMemory>
    ensures { IfOk result (λ gone. gone ≡ contraries_of plain.now.contraries assumption) }
{
    let pairs = plain.contraries_of(assumption);
    let gone = pairs.iter().map(|pair| pair.1).collect(alloc)?;
    Ok(Items::from_vec(gone))
}

/// The effect of an edit that took contraries away.
fn effect_of(alloc: Global, edit: Edit, gone: Items<u32>) -> Effect
    ensures { result ≡ contrary_effect edit gone }
{
    Effect {
        edit,
        rule: 0,
        dropped: Items::new(alloc),
        gone,
        head: 0,
        body: Items::new(alloc),
    }
}

/// The effect of an edit that gave a rule its number.
fn numbered_effect(alloc: Global, edit: Edit, rule: u32) -> Effect
    ensures { result ≡ rule_effect edit rule }
{
    Effect {
        edit,
        rule,
        dropped: Items::new(alloc),
        gone: Items::new(alloc),
        head: 0,
        body: Items::new(alloc),
    }
}

/// The effect of taking away the rule of a number.
fn effect_of_drop(alloc: Global, plain: &AbaPlain, number: u32) -> Result<Effect, OutOfMemory>
    requires { NoneStands (rule_dropped plain.now number).refusals }
    ensures { IfOk result (λ effect. effect ≡ (rule_dropped plain.now number).effect) }
{
    let heads = plain.rule_heads();
    let index = rule_index(plain, number);
    let body = body_at(alloc, plain, index as u32)?;
    Ok(Effect {
        edit: Edit::RuleDrop(number),
        rule: 0,
        dropped: Items::new(alloc),
        gone: Items::new(alloc),
        head: heads[index],
        body: Items::from_vec(body),
    })
}
