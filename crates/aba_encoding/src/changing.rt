//! The axioms that an edit calls for.

ghost use Rattle.std.specs.Prelude.{◌≡◌, ◌↔◌, ◌<◌, ◌≤◌, Contains, IfOk, OnOk, length};
ghost use Rattle.semantics.specs.Frameworks.{aba};
ghost use Rattle.semantics.specs.AbaFrameworks.{Aba, IsNumberedAba};
ghost use Rattle.aba_notions.specs.Storage.{rule_at};
ghost use Rattle.meaning_atoms.specs.declared.axiom.AxiomName.{AxiomName as AName};
ghost use Rattle.af_encoding.specs.Changes.{IsCalledFor, IsEffectOf};
ghost use Rattle.aba_encoding.specs.Brought.{GainsBrought, GainsCalled, IsEdited};
ghost use Rattle.aba_encoding.specs.Brought.{by_assumption, by_last_rule, by_rule_gone, by_rule_head};

use crate::contrary_changes::{push_added, push_gone, push_set};
use crate::needed_axioms::{push_all, push_assumption, push_rule};
use crate::places::{next_after, place_before};
use aba_notions::AbaPlain;
use edit_rules::{Edit, Effect};
use lists::{Items, Memory};
use meaning_atoms::AbaAxiom::{B10, B11};
use meaning_atoms::AxiomName;
use meaning_atoms::Closure::{Own, Rest};
use std::alloc::Global;

/// The axioms that a search needs of a framework behind an edit and did not need before it. `plain` is the framework
/// behind the edit, and `effect` what the edit did. They are those of the assumption, the contrary or the rule that
/// came, and those of the steps round the contrary or the rule that came or went. These are found from its neighbours
/// among the contraries of the same assumption or the rules that head the same atom, in time logarithmic in these
/// contraries and in the rules. `Memory` says that an allocation was refused.
pub fn changed(alloc: Global, plain: &AbaPlain, effect: &Effect) -> Result<Items<AxiomName>, Memory>
    requires { IsEdited (aba plain.now) effect.now }
    ensures { IfOk result (λ names. (before : Aba) → IsNumberedAba before
        → IsEffectOf (aba before) (aba plain.now) effect.now → (name : AName)
        → Contains names name ↔ IsCalledFor (aba before) (aba plain.now) name) }
{
    let mut names = Vec::new(alloc);
    push_changed(alloc, plain, &mut names, effect)?;
    Ok(Items::from_vec(names))
}

/// Adds the axioms that an edit calls for.
fn push_changed(
    alloc: Global,
    plain: &AbaPlain,
    names: &mut Vec<AxiomName>,
    effect: &Effect,
) -> Result<(), Memory>
    requires { IsEdited (aba plain.now) effect.now }
    ensures { OnOk result (GainsCalled plain.now effect.now names.old.items names.new.items) }
{
    match &effect.edit {
        Edit::AsmAdd(assumption, _) => push_whole(alloc, plain, names, *assumption),
        Edit::ConSet(assumption, contrary) => push_set(
            alloc,
            names,
            *assumption,
            *contrary,
            effect.gone.as_slice(),
        ),
        Edit::ConAdd(assumption, contrary) => {
            push_added(alloc, plain, names, *assumption, *contrary)
        }
        Edit::ConDrop(assumption, contrary) => {
            push_gone(alloc, plain, names, *assumption, *contrary)
        }
        Edit::RuleAdd(head, _) => push_last_rule(alloc, plain, names, *head),
        Edit::RuleDrop(number) => push_past(alloc, plain, names, effect.head, *number),
        Edit::AsmDrop(_) => Ok(()),
        Edit::ArgAdd(_) | Edit::ArgDrop(_) | Edit::AttackAdd(_, _) | Edit::AttackDrop(_, _) => Ok(
            (),
        ),
    }
}

/// Adds the axioms of an assumption that came, with those of its contraries.
fn push_whole(
    alloc: Global,
    plain: &AbaPlain,
    names: &mut Vec<AxiomName>,
    assumption: u32,
) -> Result<(), Memory>
    ensures { OnOk result (GainsBrought (by_assumption plain.now assumption) names.old.items names.new.items) }
{
    let _next = plain.next();
    push_assumption(alloc, plain, names, assumption)
}

/// Adds the axioms of the last rule, which came, and of the steps round it of the walk along the rules that head its
/// atom.
fn push_last_rule(
    alloc: Global,
    plain: &AbaPlain,
    names: &mut Vec<AxiomName>,
    head: u32,
) -> Result<(), Memory>
    requires { 0 < length plain.now.rules }
    ensures { OnOk result (GainsBrought (by_last_rule plain.now head) names.old.items names.new.items) }
{
    let index = plain.rule_numbers().len() - 1;
    let number = plain.rule_numbers()[index];
    push_rule(alloc, plain, names, index as u32)?;
    push_round(alloc, plain, names, head, number)
}

/// Adds the axioms of the step to the last of the rules that head an atom, on the walk along them, and of the end past
/// it.
fn push_round(
    alloc: Global,
    plain: &AbaPlain,
    names: &mut Vec<AxiomName>,
    head: u32,
    number: u32,
) -> Result<(), Memory>
    requires low { 1 ≤ number }
    requires high { number < 1000001 }
    ensures { OnOk result (GainsBrought (by_rule_head plain.now head number) names.old.items names.new.items) }
{
    let _next = plain.next();
    let start = place_before(plain, head, number);
    push_all(
        alloc,
        names,
        &[
            B10(Own, head, start, number),
            B10(Rest, head, start, number),
            B11(Own, head, number + 1),
            B11(Rest, head, number + 1),
        ],
    )
}

/// Adds the axioms of the step past a rule that went, of the walk along the rules that head its atom, or of the walk's
/// end where none is past it.
fn push_past(
    alloc: Global,
    plain: &AbaPlain,
    names: &mut Vec<AxiomName>,
    head: u32,
    number: u32,
) -> Result<(), Memory>
    requires low { 1 ≤ number }
    requires high { number < 1000001 }
    ensures { OnOk result (GainsBrought (by_rule_gone plain.now head number) names.old.items names.new.items) }
{
    let _next = plain.next();
    let start = place_before(plain, head, number);
    match next_after(plain, head, number) {
        Some(next) => push_all(
            alloc,
            names,
            &[B10(Own, head, start, next), B10(Rest, head, start, next)],
        ),
        None => push_all(
            alloc,
            names,
            &[B11(Own, head, start), B11(Rest, head, start)],
        ),
    }
}
