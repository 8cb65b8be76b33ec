//! The frameworks behind the edits. Each one is made anew from the flat lists of the one before.

ghost use Rattle.std.specs.Prelude.{◌≡◌, ◌<◌, ◌≤◌, ◌+◌, ◌==◌, ◌++◌, ◌∷◌, [], not, true};
ghost use Rattle.std.specs.Prelude.{IfOk, OnOk, filter, length, map, take};
ghost use Rattle.semantics.specs.declared.numbers.TheConstants.{MAX_RULE};
ghost use Rattle.aba_notions.specs.Storage.{AreContraries, rule_at};
ghost use Rattle.edit_rules.specs.Numbers.{has_number};
ghost use Rattle.edit_rules.specs.Refusals.{NoneStands};
ghost use Rattle.edit_rules.specs.Pairs.{without_pair as without_that};
ghost use Rattle.edit_rules.specs.AbaEdits.{without_contrary, numbers_of, pair_of, rules_but};
ghost use Rattle.edit_rules.specs.AbaEdits.{aba_with_assumption, aba_without_assumption, aba_with_contrary};
ghost use Rattle.edit_rules.specs.AbaEdits.{aba_with_pair, aba_without_pair, aba_with_rule, aba_without_rule};
ghost use Rattle.edit_rules.specs.AbaEdits.{assumption_added, contrary_set, contrary_added, rule_added};
ghost use Rattle.edit_rules.specs.Parts.{AreListsOf, HasContraries};

use crate::numbers_but;
use aba_notions::{AbaPlain, RuleLists};
use lists::Memory;
use std::alloc::Global;

/// The same framework again. No rule has the number 0.
pub fn copy_aba(alloc: Global, plain: &AbaPlain) -> Result<AbaPlain, Memory>
    ensures { IfOk result (λ copy. copy ≡ plain.now) }
{
    let _next = plain.next();
    without_rule(alloc, plain, 0)
}

/// The framework with an assumption more.
pub(crate) fn with_assumption(
    alloc: Global,
    plain: &AbaPlain,
    assumption: u32,
    contrary: u32,
) -> Result<AbaPlain, Memory>
    requires { NoneStands (assumption_added plain.now assumption contrary).refusals }
    ensures { IfOk result (λ after. after ≡ aba_with_assumption plain.now assumption contrary) }
{
    let mut assumptions = plain.assumptions().copy(alloc)?;
    assumptions.insert(assumption)?;
    let contraries = pairs_with(alloc, plain.contraries(), assumption, contrary)?;
    let rules = rules_except(alloc, plain, 0)?;
    AbaPlain::new(
        alloc,
        plain.atoms(),
        assumptions,
        contraries,
        rules,
        plain.next(),
    )
}

/// The framework without an assumption and its contraries.
pub(crate) fn without_assumption(
    alloc: Global,
    plain: &AbaPlain,
    assumption: u32,
) -> Result<AbaPlain, Memory>
    ensures { IfOk result (λ after. after ≡ aba_without_assumption plain.now assumption) }
{
    let assumptions = numbers_but(alloc, plain.assumptions().as_slice(), assumption)?;
    let contraries = pairs_except(alloc, plain.contraries(), assumption)?;
    let rules = rules_except(alloc, plain, 0)?;
    AbaPlain::new(
        alloc,
        plain.atoms(),
        assumptions,
        contraries,
        rules,
        plain.next(),
    )
}

/// The framework in which an assumption has one contrary alone, or none where that is 0.
pub(crate) fn with_contrary(
    alloc: Global,
    plain: &AbaPlain,
    assumption: u32,
    contrary: u32,
) -> Result<AbaPlain, Memory>
    requires { NoneStands (contrary_set plain.now assumption contrary).refusals }
    ensures { IfOk result (λ after. after ≡ aba_with_contrary plain.now assumption contrary) }
{
    let contraries = pairs_with(alloc, plain.contraries(), assumption, contrary)?;
    with_contraries(alloc, plain, contraries)
}

/// The framework with these pairs of an assumption and a contrary of it, which may stand in any order.
fn with_contraries(
    alloc: Global,
    plain: &AbaPlain,
    contraries: Vec<(u32, u32)>,
) -> Result<AbaPlain, Memory>
    requires { AreContraries plain.now.atoms plain.now.assumptions contraries.items }
    ensures { IfOk result (HasContraries plain.now contraries.items) }
{
    let assumptions = plain.assumptions().copy(alloc)?;
    let rules = rules_except(alloc, plain, 0)?;
    AbaPlain::new(
        alloc,
        plain.atoms(),
        assumptions,
        contraries,
        rules,
        plain.next(),
    )
}

/// The framework with one contrary of an assumption more.
pub(crate) fn with_pair(
    alloc: Global,
    plain: &AbaPlain,
    assumption: u32,
    contrary: u32,
) -> Result<AbaPlain, Memory>
    requires { NoneStands (contrary_added plain.now assumption contrary).refusals }
    ensures { IfOk result (λ after. after ≡ aba_with_pair plain.now assumption contrary) }
{
    let mut contraries = Vec::from_slice(alloc, plain.contraries())?;
    contraries.push((assumption, contrary))?;
    with_contraries(alloc, plain, contraries)
}

/// The framework with one contrary of an assumption less.
pub(crate) fn without_pair(
    alloc: Global,
    plain: &AbaPlain,
    assumption: u32,
    contrary: u32,
) -> Result<AbaPlain, Memory>
    ensures { IfOk result (λ after. after ≡ aba_without_pair plain.now assumption contrary) }
{
    let contraries = pairs_but(alloc, plain.contraries(), assumption, contrary)?;
    with_contraries(alloc, plain, contraries)
}

/// The framework with a rule more.
pub(crate) fn with_rule(
    alloc: Global,
    plain: &AbaPlain,
    head: u32,
    body: &[u32],
) -> Result<AbaPlain, Memory>
    requires { NoneStands (rule_added plain.now head body.now).refusals }
    ensures { IfOk result (λ after. after ≡ aba_with_rule plain.now head body.now) }
{
    let assumptions = plain.assumptions().copy(alloc)?;
    let contraries = Vec::from_slice(alloc, plain.contraries())?;
    let mut rules = rules_except(alloc, plain, 0)?;
    push_rule(alloc, &mut rules, plain.next(), head, body)?;
    AbaPlain::new(
        alloc,
        plain.atoms(),
        assumptions,
        contraries,
        rules,
        plain.next() + 1,
    )
}

/// The framework without the rule of a number, which no rule gets again.
pub(crate) fn without_rule(alloc: Global, plain: &AbaPlain, number: u32) -> Result<AbaPlain, Memory>
    ensures { IfOk result (λ after. after ≡ aba_without_rule plain.now number) }
{
    let assumptions = plain.assumptions().copy(alloc)?;
    let contraries = Vec::from_slice(alloc, plain.contraries())?;
    let rules = rules_except(alloc, plain, number)?;
    AbaPlain::new(
        alloc,
        plain.atoms(),
        assumptions,
        contraries,
        rules,
        plain.next(),
    )
}

/// The pairs but for those of an assumption.
fn pairs_except(
    alloc: Global,
    pairs: &[(u32, u32)],
    assumption: u32,
) -> Result<Vec<(u32, u32)>, Memory>
    ensures { IfOk result (λ kept. kept.items ≡ without_contrary assumption pairs.now) }
{
    Ok(
        pairs
            .iter()
            .copied()
            .filter(|pair| pair.0 != assumption)
            .collect(alloc)?,
    )
}

/// The pairs but for one.
fn pairs_but(
    alloc: Global,
    pairs: &[(u32, u32)],
    assumption: u32,
    contrary: u32,
) -> Result<Vec<(u32, u32)>, Memory>
    ensures { IfOk result (λ kept. kept.items ≡ without_that (assumption, contrary) pairs.now) }
{
    Ok(
        pairs
            .iter()
            .copied()
            .filter(|pair| pair.0 != assumption || pair.1 != contrary)
            .collect(alloc)?,
    )
}

/// The pairs in which an assumption has one contrary alone, or none where that is 0, and the others as before. They
/// stand in no order.
fn pairs_with(
    alloc: Global,
    pairs: &[(u32, u32)],
    assumption: u32,
    contrary: u32,
) -> Result<Vec<(u32, u32)>, Memory>
    ensures { IfOk result (λ made.
        made.items ≡ without_contrary assumption pairs.now ++ pair_of assumption contrary) }
{
    let mut made = pairs_except(alloc, pairs, assumption)?;
    if contrary == 0 {
        return Ok(made);
    }
    made.push((assumption, contrary))?;
    Ok(made)
}

/// Flat lists of the rules but for that of a number. No rule has the number 0.
fn rules_except(alloc: Global, plain: &AbaPlain, number: u32) -> Result<RuleLists, Memory>
    ensures { IfOk result (AreListsOf (rules_but number plain.now.rules)) }
{
    let mut rules = RuleLists {
        numbers: Vec::new(alloc),
        heads: Vec::new(alloc),
        bodies: Vec::new(alloc),
    };
    for index in 0..plain.rule_numbers().len() {
        add_unless(alloc, plain, index as u32, number, &mut rules)?;
    }
    Ok(rules)
}

/// Adds the rule at an index to flat lists, unless it has a number.
fn add_unless(
    alloc: Global,
    plain: &AbaPlain,
    index: u32,
    number: u32,
    rules: &mut RuleLists,
) -> Result<(), Memory>
    requires index { index < length plain.now.rules }
    requires lists { AreListsOf (rules_but number (take index plain.now.rules)) rules.old }
    ensures { OnOk result (AreListsOf (rules_but number (take (index + 1) plain.now.rules)) rules.new) }
{
    let at = index as usize;
    let numbers = plain.rule_numbers();
    if numbers[at] == number {
        return Ok(());
    }
    let body = body_at(alloc, plain, index)?;
    push_rule(alloc, rules, numbers[at], plain.rule_heads()[at], &body)?;
    Ok(())
}

/// The body of the rule at an index.
pub(crate) fn body_at(alloc: Global, plain: &AbaPlain, index: u32) -> Result<Vec<u32>, Memory>
    requires { index < length plain.now.rules }
    ensures { IfOk result (λ body. body.items ≡ (rule_at plain.now.rules index).body) }
{
    Ok(
        plain
            .body_of(index)
            .iter()
            .map(|pair| pair.1)
            .collect(alloc)?,
    )
}

/// Adds a rule at the end of flat lists.
fn push_rule(
    alloc: Global,
    rules: &mut RuleLists,
    number: u32,
    head: u32,
    body: &[u32],
) -> Result<(), Memory>
    requires { length rules.old.heads.items ≤ MAX_RULE }
    ensures numbers { OnOk result (rules.new.numbers.items ≡ rules.old.numbers.items ++ number ∷ []) }
    ensures heads { OnOk result (rules.new.heads.items ≡ rules.old.heads.items ++ head ∷ []) }
    ensures bodies { OnOk result (rules.new.bodies.items
        ≡ rules.old.bodies.items ++ map (λ y. (length rules.old.heads.items, y)) body.now) }
{
    let index = rules.heads.len() as u32;
    let pairs = indexed(alloc, index, body)?;
    rules.numbers.push(number)?;
    rules.heads.push(head)?;
    rules.bodies.extend_from_slice(&pairs)?;
    Ok(())
}

/// Pairs of an index and each of the atoms.
fn indexed(alloc: Global, index: u32, atoms: &[u32]) -> Result<Vec<(u32, u32)>, Memory>
    ensures { IfOk result (λ pairs. pairs.items ≡ map (λ y. (index, y)) atoms.now) }
{
    Ok(atoms.iter().map(|atom| (index, *atom)).collect(alloc)?)
}

/// The index of the rule of a number.
pub(crate) fn rule_index(plain: &AbaPlain, number: u32) -> usize
    requires { has_number (numbers_of plain.now.rules) number ≡ true }
    ensures within { result < length plain.now.rules }
    ensures number { (rule_at plain.now.rules result).number ≡ number }
{
    match plain.rule_numbers().binary_search(&number) {
        Ok(index) => index,
        Err(_) => 0,
    }
}
