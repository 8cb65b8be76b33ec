//! What sets derive, rule by rule.

ghost use Rattle.std.specs.Prelude.{◌≡◌, ◌↔◌, ℕ, List, ◌<◌, Contains, IfNone, IfOk, IfSome, IsTrue, OnOk, length, map};
ghost use Rattle.lists.specs.Members.{IsWithin};
ghost use Rattle.semantics.specs.Sets.{HasAllSets};
ghost use Rattle.semantics.specs.Rules.{IsClosureOf};
ghost use Rattle.aba_laws.specs.declared.aba_lists.PlainRule.{PlainRule};
ghost use Rattle.aba_laws.specs.Deciding.{AbaOf, HasAllTheories, IsReady, rule_of};

use crate::aba_lists::{AbaLists, PlainRule, is_within};
use lists::{Items, Memory};
use semantics::sets::sets_of;
use std::alloc::Global;

/// A set with all that it derives.
#[derive(Drop)]
pub(crate) struct Theory {
    pub(crate) set: Items<u32>,
    pub(crate) derived: Items<u32>,
}

/// Each set of assumptions with all that it derives.
pub(crate) fn theories(alloc: Global, framework: &AbaLists) -> Result<Items<Theory>, Memory>
    ensures { IfOk result (HasAllTheories (AbaOf framework.now)) }
{
    let sets = sets_of(alloc, framework.assumptions)?;
    let mut theories = Items::new(alloc);
    for set in sets.as_slice() {
        theories.push(theory_of(alloc, framework.rules, set.as_slice())?)?;
    }
    Ok(theories)
}

/// The set with all that it derives.
pub(crate) fn theory_of(alloc: Global, rules: &[PlainRule], set: &[u32]) -> Result<Theory, Memory>
    ensures set { IfOk result (λ t. t.set ≡ set.now) }
    ensures derived { IfOk result (λ t. IsClosureOf (map rule_of rules.now) set.now t.derived) }
{
    let derived = closure(alloc, rules, set)?;
    let set = Items::from_vec(set.to_vec(alloc)?);
    Ok(Theory { set, derived })
}

/// The members of a set and, as long as there is one, the head of a rule that is left and whose body is there.
fn closure(alloc: Global, rules: &[PlainRule], set: &[u32]) -> Result<Items<u32>, Memory>
    ensures { IfOk result (λ t. IsClosureOf (map rule_of rules.now) set.now t) }
{
    let mut left = Vec::from_slice(alloc, rules)?;
    let mut derived = Items::from_vec(set.to_vec(alloc)?);
    while let Some(index) = first_ready(&left, derived.as_slice()) {
        let rule = left.remove(index);
        derived.push(rule.head)?;
    }
    Ok(derived)
}

/// The index of the first rule whose body is there.
fn first_ready(rules: &[PlainRule], derived: &[u32]) -> Option<usize>
    ensures some { IfSome result (λ index. index < length rules.now) }
    ensures ready { IfSome result (IsReady rules.now derived.now) }
    ensures none { IfNone result ((r : PlainRule) → Contains rules.now r → IsWithin r.body.now derived.now → ⊥) }
{
    for (index, rule) in rules.iter().enumerate() {
        if is_within(rule.body, derived) {
            return Some(index);
        }
    }
    None
}
