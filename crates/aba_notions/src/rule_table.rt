//! Rules in flat storage, which are found by their index, by their head and by the atoms of their bodies.

ghost use Rattle.std.specs.Prelude.{◌≡◌, ◌↔◌, ℕ, ◌<◌, ◌≤◌, Contains, IfOk, length, slice_index};
ghost use Rattle.semantics.specs.declared.numbers.TheConstants.{MAX_ATOM, MAX_RULE};
ghost use Rattle.aba_notions.specs.Storage.{AreRuleLists, AreRulesOf, IsTableOf, rules_in};

use attack_index::AttackIndex;
use lists::Memory;
use std::alloc::Global;

/// Rules by their index: the number and the head of each, and the bodies as pairs of an index and an atom, which may
/// stand in any order and be repeated.
#[derive(Drop)]
pub struct RuleLists {
    pub numbers: Vec<u32>,
    pub heads: Vec<u32>,
    pub bodies: Vec<(u32, u32)>,
}

/// Rules by their index, with their bodies from either end.
#[derive(Drop)]
pub(crate) struct RuleTable {
    /// The number of each rule, which rise.
    pub(crate) numbers: Vec<u32>,
    /// The head of each rule.
    pub(crate) heads: Vec<u32>,
    /// Pairs of a rule and an atom of its body.
    pub(crate) bodies: AttackIndex,
    /// Pairs of an atom and a rule in whose body it is.
    pub(crate) uses: AttackIndex,
    /// Pairs of an atom and a rule that it heads.
    pub(crate) headed: AttackIndex,
}

impl RuleTable {
    /// The table of rules over so many atoms. `spare` is room to sort pairs in, which grows where it is needed and is
    /// left with anything.
    pub(crate) fn new(
        alloc: Global,
        atoms: u32,
        rules: RuleLists,
        spare: &mut Vec<(u32, u32)>,
    ) -> Result<RuleTable, Memory>
        requires atoms { atoms ≤ MAX_ATOM }
        requires rules { AreRuleLists atoms rules.numbers.items rules.heads.items rules.bodies.items }
        requires small { length rules.heads.items ≤ MAX_RULE }
        ensures table { IfOk result (IsTableOf atoms) }
        ensures rules { IfOk result (λ t.
            AreRulesOf rules.numbers.items rules.heads.items rules.bodies.items (rules_in t)) }
    {
        let RuleLists {
            numbers,
            heads,
            bodies,
        } = rules;
        let bound = heads.len().max(atoms as usize + 1);
        let head_pairs = pairs_of_heads(alloc, &heads)?;
        let headed = AttackIndex::new(alloc, head_pairs, spare, bound)?;
        let bodies = AttackIndex::new(alloc, bodies, spare, bound)?;
        let uses = bodies.reversed(alloc, spare)?;
        Ok(RuleTable {
            numbers,
            heads,
            bodies,
            uses,
            headed,
        })
    }
}

/// Pairs of the head of a rule and the rule's index.
fn pairs_of_heads(alloc: Global, heads: &[u32]) -> Result<Vec<(u32, u32)>, Memory>
    requires { length heads.now ≤ MAX_RULE }
    ensures { IfOk result (λ pairs. (h k : ℕ)
        → Contains pairs.items (h, k) ↔ ((k < length heads.now) × (slice_index heads.now k ≡ h))) }
{
    let mut pairs = Vec::with_capacity(alloc, heads.len())?;
    for (index, head) in heads.iter().enumerate() {
        pairs.push((*head, index as u32))?;
    }
    Ok(pairs)
}
