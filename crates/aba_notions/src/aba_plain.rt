//! A flat assumption-based framework in flat storage.

ghost use Rattle.std.specs.Prelude.{◌≡◌, ◌↔◌, ℕ, ◌<◌, ◌==◌};
ghost use Rattle.std.specs.Prelude.{Contains, IfOk, IsTrue, filter, length, map};
ghost use Rattle.lists.specs.Members.{IsSetOf};
ghost use Rattle.semantics.specs.AbaFrameworks.{IsNumberedAba};
ghost use Rattle.semantics.specs.Rules.{Derives};
ghost use Rattle.dung_notions.specs.attack_index.specs.PairOrder.{PairsRise};
ghost use Rattle.aba_notions.specs.Storage.{AreParts, AreRulesOf, rule_at};

use crate::rule_table::{RuleLists, RuleTable};
use attack_index::AttackIndex;
use lists::Memory;
use set_lists::NumSet;
use std::alloc::Global;
use std::marker::Model;

/// A flat assumption-based framework: its atoms, which are the numbers from 1 to at most
/// `semantics::MAX_ATOM`, its assumptions with their contraries, and its rules, which have numbers of their own.
pub struct AbaPlain {
    atoms: u32,
    assumptions: NumSet,
    /// Pairs of an assumption and a contrary of it.
    contraries: AttackIndex,
    rules: RuleTable,
    /// The number that the next rule gets.
    next: u32,
}

// By hand, so that a drop is one call (docs/PROVING.md).
impl Drop for AbaPlain {
    fn drop(self) {
        let AbaPlain {
            atoms: _,
            assumptions: _,
            contraries: _,
            rules: _,
            next: _,
        } = self;
    }
}

impl Model for AbaPlain {
    ghost use Rattle.semantics.specs.AbaFrameworks.{Aba};

    ghost Value = { Aba };

    ghost use Rattle.aba_notions.specs.Storage.{aba_of, rules_in, IsStored};

    ghost view = { λ f. aba_of f.atoms f.assumptions f.contraries.pairs (rules_in f.rules) f.next };

    ghost invariant = { λ f. IsStored (aba_of f.atoms f.assumptions f.contraries.pairs (rules_in f.rules) f.next)
        f.rules.numbers.items f.rules.heads.items f.rules.bodies f.rules.uses f.rules.headed };
}

impl AbaPlain {
    /// The framework of so many atoms, assumptions, pairs of an assumption and a contrary of it, and rules, of which the
    /// next gets the number `next`. An assumption may stand in no pair or in several; the pairs may stand in any order
    /// and be repeated. `Memory` says that an allocation was refused.
    pub fn new(
        alloc: Global,
        atoms: u32,
        assumptions: NumSet,
        contraries: Vec<(u32, u32)>,
        rules: RuleLists,
        next: u32,
    ) -> Result<AbaPlain, Memory>
        requires { AreParts atoms assumptions contraries.items rules next }
        ensures atoms { IfOk result (λ f. f.atoms ≡ atoms) }
        ensures assumptions { IfOk result (λ f. f.assumptions ≡ assumptions) }
        ensures contraries { IfOk result (λ f. (p : ℕ × ℕ) → Contains f.contraries p ↔ Contains contraries.items p) }
        ensures rules { IfOk result (λ f. AreRulesOf rules.numbers.items rules.heads.items rules.bodies.items f.rules) }
        ensures next { IfOk result (λ f. f.next ≡ next) }
        ensures form { IfOk result IsNumberedAba }
    {
        let bound = atoms as usize + 1;
        let mut spare = Vec::new(alloc);
        let contraries = AttackIndex::new(alloc, contraries, &mut spare, bound)?;
        let rules = RuleTable::new(alloc, atoms, rules, &mut spare)?;
        Ok(AbaPlain {
            atoms,
            assumptions,
            contraries,
            rules,
            next,
        })
    }

    /// How many atoms there are: they are the numbers from 1 to this one.
    pub fn atoms(&self) -> u32
        ensures value { result ≡ self.now.atoms }
        ensures form { IsNumberedAba self.now }
    {
        self.atoms
    }

    /// The assumptions.
    pub fn assumptions(&self) -> &NumSet
        ensures value { result.now ≡ self.now.assumptions }
        ensures form { IsNumberedAba self.now }
    {
        &self.assumptions
    }

    /// Pairs of an assumption and a contrary of it, by assumption and then by contrary. There is none for an assumption
    /// without one.
    pub fn contraries(&self) -> &[(u32, u32)]
        ensures value { result.now ≡ self.now.contraries }
        ensures form { IsNumberedAba self.now }
    {
        self.contraries.pairs()
    }

    /// The pairs of an atom and a contrary of it, by rising contrary. There is none for an atom that is no assumption.
    pub fn contraries_of(&self, atom: u32) -> &[(u32, u32)]
        ensures value { result.now ≡ filter (λ p. p.0 == atom) self.now.contraries }
        ensures form { IsNumberedAba self.now }
    {
        self.contraries.of(atom)
    }

    /// Whether the second atom is a contrary of the first.
    pub fn has_contrary(&self, atom: u32, contrary: u32) -> bool
        ensures { IsTrue result ↔ Contains self.now.contraries (atom, contrary) }
    {
        self.contraries.has(atom, contrary)
    }

    /// The numbers of the rules, by index. They rise.
    pub fn rule_numbers(&self) -> &[u32]
        ensures value { result.now ≡ map (λ r. r.number) self.now.rules }
        ensures form { IsNumberedAba self.now }
    {
        self.rules.numbers.as_slice()
    }

    /// The heads of the rules, by index.
    pub fn rule_heads(&self) -> &[u32]
        ensures value { result.now ≡ map (λ r. r.head) self.now.rules }
        ensures form { IsNumberedAba self.now }
    {
        self.rules.heads.as_slice()
    }

    /// The body of the rule at an index, as pairs of the index and an atom, by rising atom.
    pub fn body_of(&self, index: u32) -> &[(u32, u32)]
        requires { index < length self.now.rules }
        ensures value { map (λ p. p.1) result.now ≡ (rule_at self.now.rules index).body }
        ensures index { (p : ℕ × ℕ) → Contains result.now p → p.0 ≡ index }
    {
        self.rules.bodies.of(index)
    }

    /// The rules that an atom heads, as pairs of the atom and the index of a rule, by rising index.
    pub fn headed_by(&self, atom: u32) -> &[(u32, u32)]
        ensures rise { PairsRise result.now }
        ensures rules { (h k : ℕ) → Contains result.now (h, k)
            ↔ ((h ≡ atom) × (k < length self.now.rules) × ((rule_at self.now.rules k).head ≡ atom)) }
    {
        self.rules.headed.of(atom)
    }

    /// What follows by the rules from a set, its members among it, in time linear in the atoms and the bodies of the
    /// rules. `Memory` says that an allocation was refused.
    pub fn closure_of(&self, alloc: Global, set: &NumSet) -> Result<NumSet, Memory>
        ensures derived { IfOk result (IsSetOf (Derives self.now.rules (Contains set.now))) }
        ensures form { IsNumberedAba self.now }
    {
        let found = self.rules.closure(alloc, self.atoms, set)?;
        let derived = NumSet::from_rising(alloc, &found)?;
        derived.union(alloc, set)
    }

    /// The number that the next rule gets.
    pub fn next(&self) -> u32
        ensures value { result ≡ self.now.next }
        ensures form { IsNumberedAba self.now }
    {
        self.next
    }
}
