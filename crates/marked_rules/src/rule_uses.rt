//! The rules of a framework by the atoms of their bodies, and what follows from nothing.

ghost use Rattle.std.specs.Prelude.{◌≡◌, ◌↔◌, ℕ, ◌<◌, Contains, IfOk, length};
ghost use Rattle.aba_notions.specs.Storage.{rule_at};
ghost use Rattle.marked_rules.specs.Search.{Fits, HasFew, IsBegun, IsUsesOf, derived_in, open_in};

use crate::closing::Closing;
use aba_notions::AbaPlain;
use attack_index::AttackIndex;
use lists::Memory;
use std::alloc::Global;

/// The state that each search begins with.
pub(crate) struct Start {
    /// Whether an atom, by its number, follows from nothing.
    pub(crate) base: Vec<bool>,
    /// How many atoms of the body of a rule, by its index, don't.
    pub(crate) open: Vec<usize>,
}

// By hand, so that a drop is one call (docs/PROVING.md).
impl Drop for Start {
    fn drop(self) {
        let Start { base: _, open: _ } = self;
    }
}

/// What a search along a framework's rules looks up. It is made once, in time linear in the framework.
pub struct RuleUses {
    /// Pairs of an atom and the index of a rule in whose body it is.
    pub(crate) uses: AttackIndex,
    /// Pairs of an assumption and a contrary of it.
    pub(crate) contraries: AttackIndex,
    pub(crate) start: Start,
}

// By hand, so that a drop is one call (docs/PROVING.md).
impl Drop for RuleUses {
    fn drop(self) {
        let RuleUses {
            uses: _,
            contraries: _,
            start: _,
        } = self;
    }
}

impl RuleUses {
    /// The rules of a framework. `Memory` says that an allocation was refused.
    pub fn new(alloc: Global, plain: &AbaPlain) -> Result<RuleUses, Memory>
        ensures { IfOk result (IsUsesOf plain.now) }
    {
        let mut uses = begun(alloc, plain)?;
        let mut closing = Closing::new(alloc);
        uses.restart(alloc, &mut closing)?;
        uses.fire_all(plain, &mut closing)?;
        uses.settle_all(plain, &mut closing)?;
        uses.start = uses.start_of(alloc, &closing)?;
        Ok(uses)
    }

    /// Nothing to look up: for a framework without rules.
    pub fn none(alloc: Global) -> Result<RuleUses, Memory> {
        let mut spare = Vec::new(alloc);
        let uses = AttackIndex::new(alloc, Vec::new(alloc), &mut spare, 0)?;
        let contraries = AttackIndex::new(alloc, Vec::new(alloc), &mut spare, 0)?;
        let start = Start {
            base: Vec::new(alloc),
            open: Vec::new(alloc),
        };
        Ok(RuleUses {
            uses,
            contraries,
            start,
        })
    }

    /// What a search has come to, for others to begin with.
    fn start_of(&self, alloc: Global, closing: &Closing) -> Result<Start, Memory>
        requires fits { Fits self.now.start closing.now }
        requires few { HasFew self.now.start }
        ensures base { IfOk result (λ start. start.base.items ≡ derived_in self.now closing.now) }
        ensures counts { IfOk result (λ start. start.open.items ≡ open_in self.now closing.now) }
    {
        let base = self.base_of(alloc, closing)?;
        let open = self.open_counts(alloc, closing)?;
        Ok(Start { base, open })
    }

    /// Whether an atom, by its number, is derived.
    fn base_of(&self, alloc: Global, closing: &Closing) -> Result<Vec<bool>, Memory>
        requires few { HasFew self.now.start }
        ensures { IfOk result (λ base. base.items ≡ derived_in self.now closing.now) }
    {
        let mut base = Vec::new(alloc);
        for atom in 0..self.start.base.len() {
            base.push(self.knows(closing, atom as u32))?;
        }
        Ok(base)
    }

    /// How many atoms of the body of a rule, by its index, are not derived.
    fn open_counts(&self, alloc: Global, closing: &Closing) -> Result<Vec<usize>, Memory>
        requires fits { Fits self.now.start closing.now }
        requires few { HasFew self.now.start }
        ensures { IfOk result (λ found. found.items ≡ open_in self.now closing.now) }
    {
        let firsts = self.start.open.as_slice();
        let mut found = Vec::new(alloc);
        for rule in 0..firsts.len() {
            found.push(closing.open.get(firsts, rule as u32))?;
        }
        Ok(found)
    }
}

/// The rules of a framework, where nothing has been derived yet.
fn begun(alloc: Global, plain: &AbaPlain) -> Result<RuleUses, Memory>
    ensures { IfOk result (IsBegun plain.now) }
{
    let atoms = plain.atoms() as usize;
    let bound = plain.rule_heads().len().max(atoms + 1);
    let mut spare = Vec::new(alloc);
    let contraries = Vec::from_slice(alloc, plain.contraries())?;
    let contraries = AttackIndex::new(alloc, contraries, &mut spare, bound)?;
    let pairs = body_pairs(alloc, plain)?;
    let bodies = AttackIndex::new(alloc, pairs, &mut spare, bound)?;
    let uses = bodies.reversed(alloc, &mut spare)?;
    let open = bodies.counts(alloc)?;
    let base = vec![in alloc; false; atoms + 1]?;
    Ok(RuleUses {
        uses,
        contraries,
        start: Start { base, open },
    })
}

/// Pairs of the index of a rule and an atom of its body.
fn body_pairs(alloc: Global, plain: &AbaPlain) -> Result<Vec<(u32, u32)>, Memory>
    ensures { IfOk result (λ pairs. (k y : ℕ) → Contains pairs.items (k, y)
        ↔ ((k < length plain.now.rules) × Contains (rule_at plain.now.rules k).body y)) }
{
    let mut pairs = Vec::new(alloc);
    for index in 0..plain.rule_heads().len() {
        pairs.extend_from_slice(plain.body_of(index as u32))?;
    }
    Ok(pairs)
}
