//! Which atoms matter to whether the contraries of a set's members are derived: those from which a way leads to one.

ghost use Rattle.std.specs.Prelude.{◌≡◌, ℕ, ◌<◌, Contains, OnOk, length};
ghost use Rattle.semantics.specs.AbaFrameworks.{IsNumberedAba};
ghost use Rattle.marked_rules.specs.Cone.{AreListed, HasContraries, IsCone, IsFollowed, IsUsedFor, Reaches, StandsSecond};
ghost use Rattle.marked_rules.specs.Search.{AreOf};

use crate::rule_uses::RuleUses;
use aba_notions::AbaPlain;
use lists::Memory;
use marked_sets::Marks;
use std::alloc::Global;

/// Atoms that were reached, each once, in the order in which they came.
pub(crate) struct Cone {
    pub(crate) reached: Marks,
    pub(crate) atoms: Vec<u32>,
}

// By hand, so that a drop is one call (docs/PROVING.md).
impl Drop for Cone {
    fn drop(self) {
        let Cone {
            reached: _,
            atoms: _,
        } = self;
    }
}

impl Cone {
    /// Nothing yet. It takes no memory.
    pub(crate) fn new(alloc: Global) -> Cone {
        Cone {
            reached: Marks::new(alloc),
            atoms: Vec::new(alloc),
        }
    }

    /// The contraries of the members, and with the head of a rule the atoms of its body. The time is linear in the rules
    /// that are met so.
    pub(crate) fn grow(
        &mut self,
        alloc: Global,
        plain: &AbaPlain,
        uses: &RuleUses,
        set: &[u32],
    ) -> Result<(), Memory>
        requires { AreOf plain.now uses.now }
        ensures { OnOk result (IsCone plain.now set.now self.new.atoms.items) }
    {
        self.begin(alloc, plain, uses, set)?;
        self.follow(plain)?;
        Ok(())
    }

    /// The contraries of the members alone.
    fn begin(
        &mut self,
        alloc: Global,
        plain: &AbaPlain,
        uses: &RuleUses,
        set: &[u32],
    ) -> Result<(), Memory>
        requires { AreOf plain.now uses.now }
        ensures long { OnOk result (plain.now.atoms < length self.new.reached) }
        ensures listed { OnOk result (AreListed self.new) }
        ensures contraries { OnOk result (HasContraries plain.now set.now self.new.atoms.items) }
    {
        self.atoms.clear();
        self.reached.clear(alloc, plain.atoms() as usize + 1)?;
        for member in set {
            self.reach_all(uses.contraries.of(*member))?;
        }
        Ok(())
    }

    /// Reaches, from each atom that is reached, the bodies of the rules that it heads.
    fn follow(&mut self, plain: &AbaPlain) -> Result<(), Memory>
        requires form { IsNumberedAba plain.now }
        requires long { plain.now.atoms < length self.old.reached }
        requires listed { AreListed self.old }
        ensures { OnOk result (IsFollowed plain.now self.old.atoms.items self.new.atoms.items) }
    {
        let mut next = 0;
        while next < self.atoms.len() {
            let atom = self.atoms.as_slice()[next];
            self.reach_bodies(plain, atom)?;
            next += 1;
        }
        Ok(())
    }

    /// Reaches the atoms of the bodies of the rules that an atom heads.
    fn reach_bodies(&mut self, plain: &AbaPlain, atom: u32) -> Result<(), Memory>
        requires form { IsNumberedAba plain.now }
        requires long { plain.now.atoms < length self.old.reached }
        requires listed { AreListed self.old }
        ensures { OnOk result (Reaches (IsUsedFor plain.now atom) self.old self.new) }
    {
        let rules = plain.headed_by(atom);
        for rule in rules {
            self.reach_all(plain.body_of(rule.1))?;
        }
        Ok(())
    }

    /// Reaches the second numbers of pairs.
    fn reach_all(&mut self, pairs: &[(u32, u32)]) -> Result<(), Memory>
        requires within { (p : ℕ × ℕ) → Contains pairs.now p → p.1 < length self.old.reached }
        requires listed { AreListed self.old }
        ensures { OnOk result (Reaches (StandsSecond pairs.now) self.old self.new) }
    {
        for pair in pairs {
            self.reach(pair.1)?;
        }
        Ok(())
    }

    /// Adds an atom, unless it is there.
    fn reach(&mut self, atom: u32) -> Result<(), Memory>
        requires within { atom < length self.old.reached }
        requires listed { AreListed self.old }
        ensures { OnOk result (Reaches (λ x. x ≡ atom) self.old self.new) }
    {
        let known = self.reached.has(atom);
        if known {
            return Ok(());
        }
        self.reached.mark(atom);
        self.atoms.push(atom)?;
        Ok(())
    }
}
