//! Which assumptions a set attacks and defends, and tests of a set against the notions of extension. A set defends an
//! assumption exactly where the assumptions that it does not attack do not attack it together. So each of these calls
//! takes a few searches for what a set derives, and no walk over sets.

ghost use Rattle.std.specs.Prelude.{◌↔◌, ℕ, Contains, IfOk, IsTrue, OnOk};
ghost use Rattle.lists.specs.Members.{IsSetOf};
ghost use Rattle.semantics.specs.AbaFrameworks.{AttacksAssumption, collective_of};
ghost use Rattle.semantics.specs.Collectives.{IsAdmissible, IsComplete, IsConflictFree, IsDefended, IsStable, IsUnattacked};
ghost use Rattle.aba_notions.specs.Attacks.{AddsFirst, HasPairWith};
ghost use Rattle.aba_notions.specs.Solid.{IsSolid};

use crate::aba_plain::AbaPlain;
use lists::Memory;
use set_lists::NumSet;
use std::alloc::Global;

impl AbaPlain {
    /// The assumptions that a set attacks: it derives a contrary of each. `Memory` says that an allocation was refused,
    /// here and in the other calls.
    pub fn attacked_by(&self, alloc: Global, set: &NumSet) -> Result<NumSet, Memory>
        ensures { IfOk result (IsSetOf (AttacksAssumption self.now set.now)) }
    {
        let theory = self.closure_of(alloc, set)?;
        let attacked = firsts_with(alloc, self.contraries(), &theory)?;
        NumSet::from_slice(alloc, &attacked)
    }

    /// The assumptions that a set does not attack.
    pub fn rest_of(&self, alloc: Global, set: &NumSet) -> Result<NumSet, Memory>
        ensures { IfOk result (IsSetOf (IsUnattacked (collective_of self.now) set.now)) }
    {
        let attacked = self.attacked_by(alloc, set)?;
        self.assumptions().minus(alloc, &attacked)
    }

    /// The assumptions that a set defends: those that the rest, together, does not attack.
    pub fn defended_by(&self, alloc: Global, set: &NumSet) -> Result<NumSet, Memory>
        ensures { IfOk result (IsSetOf (IsDefended (collective_of self.now) set.now)) }
    {
        let rest = self.rest_of(alloc, set)?;
        self.rest_of(alloc, &rest)
    }

    /// Whether the members are assumptions, of which the set attacks none.
    pub fn is_conflict_free(&self, alloc: Global, set: &NumSet) -> Result<bool, Memory>
        ensures { IfOk result (λ meets. IsTrue meets ↔ IsConflictFree (collective_of self.now) set.now) }
    {
        let rest = self.rest_of(alloc, set)?;
        Ok(set.within(&rest))
    }

    /// Whether the set is conflict-free, and defends each member.
    pub fn is_admissible(&self, alloc: Global, set: &NumSet) -> Result<bool, Memory>
        ensures { IfOk result (λ meets. IsTrue meets ↔ IsAdmissible (collective_of self.now) set.now) }
    {
        if !self.is_conflict_free(alloc, set)? {
            return Ok(false);
        }
        let defended = self.defended_by(alloc, set)?;
        Ok(set.within(&defended))
    }

    /// Whether the set is admissible, and holds each assumption that it defends.
    pub fn is_complete(&self, alloc: Global, set: &NumSet) -> Result<bool, Memory>
        ensures { IfOk result (λ meets. IsTrue meets ↔ IsComplete (collective_of self.now) set.now) }
    {
        if !self.is_admissible(alloc, set)? {
            return Ok(false);
        }
        let defended = self.defended_by(alloc, set)?;
        Ok(defended.within(set))
    }

    /// Whether the set is conflict-free, and attacks each assumption outside it.
    pub fn is_stable(&self, alloc: Global, set: &NumSet) -> Result<bool, Memory>
        ensures { IfOk result (λ meets. IsTrue meets ↔ IsStable (collective_of self.now) set.now) }
    {
        if !self.is_conflict_free(alloc, set)? {
            return Ok(false);
        }
        let rest = self.rest_of(alloc, set)?;
        Ok(rest.within(set))
    }

    /// Whether the rules have the numbers from 1 to some m, and the next one gets m + 1, as in a text of the framework.
    /// Only tests call it: no command writes a framework.
    pub fn is_solid(&self) -> bool
        ensures { IsTrue result ↔ IsSolid self.now }
    {
        self.next() as usize == self.rule_numbers().len() + 1
    }
}

/// The first numbers of the pairs whose second numbers are in a set.
fn firsts_with(alloc: Global, pairs: &[(u32, u32)], seconds: &NumSet) -> Result<Vec<u32>, Memory>
    ensures { IfOk result (λ found. (x : ℕ) → Contains found.items x ↔ HasPairWith pairs.now (Contains seconds.now) x) }
{
    let mut found = Vec::new(alloc);
    for pair in pairs {
        add_first(&mut found, *pair, seconds)?;
    }
    Ok(found)
}

/// Adds the first number of a pair if the second is in a set.
fn add_first(found: &mut Vec<u32>, pair: (u32, u32), seconds: &NumSet) -> Result<(), Memory>
    ensures { OnOk result (AddsFirst pair (Contains seconds.now) found.old.items found.new.items) }
{
    if !seconds.contains(pair.1) {
        return Ok(());
    }
    found.push(pair.0)?;
    Ok(())
}
