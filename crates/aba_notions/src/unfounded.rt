//! Atoms that are claimed to follow from a set and do not, with the reason.

ghost use Rattle.std.specs.Prelude.{◌≡◌, ℕ, ◌<◌, Contains, IfNone, IfOk, IfSome, length, map};
ghost use Rattle.semantics.specs.Rules.{Derives};
ghost use Rattle.semantics.specs.AbaFrameworks.{IsNumberedAba};
ghost use Rattle.aba_notions.specs.Storage.{rule_at};
ghost use Rattle.aba_notions.specs.declared.unfounded.Row.{Row};
ghost use Rattle.aba_notions.specs.Unfounded.{IsRowBy, IsShared, IsUnfoundedOf};

use crate::aba_plain::AbaPlain;
use lists::{Items, Memory};
use set_lists::NumSet;
use std::alloc::Global;

/// An atom, and pairs of the number of a rule that it heads and an atom of the rule's body, or 0.
#[derive(Drop)]
pub struct Row {
    pub atom: u32,
    pub pairs: Items<(u32, u32)>,
}

/// Atoms that do not follow, and a row for each.
#[derive(Drop)]
pub struct Unfounded {
    pub atoms: NumSet,
    pub rows: Items<Row>,
}

impl AbaPlain {
    /// The claimed atoms that do not follow from the base, where there are some. The row of each has, for every rule
    /// that it heads, the rule's number and another one of these atoms that is in the rule's body, or else 0, where
    /// some atom of the body is not claimed. `Memory` says that an allocation was refused.
    pub fn unfounded(
        &self,
        alloc: Global,
        base: &NumSet,
        claimed: &NumSet,
    ) -> Result<Option<Unfounded>, Memory>
        ensures none { IfOk result (λ found. IfNone found ((x : ℕ) → Contains claimed.now x
            → Derives self.now.rules (Contains base.now) x)) }
        ensures some { IfOk result (λ found. IfSome found (IsUnfoundedOf self.now (Contains base.now) claimed.now)) }
    {
        let theory = self.closure_of(alloc, base)?;
        let atoms = claimed.minus(alloc, &theory)?;
        if atoms.is_empty() {
            return Ok(None);
        }
        let rows = self.rows_of(alloc, &atoms)?;
        Ok(Some(Unfounded { atoms, rows }))
    }

    /// A row for each of the atoms.
    fn rows_of(&self, alloc: Global, atoms: &NumSet) -> Result<Items<Row>, Memory>
        ensures atoms { IfOk result (λ rows. map (λ row. row.atom) rows ≡ atoms.now) }
        ensures each { IfOk result (λ rows. (row : Row) → Contains rows row
            → IsRowBy self.now (IsShared atoms.now) row) }
    {
        let mut rows = Items::new(alloc);
        for atom in atoms.as_slice() {
            rows.push(self.row_of(alloc, atoms, *atom)?)?;
        }
        Ok(rows)
    }

    /// The row of an atom: an atom of each rule's body that is among the atoms, or 0.
    fn row_of(&self, alloc: Global, atoms: &NumSet, atom: u32) -> Result<Row, Memory>
        ensures atom { IfOk result (λ row. row.atom ≡ atom) }
        ensures row { IfOk result (IsRowBy self.now (IsShared atoms.now)) }
    {
        let numbers = self.rule_numbers();
        let mut pairs = Items::new(alloc);
        for rule in self.headed_by(atom) {
            pairs.push((numbers[rule.1 as usize], self.shared_atom(rule.1, atoms)))?;
        }
        Ok(Row { atom, pairs })
    }

    /// The first atom of a rule's body, by the rule's index, that is among the atoms, or 0.
    fn shared_atom(&self, index: u32, atoms: &NumSet) -> u32
        requires { index < length self.now.rules }
        ensures { IsShared atoms.now (rule_at self.now.rules index).body result }
    {
        let body = self.body_of(index);
        for pair in body {
            if atoms.contains(pair.1) {
                return pair.1;
            }
        }
        0
    }
}
