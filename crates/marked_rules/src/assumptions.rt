//! Tests of a set of assumptions. They look at what follows from the set, and at the rules from which a way leads to a
//! contrary of a member: a set that attacks none of its members is admissible where those assumptions on these ways that
//! it doesn't attack attack none of them together. Only a complete set, and a stable one, are seen beside all
//! assumptions.

ghost use Rattle.std.specs.Prelude.{◌↔◌, ℕ, Contains, IfOk, IsTrue, OnOk};
ghost use Rattle.lists.specs.Members.{IsSetOf};
ghost use Rattle.semantics.specs.AbaFrameworks.{AttacksAssumption, IsInTheory, collective_of};
ghost use Rattle.semantics.specs.Collectives.{IsAdmissible, IsComplete, IsConflictFree, IsStable};
ghost use Rattle.aba_notions.specs.Closing.{IsMarked};
ghost use Rattle.marked_rules.specs.Search.{HasDerived, IsUsesOf, derived_in};
ghost use Rattle.marked_rules.specs.Tests.{IsQuiet, IsSpared, Keeps};

use crate::closing::Closing;
use crate::cone::Cone;
use crate::rule_uses::RuleUses;
use aba_notions::AbaPlain;
use lists::Memory;
use marked_sets::Marks;
use set_lists::NumSet;
use std::alloc::Global;

/// Room that one test of a set leaves to the next, with anything in it.
pub struct SetMarks {
    /// Marks on the arguments of an abstract framework.
    pub arguments: Marks,
    closing: Closing,
    cone: Cone,
    kept: Vec<u32>,
}

// By hand, so that a drop is one call (docs/PROVING.md).
impl Drop for SetMarks {
    fn drop(self) {
        let SetMarks {
            arguments: _,
            closing: _,
            cone: _,
            kept: _,
        } = self;
    }
}

impl SetMarks {
    /// No room yet. It takes no memory.
    pub fn new(alloc: Global) -> SetMarks {
        SetMarks {
            arguments: Marks::new(alloc),
            closing: Closing::new(alloc),
            cone: Cone::new(alloc),
            kept: Vec::new(alloc),
        }
    }
}

/// Whether a set is admissible. The time is linear in what follows from the set, in the rules from which a way leads to a
/// contrary of a member, in what follows from those of their assumptions that the set doesn't attack, and in the uses of
/// all this. `Memory` says that an allocation was refused, here and in the other calls.
pub fn is_admissible(
    alloc: Global,
    plain: &AbaPlain,
    uses: &RuleUses,
    set: &NumSet,
    marks: &mut SetMarks,
) -> Result<bool, Memory>
    requires { IsUsesOf plain.now uses.now }
    ensures { IfOk result (λ is. IsTrue is ↔ IsAdmissible (collective_of plain.now) set.now) }
{
    let apart = is_conflict_free(alloc, plain, uses, set, &mut marks.closing)?;
    if !apart {
        return Ok(false);
    }
    marks.cone.grow(alloc, plain, uses, set.as_slice())?;
    let atoms = marks.cone.atoms.as_slice();
    keep_spared(plain, uses, &marks.closing, atoms, &mut marks.kept)?;
    uses.close(alloc, plain, &mut marks.closing, marks.kept.as_slice())?;
    let defended = are_quiet(uses, &marks.closing, set.as_slice());
    Ok(defended)
}

/// Whether a set is complete. The time is that of `is_admissible`, and linear in the assumptions, in what follows from
/// those that the set doesn't attack, and in the uses of this.
pub fn is_complete(
    alloc: Global,
    plain: &AbaPlain,
    uses: &RuleUses,
    set: &NumSet,
    marks: &mut SetMarks,
) -> Result<bool, Memory>
    requires { IsUsesOf plain.now uses.now }
    ensures { IfOk result (λ is. IsTrue is ↔ IsComplete (collective_of plain.now) set.now) }
{
    let admissible = is_admissible(alloc, plain, uses, set, marks)?;
    if !admissible {
        return Ok(false);
    }
    uses.close(alloc, plain, &mut marks.closing, set.as_slice())?;
    let assumptions = plain.assumptions().as_slice();
    keep_spared(plain, uses, &marks.closing, assumptions, &mut marks.kept)?;
    uses.close(alloc, plain, &mut marks.closing, marks.kept.as_slice())?;
    let complete = are_covered(uses, &marks.closing, set, assumptions);
    Ok(complete)
}

/// Whether a set is stable. A stable set and what it attacks are all assumptions, and the time is linear in these, in
/// what follows from the set, and in the uses of this.
pub fn is_stable(
    alloc: Global,
    plain: &AbaPlain,
    uses: &RuleUses,
    set: &NumSet,
    marks: &mut SetMarks,
) -> Result<bool, Memory>
    requires { IsUsesOf plain.now uses.now }
    ensures { IfOk result (λ is. IsTrue is ↔ IsStable (collective_of plain.now) set.now) }
{
    let apart = is_conflict_free(alloc, plain, uses, set, &mut marks.closing)?;
    if !apart {
        return Ok(false);
    }
    let assumptions = plain.assumptions().as_slice();
    let covered = are_covered(uses, &marks.closing, set, assumptions);
    Ok(covered)
}

/// The assumptions that a set attacks. The time is linear in the assumptions and their contraries, in what follows from
/// the set, and in the uses of this.
pub fn attacked_by(
    alloc: Global,
    plain: &AbaPlain,
    uses: &RuleUses,
    set: &NumSet,
    marks: &mut SetMarks,
) -> Result<NumSet, Memory>
    requires { IsUsesOf plain.now uses.now }
    ensures { IfOk result (IsSetOf (AttacksAssumption plain.now set.now)) }
{
    uses.close(alloc, plain, &mut marks.closing, set.as_slice())?;
    let assumptions = plain.assumptions();
    let numbers = assumptions.as_slice();
    keep_spared(plain, uses, &marks.closing, numbers, &mut marks.kept)?;
    let rest = NumSet::from_slice(alloc, &marks.kept)?;
    let attacked = assumptions.minus(alloc, &rest)?;
    Ok(attacked)
}

/// Whether a set derives an atom, in time linear in what follows from the set and in the uses of this.
pub fn derives(
    alloc: Global,
    plain: &AbaPlain,
    uses: &RuleUses,
    set: &NumSet,
    atom: u32,
    marks: &mut SetMarks,
) -> Result<bool, Memory>
    requires { IsUsesOf plain.now uses.now }
    ensures { IfOk result (λ derives. IsTrue derives ↔ IsInTheory plain.now set.now atom) }
{
    let member = set.contains(atom);
    if member {
        return Ok(true);
    }
    uses.close(alloc, plain, &mut marks.closing, set.as_slice())?;
    let derived = uses.knows(&marks.closing, atom);
    Ok(derived)
}

/// Whether the members are assumptions, of which the set attacks none. If so, what follows from the set is marked.
fn is_conflict_free(
    alloc: Global,
    plain: &AbaPlain,
    uses: &RuleUses,
    set: &NumSet,
    closing: &mut Closing,
) -> Result<bool, Memory>
    requires { IsUsesOf plain.now uses.now }
    ensures free { IfOk result (λ is. IsTrue is ↔ IsConflictFree (collective_of plain.now) set.now) }
    ensures derived { IfOk result (λ is. IsTrue is → HasDerived plain.now uses.now set.now closing.new) }
{
    let assumed = set.within(plain.assumptions());
    if !assumed {
        return Ok(false);
    }
    uses.close(alloc, plain, closing, set.as_slice())?;
    let quiet = are_quiet(uses, closing, set.as_slice());
    Ok(quiet)
}

/// Whether no contrary of any of the assumptions is derived.
fn are_quiet(uses: &RuleUses, closing: &Closing, assumptions: &[u32]) -> bool
    ensures { IsTrue result ↔ ((a : ℕ) → Contains assumptions.now a → IsQuiet uses.now closing.now a) }
{
    assumptions
        .iter()
        .all(|assumption| is_quiet(uses, closing, *assumption))
}

/// Whether no contrary of an assumption is derived.
fn is_quiet(uses: &RuleUses, closing: &Closing, assumption: u32) -> bool
    ensures { IsTrue result ↔ IsQuiet uses.now closing.now assumption }
{
    uses.contraries
        .of(assumption)
        .iter()
        .all(|pair| is_not_known(uses, closing, pair.1))
}

/// Whether an atom is not derived.
fn is_not_known(uses: &RuleUses, closing: &Closing, atom: u32) -> bool
    ensures { IsTrue result ↔ (IsMarked (derived_in uses.now closing.now) atom → ⊥) }
{
    !uses.knows(closing, atom)
}

/// Whether a contrary is derived of each of the assumptions that is no member.
fn are_covered(uses: &RuleUses, closing: &Closing, set: &NumSet, assumptions: &[u32]) -> bool
    ensures { IsTrue result ↔ ((a : ℕ) → Contains assumptions.now a → IsQuiet uses.now closing.now a
        → Contains set.now a) }
{
    assumptions
        .iter()
        .all(|assumption| is_covered(uses, closing, set, *assumption))
}

/// Whether a contrary of an assumption is derived, if it is no member.
fn is_covered(uses: &RuleUses, closing: &Closing, set: &NumSet, assumption: u32) -> bool
    ensures { IsTrue result ↔ (IsQuiet uses.now closing.now assumption → Contains set.now assumption) }
{
    set.contains(assumption) || !is_quiet(uses, closing, assumption)
}

/// Of some numbers, keeps the assumptions no contrary of which is derived.
fn keep_spared(
    plain: &AbaPlain,
    uses: &RuleUses,
    closing: &Closing,
    numbers: &[u32],
    kept: &mut Vec<u32>,
) -> Result<(), Memory>
    ensures { OnOk result ((x : ℕ) → Contains kept.new.items x
        ↔ (Contains numbers.now x × IsSpared plain.now uses.now closing.now x)) }
{
    kept.clear();
    for number in numbers {
        keep_if_spared(plain, uses, closing, *number, kept)?;
    }
    Ok(())
}

/// Keeps a number if it is an assumption no contrary of which is derived.
fn keep_if_spared(
    plain: &AbaPlain,
    uses: &RuleUses,
    closing: &Closing,
    number: u32,
    kept: &mut Vec<u32>,
) -> Result<(), Memory>
    ensures { OnOk result (Keeps number (IsSpared plain.now uses.now closing.now) kept.old.items kept.new.items) }
{
    let spared = is_spared(plain, uses, closing, number);
    if !spared {
        return Ok(());
    }
    kept.push(number)?;
    Ok(())
}

/// Whether a number is an assumption no contrary of which is derived.
fn is_spared(plain: &AbaPlain, uses: &RuleUses, closing: &Closing, number: u32) -> bool
    ensures { IsTrue result ↔ IsSpared plain.now uses.now closing.now number }
{
    plain.assumptions().contains(number) && is_quiet(uses, closing, number)
}
