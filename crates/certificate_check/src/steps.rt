//! The steps of a refutation, in turn up to the first that doesn't stand.

ghost use Rattle.std.specs.Prelude.{◌↔◌, ◌≤◌, ◌∷◌, length, IfOk, IsTrue, OnOk};
ghost use Rattle.semantics.specs.Frameworks.{Framework as AnyFramework, IsNumbered};
ghost use Rattle.edit_rules.specs.Kinds.{framework_of};
ghost use Rattle.meaning_atoms.specs.declared.atom.Atom.TheVariants.{Ask};
ghost use Rattle.meaning_atoms.specs.Literals.{denied};
ghost use Rattle.certificate_claims.specs.declared.certificate.Step.TheVariants.{Axiom, Derived, Side};
ghost use Rattle.certificate_claims.specs.Refutations.{IsAxiomOf};
ghost use Rattle.certificate_claims.specs.SetLiterals.{wider};
ghost use Rattle.answer_claims.specs.declared.sides.SideKind.{SideKind as AnyKind};
ghost use Rattle.answer_claims.specs.SideClauses.{side_of, sides_of};
ghost use Rattle.certificate_check.specs.Standing.{IsFirstWithout, StandsAt};
ghost use Rattle.certificate_check.specs.StepRows.{HasSettled, IsPlaceIn, IsTaken, Settles, TakesOn};
ghost use Rattle.certificate_check.specs.Idle.{IsIdle, LeavesMore};

use crate::taken::{Place, Taken};
use answer_claims::{SideKind, range_of, side_clause};
use certificate_claims::{Step, clause_of_axiom};
use edit_rules::Framework;
use lists::Memory;
use meaning_atoms::{AtomLit, AxiomName};
use set_lists::NumSet;
use set_tests::member_count;
use std::alloc::Global;

/// Whether an axiom is one of the framework's kind, with arguments that fit its row.
fn is_axiom_of(framework: &Framework, name: &AxiomName) -> bool
    ensures { IsTrue result ↔ IsAxiomOf (framework_of framework.now) name.now }
{
    match (framework, name) {
        (Framework::Af(_), AxiomName::Af(name)) => name.is_name(),
        (Framework::Aba(_), AxiomName::Aba(name)) => name.is_name(),
        (Framework::Af(_), AxiomName::Aba(_)) | (Framework::Aba(_), AxiomName::Af(_)) => false,
    }
}

/// Takes an axiom of the framework's kind.
fn take_axiom(
    alloc: Global,
    framework: &Framework,
    kind: SideKind,
    sets: &[NumSet],
    name: &AxiomName,
    taken: &mut Taken,
) -> Result<bool, Memory>
    requires { IsTaken (framework_of framework.now) kind sets.now taken.old }
    ensures { IfOk result (TakesOn (framework_of framework.now) kind sets.now taken.old (Axiom name.now) taken.new) }
{
    let is_axiom = is_axiom_of(framework, name);
    if !is_axiom {
        return Ok(false);
    }
    let clause = clause_of_axiom(alloc, name)?;
    taken.push(clause.as_slice())?;
    Ok(true)
}

/// Takes a side clause by its number, which costs the same whatever its set is.
fn take_side(sets: &[NumSet], number: u32, taken: &mut Taken) -> Result<bool, Memory>
    ensures { IfOk result (λ takes. (f : AnyFramework) (kind : AnyKind) → IsTaken f kind sets.now taken.old
        → TakesOn f kind sets.now taken.old (Side number) taken.new takes) }
{
    let index = number as usize;
    if index == 0 || index > sets.len() {
        return Ok(false);
    }
    taken.push_side(number)?;
    Ok(true)
}

/// Whether more members than so many, and one to spare, lie outside a set.
fn leaves_more(framework: &Framework, set: &NumSet, limit: usize) -> bool
    ensures more { IsTrue result → LeavesMore (framework_of framework.now) set.now limit }
    ensures form { IsNumbered (framework_of framework.now) }
{
    let _kind = framework.kind();
    let count = member_count(framework);
    count.saturating_sub(set.len()).saturating_sub(1) > limit
}

/// Whether a side clause has so many literals that it is of no use beside so many truths: more than one of them is not
/// false. For this its set is counted, and not what lies outside it.
fn is_idle(
    alloc: Global,
    framework: &Framework,
    kind: SideKind,
    set: &NumSet,
    number: u32,
    limit: usize,
) -> Result<bool, Memory>
    ensures { IfOk result (λ idle. IsTrue idle
        → IsIdle limit (denied (Ask number) ∷ side_of (framework_of framework.now) kind set.now)) }
{
    match kind {
        SideKind::Outside => {
            let outside = leaves_more(framework, set, limit);
            Ok(outside)
        }
        SideKind::Differs => {
            let differs = leaves_more(framework, set, limit);
            Ok(differs)
        }
        SideKind::Wider => {
            let wide = is_idle_wide(alloc, framework, set, number, limit)?;
            Ok(wide)
        }
        SideKind::Attacked => Ok(false),
    }
}

/// The same of the side clause that the range is wider than the set's.
fn is_idle_wide(
    alloc: Global,
    framework: &Framework,
    set: &NumSet,
    number: u32,
    limit: usize,
) -> Result<bool, Memory>
    ensures { IfOk result (λ idle. IsTrue idle
        → IsIdle limit (denied (Ask number) ∷ wider (framework_of framework.now) set.now)) }
{
    let range = range_of(alloc, framework, set)?;
    let more = leaves_more(framework, &range, limit);
    Ok(more)
}

/// Writes a side clause out, unless it is or is of no use beside so many truths.
fn write_if_used(
    alloc: Global,
    framework: &Framework,
    kind: SideKind,
    sets: &[NumSet],
    limit: usize,
    number: u32,
    taken: &mut Taken,
) -> Result<(), Memory>
    requires taken { IsTaken (framework_of framework.now) kind sets.now taken.old }
    requires from_one { 1 ≤ number }
    requires within { number ≤ length sets.now }
    ensures { OnOk result (Settles (framework_of framework.now) kind sets.now limit (Place.Side number)
        taken.old taken.new) }
{
    if taken.row_of_side(number) > 0 {
        return Ok(());
    }
    let set = &sets[number as usize - 1];
    let idle = is_idle(alloc, framework, kind, set, number, limit)?;
    if idle {
        return Ok(());
    }
    let clause = side_clause(alloc, framework, kind, set, number)?;
    taken.write_side(number as usize, clause.as_slice())?;
    Ok(())
}

/// Writes the side clause at a place out, if there is one that may be of use.
fn settle(
    alloc: Global,
    framework: &Framework,
    kind: SideKind,
    sets: &[NumSet],
    limit: usize,
    place: Place,
    taken: &mut Taken,
) -> Result<(), Memory>
    requires taken { IsTaken (framework_of framework.now) kind sets.now taken.old }
    requires place { IsPlaceIn (length sets.now) place }
    ensures { OnOk result (Settles (framework_of framework.now) kind sets.now limit place taken.old taken.new) }
{
    match place {
        Place::Row(_) => Ok(()),
        Place::Side(number) => write_if_used(alloc, framework, kind, sets, limit, number, taken),
    }
}

/// Writes the side clauses out that hints name, but for those that are of no use beside so many truths.
fn settle_all(
    alloc: Global,
    framework: &Framework,
    kind: SideKind,
    sets: &[NumSet],
    limit: usize,
    hints: &[u32],
    taken: &mut Taken,
) -> Result<(), Memory>
    requires { IsTaken (framework_of framework.now) kind sets.now taken.old }
    ensures { OnOk result (HasSettled (framework_of framework.now) kind sets.now limit hints.now (length hints.now)
        taken.old taken.new) }
{
    for hint in hints {
        let place = taken.place_of(*hint);
        settle(alloc, framework, kind, sets, limit, place, taken)?;
    }
    Ok(())
}

/// Takes a derived step if its hints show it. While they are looked at, no more literals are true than the step has
/// literals and hints.
fn take_derived(
    alloc: Global,
    framework: &Framework,
    kind: SideKind,
    sets: &[NumSet],
    literals: &[AtomLit],
    hints: &[u32],
    taken: &mut Taken,
) -> Result<bool, Memory>
    requires { IsTaken (framework_of framework.now) kind sets.now taken.old }
    ensures { IfOk result (TakesOn (framework_of framework.now) kind sets.now taken.old
        (Derived literals.now hints.now) taken.new) }
{
    let limit = literals.len() + hints.len();
    settle_all(alloc, framework, kind, sets, limit, hints, taken)?;
    let derived = taken.derive(literals, hints)?;
    Ok(derived)
}

/// Takes a step if it stands behind those that were taken, and answers whether it does.
fn take_step(
    alloc: Global,
    framework: &Framework,
    kind: SideKind,
    sets: &[NumSet],
    step: &Step,
    taken: &mut Taken,
) -> Result<bool, Memory>
    requires { IsTaken (framework_of framework.now) kind sets.now taken.old }
    ensures { IfOk result (TakesOn (framework_of framework.now) kind sets.now taken.old step.now taken.new) }
{
    match step {
        Step::Axiom(name) => take_axiom(alloc, framework, kind, sets, name, taken),
        Step::Side(number) => take_side(sets, *number, taken),
        Step::Derived(literals, hints) => {
            let (literals, hints) = (literals.as_slice(), hints.as_slice());
            take_derived(alloc, framework, kind, sets, literals, hints, taken)
        }
    }
}

/// The index of the first step that doesn't stand behind those before it, if there is one.
pub(crate) fn first_bad_step(
    alloc: Global,
    framework: &Framework,
    kind: SideKind,
    sets: &[NumSet],
    steps: &[Step],
) -> Result<Option<usize>, Memory>
    ensures { IfOk result (IsFirstWithout (StandsAt (framework_of framework.now)
        (sides_of (framework_of framework.now) kind sets.now) steps.now) (length steps.now)) }
{
    let mut taken = Taken::new(alloc, sets.len())?;
    for index in 0..steps.len() {
        if !take_step(alloc, framework, kind, sets, &steps[index], &mut taken)? {
            return Ok(Some(index));
        }
    }
    Ok(None)
}
