//! Whether some step of a log refutes a claim.

ghost use Rattle.std.specs.Prelude.{◌≡◌, ◌↔◌, ◌⊎◌, ◌+◌, ℕ, Contains, IfOk, IsTrue, OnOk, length};
ghost use Rattle.meaning_atoms.specs.declared.atom.AtomLit.{AtomLit as ALit};
ghost use Rattle.certificate_claims.specs.Refutations.{Claim as TableClaim};
ghost use Rattle.edit_rules.specs.Kinds.{framework_of};
ghost use Rattle.oracle_face.specs.Logs.{IsSameClause};
ghost use Rattle.session_log.specs.Ends.{HasRefuting};
ghost use Rattle.answer_claims.specs.ClaimParts.{IsClaimOf};
ghost use Rattle.answer_claims.specs.SetFacts.{IsRangeOf};
ghost use Rattle.answer_claims.specs.SideClauses.{sides_of};
ghost use Rattle.core_answers.specs.Refuting.{AddsLike, DeniesOwn, HasNumbers, IsClosedBy, RefutesAt};

use crate::facts::is_false_fact;
use crate::reach::reach_own;
use answer_claims::{Claim, SideKind, is_goal, range_of, side_clause};
use core_logs::literals::{is_same_clause, opposite};
use core_logs::{CoreLog, CoreSide, CoreStep};
use edit_rules::Framework;
use lists::Memory;
use meaning_atoms::{Atom, AtomLit};
use set_lists::NumSet;
use std::alloc::Global;

// ---- the side clauses of a claim

/// The number of the item at an index.
fn number_at(index: usize) -> Result<u32, Memory>
    ensures { IfOk result (λ number. number ≡ index + 1) }
{
    if index >= u32::MAX as usize {
        return Err(Memory);
    }
    Ok(index as u32 + 1)
}

/// Adds the number of a side clause if it has these literals.
fn add_if_like(
    own: &mut NumSet,
    side: &CoreSide,
    number: u32,
    literals: &[AtomLit],
) -> Result<(), Memory>
    ensures { OnOk result ((n : ℕ) → Contains own.new n
        ↔ (Contains own.old n ⊎ ((n ≡ number) × IsSameClause side.now.literals literals.now))) }
{
    if !is_same_clause(side.literals(), literals) {
        return Ok(());
    }
    own.insert(number)?;
    Ok(())
}

/// Adds the numbers of the side clauses that have these literals.
fn add_like(own: &mut NumSet, sides: &[CoreSide], literals: &[AtomLit]) -> Result<(), Memory>
    ensures { OnOk result (AddsLike sides.now literals.now (length sides.now) own.old own.new) }
{
    for index in 0..sides.len() {
        let number = number_at(index)?;
        add_if_like(own, &sides[index], number, literals)?;
    }
    Ok(())
}

/// The numbers of the side clauses of a log that have the literals of one of a claim's.
fn own_sides(
    alloc: Global,
    framework: &Framework,
    sides: &[CoreSide],
    kind: SideKind,
    sets: &[NumSet],
) -> Result<NumSet, Memory>
    ensures { IfOk result (HasNumbers sides.now (sides_of (framework_of framework.now) kind sets.now)) }
{
    let mut own = NumSet::new(alloc);
    for index in 0..sets.len() {
        let clause = side_clause(alloc, framework, kind, &sets[index], 0)?;
        let literals = &clause.as_slice()[1..];
        add_like(&mut own, sides, literals)?;
    }
    Ok(own)
}

// ---- closed literals

/// Whether a literal denies one of these side clauses.
fn denies_own(own: &NumSet, literal: &AtomLit) -> bool
    ensures { IsTrue result ↔ DeniesOwn own.now literal.now.atom literal.now.positive }
{
    match (literal.atom, literal.positive) {
        (Atom::Ask(number), false) => own.contains(number),
        _ => false,
    }
}

/// Whether a literal is false by a fact, by a goal, or as the denial of one of these side clauses.
fn is_closed(
    framework: &Framework,
    claim: &Claim,
    range: &NumSet,
    own: &NumSet,
    literal: &AtomLit,
) -> bool
    requires { IsRangeOf (framework_of framework.now) claim.now.ranged range.now }
    ensures { IsTrue result ↔ IsClosedBy (framework_of framework.now) claim.now own.now literal.now }
{
    is_false_fact(framework, literal)
        || is_goal(framework, claim, range, &opposite(*literal))
        || denies_own(own, literal)
}

/// Whether all literals are.
fn are_closed(
    framework: &Framework,
    claim: &Claim,
    range: &NumSet,
    own: &NumSet,
    clause: &[AtomLit],
) -> bool
    requires { IsRangeOf (framework_of framework.now) claim.now.ranged range.now }
    ensures { IsTrue result ↔ ((l : ALit) → Contains clause.now l
        → IsClosedBy (framework_of framework.now) claim.now own.now l) }
{
    for literal in clause {
        let closed = is_closed(framework, claim, range, own, literal);
        if !closed {
            return false;
        }
    }
    true
}

// ---- refuting steps

/// Whether one of the marked steps has only closed literals.
fn has_refuting(
    framework: &Framework,
    claim: &Claim,
    range: &NumSet,
    own: &NumSet,
    steps: &[CoreStep],
    marks: &[bool],
) -> bool
    requires range { IsRangeOf (framework_of framework.now) claim.now.ranged range.now }
    requires long { length marks.now ≡ length steps.now }
    ensures { IsTrue result
        ↔ ((k : ℕ) × RefutesAt (framework_of framework.now) claim.now own.now steps.now marks.now k) }
{
    for index in 0..steps.len() {
        let closed = are_closed(framework, claim, range, own, steps[index].clause());
        if closed && marks[index] {
            return true;
        }
    }
    false
}

/// Whether some step of a log refutes a claim: its literals are false by the facts, by the claim's goals or as denials
/// of its side clauses, and it reaches no other side clause.
pub(crate) fn is_refuted(
    alloc: Global,
    framework: &Framework,
    log: &CoreLog,
    claim: &Claim,
) -> Result<bool, Memory>
    ensures { IfOk result (λ is. (t : TableClaim) → IsClaimOf (framework_of framework.now) claim.now t
        → IsTrue is ↔ HasRefuting (framework_of framework.now) log.now t) }
{
    let range = range_of(alloc, framework, &claim.ranged)?;
    let own = own_sides(
        alloc,
        framework,
        log.sides(),
        claim.kind,
        claim.sides.as_slice(),
    )?;
    let marks = reach_own(alloc, log.steps(), &own)?;
    let refuted = has_refuting(
        framework,
        claim,
        &range,
        &own,
        log.steps(),
        marks.as_slice(),
    );
    Ok(refuted)
}
