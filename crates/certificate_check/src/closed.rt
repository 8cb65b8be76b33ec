//! Which literals the facts, the goals and the side clauses make false.

ghost use Rattle.std.specs.Prelude.{◌≡◌, ◌↔◌, ◌≤◌, not, length, IfNone, IfOk, IfSome, IsTrue};
ghost use Rattle.meaning_atoms.specs.Worlds.{IsFact};
ghost use Rattle.af_axioms.specs.Facts.{IsFactValue};
ghost use Rattle.certificate_claims.specs.declared.certificate.Step.TheVariants.{Side};
ghost use Rattle.certificate_claims.specs.Refutations.{IsAxiomOf, IsNotAsked, axiom_clause, step_clause};
ghost use Rattle.edit_rules.specs.Kinds.{framework_of};
ghost use Rattle.answer_claims.specs.SetFacts.{IsRangeOf};
ghost use Rattle.answer_claims.specs.SideClauses.{sides_of};
ghost use Rattle.certificate_check.specs.Standing.{AreClosed, IsClosedBy, IsNamed};

use aba_facts::fact as aba_fact;
use af_axioms::fact_value;
use answer_claims::{Claim, is_goal, opposite, side_clause};
use certificate_claims::{Step, clause_of_axiom};
use edit_rules::Framework;
use lists::Memory;
use meaning_atoms::{Atom, AtomLit, AxiomName};
use set_lists::NumSet;
use std::alloc::Global;

/// Whether an atom is true, where the framework alone fixes it. It looks the fact up.
fn fact(framework: &Framework, atom: &Atom) -> Option<bool>
    ensures some { IfSome result (IsFactValue (framework_of framework.now) atom.now) }
    ensures none { IfNone result (¬ IsFact (framework_of framework.now) atom.now) }
{
    match framework {
        Framework::Af(plain) => fact_value(plain, atom),
        Framework::Aba(plain) => aba_fact(plain, atom),
    }
}

/// Whether the framework alone makes a literal false.
fn is_false_fact(framework: &Framework, literal: &AtomLit) -> bool
    ensures { IsTrue result ↔ IsFactValue (framework_of framework.now) literal.now.atom (not literal.now.positive) }
{
    match fact(framework, &literal.atom) {
        Some(true) => !literal.positive,
        Some(false) => literal.positive,
        None => false,
    }
}

/// Whether a literal denies a side clause, one of so many.
fn is_not_asked(literal: &AtomLit, count: usize) -> bool
    ensures { IsTrue result ↔ IsNotAsked literal.now.atom literal.now.positive count }
{
    match (literal.atom, literal.positive) {
        (Atom::Ask(n), false) => is_number_within(n, count),
        _ => false,
    }
}

/// Whether a number is from 1 to a count.
fn is_number_within(number: u32, count: usize) -> bool
    ensures { IsTrue result ↔ ((1 ≤ number) × (number ≤ count)) }
{
    1 <= number && number as usize <= count
}

/// Whether a literal is false by a fact, by a goal, or as the denial of one of the side clauses.
fn is_closed(framework: &Framework, claim: &Claim, range: &NumSet, literal: &AtomLit) -> bool
    requires { IsRangeOf (framework_of framework.now) claim.now.ranged range.now }
    ensures { IsTrue result ↔ IsClosedBy (framework_of framework.now) claim.now literal.now }
{
    is_not_asked(literal, claim.sides.len())
        || is_goal(framework, claim, range, &opposite(*literal))
        || is_false_fact(framework, literal)
}

/// Whether all literals are; `range` is the range of the claim's set.
fn are_closed(framework: &Framework, claim: &Claim, range: &NumSet, clause: &[AtomLit]) -> bool
    requires { IsRangeOf (framework_of framework.now) claim.now.ranged range.now }
    ensures { IsTrue result ↔ AreClosed (framework_of framework.now) claim.now clause.now }
{
    for literal in clause {
        let closed = is_closed(framework, claim, range, literal);
        if !closed {
            return false;
        }
    }
    true
}

/// Whether all literals of an axiom's clause are closed.
fn axiom_is_closed(
    alloc: Global,
    framework: &Framework,
    claim: &Claim,
    range: &NumSet,
    name: &AxiomName,
) -> Result<bool, Memory>
    requires range { IsRangeOf (framework_of framework.now) claim.now.ranged range.now }
    requires axiom { IsAxiomOf (framework_of framework.now) name.now }
    ensures { IfOk result (λ closed. IsTrue closed
        ↔ AreClosed (framework_of framework.now) claim.now (axiom_clause name.now)) }
{
    let clause = clause_of_axiom(alloc, name)?;
    Ok(are_closed(framework, claim, range, clause.as_slice()))
}

/// Whether all literals of the clause of a side step are closed.
fn side_is_closed(
    alloc: Global,
    framework: &Framework,
    claim: &Claim,
    range: &NumSet,
    number: u32,
) -> Result<bool, Memory>
    requires range { IsRangeOf (framework_of framework.now) claim.now.ranged range.now }
    requires from_one { 1 ≤ number }
    requires within { number ≤ length claim.now.sides }
    ensures { IfOk result (λ closed. IsTrue closed ↔ AreClosed (framework_of framework.now) claim.now
        (step_clause (sides_of (framework_of framework.now) claim.now.kind claim.now.sides) (Side number))) }
{
    let sides = claim.sides.as_slice();
    let set = &sides[number as usize - 1];
    let clause = side_clause(alloc, framework, claim.kind, set, number)?;
    Ok(are_closed(framework, claim, range, clause.as_slice()))
}

/// Whether all literals of a step's clause are closed.
pub(crate) fn step_is_closed(
    alloc: Global,
    framework: &Framework,
    claim: &Claim,
    range: &NumSet,
    step: &Step,
) -> Result<bool, Memory>
    requires range { IsRangeOf (framework_of framework.now) claim.now.ranged range.now }
    requires stands { IsNamed (framework_of framework.now) (length claim.now.sides) step.now }
    ensures { IfOk result (λ closed. IsTrue closed ↔ AreClosed (framework_of framework.now) claim.now
        (step_clause (sides_of (framework_of framework.now) claim.now.kind claim.now.sides) step.now)) }
{
    match step {
        Step::Axiom(name) => axiom_is_closed(alloc, framework, claim, range, name),
        Step::Side(number) => side_is_closed(alloc, framework, claim, range, *number),
        Step::Derived(literals, _) => Ok(are_closed(framework, claim, range, literals.as_slice())),
    }
}
