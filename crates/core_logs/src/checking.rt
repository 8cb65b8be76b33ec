//! The check of a clause by its hints, and whether a clause is new: plain programs over literals, each exact.

ghost use Rattle.std.specs.Prelude.{◌≡◌, ◌↔◌, ℕ, map, Contains, IfOk, IsTrue, Ok, Some, length};
ghost use Rattle.plain_lits.specs.HintCheck.{Checks};
ghost use Rattle.meaning_atoms.specs.declared.atom.AtomLit.{AtomLit as ALit};
ghost use Rattle.meaning_atoms.specs.Literals.{negated};
ghost use Rattle.oracle_face.specs.Logs.{HasPart, IsNew, clauses_of, step_at, working};
ghost use Rattle.session_log.specs.Steps.{FollowsByHints, StandsInHint};
ghost use Rattle.core_logs.specs.Tests.{EndsAt, HintMeans, IsFalseOr, IsKeptHint, IsMet, IsPartOf, IsStatusOf};
ghost use Rattle.core_logs.specs.Tests.{IsTakenAt, IsUsed, IsWorkingPart};

use crate::literals::{has, has_opposite, is_part, is_tautology, opposite};
use crate::steps::{CoreStep, clause_at, is_closing_at, is_number};
use lists::Memory;
use meaning_atoms::AtomLit;
use meaning_atoms::laws::literals_are_equal;
use plain_lits::StepId;
use std::alloc::Global;

/// What a clause is under the literals that are true.
#[derive(Clone, Copy)]
pub enum Status {
    /// All literals are false.
    Falsified,
    /// All literals are false but this one, which has no value.
    Unit(AtomLit),
    /// A literal is true, or two have no value.
    Other,
}

/// Whether a literal is this one, or false.
fn is_false_or(truths: &[AtomLit], unset: &AtomLit, literal: &AtomLit) -> bool
    ensures { IsTrue result ↔ IsFalseOr truths.now unset.now literal.now }
{
    literals_are_equal(literal, unset) || has_opposite(truths, literal)
}

/// Whether all literals but this one are false.
fn others_are_false(truths: &[AtomLit], clause: &[AtomLit], unset: &AtomLit) -> bool
    ensures { IsTrue result ↔ ((l : ALit) → Contains clause.now l → IsFalseOr truths.now unset.now l) }
{
    clause
        .iter()
        .all(|literal| is_false_or(truths, unset, literal))
}

/// What a clause is under the literals that are true.
pub fn clause_status(truths: &[AtomLit], clause: &[AtomLit]) -> Status
    ensures { IsStatusOf truths.now clause.now result }
{
    for literal in clause {
        let is_false = has_opposite(truths, literal);
        if !is_false {
            return status_by(truths, clause, literal);
        }
    }
    Status::Falsified
}

/// What a clause is, of which this literal isn't false.
fn status_by(truths: &[AtomLit], clause: &[AtomLit], literal: &AtomLit) -> Status
    requires there { Contains clause.now literal.now }
    requires not_false { Contains truths.now (negated literal.now) → ⊥ }
    ensures { IsStatusOf truths.now clause.now result }
{
    let is_true = has(truths, literal);
    if is_true {
        return Status::Other;
    }
    let alone = others_are_false(truths, clause, literal);
    if alone {
        return Status::Unit(*literal);
    }
    Status::Other
}

/// What the clause of a hint's step is.
fn hint_status(steps: &[CoreStep], truths: &[AtomLit], hint: StepId) -> Status
    ensures { HintMeans (clauses_of steps.now) truths.now hint result }
{
    if !is_number(steps, hint) {
        return Status::Other;
    }
    clause_status(truths, clause_at(steps, hint))
}

/// The place of the hint at which unit propagation by the hints in turn, from literals that are true, ends with a false
/// clause.
fn propagates(
    steps: &[CoreStep],
    truths: &mut Vec<AtomLit>,
    hints: &[StepId],
) -> Result<Option<usize>, Memory>
    ensures { IfOk result (EndsAt (clauses_of steps.now) truths.old.items hints.now) }
{
    for at in 0..hints.len() {
        match hint_status(steps, truths.as_slice(), hints[at]) {
            Status::Falsified => return Ok(Some(at + 1)),
            Status::Unit(literal) => truths.push(literal)?,
            Status::Other => return Ok(None),
        }
    }
    Ok(None)
}

/// The negations of the literals.
pub fn negations(alloc: Global, clause: &[AtomLit]) -> Result<Vec<AtomLit>, Memory>
    ensures { IfOk result (λ negations. negations.items ≡ map negated clause.now) }
{
    let mut negations = Vec::new(alloc);
    for literal in clause {
        negations.push(opposite(*literal))?;
    }
    Ok(negations)
}

/// How many of the hints the check looks at where it takes a clause.
pub fn taken_by(
    alloc: Global,
    steps: &[CoreStep],
    clause: &[AtomLit],
    hints: &[StepId],
) -> Result<Option<usize>, Memory>
    ensures { IfOk result (IsTakenAt (clauses_of steps.now) clause.now hints.now) }
{
    let tautology = is_tautology(clause);
    if tautology {
        return Ok(None);
    }
    let mut truths = negations(alloc, clause)?;
    propagates(steps, &mut truths, hints)
}

/// Whether so many are told.
fn is_count(told: Option<usize>, count: usize) -> bool
    ensures { IsTrue result ↔ (told ≡ Some count) }
{
    match told {
        Some(number) => number == count,
        None => false,
    }
}

/// Whether the check of hints takes a clause by all of them.
pub fn is_taken(
    alloc: Global,
    steps: &[CoreStep],
    clause: &[AtomLit],
    hints: &[StepId],
) -> Result<bool, Memory>
    ensures { IfOk result (λ taken. IsTrue taken
        ↔ Checks negated (clauses_of steps.now) clause.now hints.now (Ok (length hints.now))) }
{
    let used = taken_by(alloc, steps, clause, hints)?;
    Ok(is_count(used, hints.len()))
}

/// Whether a step's clause is part of a clause.
fn is_part_of(step: &CoreStep, clause: &[AtomLit]) -> bool
    ensures { IsTrue result ↔ IsPartOf step.now clause.now }
{
    is_part(step.clause(), clause)
}

/// Whether the clause of some step is part of a clause.
pub fn has_part(steps: &[CoreStep], clause: &[AtomLit]) -> bool
    ensures { IsTrue result ↔ HasPart (clauses_of steps.now) clause.now }
{
    steps.iter().any(|step| is_part_of(step, clause))
}

/// Whether a step is in use, and its clause is part of a clause.
fn is_working_part(step: &CoreStep, clause: &[AtomLit]) -> bool
    ensures { IsTrue result ↔ IsWorkingPart step.now clause.now }
{
    !step.closing() && is_part(step.clause(), clause)
}

/// Whether the clause of some step that searches use is part of a clause.
fn has_working_part(steps: &[CoreStep], clause: &[AtomLit]) -> bool
    ensures { IsTrue result ↔ HasPart (working steps.now) clause.now }
{
    steps.iter().any(|step| is_working_part(step, clause))
}

/// Whether a clause is new to those that searches use.
pub fn is_new(steps: &[CoreStep], clause: &[AtomLit]) -> bool
    ensures { IsTrue result ↔ IsNew (working steps.now) clause.now }
{
    !is_tautology(clause) && !has_working_part(steps, clause)
}

/// Whether the clause of a hint's step has a literal.
fn hint_has(steps: &[CoreStep], hint: StepId, literal: &AtomLit) -> bool
    ensures { IsTrue result ↔ Contains (step_at steps.now hint).clause literal.now }
{
    has(clause_at(steps, hint), literal)
}

/// Whether the clause of some hint's step does.
fn stands_in_hint(steps: &[CoreStep], hints: &[StepId], literal: &AtomLit) -> bool
    ensures { IsTrue result ↔ StandsInHint steps.now hints.now literal.now }
{
    hints.iter().any(|hint| hint_has(steps, *hint, literal))
}

/// Whether a literal of a hint's clause is in the clause, or its negation in some hint's.
fn is_met(steps: &[CoreStep], clause: &[AtomLit], hints: &[StepId], literal: &AtomLit) -> bool
    ensures { IsTrue result ↔ IsMet steps.now clause.now hints.now literal.now }
{
    has(clause, literal) || stands_in_hint(steps, hints, &opposite(*literal))
}

/// Whether all literals of a hint's clause are so.
fn is_used(steps: &[CoreStep], clause: &[AtomLit], hints: &[StepId], hint: StepId) -> bool
    ensures { IsTrue result ↔ IsUsed steps.now clause.now hints.now hint }
{
    clause_at(steps, hint)
        .iter()
        .all(|literal| is_met(steps, clause, hints, literal))
}

/// Whether all hints are used.
fn are_used(steps: &[CoreStep], clause: &[AtomLit], hints: &[StepId]) -> bool
    ensures { IsTrue result ↔ ((hint : ℕ) → Contains hints.now hint → IsUsed steps.now clause.now hints.now hint) }
{
    hints
        .iter()
        .all(|hint| is_used(steps, clause, hints, *hint))
}

/// Whether each literal of a clause comes from a hint.
fn all_come(steps: &[CoreStep], clause: &[AtomLit], hints: &[StepId]) -> bool
    ensures { IsTrue result ↔ ((l : ALit) → Contains clause.now l → StandsInHint steps.now hints.now l) }
{
    clause
        .iter()
        .all(|literal| stands_in_hint(steps, hints, literal))
}

/// Whether a hint's step is in use.
fn is_kept(steps: &[CoreStep], hint: StepId) -> bool
    ensures { IsTrue result ↔ IsKeptHint steps.now hint }
{
    !is_closing_at(steps, hint)
}

/// Whether the steps of all hints are.
pub fn are_kept(steps: &[CoreStep], hints: &[StepId]) -> bool
    ensures { IsTrue result ↔ ((hint : ℕ) → Contains hints.now hint → IsKeptHint steps.now hint) }
{
    hints.iter().all(|hint| is_kept(steps, *hint))
}

/// Whether a clause follows by hints, of which each is needed.
pub fn follows(
    alloc: Global,
    steps: &[CoreStep],
    clause: &[AtomLit],
    hints: &[StepId],
) -> Result<bool, Memory>
    ensures { IfOk result (λ follows. IsTrue follows ↔ FollowsByHints steps.now clause.now hints.now) }
{
    if !are_kept(steps, hints) {
        return Ok(false);
    }
    if !are_used(steps, clause, hints) {
        return Ok(false);
    }
    if !all_come(steps, clause, hints) {
        return Ok(false);
    }
    is_taken(alloc, steps, clause, hints)
}
