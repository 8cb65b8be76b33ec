//! Whether what has come into a log serves a query.

ghost use Rattle.std.specs.Prelude.{◌≡◌, ◌↔◌, ◌≤◌, ◌<◌, ℕ, List, count_by, length, map, slice_index_or, take, true, IfOk, IsTrue};
ghost use Rattle.semantics.specs.Frameworks.{Framework as AnyFramework};
ghost use Rattle.meaning_atoms.specs.declared.axiom.AxiomName.{AxiomName as AnAxiomName};
ghost use Rattle.meaning_atoms.specs.AxiomNames.{IsAxiomName};
ghost use Rattle.meaning_atoms.specs.Worlds.{HoldsOf};
ghost use Rattle.certificate_claims.specs.Claims.{mode_atom};
ghost use Rattle.certificate_claims.specs.Refutations.{axiom_clause};
ghost use Rattle.edit_rules.specs.Kinds.{framework_of};
ghost use Rattle.oracle_face.specs.Logs.{IsSameClause, OracleLog, by_axiom, is_loop, is_unit};
ghost use Rattle.session_log.specs.Ends.{IsTakenByNone, LoopInHand, SideServes, side_mode, sides_for};
ghost use Rattle.answer_claims.specs.SideClauses.{side_of};
ghost use Rattle.core_logs.specs.Sources.{source_of};
ghost use Rattle.core_logs.specs.Tests.{AreNamed};
ghost use Rattle.core_answers.specs.Serving.{IsFresh, IsMadeAs, IsNamedInHand, LoopServes, SidesServe, StepServes, StepsServe};

use crate::counts::{is_loop, is_unit};
use crate::facts::facts_are_false;
use crate::rest::none_takes;
use answer_claims::{SideKind, side_clause};
use certificate_claims::clause_of_axiom;
use core_logs::checking::is_new;
use core_logs::literals::is_same_clause;
use core_logs::{CoreSide, CoreStep, Justification};
use edit_rules::Framework;
use iccma_tasks::{Problem, Query, Semantics};
use lists::Memory;
use meaning_atoms::{AtomLit, AxiomName};
use oracle_face::Pending;
use semantics::Mode;
use set_lists::NumSet;
use std::alloc::Global;

// ---- steps

/// Whether a clause is new to what searches use, and what it says of facts is false.
pub(crate) fn is_fresh(framework: &Framework, before: &[CoreStep], clause: &[AtomLit]) -> bool
    ensures { IsTrue result ↔ IsFresh (framework_of framework.now) before.now clause.now }
{
    is_new(before, clause) && facts_are_false(framework, clause)
}

/// Whether a step is fresh if it is a unit.
fn unit_serves(framework: &Framework, before: &[CoreStep], step: &CoreStep) -> bool
    ensures { IsTrue result
        ↔ (is_unit step.now ≡ true → IsFresh (framework_of framework.now) before.now step.now.clause) }
{
    !is_unit(step) || is_fresh(framework, before, step.clause())
}

/// Whether no hints take an axiom's clause, if it is a loop clause.
fn named_serves(alloc: Global, before: &[CoreStep], name: &AxiomName) -> Result<bool, Memory>
    requires { IsAxiomName name.now }
    ensures { IfOk result (λ serves. IsTrue serves
        ↔ (is_loop name.now ≡ true → IsTakenByNone before.now (axiom_clause name.now))) }
{
    if !is_loop(name) {
        return Ok(true);
    }
    let clause = clause_of_axiom(alloc, name)?;
    let none = none_takes(alloc, before, clause.as_slice())?;
    Ok(none)
}

/// The same of the axiom that a step comes from, if it comes from one.
fn loop_serves(alloc: Global, before: &[CoreStep], source: &Justification) -> Result<bool, Memory>
    requires { (name : AnAxiomName) → source_of source.now ≡ by_axiom name → IsAxiomName name }
    ensures { IfOk result (λ serves. IsTrue serves ↔ LoopServes before.now (source_of source.now)) }
{
    match source {
        Justification::Axiom(name) => Ok(named_serves(alloc, before, name)?),
        Justification::Side(_) | Justification::Hints(_) => Ok(true),
    }
}

/// Whether a step behind others serves a query.
fn step_serves(
    alloc: Global,
    framework: &Framework,
    before: &[CoreStep],
    step: &CoreStep,
) -> Result<bool, Memory>
    requires { (name : AnAxiomName) → step.now.source ≡ by_axiom name → IsAxiomName name }
    ensures { IfOk result (λ serves. IsTrue serves
        ↔ StepServes (framework_of framework.now) before.now step.now) }
{
    let unit = unit_serves(framework, before, step);
    if !unit {
        return Ok(false);
    }
    let serves = loop_serves(alloc, before, step.source())?;
    Ok(serves)
}

/// Whether each step from an index on does.
pub(crate) fn steps_serve(
    alloc: Global,
    framework: &Framework,
    steps: &[CoreStep],
    from: usize,
) -> Result<bool, Memory>
    requires { AreNamed steps.now }
    ensures { IfOk result (λ serve. IsTrue serve ↔ StepsServe (framework_of framework.now) steps.now from) }
{
    for index in from..steps.len() {
        let serves = step_serves(alloc, framework, &steps[..index], &steps[index])?;
        if !serves {
            return Ok(false);
        }
    }
    Ok(true)
}

/// Whether no hints take a loop clause in hand.
pub(crate) fn in_hand_serves(
    alloc: Global,
    steps: &[CoreStep],
    pending: &Option<Pending>,
) -> Result<bool, Memory>
    requires { IsNamedInHand pending.now }
    ensures { IfOk result (λ serves. (log : OracleLog) → log.steps ≡ steps.now
        → IsTrue serves ↔ LoopInHand log pending.now) }
{
    match pending {
        Some(Pending::Loop(name)) => {
            let clause = clause_of_axiom(alloc, name)?;
            let none = none_takes(alloc, steps, clause.as_slice())?;
            Ok(none)
        }
        Some(Pending::Side(_, _) | Pending::Learned(_, _)) | None => Ok(true),
    }
}

// ---- side clauses

/// The kinds of side clause that a certificate for the problem and semantics may have.
fn kinds_for(problem: Problem, semantics: Semantics) -> &'static [SideKind]
    ensures { (f : AnyFramework) (e : List ℕ) → map (λ k. side_of f k e) result.now ≡ sides_for f problem semantics e }
{
    match (problem, semantics) {
        (_, Semantics::Preferred) => &[SideKind::Outside],
        (Problem::AllExtensions, Semantics::SemiStable | Semantics::Stage) => {
            &[SideKind::Wider, SideKind::Differs]
        }
        (_, Semantics::SemiStable | Semantics::Stage) => &[SideKind::Wider],
        (_, Semantics::Ideal) => &[SideKind::Outside, SideKind::Attacked],
        (Problem::AllExtensions, Semantics::Complete | Semantics::Stable) => &[SideKind::Differs],
        (_, Semantics::Complete | Semantics::Grounded | Semantics::Stable) => &[],
    }
}

/// Whether literals are those of a side clause of a set.
fn is_made_as(
    alloc: Global,
    framework: &Framework,
    kind: SideKind,
    literals: &[AtomLit],
    set: &NumSet,
) -> Result<bool, Memory>
    ensures { IfOk result (λ is. IsTrue is
        ↔ IsSameClause literals.now (side_of (framework_of framework.now) kind set.now)) }
{
    let clause = side_clause(alloc, framework, kind, set, 0)?;
    match clause.as_slice() {
        [] => Ok(literals.is_empty()),
        [_, side @ ..] => Ok(is_same_clause(literals, side)),
    }
}

/// Whether literals are those of a side clause of a set, of one of these kinds.
fn is_made_as_any(
    alloc: Global,
    framework: &Framework,
    kinds: &[SideKind],
    literals: &[AtomLit],
    set: &NumSet,
) -> Result<bool, Memory>
    ensures { IfOk result (λ is. IsTrue is
        ↔ IsMadeAs (framework_of framework.now) kinds.now literals.now set.now) }
{
    for index in 0..kinds.len() {
        let made = is_made_as(alloc, framework, kinds[index], literals, set)?;
        if made {
            return Ok(true);
        }
    }
    Ok(false)
}

/// What the sets are that side clauses for a query by the semantics are made from.
fn base_mode(semantics: Semantics) -> Mode
    ensures { mode_atom result ≡ side_mode semantics }
{
    match semantics {
        Semantics::Stage => Mode::Cf,
        Semantics::Complete => Mode::Ad,
        Semantics::Grounded => Mode::Ad,
        Semantics::Preferred => Mode::Ad,
        Semantics::Stable => Mode::Ad,
        Semantics::SemiStable => Mode::Ad,
        Semantics::Ideal => Mode::Ad,
    }
}

/// Whether a set is of the mode.
fn is_of_mode(
    alloc: Global,
    framework: &Framework,
    mode: Mode,
    set: &NumSet,
) -> Result<bool, Memory>
    ensures { IfOk result (λ is. IsTrue is ↔ HoldsOf (framework_of framework.now) set.now (mode_atom mode)) }
{
    match (mode, framework) {
        (Mode::Cf, Framework::Af(plain)) => Ok(plain.is_conflict_free(set)),
        (Mode::Cf, Framework::Aba(plain)) => Ok(plain.is_conflict_free(alloc, set)?),
        (Mode::Ad, Framework::Af(plain)) => Ok(plain.is_admissible(set)),
        (Mode::Ad, Framework::Aba(plain)) => Ok(plain.is_admissible(alloc, set)?),
    }
}

/// Whether a side clause serves a query: the table has it for the query, made from this set, which is admissible, or for a
/// query by stage sets conflict-free.
pub(crate) fn side_serves(
    alloc: Global,
    framework: &Framework,
    query: &Query,
    literals: &[AtomLit],
    set: &NumSet,
) -> Result<bool, Memory>
    ensures { IfOk result (λ serves. IsTrue serves
        ↔ SideServes (framework_of framework.now) query.now literals.now set.now) }
{
    let task = query.task();
    let kinds = kinds_for(task.problem, task.semantics);
    let made = is_made_as_any(alloc, framework, kinds, literals, set)?;
    if !made {
        return Ok(false);
    }
    let mode = base_mode(task.semantics);
    let may = is_of_mode(alloc, framework, mode, set)?;
    Ok(may)
}

/// Whether each side clause from an index on does.
pub(crate) fn sides_serve(
    alloc: Global,
    framework: &Framework,
    query: &Query,
    sides: &[CoreSide],
    from: usize,
) -> Result<bool, Memory>
    ensures { IfOk result (λ serve. IsTrue serve
        ↔ SidesServe (framework_of framework.now) query.now sides.now from) }
{
    for index in from..sides.len() {
        let side = &sides[index];
        let serves = side_serves(alloc, framework, query, side.literals(), side.set())?;
        if !serves {
            return Ok(false);
        }
    }
    Ok(true)
}
