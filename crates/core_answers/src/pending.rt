//! Whether a clause in hand would have been a further unit.

ghost use Rattle.std.specs.Prelude.{◌≡◌, ◌↔◌, Contains, IfOk, IsTrue};
ghost use Rattle.edit_rules.specs.Kinds.{framework_of};
ghost use Rattle.oracle_face.specs.declared.face.Pending.TheVariants.{Learned, Loop, Side};
ghost use Rattle.oracle_face.specs.Growing.{IsFurther};
ghost use Rattle.oracle_face.specs.Logs.{SideClause};
ghost use Rattle.session_log.specs.Ends.{MadeFor};
ghost use Rattle.core_answers.specs.Serving.{IsOtherSide};

use crate::counts::is_loop;
use crate::facts::is_axiom_of;
use crate::serving::{is_fresh, side_serves};
use certificate_claims::clause_of_axiom;
use core_logs::checking::{are_kept, is_taken};
use core_logs::literals::is_same_clause;
use core_logs::{CoreLog, CoreSide};
use edit_rules::Framework;
use iccma_tasks::Query;
use lists::Memory;
use meaning_atoms::{AtomLit, AxiomName};
use oracle_face::Pending;
use plain_lits::StepId;
use set_lists::NumSet;
use std::alloc::Global;

/// Whether a side clause has other literals.
fn is_other_side(side: &CoreSide, literals: &[AtomLit]) -> bool
    ensures { IsTrue result ↔ IsOtherSide literals.now side.now }
{
    !is_same_clause(side.literals(), literals)
}

/// Whether all side clauses have.
fn are_other_sides(sides: &[CoreSide], literals: &[AtomLit]) -> bool
    ensures { IsTrue result ↔ ((side : SideClause) → Contains sides.now side → IsOtherSide literals.now side) }
{
    sides.iter().all(|side| is_other_side(side, literals))
}

/// Whether a side clause would have been a further unit.
fn is_further_side(
    alloc: Global,
    framework: &Framework,
    query: &Query,
    log: &CoreLog,
    literals: &[AtomLit],
    set: &NumSet,
) -> Result<bool, Memory>
    ensures { IfOk result (λ is. IsTrue is ↔ IsFurther (MadeFor (framework_of framework.now) query.now)
        (framework_of framework.now) log.now (Side literals.now set.now)) }
{
    if !are_other_sides(log.sides(), literals) {
        return Ok(false);
    }
    let serves = side_serves(alloc, framework, query, literals, set)?;
    Ok(serves)
}

/// Whether a learned clause would have been.
fn is_further_learned(
    alloc: Global,
    framework: &Framework,
    query: &Query,
    log: &CoreLog,
    clause: &[AtomLit],
    hints: &[StepId],
) -> Result<bool, Memory>
    ensures { IfOk result (λ is. IsTrue is ↔ IsFurther (MadeFor (framework_of framework.now) query.now)
        (framework_of framework.now) log.now (Learned clause.now hints.now)) }
{
    let _task = query.task();
    if !is_fresh(framework, log.steps(), clause) {
        return Ok(false);
    }
    if !are_kept(log.steps(), hints) {
        return Ok(false);
    }
    let taken = is_taken(alloc, log.steps(), clause, hints)?;
    Ok(taken)
}

/// Whether a loop clause would have been.
fn is_further_loop(
    alloc: Global,
    framework: &Framework,
    query: &Query,
    log: &CoreLog,
    name: &AxiomName,
) -> Result<bool, Memory>
    ensures { IfOk result (λ is. IsTrue is ↔ IsFurther (MadeFor (framework_of framework.now) query.now)
        (framework_of framework.now) log.now (Loop name.now)) }
{
    let _task = query.task();
    if !is_loop(name) {
        return Ok(false);
    }
    if !is_axiom_of(framework, name) {
        return Ok(false);
    }
    let clause = clause_of_axiom(alloc, name)?;
    Ok(is_fresh(framework, log.steps(), clause.as_slice()))
}

/// Whether a clause in hand would have been a further unit, that serves the query where it is a side clause.
pub(crate) fn is_further(
    alloc: Global,
    framework: &Framework,
    query: &Query,
    log: &CoreLog,
    pending: &Pending,
) -> Result<bool, Memory>
    ensures { IfOk result (λ is. IsTrue is ↔ IsFurther (MadeFor (framework_of framework.now) query.now)
        (framework_of framework.now) log.now pending.now) }
{
    match pending {
        Pending::Side(literals, set) => {
            let literals = literals.as_slice();
            Ok(is_further_side(alloc, framework, query, log, literals, set)?)
        }
        Pending::Learned(clause, hints) => {
            let (clause, hints) = (clause.as_slice(), hints.as_slice());
            Ok(is_further_learned(alloc, framework, query, log, clause, hints)?)
        }
        Pending::Loop(name) => Ok(is_further_loop(alloc, framework, query, log, name)?),
    }
}
