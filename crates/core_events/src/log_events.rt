//! The events that change one log alone. After `NotAStep` and after `Memory` the log is as before.

ghost use Rattle.std.specs.Prelude.{◌↔◌, IsTrue};
ghost use Rattle.meaning_atoms.specs.AxiomNames.{IsAxiomName};
ghost use Rattle.session_log.specs.Steps.{IsWorthIt, LearnsClause};
ghost use Rattle.core_events.specs.LogEvents.{KeepsSide, TakesOnce};
ghost use Rattle.core_events.specs.Stops.{Comes};

use crate::stop::StepStop;
use core_logs::checking::{follows, has_part, is_new};
use core_logs::literals::is_side;
use core_logs::sources::{has_axiom, is_clause_of};
use core_logs::taking::has_side_like;
use core_logs::{CoreStep, NamedLog};
use meaning_atoms::{AtomLit, AxiomName};
use plain_lits::StepId;
use set_lists::NumSet;
use std::alloc::Global;

/// Whether a derived clause is worth a step.
fn is_worth_it(steps: &[CoreStep], clause: &[AtomLit], closing: bool) -> bool
    ensures { IsTrue result ↔ IsWorthIt steps.now clause.now closing }
{
    if closing {
        !has_part(steps, clause)
    } else {
        is_new(steps, clause)
    }
}

/// Derives a clause by hints.
pub(crate) fn derive(
    alloc: Global,
    log: &mut NamedLog,
    clause: &[AtomLit],
    hints: &[StepId],
    closing: bool,
) -> Result<(), StepStop>
    ensures { Comes (LearnsClause clause.now hints.now closing log.old) log.old log.new result }
{
    if !log.has_room() {
        return Err(StepStop::NotAStep);
    }
    if !is_worth_it(log.steps(), clause, closing) {
        return Err(StepStop::NotAStep);
    }
    if !follows(alloc, log.steps(), clause, hints)? {
        return Err(StepStop::NotAStep);
    }
    log.take_derived(alloc, clause, hints, None, closing)?;
    Ok(())
}

/// Takes an axiom.
pub(crate) fn take_axiom(
    alloc: Global,
    log: &mut NamedLog,
    name: &AxiomName,
    clause: &[AtomLit],
) -> Result<(), StepStop>
    requires { IsAxiomName name.now }
    ensures { Comes (TakesOnce name.now clause.now log.old) log.old log.new result }
{
    if !log.has_room() {
        return Err(StepStop::NotAStep);
    }
    if has_axiom(log.steps(), name) {
        return Err(StepStop::NotAStep);
    }
    if !is_clause_of(alloc, name, clause)? {
        return Err(StepStop::NotAStep);
    }
    log.take_axiom(alloc, name, clause, None)?;
    Ok(())
}

/// Keeps a side clause that is made from a set.
pub(crate) fn keep_side(
    alloc: Global,
    log: &mut NamedLog,
    literals: &[AtomLit],
    set: &NumSet,
) -> Result<(), StepStop>
    ensures { Comes (KeepsSide literals.now set.now log.old) log.old log.new result }
{
    if !log.has_room() {
        return Err(StepStop::NotAStep);
    }
    if !is_side(literals) {
        return Err(StepStop::NotAStep);
    }
    if has_side_like(log.sides(), literals) {
        return Err(StepStop::NotAStep);
    }
    log.take_side(alloc, literals, set)?;
    Ok(())
}
