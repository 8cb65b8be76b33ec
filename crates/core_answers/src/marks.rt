//! Marks beside the steps of a log, one for each.

ghost use Rattle.std.specs.Prelude.{◌≡◌, ◌↔◌, false, IfOk, IsTrue};
ghost use Rattle.core_answers.specs.Parts.{HasMarks, IsOwn, IsWorking};

use core_logs::{CoreStep, Justification};
use lists::Memory;
use set_lists::NumSet;
use std::alloc::Global;

/// Whether a step's side clause, if it has one, is among the numbers.
fn is_own(own: &NumSet, step: &CoreStep) -> bool
    ensures { IsTrue result ↔ IsOwn own.now step.now }
{
    match step.source() {
        Justification::Side(number) => own.contains(*number),
        Justification::Axiom(_) | Justification::Hints(_) => true,
    }
}

/// Whether searches use a step.
fn is_working(step: &CoreStep) -> bool
    ensures { IsTrue result ↔ IsWorking step.now }
{
    !step.closing()
}

/// Which steps' side clauses are among the numbers.
pub(crate) fn own_marks(
    alloc: Global,
    steps: &[CoreStep],
    own: &NumSet,
) -> Result<Vec<bool>, Memory>
    ensures { IfOk result (λ marks. HasMarks (IsOwn own.now) steps.now marks.items) }
{
    let mut marks = Vec::new(alloc);
    for step in steps {
        marks.push(is_own(own, step))?;
    }
    Ok(marks)
}

/// Which steps searches use.
pub(crate) fn working_marks(alloc: Global, steps: &[CoreStep]) -> Result<Vec<bool>, Memory>
    ensures { IfOk result (λ marks. HasMarks IsWorking steps.now marks.items) }
{
    let mut marks = Vec::new(alloc);
    for step in steps {
        marks.push(is_working(step))?;
    }
    Ok(marks)
}
