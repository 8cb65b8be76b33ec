//! Which steps reach no side clause but some.

ghost use Rattle.std.specs.Prelude.{◌≡◌, ◌↔◌, ◌-◌, ℕ, Contains, IfNone, IfOk, IfSome, IsTrue, length};
ghost use Rattle.oracle_face.specs.Logs.{hints_of};
ghost use Rattle.core_answers.specs.Parts.{HandOn, HandsOn, IsFault, IsMarked, ReachOwn};

use crate::marks::own_marks;
use core_logs::{CoreStep, Justification};
use lists::Memory;
use plain_lits::StepId;
use set_lists::NumSet;
use std::alloc::Global;

/// Whether a hint names a marked step, or none.
fn is_marked(marks: &[bool], hint: StepId) -> bool
    ensures { IsTrue result ↔ IsMarked marks.now hint }
{
    let index = (hint.number() as usize).saturating_sub(1);
    if index >= marks.len() {
        return true;
    }
    marks[index]
}

/// Whether all hints do.
fn are_marked(marks: &[bool], hints: &[StepId]) -> bool
    ensures { IsTrue result ↔ ((hint : ℕ) → Contains hints.now hint → IsMarked marks.now hint) }
{
    hints.iter().all(|hint| is_marked(marks, *hint))
}

/// Whether all hints of a step do.
fn hands_on(marks: &[bool], step: &CoreStep) -> bool
    ensures { IsTrue result ↔ HandsOn marks.now step.now }
{
    match step.source() {
        Justification::Axiom(_) | Justification::Side(_) => true,
        Justification::Hints(hints) => are_marked(marks, hints.as_slice()),
    }
}

/// Whether all hints of a step do, if the step has this mark.
fn stands(marks: &[bool], mark: bool, step: &CoreStep) -> bool
    ensures { IsTrue result ↔ (IsTrue mark → HandsOn marks.now step.now) }
{
    !mark || hands_on(marks, step)
}

/// The index of a marked step with a hint of one that isn't.
fn first_fault(steps: &[CoreStep], marks: &[bool]) -> Option<usize>
    requires { length marks.now ≡ length steps.now }
    ensures some { IfSome result (IsFault steps.now marks.now) }
    ensures none { IfNone result (HandOn steps.now marks.now) }
{
    for index in 0..steps.len() {
        let on = stands(marks, marks[index], &steps[index]);
        if !on {
            return Some(index);
        }
    }
    None
}

/// Which steps reach no side clause but those of the numbers.
pub(crate) fn reach_own(
    alloc: Global,
    steps: &[CoreStep],
    own: &NumSet,
) -> Result<Vec<bool>, Memory>
    ensures { IfOk result (λ marks. ReachOwn own.now steps.now marks.items) }
{
    let mut marks = own_marks(alloc, steps, own)?;
    while let Some(index) = first_fault(steps, marks.as_slice()) {
        marks[index] = false;
    }
    Ok(marks)
}
