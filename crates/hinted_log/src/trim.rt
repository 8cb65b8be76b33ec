//! The steps that a step reaches.

ghost use Rattle.std.specs.Prelude.{◌≡◌, ◌↔◌, ℕ, ◌+◌, ◌<◌, ◌≤◌, ◌^◌, [], ◌∷◌, length, Contains, IfOk, OnOk};
ghost use Rattle.lists.specs.Members.{IsSetOf};
ghost use Rattle.hinted_log.specs.Logs.{IsStepOf, Reaches, IsProof};
ghost use Rattle.hinted_log.specs.Trimming.{IsMarked, MarksHints};

use crate::store::Store;
use lists::Memory;
use plain_lits::StepId;
use std::alloc::Global;

/// Marks each hint.
fn mark_hints(marks: &mut Vec<bool>, hints: &[StepId])
    requires within { (hint : ℕ) → Contains hints.now hint → hint < length marks.old.items }
    ensures marked { MarksHints hints.now marks.old.items marks.new.items }
{
    for hint in hints {
        marks[hint.number() as usize] = true;
    }
}

/// Marks the steps that a step reaches. Hints name earlier steps, so that one walk down the numbers finds all.
fn mark_reached(alloc: Global, steps: &Store, step: StepId) -> Result<Vec<bool>, Memory>
    requires proof { IsProof steps.now }
    requires step { IsStepOf steps.now step }
    ensures marked { IfOk result (λ marks. (j : ℕ) → IsMarked marks.items j ↔ Reaches steps.now step j) }
    ensures long { IfOk result (λ marks. length marks.items ≤ 2 ^ 32) }
{
    let last = step.number() as usize;
    let mut marks = Vec::new(alloc);
    marks.resize(last + 1, false)?;
    marks[last] = true;
    for down in 0..last {
        let number = last - down;
        let reached = marks.as_slice()[number];
        if reached {
            mark_hints(&mut marks, steps.hints(number - 1));
        }
    }
    Ok(marks)
}

/// The numbers that are marked, in rising order.
fn marked_numbers(alloc: Global, marks: &[bool]) -> Result<Vec<StepId>, Memory>
    requires { length marks.now ≤ 2 ^ 32 }
    ensures { IfOk result (λ found. IsSetOf (IsMarked marks.now) found.items) }
{
    let mut found = Vec::new(alloc);
    for number in 0..marks.len() {
        if marks[number] {
            found.push(StepId::new(number as u32))?;
        }
    }
    Ok(found)
}

/// The steps that a step reaches, in rising order.
pub(crate) fn trimmed(alloc: Global, steps: &Store, step: StepId) -> Result<Vec<StepId>, Memory>
    requires proof { IsProof steps.now }
    requires step { IsStepOf steps.now step }
    ensures { IfOk result (λ found. IsSetOf (Reaches steps.now step) found.items) }
{
    let marks = mark_reached(alloc, steps, step)?;
    let found = marked_numbers(alloc, marks.as_slice())?;
    Ok(found)
}
