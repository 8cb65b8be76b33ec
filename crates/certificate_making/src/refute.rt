//! Refutations made from a log.

ghost use Rattle.std.specs.Prelude.{ℕ, ◌+◌, ◌<◌, length, All, IfOk, OnOk};
ghost use Rattle.certificate_claims.specs.Refutations.{Claim};
ghost use Rattle.certificate_text.specs.Written.{IsWritableStep};
ghost use Rattle.oracle_face.specs.Logs.{IsLog, IsNumberOf};
ghost use Rattle.certificate_making.specs.Refuted.{AreRefuting, IsRefutingStep};
ghost use Rattle.certificate_making.specs.Cuts.{IsCutAt};
ghost use Rattle.certificate_making.specs.Marks.{AreMarks, IsMarked, IsWriting, MayWrite, Writes};

use crate::reached::mark_reached;
use crate::read_log::ReadLog;
use crate::renumbering::moved_step;
use certificate_claims::{Refutation, Step};
use lists::{Items, Memory};
use plain_lits::StepId;
use std::alloc::Global;

/// Writes a step that is marked behind the others, and gives it its number in place of the mark.
fn write_step<L: ReadLog>(
    alloc: Global,
    log: &L,
    step: StepId,
    positions: &[u32],
    numbers: &mut Vec<u32>,
    steps: &mut Items<Step>,
) -> Result<(), Memory>
    requires form { IsLog (L.framework log.now) (L.log log.now) }
    requires room { step < length numbers.old.items }
    requires marked { IsMarked numbers.old.items step → MayWrite (L.log log.now) step steps.old }
    ensures { OnOk result (Writes (L.log log.now) positions.now step numbers.old.items numbers.new.items
        steps.old steps.new) }
{
    let index = step.number() as usize;
    let mark = numbers.as_slice()[index];
    if mark == 0 {
        return Ok(());
    }
    numbers[index] = steps.len() as u32 + 1;
    let moved = moved_step(alloc, log, step, positions, numbers.as_slice())?;
    steps.push(moved)?;
    Ok(())
}

/// Writes the marked steps in rising order.
fn write_steps<L: ReadLog>(
    alloc: Global,
    log: &L,
    step: StepId,
    positions: &[u32],
    numbers: &mut Vec<u32>,
) -> Result<Items<Step>, Memory>
    requires form { IsLog (L.framework log.now) (L.log log.now) }
    requires step { IsNumberOf (L.log log.now).steps step }
    requires marks { AreMarks (L.log log.now) step numbers.old.items }
    ensures { IfOk result (IsWriting (L.log log.now) step positions.now (step + 1) numbers.new.items) }
{
    let mut steps = Items::new(alloc);
    for number in 0..numbers.len() {
        write_step(
            alloc,
            log,
            StepId::new(number as u32),
            positions,
            numbers,
            &mut steps,
        )?;
    }
    Ok(steps)
}

/// The refutation of a claim by a step of a log: the steps that it reaches in rising order, numbered from 1, with the
/// side clauses numbered by their positions in the claim. `positions` has for each side clause of the log its position
/// among the claim's side clauses, counted from 1, or 0 where it is none of them. Where the step refutes a claim, the
/// refutation is one of that claim, from which no step could be left out, and a text can hold it. It takes time and
/// memory for the numbers up to the step, and for the clauses and hints of the steps that are reached.
pub fn refutation<L: ReadLog>(
    alloc: Global,
    log: &L,
    step: StepId,
    positions: &[u32],
) -> Result<Refutation, Memory>
    requires { IsNumberOf (L.log log.now).steps step }
    ensures refutes { IfOk result (λ made. (claim : Claim)
        → IsRefutingStep (L.framework log.now) (L.log log.now) claim step positions.now
        → AreRefuting (L.framework log.now) claim made.steps) }
    ensures writable { IfOk result (λ made. (claim : Claim)
        → IsRefutingStep (L.framework log.now) (L.log log.now) claim step positions.now
        → All IsWritableStep made.steps) }
    ensures cut { IfOk result (λ made. IsCutAt (L.log log.now) step made.steps) }
{
    let in_log = step.number() as usize <= log.len();
    prove!(in_log);
    let mut numbers = mark_reached(alloc, log, step)?;
    let steps = write_steps(alloc, log, step, positions, &mut numbers)?;
    Ok(Refutation { steps })
}
