//! Whether hints could take a clause: unit propagation by all steps that searches use.

ghost use Rattle.std.specs.Prelude.{◌≡◌, ◌↔◌, IfOk, IsTrue, length};
ghost use Rattle.session_log.specs.Ends.{IsTakenByNone};
ghost use Rattle.core_answers.specs.Parts.{IsMove, IsStatusAt};

use crate::marks::working_marks;
use core_logs::CoreStep;
use core_logs::checking::{Status, clause_status, negations};
use core_logs::literals::is_tautology;
use lists::Memory;
use meaning_atoms::AtomLit;
use std::alloc::Global;

/// What propagation may do next.
#[derive(Clone, Copy)]
pub enum Move {
    /// The clause of the step at this index is false.
    Conflict(usize),
    /// The clause of the step at this index is unit, and makes this literal true.
    Implied(usize, AtomLit),
    /// Nothing.
    Rest,
}

/// What the clause of a step is under the literals that are true, if the step is marked.
fn status_at(mark: bool, truths: &[AtomLit], step: &CoreStep) -> Status
    ensures { IsStatusAt mark truths.now step.now result }
{
    if !mark {
        return Status::Other;
    }
    clause_status(truths, step.clause())
}

/// What propagation by the marked steps may do next.
fn next_move(steps: &[CoreStep], marks: &[bool], truths: &[AtomLit]) -> Move
    requires { length marks.now ≡ length steps.now }
    ensures { IsMove steps.now marks.now truths.now result }
{
    for index in 0..steps.len() {
        match status_at(marks[index], truths, &steps[index]) {
            Status::Falsified => return Move::Conflict(index),
            Status::Unit(literal) => return Move::Implied(index, literal),
            Status::Other => {}
        }
    }
    Move::Rest
}

/// Whether the check takes a clause by no hints that searches use: propagation from its negation ends without a false
/// clause. Each step is used once, and marked until then.
pub(crate) fn none_takes(
    alloc: Global,
    steps: &[CoreStep],
    clause: &[AtomLit],
) -> Result<bool, Memory>
    ensures { IfOk result (λ none. IsTrue none ↔ IsTakenByNone steps.now clause.now) }
{
    let tautology = is_tautology(clause);
    if tautology {
        return Ok(true);
    }
    let mut truths = negations(alloc, clause)?;
    let mut marks = working_marks(alloc, steps)?;
    loop {
        match next_move(steps, marks.as_slice(), truths.as_slice()) {
            Move::Conflict(_) => return Ok(false),
            Move::Rest => return Ok(true),
            Move::Implied(index, literal) => {
                truths.push(literal)?;
                marks[index] = false;
            }
        }
    }
}
