//! The check of a clause with its hints.

ghost use Rattle.std.specs.Prelude.{◌≡◌, ◌↔◌, ℕ, ◌+◌, ◌<◌, ◌≤◌, true, false, [], ◌∷◌, ◌++◌, length, map};
ghost use Rattle.std.specs.Prelude.{Contains, slice_index_or};
ghost use Rattle.std.specs.Bool.{OnTrue, OnFalse};
ghost use Rattle.plain_lits.specs.Literals.{negation};
ghost use Rattle.plain_lits.specs.HintCheck.{IsTautology, Propagates, Checks};
ghost use Rattle.plain_lits.specs.Checking.{IsStatus, HasRoomFor, HaveRoomFor, AssumesFalse, BecomesFalse};

use crate::lit::Lit;
use crate::packed_lit::PackedLit;
use crate::rows::Rows;
use crate::step_id::StepId;
use crate::trail::Trail;
use crate::value::Value;

/// What the clause of a hint is under an assignment.
#[derive(Clone, Copy)]
pub enum ClauseStatus {
    Falsified,
    Unit(Lit),
    SatisfiedOrOpen,
}

/// What a clause is: all false, unit with its unset literal, or neither.
fn clause_status(trail: &Trail, clause: &[PackedLit]) -> ClauseStatus
    ensures { IsStatus trail.now.lits clause.now result }
{
    let mut unset = None;
    for packed in clause {
        let lit = packed.lit();
        match trail.value(lit) {
            Value::False => {}
            Value::True => return ClauseStatus::SatisfiedOrOpen,
            Value::Unset => match unset {
                None => unset = Some(lit),
                Some(first) => {
                    let same = first == lit;
                    if !same {
                        return ClauseStatus::SatisfiedOrOpen;
                    }
                }
            },
        }
    }
    match unset {
        None => ClauseStatus::Falsified,
        Some(lit) => ClauseStatus::Unit(lit),
    }
}

/// Takes a literal to be false, and answers whether it can be: one that is true can't.
fn assume_one(trail: &mut Trail, lit: Lit) -> bool
    requires { lit.var < trail.old.vars }
    ensures now { OnTrue result (BecomesFalse trail.old.lits trail.new.lits lit) }
    ensures before { OnFalse result (Contains trail.old.lits lit) }
    ensures vars { trail.new.vars ≡ trail.old.vars }
{
    match trail.value(lit) {
        Value::False => true,
        Value::True => false,
        Value::Unset => {
            trail.push(!lit);
            true
        }
    }
}

/// Takes each literal of a clause to be false. It stops with false at a literal whose negation it has met.
fn assume_false(trail: &mut Trail, clause: &[Lit]) -> bool
    requires empty { trail.old.lits ≡ [] }
    requires room { HasRoomFor trail.old.vars clause.now }
    ensures plain { OnTrue result (AssumesFalse clause.now trail.new.lits) }
    ensures tautology { OnFalse result (IsTautology negation clause.now) }
    ensures vars { trail.new.vars ≡ trail.old.vars }
{
    for lit in clause {
        let plain = assume_one(trail, *lit);
        if !plain {
            return false;
        }
    }
    true
}

/// Propagates at hints in turn, until a clause is false or a hint is no help: how many hints were looked at, or the
/// place at which the clause is rejected.
fn propagate_hints(
    trail: &mut Trail,
    clauses: &Rows<PackedLit>,
    hints: &[StepId],
) -> Result<usize, u64>
    requires room { HaveRoomFor trail.old.vars clauses.now }
    ensures outcome { Propagates negation clauses.now trail.old.lits 1 hints.now result }
    ensures vars { trail.new.vars ≡ trail.old.vars }
{
    for at in 0..hints.len() {
        let number = hints[at].number() as usize;
        if number == 0 || number > clauses.len() {
            return Err(at as u64 + 1);
        }
        match clause_status(trail, clauses.row(number - 1)) {
            ClauseStatus::Falsified => return Ok(at + 1),
            ClauseStatus::Unit(lit) => trail.push(lit),
            ClauseStatus::SatisfiedOrOpen => return Err(at as u64 + 1),
        }
    }
    Err(hints.len() as u64 + 1)
}

/// Checks a clause with its hints: how many hints were looked at, or the place at which it is rejected.
pub fn check(
    trail: &mut Trail,
    clauses: &Rows<PackedLit>,
    clause: &[Lit],
    hints: &[StepId],
) -> Result<usize, u64>
    requires empty { trail.old.lits ≡ [] }
    requires clause_room { HasRoomFor trail.old.vars clause.now }
    requires room { HaveRoomFor trail.old.vars clauses.now }
    ensures outcome { Checks negation clauses.now clause.now hints.now result }
    ensures lits { trail.new.lits ≡ [] }
    ensures vars { trail.new.vars ≡ trail.old.vars }
{
    let plain = assume_false(trail, clause);
    if !plain {
        trail.clear();
        return Err(0);
    }
    let outcome = propagate_hints(trail, clauses, hints);
    trail.clear();
    outcome
}
