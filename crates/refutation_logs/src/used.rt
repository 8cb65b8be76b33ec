//! How many hints the check of a clause looks at, where it takes the clause.

ghost use Rattle.std.specs.Prelude.{◌≡◌, ◌<◌, ℕ, [], Contains, Err, Ok, IfSome, IfNone};
ghost use Rattle.std.specs.Bool.{OnTrue, OnFalse};
ghost use Rattle.plain_lits.specs.Checking.{AssumesFalse, BecomesFalse, HasRoomFor, HaveRoomFor};
ghost use Rattle.plain_lits.specs.HintCheck.{Checks, IsFalsified, IsTautology, Propagates};
ghost use Rattle.plain_lits.specs.Literals.{negation};

use plain_lits::{Lit, PackedLit, Rows, StepId, Trail, Value};

// Takes a literal to be false, which isn't true.
fn assume_one(trail: &mut Trail, lit: Lit)
    requires room { lit.var < trail.old.vars }
    requires not_true { Contains trail.old.lits lit → ⊥ }
    ensures now { BecomesFalse trail.old.lits trail.new.lits lit }
    ensures vars { trail.new.vars ≡ trail.old.vars }
{
    match trail.value(lit) {
        Value::False => {}
        Value::True => {}
        Value::Unset => trail.push(!lit),
    }
}

// Takes each literal of a clause to be false.
fn assume_false(trail: &mut Trail, clause: &[Lit])
    requires idle { trail.old.lits ≡ [] }
    requires room { HasRoomFor trail.old.vars clause.now }
    requires plain { IsTautology negation clause.now → ⊥ }
    ensures now { AssumesFalse clause.now trail.new.lits }
    ensures vars { trail.new.vars ≡ trail.old.vars }
{
    for lit in clause {
        assume_one(trail, *lit);
    }
}

// Whether a literal is false.
fn is_false(trail: &Trail, lit: Lit) -> bool
    ensures low { OnTrue result (Contains trail.now.lits (negation lit)) }
    ensures high { OnFalse result (Contains trail.now.lits (negation lit) → ⊥) }
{
    match trail.value(lit) {
        Value::False => true,
        Value::True => false,
        Value::Unset => false,
    }
}

// The first literal of a clause that isn't false.
fn first_open(trail: &Trail, clause: &[PackedLit]) -> Option<Lit>
    ensures there { IfSome result (λ lit. Contains clause.now lit) }
    ensures high { IfSome result (λ lit. Contains trail.now.lits (negation lit) → ⊥) }
    ensures none { IfNone result (IsFalsified negation trail.now.lits clause.now) }
{
    for packed in clause {
        let lit = packed.lit();
        if !is_false(trail, lit) {
            return Some(lit);
        }
    }
    None
}

// How many hints there are up to the first whose clause is false. That of each hint before it is unit, so that its
// first literal that isn't false is the one that it makes true.
fn up_to_false(trail: &mut Trail, clauses: &Rows<PackedLit>, hints: &[StepId]) -> usize
    requires room { HaveRoomFor trail.old.vars clauses.now }
    requires taken { (place : ℕ) → Propagates negation clauses.now trail.old.lits 1 hints.now (Err place) → ⊥ }
    ensures { Propagates negation clauses.now trail.old.lits 1 hints.now (Ok result) }
{
    for at in 0..hints.len() {
        let number = hints[at].number() as usize;
        match first_open(trail, clauses.row(number - 1)) {
            None => return at + 1,
            Some(lit) => trail.push(lit),
        }
    }
    unreachable!()
}

/// How many hints the check of a clause that it takes looks at.
pub(crate) fn hints_used(
    trail: &mut Trail,
    clauses: &Rows<PackedLit>,
    clause: &[Lit],
    hints: &[StepId],
) -> usize
    requires idle { trail.old.lits ≡ [] }
    requires clause_room { HasRoomFor trail.old.vars clause.now }
    requires room { HaveRoomFor trail.old.vars clauses.now }
    requires taken { (place : ℕ) → Checks negation clauses.now clause.now hints.now (Err place) → ⊥ }
    ensures taken { Checks negation clauses.now clause.now hints.now (Ok result) }
    ensures idle { trail.new.lits ≡ [] }
{
    assume_false(trail, clause);
    let used = up_to_false(trail, clauses, hints);
    trail.clear();
    used
}
