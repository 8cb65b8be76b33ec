//! What no clause says: that calls succeed, and a conflict that was worked out by hand.

ghost use Rattle.std.specs.Prelude.{IfSome};
ghost use Rattle.unit_propagate.specs.Search.{IsConflict};
ghost use Rattle.conflict_learn.specs.Learning.{IsDecided};

use crate::tests::named::lit;
use conflict_learn::Learner;
use lists::Memory;
use plain_lits::{Lit, Value};
use std::test::Fail;
use unit_propagate::{Propagated, Propagator};

/// Decides a literal whose variable has no value, and propagates: the id of a false clause, if there is one.
fn conflict_under(search: &mut Propagator, lit: Lit) -> Option<u32>
    ensures conflict { IfSome result (IsConflict search.new.clauses search.new.lits) }
    ensures decided { IfSome result (λ id. IsDecided search.new) }
{
    if lit.var >= search.vars() {
        return None;
    }
    match search.value(lit) {
        Value::Unset => search.decide(lit),
        _ => return None,
    }
    match search.propagate() {
        Propagated::Conflict(conflict) => Some(conflict),
        Propagated::Quiet => None,
    }
}

/// Under 0 and 1: 1 makes 2 true, 2 and 0 make 3 true, 2 makes 4 true, and 3 and 4 exclude each other.
fn add_clauses(search: &mut Propagator) -> Result<(), Memory> {
    let _ = search.add(&[lit(1, false), lit(2, true)])?;
    let _ = search.add(&[lit(2, false), lit(0, false), lit(3, true)])?;
    let _ = search.add(&[lit(2, false), lit(4, true)])?;
    let _ = search.add(&[lit(3, false), lit(4, false)])?;
    let _ = search.add(&[lit(5, false), lit(6, true)])?;
    Ok(())
}

/// Whether (not 0 or not 2) is learned from three clauses, to hold from level 1 on.
fn learns_the_point(
    learner: &mut Learner,
    search: &Propagator,
    conflict: u32,
) -> Result<bool, Memory>
    requires conflict { IsConflict search.now.clauses search.now.lits conflict }
    requires decided { IsDecided search.now }
{
    let learned = learner.learn(search, conflict)?;
    let clause = [lit(0, false), lit(2, false)];
    Ok(
        learned.clause.as_slice() == clause.as_slice()
            && learned.asserting == lit(2, false)
            && learned.level == 1
            && learned.hints.len() == 3,
    )
}

/// Whether the core is that not both 0 and 1 are so, from four clauses.
fn has_both_in_its_core(
    learner: &mut Learner,
    search: &Propagator,
    conflict: u32,
) -> Result<bool, Memory>
    requires { IsConflict search.now.clauses search.now.lits conflict }
{
    let core = learner.final_core(search, conflict)?;
    let clause = [lit(0, false), lit(1, false)];
    Ok(core.clause.as_slice() == clause.as_slice() && core.hints.len() == 4)
}

/// Whether what is learned of a conflict, and its core, are as above.
fn explains(learner: &mut Learner, search: &Propagator, conflict: u32) -> Result<bool, Memory>
    requires conflict { IsConflict search.now.clauses search.now.lits conflict }
    requires decided { IsDecided search.now }
{
    Ok(
        learns_the_point(learner, search, conflict)?
            && has_both_in_its_core(learner, search, conflict)?,
    )
}

/// The first implication point is 2, not the decision 1, and 0 is of the first level; 5 has no part in it.
#[test]
fn first_implication_point(rt: HostRuntime) -> Result<(), Fail> {
    let mut search = Propagator::open(rt.alloc())?;
    let mut learner = Learner::new(rt.alloc());
    add_clauses(&mut search)?;
    assert!(rt; conflict_under(&mut search, lit(0, true)).is_none());
    assert!(rt; conflict_under(&mut search, lit(5, true)).is_none());
    match conflict_under(&mut search, lit(1, true)) {
        None => assert!(rt; false),
        Some(conflict) => assert!(rt; explains(&mut learner, &search, conflict)?),
    }
    Ok(())
}
