//! What no clause says: that calls succeed where memory is there, and what small searches find.

ghost use Rattle.std.specs.Prelude.{◌≤◌};

use crate::tests::named::{N0, N1, N2, P0, P1, P2, lit};
use hinted_log::{Log, LogFault};
use lists::Memory;
use plain_lits::{Budget, Clause, Halt, Lit, StepId};
use sat_core::{Added, Solved, Solver};
use std::alloc::Global;
use std::test::Fail;

/// Adds an axiom.
fn add(solver: &mut Solver, alloc: Global, lits: &[Lit]) -> Result<(), LogFault> {
    let clause = Clause::from_slice(alloc, lits)?;
    let _ = solver.add(clause, Added::Axiom)?;
    Ok(())
}

/// Adds axioms, one after the other.
fn add_all(solver: &mut Solver, alloc: Global, clauses: &[&[Lit]]) -> Result<(), LogFault> {
    for lits in clauses {
        add(solver, alloc, lits)?;
    }
    Ok(())
}

/// Searches under one assumption.
fn solve_with(solver: &mut Solver, assumed: Lit, budget: &mut Budget) -> Result<Solved, Halt> {
    solver.solve(&[assumed], budget)
}

/// The literal of the core that propagation alone finds under one assumption.
fn looked(solver: &mut Solver, assumed: Lit) -> Result<Option<Lit>, Memory> {
    match solver.refute(&[assumed])? {
        Some(step) => Ok(only_lit(solver.log(), step)),
        None => Ok(None),
    }
}

/// Searches under none.
fn solve_free(solver: &mut Solver, budget: &mut Budget) -> Result<Solved, Halt> {
    solver.solve(&[], budget)
}

/// The literal of a step that has one.
fn only_lit(log: &Log, step: StepId) -> Option<Lit> {
    if step.number() == 0 || step.number() as usize > log.len() {
        return None;
    }
    match log.clause(step) {
        [packed] => Some(packed.lit()),
        _ => None,
    }
}

/// The one literal of the core that was found.
fn core_lit(solver: &Solver, found: &Solved) -> Option<Lit> {
    match found {
        Solved::Core(step) => only_lit(solver.log(), *step),
        Solved::Model(_) => None,
    }
}

/// Whether a model was found in which a literal is true.
fn is_model_with(found: &Solved, lit: Lit) -> bool {
    match found {
        Solved::Core(_) => false,
        Solved::Model(lits) => lits.as_slice().contains(&lit),
    }
}

/// Where variable 12 is true, each of four pigeons has one of three holes.
const HOLES: [(usize, usize, usize); 4] = [(0, 1, 2), (3, 4, 5), (6, 7, 8), (9, 10, 11)];

/// No two of them have the same hole.
const PAIRS: [(usize, usize); 18] = [
    (0, 3),
    (0, 6),
    (0, 9),
    (3, 6),
    (3, 9),
    (6, 9),
    (1, 4),
    (1, 7),
    (1, 10),
    (4, 7),
    (4, 10),
    (7, 10),
    (2, 5),
    (2, 8),
    (2, 11),
    (5, 8),
    (5, 11),
    (8, 11),
];

/// The clauses of four pigeons and three holes.
fn add_pigeons(solver: &mut Solver, alloc: Global) -> Result<(), LogFault> {
    for (first, second, third) in HOLES {
        let holes = [
            lit(first, true),
            lit(second, true),
            lit(third, true),
            lit(12, false),
        ];
        add(solver, alloc, &holes)?;
    }
    for (one, other) in PAIRS {
        add(solver, alloc, &[lit(one, false), lit(other, false)])?;
    }
    Ok(())
}

/// The core where each pigeon has a hole, and whether there is a model where none has.
fn pigeons_found(solver: &mut Solver) -> Result<(Option<Lit>, bool), Halt> {
    let mut budget = Budget::new(1000);
    solver.declare(lit(0, true))?;
    let core = solve_with(solver, lit(12, true), &mut budget)?;
    solver.reset_phases();
    let model = solve_with(solver, lit(12, false), &mut budget)?;
    Ok((
        core_lit(solver, &core),
        is_model_with(&model, lit(12, false)),
    ))
}

#[test]
fn four_pigeons_and_three_holes(rt: HostRuntime) -> Result<(), Fail> {
    let mut solver = Solver::open(rt.alloc(), 1000)?;
    add_pigeons(&mut solver, rt.alloc())?;
    assert!(rt; pigeons_found(&mut solver)? == (Some(lit(12, false)), true));
    Ok(())
}

/// The units of a search that its budget stops.
fn spent(solver: &mut Solver, limit: u64) -> Option<u64> {
    match solve_with(solver, lit(12, true), &mut Budget::new(limit)) {
        Err(Halt::Spent(units)) => Some(units),
        _ => None,
    }
}

/// A budget of one unit ends with a further clause in hand: the log has one step more than the 22 clauses.
#[test]
fn spent_budget(rt: HostRuntime) -> Result<(), Fail> {
    let mut solver = Solver::open(rt.alloc(), 1000)?;
    add_pigeons(&mut solver, rt.alloc())?;
    assert!(rt; spent(&mut solver, 1) == Some(1));
    assert!(rt; solver.log().len() == 23 && solver.active().len() == 23);
    assert!(rt; solver.take_pending().is_some());
    Ok(())
}

/// A log of 22 steps has no room for a learned clause.
#[test]
fn full_log(rt: HostRuntime) -> Result<(), Fail> {
    let mut solver = Solver::open(rt.alloc(), 22)?;
    add_pigeons(&mut solver, rt.alloc())?;
    let found = solve_with(&mut solver, lit(12, true), &mut Budget::new(1000));
    assert!(rt; matches!(&found, Err(Halt::LogFull)));
    Ok(())
}

/// Whether there is a model with 2, and the core where 2 is false.
fn clauses_found(solver: &mut Solver) -> Result<(bool, Option<Lit>), Halt> {
    let mut budget = Budget::new(100);
    let model = solve_free(solver, &mut budget)?;
    let core = solve_with(solver, lit(2, false), &mut budget)?;
    Ok((is_model_with(&model, lit(2, true)), core_lit(solver, &core)))
}

/// The clauses (1 or 2) and (not 1 or 2): 2 is true in each model, and not 2 has the core (2).
#[test]
fn two_clauses(rt: HostRuntime) -> Result<(), Fail> {
    let mut solver = Solver::open(rt.alloc(), 100)?;
    add_all(&mut solver, rt.alloc(), &[&[P1, P2], &[N1, P2]])?;
    assert!(rt; clauses_found(&mut solver)? == (true, Some(lit(2, true))));
    Ok(())
}

/// 0 leads to 1, 1 to 2, and 2 excludes 0.
const CHAIN: &[&[Lit]] = &[&[N0, P1], &[N1, P2], &[N2, N0]];

/// What propagation refutes in a log with room for so many steps: by 0, and whether nothing by 1.
fn looked_in(alloc: Global, limit: u64) -> Result<(Option<Lit>, bool), LogFault>
    requires { limit ≤ 100 }
{
    let mut solver = Solver::open(alloc, limit)?;
    add_all(&mut solver, alloc, CHAIN)?;
    Ok((looked(&mut solver, P0)?, looked(&mut solver, P1)?.is_none()))
}

/// Propagation refutes 0, and says nothing of 1. A log of three steps has no room for the core.
#[test]
fn looks_by_propagation(rt: HostRuntime) -> Result<(), Fail> {
    assert!(rt; looked_in(rt.alloc(), 100)? == (Some(N0), true));
    assert!(rt; looked_in(rt.alloc(), 3)? == (None, true));
    Ok(())
}
