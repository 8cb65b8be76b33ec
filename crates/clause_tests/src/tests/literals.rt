//! Literals, clauses, trails and rows.

use crate::tests::named::{N0, N2, P1, P2, P5, lit};
use lists::Memory;
use plain_lits::laws::taken_clauses_follow;
use plain_lits::{Budget, Clause, Halt, Lit, PackedLit, Rows, StepId, Trail, Value};
use std::alloc::Global;
use std::cmp::Ordering;
use std::collections::HashSet;
use std::hash::Hash;
use std::test::Fail;

/// The literals of the clause below, in order and each once.
const SORTED: &[Lit] = &[N0, P1, N2, P2, P5];

/// Whether this clause has those literals, and its copy too.
fn is_sorted(alloc: Global, given: &[Lit]) -> Result<bool, Memory> {
    let clause = Clause::from_slice(alloc, given)?;
    let whole = clause.as_slice() == SORTED && clause.len() == 5 && !clause.is_empty();
    Ok(whole && clause.copy(alloc)?.as_slice() == SORTED)
}

#[test]
fn clauses(rt: HostRuntime) -> Result<(), Fail> {
    assert!(rt; is_sorted(rt.alloc(), &[P2, P1, N2, P1, N0, P5])?);
    assert!(rt; Clause::new(rt.alloc()).is_empty());
    Ok(())
}

#[test]
fn literals(rt: HostRuntime) {
    assert!(rt; !lit(4, true) == lit(4, false));
    assert!(rt; Lit::default() == lit(0, false));
    assert!(rt; lit(4, true) < lit(5, false));
}

/// Whether two values are one, by each of the bounds that keep values apart.
fn are_one<T: Ord + Hash + Copy>(alloc: Global, a: T, b: T) -> Result<bool, Memory> {
    let mut found = HashSet::new(alloc);
    let _ = found.insert(a)?;
    Ok(a == b && a.cmp(&b) == Ordering::Equal && found.contains(&b))
}

#[test]
fn literals_by_value(rt: HostRuntime) -> Result<(), Fail> {
    let alloc = rt.alloc();
    assert!(rt; are_one(alloc, lit(3, true), lit(3, true))?);
    assert!(rt; !are_one(alloc, lit(3, true), lit(3, false))?);
    assert!(rt; !are_one(alloc, lit(3, true), lit(4, true))?);
    Ok(())
}

#[test]
fn budget_and_numbers(rt: HostRuntime) {
    let mut budget = Budget::new(2);
    assert!(rt; budget.spend());
    assert!(rt; budget.spend());
    assert!(rt; !budget.spend());
    assert!(rt; budget.used() == 2 && budget.limit() == 2);
    assert!(rt; StepId::new(7).number() == 7 && StepId::new(7) < StepId::new(8));
    assert!(rt; Halt::from(Memory) == Halt::Memory);
}

/// Makes a literal true where it has room and no value, at a new level or at the present one.
fn set(trail: &mut Trail, lit: Lit, decided: bool) -> bool {
    if lit.var >= trail.vars() {
        return false;
    }
    match trail.value(lit) {
        Value::Unset => {
            if decided {
                trail.decide(lit);
            } else {
                trail.push(lit);
            }
            true
        }
        _ => false,
    }
}

/// A trail with not 2 at its first level, and 0 and 3 at its second.
fn filled(alloc: Global) -> Result<Trail, Memory> {
    let mut trail = Trail::new(alloc);
    trail.make_room(4)?;
    let _ = set(&mut trail, lit(2, false), false);
    trail.begin_level()?;
    let _ = set(&mut trail, lit(0, true), true);
    let _ = set(&mut trail, lit(3, true), false);
    Ok(trail)
}

#[test]
fn trail_of_two_levels(rt: HostRuntime) -> Result<(), Fail> {
    let mut trail = filled(rt.alloc())?;
    assert!(rt; trail.lits() == [lit(2, false), lit(0, true), lit(3, true)].as_slice());
    assert!(rt; trail.level() == 2 && trail.len() == 3);
    assert!(rt; trail.starts() == [1, 1].as_slice());
    assert!(rt; !set(&mut trail, lit(3, false), false));
    Ok(())
}

#[test]
fn trail_after_a_step_back(rt: HostRuntime) -> Result<(), Fail> {
    let mut trail = filled(rt.alloc())?;
    trail.back_to(1);
    assert!(rt; trail.lits() == [lit(2, false)].as_slice());
    assert!(rt; matches!(trail.value(lit(2, true)), Value::False));
    assert!(rt; matches!(trail.value(lit(0, true)), Value::Unset));
    assert!(rt; matches!(trail.value(lit(9, true)), Value::Unset));
    Ok(())
}

#[test]
fn packed_literals(rt: HostRuntime) {
    taken_clauses_follow::<Lit>();
    let last = Lit {
        var: PackedLit::VARS - 1,
        positive: true,
    };
    let packed = PackedLit::pack(last);
    assert!(rt; packed.lit() == last && packed.code() == 4_294_967_295);
}

#[test]
fn rows_in_one_list(rt: HostRuntime) -> Result<(), Fail> {
    let mut rows = Rows::new(rt.alloc());
    rows.push(&[1u32, 2])?;
    rows.push(&[])?;
    rows.push(&[3])?;
    rows.pop();
    assert!(rt; rows.len() == 2);
    assert!(rt; rows.row(0) == [1, 2].as_slice());
    assert!(rt; rows.row(1).is_empty());
    Ok(())
}
