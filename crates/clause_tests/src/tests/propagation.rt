//! What no clause says: that calls succeed where memory is there. A test is a list of calls with their answers, so that
//! each call is proved once.

ghost use Rattle.std.specs.Prelude.{◌≡◌, []};

use crate::tests::named::{N0, N1, N2, P0, P1, P2, P3, P9};
use lists::Memory;
use plain_lits::{Lit, PackedLit, Value};
use std::process::Abort;
use std::test::Fail;
use unit_propagate::{Propagated, Propagator};

/// A call and its answer, or what then stands.
#[derive(Clone, Copy)]
enum Act<'a> {
    /// A clause gets this number.
    Adds(&'a [Lit], u32),
    /// A block without literals begins a level.
    Assumes,
    Decides(Lit),
    /// Propagation finds no false clause.
    Rests,
    /// Propagation finds one of these clauses false.
    Meets(&'a [u32]),
    BackTo(usize),
    HasLits(&'a [Lit]),
    /// So many literals are true.
    HasCount(usize),
    HasStarts(&'a [usize]),
    IsFalse(Lit),
    IsSet(Lit),
    IsWatchedBy(Lit, &'a [u32]),
    /// The reasons of the first two true literals.
    HasReasons(u32, u32),
    /// A true literal has this index.
    HasPosition(Lit, usize),
    /// A clause comes, and is then lent as it came.
    Lends(&'a [Lit]),
}

/// Decides a literal where its variable is known and has no value.
fn decide(search: &mut Propagator, lit: Lit) -> bool {
    if lit.var >= search.vars() {
        return false;
    }
    match search.value(lit) {
        Value::Unset => {
            search.decide(lit);
            true
        }
        _ => false,
    }
}

/// Goes back where there are so many levels.
fn back_to(search: &mut Propagator, level: usize) -> bool {
    if level > search.starts().len() {
        return false;
    }
    search.back_to(level);
    true
}

/// Begins a level with no literal.
fn assume(search: &mut Propagator) -> Result<bool, Memory> {
    search.assume_block(&[])?;
    Ok(true)
}

/// Whether propagation finds one of these clauses false.
fn meets(search: &mut Propagator, clauses: &[u32]) -> bool {
    match search.propagate() {
        Propagated::Conflict(id) => clauses.contains(&id),
        Propagated::Quiet => false,
    }
}

/// Whether the first two true literals have these reasons.
fn has_reasons(search: &Propagator, first: u32, second: u32) -> bool {
    search.lits().len() >= 2 && search.reason(0) == first && search.reason(1) == second
}

/// Whether a literal is true, and has this index among those that are.
fn has_position(search: &Propagator, lit: Lit, index: usize) -> bool {
    match search.value(lit) {
        Value::True => search.position(lit) == index,
        _ => false,
    }
}

/// Whether packed literals are these.
fn are_same(packed: &[PackedLit], lits: &[Lit]) -> bool {
    packed.len() == lits.len() && packed.iter().zip(lits).all(|(one, lit)| one.lit() == *lit)
}

/// Adds a clause; whether it is lent as it came.
fn lends(search: &mut Propagator, clause: &[Lit]) -> Result<bool, Memory> {
    let id = search.add(clause)?;
    Ok(are_same(search.clause(id), clause))
}

/// Makes the call; whether all is as the act says.
fn holds(search: &mut Propagator, act: Act<'_>) -> Result<bool, Memory> {
    match act {
        Act::Adds(clause, id) => Ok(search.add(clause)? == id),
        Act::Assumes => assume(search),
        Act::Decides(lit) => Ok(decide(search, lit)),
        Act::Rests => Ok(search.propagate() == Propagated::Quiet),
        Act::Meets(clauses) => Ok(meets(search, clauses)),
        Act::BackTo(level) => Ok(back_to(search, level)),
        Act::HasLits(lits) => Ok(search.lits() == lits),
        Act::HasCount(count) => Ok(search.lits().len() == count),
        Act::HasStarts(starts) => Ok(search.starts() == starts),
        Act::IsFalse(lit) => Ok(matches!(search.value(lit), Value::False)),
        Act::IsSet(lit) => Ok(!matches!(search.value(lit), Value::Unset)),
        Act::IsWatchedBy(lit, clauses) => Ok(search.watchers(lit) == clauses),
        Act::HasReasons(first, second) => Ok(has_reasons(search, first, second)),
        Act::HasPosition(lit, index) => Ok(has_position(search, lit, index)),
        Act::Lends(clause) => lends(search, clause),
    }
}

/// Asserts that each act holds, one after the other.
fn follow(rt: &impl Abort, search: &mut Propagator, acts: &[Act<'_>]) -> Result<(), Fail> {
    for (number, act) in acts.iter().enumerate() {
        assert!(rt; holds(search, *act)?, "act {number}");
    }
    Ok(())
}

/// The clauses (1 or 2) and (not 1 or 2): under not 2 the first makes 1 true, and then the second is false.
const TWO_CLAUSES: &[Act<'static>] = &[
    Act::Adds(&[P1, P2], 1),
    Act::Adds(&[N1, P2], 2),
    Act::Rests,
    Act::Decides(N2),
    Act::Meets(&[1, 2]),
    Act::IsFalse(P2),
    Act::IsSet(P1),
    Act::HasCount(2),
    Act::HasStarts(&[0]),
    Act::BackTo(0),
    Act::HasLits(&[]),
];

/// Not 0 at level 1 and not 1 at level 2, and then (0 or 1): it is false, and unit where level 2 goes. Then (not 0 or
/// not 1 or 2) isn't watched by 0, which is false.
const LATE_CLAUSE: &[Act<'static>] = &[
    Act::Adds(&[N0, N1, P2], 1),
    Act::Assumes,
    Act::Decides(N0),
    Act::Decides(N1),
    Act::Rests,
    Act::Adds(&[P0, P1], 2),
    Act::Meets(&[2]),
    Act::BackTo(2),
    Act::Rests,
    Act::HasLits(&[N0, P1]),
    Act::HasPosition(P1, 1),
    Act::IsWatchedBy(P0, &[2]),
    Act::IsWatchedBy(P9, &[]),
];

/// A unit clause with a repeated literal, a clause with a literal and its negation, one that is out of order and
/// repeats a literal, and the empty clause.
const SHORT_CLAUSES: &[Act<'static>] = &[
    Act::Adds(&[P0, P0], 1),
    Act::Adds(&[N0, N1, P1], 2),
    Act::Rests,
    Act::HasLits(&[P0]),
    Act::Lends(&[P1, N0, P1]),
    Act::Adds(&[], 4),
    Act::Meets(&[4]),
];

#[test]
fn clauses(rt: HostRuntime) -> Result<(), Fail> {
    for acts in [TWO_CLAUSES, LATE_CLAUSE, SHORT_CLAUSES] {
        let mut search = Propagator::open(rt.alloc())?;
        follow(&rt, &mut search, acts)?;
    }
    Ok(())
}

/// Adds a clause of one literal, and makes it true at once.
fn learn_first(search: &mut Propagator, lit: Lit) -> Result<u32, Memory>
    requires { search.old.lits ≡ [] }
{
    search.add_learned(&[lit], lit)
}

/// A learned unit clause: its literal is true at once, with the clause as its reason, and then it propagates.
#[test]
fn learned_clause_with_its_literal(rt: HostRuntime) -> Result<(), Fail> {
    let mut search = Propagator::open(rt.alloc())?;
    assert!(rt; learn_first(&mut search, P0)? == 1);
    let acts = [
        Act::HasLits(&[P0]),
        Act::Adds(&[N0, P3], 2),
        Act::Rests,
        Act::HasLits(&[P0, P3]),
        Act::HasReasons(1, 2),
    ];
    follow(&rt, &mut search, &acts)
}
