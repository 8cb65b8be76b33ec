//! What no clause says: that calls succeed, and worked rows of the check.

ghost use Rattle.hinted_log.specs.Logs.{IsStepOf};

use crate::tests::named::{N1, N2, N3, P1, P2, P3};
use hinted_log::{Log, LogFault, StepKind};
use lists::Memory;
use plain_lits::{Clause, Lit, StepId};
use std::alloc::Global;
use std::test::Fail;

const LARGEST: Lit = Lit {
    var: usize::MAX,
    positive: true,
};

/// A step to add: its kind, clause and hints, and the number that it gets.
type Row = (
    StepKind,
    &'static [Lit],
    &'static [u32],
    Result<u32, LogFault>,
);

/// The steps of these numbers.
fn steps_of(alloc: Global, numbers: &[u32]) -> Result<Vec<StepId>, LogFault> {
    match numbers
        .iter()
        .map(|number| StepId::new(*number))
        .collect(alloc)
    {
        Ok(steps) => Ok(steps),
        Err(_) => Err(LogFault::Memory),
    }
}

/// Adds a step to a log: its number, or why it wasn't added.
fn added(alloc: Global, log: &mut Log, row: &Row) -> Result<u32, LogFault> {
    let clause = Clause::from_slice(alloc, row.1)?;
    let step = match row.0 {
        StepKind::Axiom => log.axiom(clause)?,
        StepKind::Side => log.side(clause)?,
        StepKind::Derived => log.derive(clause, steps_of(alloc, row.2)?.as_slice())?,
    };
    Ok(step.number())
}

/// Whether a log's step has these literals.
fn has_literals(log: &Log, step: StepId, literals: &[Lit]) -> bool
    requires { IsStepOf log.now.steps step }
{
    let clause = log.clause(step);
    clause.len() == literals.len()
        && clause
            .iter()
            .zip(literals)
            .all(|(packed, lit)| packed.lit() == *lit)
}

/// Whether steps have these numbers.
fn have_numbers(steps: &[StepId], numbers: &[u32]) -> bool {
    steps.len() == numbers.len()
        && steps
            .iter()
            .zip(numbers)
            .all(|(step, number)| step.number() == *number)
}

/// Whether two kinds are the same.
fn are_one(kind: StepKind, other: StepKind) -> bool {
    matches!(
        (kind, other),
        (StepKind::Axiom, StepKind::Axiom)
            | (StepKind::Side, StepKind::Side)
            | (StepKind::Derived, StepKind::Derived)
    )
}

/// Whether a log's step is the row's, and reaches just these steps.
fn is_step(
    alloc: Global,
    log: &Log,
    step: StepId,
    row: &Row,
    reached: &[u32],
) -> Result<bool, Memory>
    requires { IsStepOf log.now.steps step }
{
    let same = are_one(log.kind(step), row.0) && have_numbers(log.hints(step), row.2);
    let reach = have_numbers(log.trim(alloc, step)?.as_slice(), reached);
    Ok(same && reach && has_literals(log, step, row.1))
}

/// Whether a log has a row's step, and it reaches just these steps.
fn is_kept(alloc: Global, log: &Log, row: &Row, reached: &[u32]) -> Result<bool, Memory> {
    let Ok(number) = row.3 else {
        return Ok(false);
    };
    if number == 0 || number as usize > log.len() {
        return Ok(false);
    }
    is_step(alloc, log, StepId::new(number), row, reached)
}

/// Steps for a log with room for three.
const SMALL_LOG: &[Row] = &[
    (StepKind::Axiom, &[P1, P2], &[], Ok(1)),
    (StepKind::Axiom, &[N1, P2], &[], Ok(2)),
    (
        StepKind::Derived,
        &[P1],
        &[1, 2],
        Err(LogFault::Rejected(2)),
    ),
    (StepKind::Derived, &[P2], &[1, 2], Ok(3)),
    (StepKind::Side, &[P1], &[], Err(LogFault::LogFull)),
];

#[test]
fn small_log(rt: HostRuntime) -> Result<(), Fail> {
    let alloc = rt.alloc();
    let mut log = Log::open(alloc, 3)?;
    for row in SMALL_LOG {
        assert!(rt; added(alloc, &mut log, row) == row.3);
    }
    assert!(rt; log.is_full());
    assert!(rt; is_kept(alloc, &log, &SMALL_LOG[3], &[1, 2, 3])?);
    Ok(())
}

/// Steps with hints of every kind.
const HINTS: &[Row] = &[
    (StepKind::Axiom, &[P1, P2], &[], Ok(1)),
    (StepKind::Axiom, &[N1, P2], &[], Ok(2)),
    (StepKind::Axiom, &[N2, N2, P3], &[], Ok(3)),
    (StepKind::Derived, &[P1], &[], Err(LogFault::Rejected(1))),
    (StepKind::Derived, &[P2], &[4], Err(LogFault::Rejected(1))),
    (StepKind::Derived, &[P2], &[0], Err(LogFault::Rejected(1))),
    (
        StepKind::Derived,
        &[P2],
        &[1, 9],
        Err(LogFault::Rejected(2)),
    ),
    (
        StepKind::Derived,
        &[P2],
        &[1, 1, 2],
        Err(LogFault::Rejected(2)),
    ),
    (StepKind::Derived, &[P2], &[1], Err(LogFault::Rejected(2))),
    (
        StepKind::Derived,
        &[P1, P2, N1],
        &[1],
        Err(LogFault::Rejected(0)),
    ),
    (StepKind::Derived, &[], &[1], Err(LogFault::Rejected(1))),
    (StepKind::Derived, &[P2, P2], &[1, 2], Ok(4)),
    (StepKind::Derived, &[P3], &[4, 3], Ok(5)),
    (StepKind::Side, &[N3], &[], Ok(6)),
    (StepKind::Derived, &[], &[5, 6], Ok(7)),
    (StepKind::Axiom, &[LARGEST], &[], Err(LogFault::Memory)),
    (StepKind::Derived, &[P2], &[1, 2, 99], Ok(8)),
];

#[test]
fn hints_of_every_kind(rt: HostRuntime) -> Result<(), Fail> {
    let alloc = rt.alloc();
    let mut log = Log::open(alloc, 50)?;
    for row in HINTS {
        assert!(rt; added(alloc, &mut log, row) == row.3);
    }
    let last: Row = (StepKind::Derived, &[P2], &[1, 2], Ok(8));
    assert!(rt; is_kept(alloc, &log, &HINTS[13], &[6])?);
    assert!(rt; is_kept(alloc, &log, &HINTS[14], &[1, 2, 3, 4, 5, 6, 7])?);
    assert!(rt; is_kept(alloc, &log, &last, &[1, 2, 8])?);
    Ok(())
}

/// A chain of this many derived steps, each from the one before it and an axiom.
fn chain(alloc: Global, count: u32) -> Result<Log, LogFault> {
    let mut log = Log::open(alloc, 50_000_000)?;
    let mut last = log.axiom(Clause::from_slice(alloc, &[P1])?)?;
    for var in 1..count {
        let old = Lit {
            var: var as usize,
            positive: false,
        };
        let new = Lit {
            var: var as usize + 1,
            positive: true,
        };
        let link = log.axiom(Clause::from_slice(alloc, &[old, new])?)?;
        last = log.derive(Clause::from_slice(alloc, &[new])?, &[last, link])?;
    }
    Ok(log)
}

#[test]
fn long_chain(rt: HostRuntime) {
    assert!(rt; matches!(&chain(rt.alloc(), 50_000), Ok(log) if log.len() == 99_999));
}
