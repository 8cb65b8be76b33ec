//! Logs as a CNF and a refutation: the texts, and that they are read and verified.

use crate::tests::named::{N0, N1, P0, P1, P2};
use hinted_log::{Log, LogFault, StepKind};
use lists::Memory;
use lrat_text::Verdict::Verified;
use lrat_text::{check_lrat, read_cnf};
use lrat_writing::{
    Written, can_write, cnf_reads_back, log_is_verified, refutation_reads_back, write_refutation,
};
use plain_lits::{Clause, Lit, StepId};
use std::alloc::Global;

/// A step to add: its kind, its clause and its hints.
type Row = (StepKind, &'static [Lit], &'static [u32]);

/// The steps of these numbers.
fn steps_of(alloc: Global, numbers: &[u32]) -> Result<Vec<StepId>, LogFault> {
    match numbers
        .iter()
        .map(|number| StepId::new(*number))
        .collect(alloc)
    {
        Ok(steps) => Ok(steps),
        Err(_) => Err(LogFault::Memory),
    }
}

/// The log of these steps.
fn log_of(alloc: Global, rows: &[Row]) -> Result<Log, LogFault> {
    let mut log = Log::open(alloc, 10)?;
    for row in rows {
        let clause = Clause::from_slice(alloc, row.1)?;
        let _step = match row.0 {
            StepKind::Axiom => log.axiom(clause)?,
            StepKind::Side => log.side(clause)?,
            StepKind::Derived => log.derive(clause, steps_of(alloc, row.2)?.as_slice())?,
        };
    }
    Ok(log)
}

/// What is written of these steps, where it can be.
fn written(alloc: Global, rows: &[Row], vars: u32) -> Option<Result<Written, Memory>> {
    let Ok(log) = log_of(alloc, rows) else {
        return None;
    };
    if !can_write(&log, vars) {
        return None;
    }
    Some(write_refutation(alloc, &log, vars))
}

/// Whether two short texts are read, and verified.
fn is_verified(alloc: Global, texts: &Written) -> bool {
    let (cnf, lrat) = (texts.cnf.as_slice(), texts.lrat.as_slice());
    if cnf.len() > 1000 || lrat.len() > 1000 {
        return false;
    }
    match read_cnf(alloc, cnf) {
        Ok(cnf) => check_lrat(alloc, cnf, lrat) == Ok(Verified),
        Err(_) => false,
    }
}

// Two clauses with a side between them; a step that has a hint too many; and the last step, which is the side but for a
// literal.
const LONG: &[Row] = &[
    (StepKind::Axiom, &[N0, P1], &[]),
    (StepKind::Side, &[P0, P2], &[]),
    (StepKind::Axiom, &[N1], &[]),
    (StepKind::Derived, &[N0], &[1, 3, 2]),
    (StepKind::Derived, &[P2], &[4, 2]),
];

/// Steps, how many variables there are, and both texts.
const TEXTS: &[(&[Row], u32, &str, &str)] = &[
    (
        LONG,
        3,
        "p cnf 3 4\n-1 2 0\n1 3 0\n-2 0\n-3 0\n",
        "5 -1 0 1 3 0\n6 3 0 5 2 0\n7 0 4 6 0\n",
    ),
    (
        &[(StepKind::Side, &[P0, N1], &[])],
        2,
        "p cnf 2 3\n1 -2 0\n-1 0\n2 0\n",
        "4 0 2 3 1 0\n",
    ),
    (
        &[(StepKind::Axiom, &[], &[])],
        0,
        "p cnf 0 1\n0\n",
        "2 0 1 0\n",
    ),
    (
        &[
            (StepKind::Axiom, &[P0], &[]),
            (StepKind::Axiom, &[N0], &[]),
            (StepKind::Derived, &[], &[1, 2]),
        ],
        2147483647,
        "p cnf 2147483647 2\n1 0\n-1 0\n",
        "3 0 1 2 0\n4 0 3 0\n",
    ),
];

#[test]
fn texts(rt: HostRuntime) {
    cnf_reads_back();
    refutation_reads_back();
    log_is_verified();
    for &(rows, vars, cnf, lrat) in TEXTS {
        let holds = match written(rt.alloc(), rows, vars) {
            Some(Ok(texts)) => {
                texts.cnf.as_slice() == cnf.as_bytes()
                    && texts.lrat.as_slice() == lrat.as_bytes()
                    && is_verified(rt.alloc(), &texts)
            }
            _ => false,
        };
        assert!(rt; holds, "at {cnf}");
    }
}

/// Too few variables, too many, and no step.
#[test]
fn not_written(rt: HostRuntime) {
    assert!(rt; written(rt.alloc(), LONG, 2).is_none());
    assert!(rt; written(rt.alloc(), LONG, 2_147_483_648).is_none());
    assert!(rt; written(rt.alloc(), &[], 1).is_none());
}
