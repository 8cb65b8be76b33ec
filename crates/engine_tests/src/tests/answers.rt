//! Queries that one engine gets in turn, with what each comes to, worked out by hand from the definitions.

use crate::tests::engines::af_engine;
use edit_rules::QueryFault;
use iccma_tasks::{Answer, Query, Task};
use oracle_core::{AnswerStop, Answered, Engine};
use oracle_face::NoTrade;
use plain_lits::Budget;
use set_lists::NumSet;
use std::alloc::Global;
use std::test::Fail;

/// What a query comes to.
#[derive(Clone, Copy)]
pub(crate) enum End {
    Yes,
    No,
    /// With a set that accepts the query.
    YesBy(&'static [u32]),
    /// With a set that doesn't.
    NoBy(&'static [u32]),
    Sets(&'static [&'static [u32]]),
    Stops(AnswerStop),
}

/// A query's task and number, the units and the extensions that it may have, and what it comes to.
pub(crate) type Asked = (&'static str, Option<u32>, u64, u32, End);

/// A framework, how many steps the log may have, and the queries in turn.
#[derive(Drop)]
struct Row {
    arguments: &'static [u32],
    attacks: &'static [(u32, u32)],
    steps: u64,
    asks: &'static [Asked],
}

/// Whether the sets are these.
pub(crate) fn are_sets(sets: &[NumSet], expected: &[&[u32]]) -> bool {
    sets.len() == expected.len()
        && sets
            .iter()
            .zip(expected.iter())
            .all(|(set, numbers)| set.as_slice() == *numbers)
}

/// Whether a query ended so.
fn is_end(end: &Result<Answered, AnswerStop>, expected: &End) -> bool {
    match (end, expected) {
        (Err(stop), End::Stops(expected)) => stop == expected,
        (Ok(answered), End::Yes) => matches!(answered.answer, Answer::Yes(_)),
        (Ok(answered), End::No) => matches!(answered.answer, Answer::No(_)),
        (Ok(answered), End::YesBy(expected)) => match &answered.answer {
            Answer::Yes(Some(set)) => set.as_slice() == *expected,
            _ => false,
        },
        (Ok(answered), End::NoBy(expected)) => match &answered.answer {
            Answer::No(Some(set)) => set.as_slice() == *expected,
            _ => false,
        },
        (Ok(answered), End::Sets(expected)) => match &answered.answer {
            Answer::Sets(sets) => are_sets(sets.as_slice(), expected),
            _ => false,
        },
        _ => false,
    }
}

/// Whether the query ends so, and an answer takes no more units than it may.
fn holds(alloc: Global, engine: &mut Engine, asked: &Asked) -> Option<bool> {
    let &(task, number, units, limit, expected) = asked;
    let task = Task::read(task.as_bytes()).ok()?;
    let query = Query::new(task, number)?;
    let mut budget = Budget::new(units);
    let end = engine.answer(alloc, &query, &mut budget, limit, &mut NoTrade);
    Some(is_end(&end, &expected))
}

/// Whether all queries of a row end so.
fn all_hold(alloc: Global, row: &Row) -> Option<bool> {
    let mut engine = af_engine(alloc, row.arguments, row.attacks, row.steps)?;
    ask_all(alloc, &mut engine, row.asks)
}

/// Whether all queries of an engine end so.
pub(crate) fn ask_all(alloc: Global, engine: &mut Engine, asks: &[Asked]) -> Option<bool> {
    for asked in asks {
        let so = holds(alloc, engine, asked)?;
        if !so {
            return Some(false);
        }
    }
    Some(true)
}

// 1 and 2 attack each other and both attack 3, which attacks 4.
pub(crate) const FLOATING: &[(u32, u32)] = &[(1, 2), (2, 1), (1, 3), (2, 3), (3, 4)];

const UNKNOWN: End = End::Stops(AnswerStop::Query(QueryFault::UnknownArgument(9)));

pub(crate) const FOUR: &[u32] = &[1, 2, 3, 4];

const ROWS: &[Row] = &[
    // Goes on after a spent budget. The cover of 4 has two sets, with a side clause each.
    Row {
        arguments: FOUR,
        attacks: FLOATING,
        steps: 1_000_000,
        asks: &[
            ("DS-PR", Some(4), 1, 10, End::Stops(AnswerStop::Spent(1))),
            ("DS-PR", Some(4), 1_000_000, 10, End::Yes),
            ("DC-PR", Some(3), 1_000_000, 10, End::No),
            ("SE-GR", None, 0, 10, End::Sets(&[&[]])),
            ("DC-CO", Some(9), 1_000_000, 10, UNKNOWN),
        ],
    },
    // Has no units: no preferred set is shown without a side clause.
    Row {
        arguments: FOUR,
        attacks: FLOATING,
        steps: 1_000_000,
        asks: &[("SE-PR", None, 0, 10, End::Stops(AnswerStop::Spent(0)))],
    },
    // Has a full log: three in a ring have no stable set, which takes a step to show.
    Row {
        arguments: &[1, 2, 3],
        attacks: &[(1, 2), (2, 3), (3, 1)],
        steps: 0,
        asks: &[(
            "SE-ST",
            None,
            1_000_000,
            10,
            End::Stops(AnswerStop::LogFull),
        )],
    },
    // Lists no more than the limit. 1 and 2 attack each other, 2 attacks 3, and 3 and 4 attack themselves: 1 and 2 alone
    // are preferred.
    Row {
        arguments: FOUR,
        attacks: &[(1, 2), (2, 1), (2, 3), (3, 3), (4, 4)],
        steps: 1_000_000,
        asks: &[
            ("EE-PR", None, 1_000_000, 1, End::Stops(AnswerStop::TooMany)),
            ("EE-PR", None, 1_000_000, 2, End::Sets(&[&[1], &[2]])),
        ],
    },
];

#[test]
fn courses(rt: HostRuntime) -> Result<(), Fail> {
    for row in ROWS {
        assert!(rt; all_hold(rt.alloc(), row) == Some(true));
    }
    Ok(())
}
