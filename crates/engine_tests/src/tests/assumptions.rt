//! Queries on frameworks with rules, with what each comes to, worked out by hand from the definitions.

use crate::tests::answers::{Asked, End, ask_all};
use crate::tests::engines::aba_engine;
use edit_rules::QueryFault;
use oracle_core::AnswerStop;
use std::alloc::Global;
use std::test::Fail;

/// Whether all queries on the framework of a text end so.
fn all_end_so(alloc: Global, text: &str, asks: &[Asked]) -> Option<bool> {
    let mut engine = aba_engine(alloc, text)?;
    ask_all(alloc, &mut engine, asks)
}

const UNKNOWN: End = End::Stops(AnswerStop::Query(QueryFault::UnknownAtom(5)));

/// Texts of frameworks, and what is asked about each in turn.
const ROWS: &[(&str, &[Asked])] = &[
    // Two assumptions, each of which derives the contrary of the other: each alone is stable.
    (
        "p aba 4\na 1\na 2\nc 1 3\nc 2 4\nr 3 2\nr 4 1\n",
        &[
            ("DC-CO", Some(3), 1_000_000, 10, End::YesBy(&[2])),
            ("DS-PR", Some(3), 1_000_000, 10, End::NoBy(&[1])),
            ("SE-GR", None, 0, 10, End::Sets(&[&[]])),
            ("EE-ST", None, 1_000_000, 10, End::Sets(&[&[1], &[2]])),
            ("DC-CO", Some(5), 1_000_000, 10, UNKNOWN),
        ],
    ),
    // Two contraries that follow from each other alone, and so from no assumption. That nothing derives 3 takes the
    // clause of their loop, which is a unit.
    (
        "p aba 4\na 1\na 2\nc 1 3\nc 2 4\nr 3 4\nr 4 3\n",
        &[
            ("SE-ST", None, 1_000_000, 10, End::Sets(&[&[1, 2]])),
            ("DC-ST", Some(3), 0, 10, End::Stops(AnswerStop::Spent(0))),
            ("DC-ST", Some(3), 1_000_000, 10, End::No),
            ("DS-PR", Some(1), 1_000_000, 10, End::Yes),
        ],
    ),
];

#[test]
fn courses(rt: HostRuntime) -> Result<(), Fail> {
    for &(text, asks) in ROWS {
        assert!(rt; all_end_so(rt.alloc(), text, asks) == Some(true));
    }
    Ok(())
}
