//! An engine as an oracle that no trade stands before.

use crate::tests::answers::{FLOATING, FOUR, are_sets};
use crate::tests::engines::af_engine;
use enumerate_block::{Listed, all_preferred};
use plain_lits::Budget;
use std::alloc::Global;

/// What a loop lists, at most so many sets.
fn listed(alloc: Global, most: usize) -> Option<Listed> {
    let mut engine = af_engine(alloc, FOUR, FLOATING, 1_000_000)?;
    let mut budget = Budget::new(1_000);
    all_preferred(alloc, &mut engine, &mut budget, most).ok()
}

/// Whether the preferred sets were listed.
fn is_whole(listed: Option<Listed>) -> bool {
    match &listed {
        Some(Listed::Whole(sets, _)) => are_sets(sets.as_slice(), &[&[1, 4], &[2, 4]]),
        Some(Listed::TooMany) | None => false,
    }
}

/// Whether there were too many.
fn is_too_much(listed: Option<Listed>) -> bool {
    matches!(&listed, Some(Listed::TooMany))
}

#[test]
fn lists_preferred_sets(rt: HostRuntime) {
    assert!(rt; is_whole(listed(rt.alloc(), 2)));
    assert!(rt; is_too_much(listed(rt.alloc(), 1)));
}
