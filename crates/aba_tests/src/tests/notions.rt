//! The notions over one framework in memory, compared with answers that were worked out by hand.

use crate::tests::aba_text::framework_of;
use aba_notions::{AbaPlain, Row};
use lists::Memory;
use set_lists::NumSet;
use std::alloc::Global;
use std::test::Fail;

// Two assumptions, each of which derives the other's contrary.
const MUTUAL: &str = "p aba 4\na 1\na 2\nc 1 3\nc 2 4\nr 3 2\nr 4 1\n";
// Two assumptions, whose contraries derive each other and are derived by nothing else.
const LOOP: &str = "p aba 4\na 1\na 2\nc 1 3\nc 2 4\nr 3 4\nr 4 3\n";
// An assumption whose contrary holds anyway.
const BARE: &str = "p aba 2\na 1\nc 1 2\nr 2\n";
// An assumption that nothing attacks.
const FREE: &str = "p aba 2\na 1\nr 2 1\nr 2 2\n";
// An assumption that is its own contrary.
const OWN: &str = "p aba 2\na 1\nc 1 1\n";
// Two assumptions that together derive the contrary of both.
const JOINT: &str = "p aba 3\na 1\na 2\nc 1 3\nc 2 3\nr 3 1 2\n";
// An assumption with two contraries, each of which it is the contrary of.
const SEVERAL: &str = "p aba 3\na 1\na 2\na 3\nc 1 3\nc 1 2\nc 2 1\nc 3 1\n";

/// Which set is asked for.
#[derive(Clone, Copy)]
enum Asked {
    Closure,
    Attacked,
    Rest,
    Defended,
    Grounded,
}

use Asked::{Attacked, Closure, Defended, Grounded, Rest};

/// What is asked of a framework, its text, a set, and the answer.
const SETS: &[(Asked, &str, &[u32], &[u32])] = &[
    (Closure, MUTUAL, &[2], &[2, 3]),
    (Closure, MUTUAL, &[1, 2], &[1, 2, 3, 4]),
    (Closure, LOOP, &[1, 2], &[1, 2]),
    (Closure, BARE, &[], &[2]),
    (Closure, FREE, &[1], &[1, 2]),
    (Attacked, MUTUAL, &[2], &[1]),
    (Attacked, MUTUAL, &[3], &[1]),
    (Attacked, BARE, &[], &[1]),
    (Attacked, OWN, &[1], &[1]),
    (Attacked, JOINT, &[1, 2], &[1, 2]),
    (Rest, MUTUAL, &[2], &[2]),
    (Rest, MUTUAL, &[], &[1, 2]),
    (Rest, LOOP, &[1, 2], &[1, 2]),
    (Rest, JOINT, &[1], &[1, 2]),
    (Defended, MUTUAL, &[2], &[2]),
    (Defended, MUTUAL, &[1, 2], &[1, 2]),
    (Defended, LOOP, &[1], &[1, 2]),
    (Defended, JOINT, &[1], &[]),
    (Grounded, LOOP, &[], &[1, 2]),
    (Attacked, SEVERAL, &[1], &[2, 3]),
    (Attacked, SEVERAL, &[3], &[1]),
    (Defended, SEVERAL, &[2], &[2, 3]),
    (Grounded, SEVERAL, &[], &[]),
];

/// The set that is asked for.
fn answer_of(alloc: Global, what: Asked, f: &AbaPlain, set: &NumSet) -> Result<NumSet, Memory> {
    match what {
        Asked::Closure => f.closure_of(alloc, set),
        Asked::Attacked => f.attacked_by(alloc, set),
        Asked::Rest => f.rest_of(alloc, set),
        Asked::Defended => f.defended_by(alloc, set),
        Asked::Grounded => f.grounded(alloc),
    }
}

/// Whether the answer about a set has these members.
fn gives(
    alloc: Global,
    what: Asked,
    f: &AbaPlain,
    set: &[u32],
    answer: &[u32],
) -> Result<bool, Memory> {
    let set = NumSet::from_slice(alloc, set)?;
    Ok(answer_of(alloc, what, f, &set)?.as_slice() == answer)
}

#[test]
fn sets(rt: HostRuntime) -> Result<(), Fail> {
    for (number, (what, text, set, answer)) in SETS.iter().enumerate() {
        let holds = match framework_of(rt.alloc(), text) {
            Some(f) => gives(rt.alloc(), *what, &f, set, answer)?,
            None => false,
        };
        assert!(rt; holds, "row {number}");
    }
    Ok(())
}

/// A framework's text, a set, and whether it is conflict-free, admissible, complete and stable.
const TESTS: &[(&str, &[u32], [bool; 4])] = &[
    (MUTUAL, &[2], [true, true, true, true]),
    (MUTUAL, &[], [true, true, true, false]),
    (MUTUAL, &[1, 2], [false, false, false, false]),
    (MUTUAL, &[3], [false, false, false, false]),
    (LOOP, &[1, 2], [true, true, true, true]),
    (LOOP, &[1], [true, true, false, false]),
    (BARE, &[], [true, true, true, true]),
    (BARE, &[1], [false, false, false, false]),
    (FREE, &[1], [true, true, true, true]),
    (OWN, &[1], [false, false, false, false]),
    (OWN, &[], [true, true, true, false]),
    (JOINT, &[1], [true, false, false, false]),
    (SEVERAL, &[1], [true, true, true, true]),
    (SEVERAL, &[2], [true, true, false, false]),
    (SEVERAL, &[2, 3], [true, true, true, true]),
    (SEVERAL, &[1, 2], [false, false, false, false]),
];

/// What the four tests say of a set.
fn tested(alloc: Global, f: &AbaPlain, set: &[u32]) -> Result<[bool; 4], Memory> {
    let set = NumSet::from_slice(alloc, set)?;
    Ok([
        f.is_conflict_free(alloc, &set)?,
        f.is_admissible(alloc, &set)?,
        f.is_complete(alloc, &set)?,
        f.is_stable(alloc, &set)?,
    ])
}

#[test]
fn tests_of_sets(rt: HostRuntime) -> Result<(), Fail> {
    for (number, (text, set, expected)) in TESTS.iter().enumerate() {
        let holds = match framework_of(rt.alloc(), text) {
            Some(f) => tested(rt.alloc(), &f, set)? == *expected,
            None => false,
        };
        assert!(rt; holds, "row {number}");
    }
    Ok(())
}

/// A framework's text, an atom, and the atom's contraries.
const CONTRARIES: &[(&str, u32, &[(u32, u32)])] = &[
    (SEVERAL, 1, &[(1, 2), (1, 3)]),
    (SEVERAL, 3, &[(3, 1)]),
    (FREE, 1, &[]),
    (MUTUAL, 3, &[]),
];

#[test]
fn contraries_of_an_atom(rt: HostRuntime) -> Result<(), Fail> {
    for (number, (text, atom, contraries)) in CONTRARIES.iter().enumerate() {
        let holds = match framework_of(rt.alloc(), text) {
            Some(f) => f.contraries_of(*atom) == *contraries,
            None => false,
        };
        assert!(rt; holds, "row {number}");
    }
    Ok(())
}

/// A framework's text, a set, atoms that it is claimed to derive, and, where it derives one of them, nothing; else each
/// atom with pairs of a rule and an atom of its body.
type Claim = (
    &'static str,
    &'static [u32],
    &'static [u32],
    Option<&'static [(u32, &'static [(u32, u32)])]>,
);

const UNFOUNDED: &[Claim] = &[
    (MUTUAL, &[2], &[2, 3], None),
    (MUTUAL, &[2], &[3, 4], Some(&[(4, &[(2, 0)])])),
    (
        LOOP,
        &[1, 2],
        &[1, 2, 3, 4],
        Some(&[(3, &[(1, 4)]), (4, &[(2, 3)])]),
    ),
    (FREE, &[], &[2], Some(&[(2, &[(1, 0), (2, 2)])])),
];

/// Whether rows are these.
fn are_rows(found: &[Row], rows: &[(u32, &[(u32, u32)])]) -> bool {
    found.len() == rows.len()
        && found.iter().zip(rows).all(|(row, told)| row.atom == told.0
            && row.pairs.as_slice() == told.1)
}

/// Whether a claim's unfounded atoms are found.
fn finds_unfounded(alloc: Global, f: &AbaPlain, claim: &Claim) -> Result<bool, Memory> {
    let base = NumSet::from_slice(alloc, claim.1)?;
    let claimed = NumSet::from_slice(alloc, claim.2)?;
    Ok(match (f.unfounded(alloc, &base, &claimed)?, claim.3) {
        (Some(found), Some(rows)) => are_rows(found.rows.as_slice(), rows),
        (None, None) => true,
        _ => false,
    })
}

#[test]
fn unfounded_atoms(rt: HostRuntime) -> Result<(), Fail> {
    for (number, claim) in UNFOUNDED.iter().enumerate() {
        let holds = match framework_of(rt.alloc(), claim.0) {
            Some(f) => finds_unfounded(rt.alloc(), &f, claim)?,
            None => false,
        };
        assert!(rt; holds, "row {number}");
    }
    Ok(())
}
