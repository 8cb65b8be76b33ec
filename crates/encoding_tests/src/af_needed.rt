//! The axioms that small frameworks need, as they were worked out by hand.

use af_encoding::{AfEncoding, needed};
use dung_notions::AfPlain;
use lists::Memory;
use meaning_atoms::AfAxiom::{A1, A2, A3, A4, A5, A6, A7, A8, A9, A10, A11, A12, A13, A14};
use meaning_atoms::{AfAxiom, AxiomName};
use oracle_face::Encoding;
use std::alloc::Global;
use std::test::Fail;

/// How many axioms a framework needs, and some of them.
#[derive(Drop)]
struct Row {
    arguments: &'static [u32],
    attacks: &'static [(u32, u32)],
    count: usize,
    names: &'static [AfAxiom],
}

/// Whether the name is in the list.
fn has(names: &[AxiomName], name: AfAxiom) -> bool {
    names.iter().any(|other| *other == AxiomName::Af(name))
}

/// Whether the row's framework needs so many axioms, and the row's among them.
fn holds(alloc: Global, row: &Row) -> Result<bool, Memory> {
    let plain = AfPlain::of_lists(alloc, row.arguments, row.attacks)?;
    let names = needed(alloc, &plain)?;
    let all = row.names.iter().all(|name| has(names.as_slice(), *name));
    Ok(all && names.len() == row.count)
}

/// Three axioms of all, eight of each argument, five of each attack.
const ROWS: &[Row] = &[
    Row {
        arguments: &[],
        attacks: &[],
        count: 3,
        names: &[A14(1), A14(2), A14(3)],
    },
    Row {
        arguments: &[7],
        attacks: &[],
        count: 11,
        names: &[
            A1(7),
            A6(7, 1),
            A7(7),
            A9(7, 1),
            A10(7),
            A11(7),
            A12(7),
            A13(7),
        ],
    },
    Row {
        arguments: &[1, 1_000_000],
        attacks: &[(1_000_000, 1_000_000)],
        count: 24,
        names: &[
            A2(1_000_000, 1_000_000),
            A5(1_000_000, 1, 1_000_000),
            A6(1_000_000, 1_000_001),
            A8(1_000_000, 1, 1_000_000),
            A9(1_000_000, 1_000_001),
        ],
    },
    // 1 and 2 attack each other, and 2 attacks 3; then 1 isn't attacked; then 1, 2 and 4 attack 4.
    Row {
        arguments: &[1, 2, 3],
        attacks: &[(1, 2), (2, 1), (2, 3)],
        count: 42,
        names: &[
            A2(2, 1),
            A3(2, 1),
            A4(2, 1),
            A5(1, 1, 2),
            A8(1, 1, 2),
            A6(1, 3),
            A9(1, 3),
            A5(2, 1, 1),
            A8(2, 1, 1),
            A6(2, 2),
            A9(2, 2),
            A3(2, 3),
            A5(3, 1, 2),
            A6(3, 3),
        ],
    },
    Row {
        arguments: &[1, 2, 3],
        attacks: &[(1, 2), (2, 3)],
        count: 37,
        names: &[
            A6(1, 1),
            A9(1, 1),
            A5(2, 1, 1),
            A6(2, 2),
            A5(3, 1, 2),
            A6(3, 3),
        ],
    },
    Row {
        arguments: &[1, 2, 4],
        attacks: &[(1, 4), (2, 4), (4, 4)],
        count: 42,
        names: &[
            A5(4, 1, 1),
            A5(4, 2, 2),
            A5(4, 3, 4),
            A6(4, 5),
            A8(4, 1, 1),
            A8(4, 2, 2),
            A8(4, 3, 4),
            A9(4, 5),
        ],
    },
];

#[test]
fn counts_and_walks(rt: HostRuntime) -> Result<(), Fail> {
    for (number, row) in ROWS.iter().enumerate() {
        assert!(rt; holds(rt.alloc(), row)?, "row {number}");
    }
    Ok(())
}

/// How many axioms an encoding needs.
fn count_by<E: Encoding>(alloc: Global, plain: &E::Plain) -> Result<usize, Memory> {
    let names = E::needed(alloc, plain)?;
    Ok(names.len())
}

#[test]
fn by_the_trait(rt: HostRuntime) -> Result<(), Fail> {
    let plain = AfPlain::of_lists(rt.alloc(), &[1, 2, 3], &[(1, 2), (2, 1), (2, 3)])?;
    assert!(rt; count_by::<AfEncoding>(rt.alloc(), &plain)? == 42);
    Ok(())
}
