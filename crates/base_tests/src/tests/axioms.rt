//! The table of axioms row by row, and the values of facts in one framework.

use af_axioms::{clause_of, fact_value};
use dung_notions::AfPlain;
use lists::Memory;
use meaning_atoms::Atom::{Ad, Ask, Attack, Cf, Co, Gap, Live, Member, Range, St, Tail, Unmet};
use meaning_atoms::{AfAxiom, Atom, AtomLit, END};
use std::alloc::Global;
use std::test::Fail;

macro_rules! is {
    ($atom:expr) => {
        AtomLit {
            atom: $atom,
            positive: true,
        }
    };
}

macro_rules! not {
    ($atom:expr) => {
        AtomLit {
            atom: $atom,
            positive: false,
        }
    };
}

/// An axiom's name and its clause.
#[derive(Drop)]
struct Row {
    name: AfAxiom,
    clause: &'static [AtomLit],
}

const ROWS: &[Row] = &[
    Row {
        name: AfAxiom::A1(7),
        clause: &[not!(Cf), not!(Member(7)), is!(Live(7))],
    },
    Row {
        name: AfAxiom::A2(1, 2),
        clause: &[
            not!(Cf),
            not!(Attack(1, 2)),
            not!(Member(2)),
            not!(Member(1)),
        ],
    },
    Row {
        name: AfAxiom::A2(3, 3),
        clause: &[
            not!(Cf),
            not!(Attack(3, 3)),
            not!(Member(3)),
            not!(Member(3)),
        ],
    },
    Row {
        name: AfAxiom::A3(4, 5),
        clause: &[
            not!(Ad),
            not!(Attack(4, 5)),
            not!(Member(5)),
            is!(Tail(4, 1)),
        ],
    },
    Row {
        name: AfAxiom::A3(6, 6),
        clause: &[
            not!(Ad),
            not!(Attack(6, 6)),
            not!(Member(6)),
            is!(Tail(6, 1)),
        ],
    },
    Row {
        name: AfAxiom::A4(8, 9),
        clause: &[not!(Attack(8, 9)), not!(Member(8)), is!(Tail(9, 1))],
    },
    Row {
        name: AfAxiom::A14(1),
        clause: &[not!(Ad), is!(Cf)],
    },
    Row {
        name: AfAxiom::A14(2),
        clause: &[not!(Co), is!(Ad)],
    },
    Row {
        name: AfAxiom::A14(3),
        clause: &[not!(St), is!(Co)],
    },
    Row {
        name: AfAxiom::A5(2, 3, 4),
        clause: &[
            not!(Tail(2, 3)),
            not!(Gap(2, 3, 4)),
            is!(Member(4)),
            is!(Tail(2, 5)),
        ],
    },
    Row {
        name: AfAxiom::A5(2, 1, 1_000_000),
        clause: &[
            not!(Tail(2, 1)),
            not!(Gap(2, 1, 1_000_000)),
            is!(Member(1_000_000)),
            is!(Tail(2, END)),
        ],
    },
    Row {
        name: AfAxiom::A6(2, END),
        clause: &[not!(Tail(2, END)), not!(Gap(2, END, END))],
    },
    Row {
        name: AfAxiom::A7(5),
        clause: &[not!(Co), not!(Live(5)), is!(Member(5)), is!(Unmet(5, 1))],
    },
    Row {
        name: AfAxiom::A8(2, 3, 4),
        clause: &[
            not!(Unmet(2, 3)),
            not!(Gap(2, 3, 4)),
            not!(Tail(4, 1)),
            is!(Unmet(2, 5)),
        ],
    },
    Row {
        name: AfAxiom::A9(2, 3),
        clause: &[not!(Unmet(2, 3)), not!(Gap(2, 3, 1_000_001))],
    },
    Row {
        name: AfAxiom::A10(5),
        clause: &[not!(St), not!(Live(5)), is!(Member(5)), is!(Tail(5, 1))],
    },
    Row {
        name: AfAxiom::A11(5),
        clause: &[not!(Range(5)), is!(Member(5)), is!(Tail(5, 1))],
    },
    Row {
        name: AfAxiom::A12(5),
        clause: &[not!(Member(5)), is!(Range(5))],
    },
    Row {
        name: AfAxiom::A13(5),
        clause: &[not!(Tail(5, 1)), is!(Range(5))],
    },
];

/// Whether the row's axiom has its clause.
fn has_clause(alloc: Global, row: &Row) -> Result<bool, Memory> {
    if !row.name.is_name() {
        return Ok(false);
    }
    Ok(clause_of(alloc, &row.name)?.as_slice() == row.clause)
}

#[test]
fn rows_of_axioms(rt: HostRuntime) -> Result<(), Fail> {
    for (number, row) in ROWS.iter().enumerate() {
        assert!(rt; has_clause(rt.alloc(), row)?, "row {number}");
    }
    Ok(())
}

/// Atoms, and their values.
const FACTS: &[(Atom, Option<bool>)] = &[
    (Live(3), Some(true)),
    (Live(4), Some(false)),
    (Attack(2, 3), Some(true)),
    (Attack(3, 2), Some(false)),
    (Gap(1, 1, 2), Some(true)),
    (Gap(1, 1, 3), Some(false)),
    (Gap(1, 2, 3), Some(false)),
    (Gap(1, 2, 2), Some(true)),
    (Gap(1, 3, END), Some(true)),
    (Gap(1, END, END), Some(true)),
    (Gap(3, 1, END), Some(false)),
    (Gap(1_000_000, 1, END), Some(true)),
    (Gap(3, 1, 2), Some(true)),
    (Gap(3, 2, 3), Some(false)),
    (Gap(3, 3, END), Some(true)),
    (Member(1), None),
    (Tail(1, 1), None),
    (Unmet(1, 1), None),
    (Range(1), None),
    (Cf, None),
    (Ask(1), None),
];

#[test]
fn values_of_facts(rt: HostRuntime) -> Result<(), Fail> {
    // 1 and 2 attack each other, and 2 attacks 3.
    let plain = AfPlain::of_lists(rt.alloc(), &[1, 2, 3], &[(1, 2), (2, 1), (2, 3)])?;
    for (number, (atom, value)) in FACTS.iter().enumerate() {
        assert!(rt; fact_value(&plain, atom) == *value, "row {number}");
    }
    Ok(())
}
