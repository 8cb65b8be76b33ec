//! Sets that literals are read as, and the values of facts.

use af_encoding::{AfEncoding, decode, fact};
use dung_notions::AfPlain;
use lists::Memory;
use meaning_atoms::Atom::{Ad, Attack, Gap, Live, Member, Range, Tail};
use meaning_atoms::{Atom, AtomLit};
use oracle_face::Encoding;
use std::alloc::Global;
use std::test::Fail;

/// Whether the literals are read as the set of these numbers.
fn is_read_as(alloc: Global, values: &[AtomLit], set: &[u32]) -> Result<bool, Memory> {
    Ok(decode(alloc, values)?.as_slice() == set)
}

/// Literals, and the set that they are read as.
#[derive(Drop)]
struct Row {
    values: &'static [AtomLit],
    set: &'static [u32],
}

/// A member counts where it is said to be live, whatever the order and the other literals: 9 isn't live, 3 is none.
const ROWS: &[Row] = &[
    Row {
        values: &[
            is!(Ad),
            is!(Member(2)),
            is!(Member(9)),
            not!(Live(9)),
            is!(Live(2)),
            is!(Live(1)),
            not!(Member(3)),
            is!(Live(3)),
            is!(Range(3)),
            is!(Tail(3, 1)),
            is!(Member(1)),
            is!(Member(2)),
        ],
        set: &[1, 2],
    },
    Row {
        values: &[is!(Member(1)), not!(Live(1))],
        set: &[],
    },
    Row {
        values: &[is!(Live(1)), not!(Member(1))],
        set: &[],
    },
    Row {
        values: &[],
        set: &[],
    },
    Row {
        values: &[is!(Member(7)), is!(Live(7))],
        set: &[7],
    },
];

#[test]
fn sets(rt: HostRuntime) -> Result<(), Fail> {
    for (number, row) in ROWS.iter().enumerate() {
        assert!(rt;
            is_read_as(rt.alloc(), row.values, row.set)?,
            "row {number}"
        );
    }
    Ok(())
}

/// The value of a fact by an encoding.
fn fact_by<E: Encoding>(plain: &E::Plain, atom: &Atom) -> Option<bool> {
    E::fact(plain, atom)
}

/// 1 and 2 attack each other, and 2 attacks 3. A table of facts is in the tests of the axioms.
#[test]
fn facts(rt: HostRuntime) -> Result<(), Fail> {
    let plain = AfPlain::of_lists(rt.alloc(), &[1, 2, 3], &[(1, 2), (2, 1), (2, 3)])?;
    assert!(rt; fact(&plain, &Gap(3, 1, 2)) == Some(true));
    assert!(rt; fact_by::<AfEncoding>(&plain, &Attack(3, 2)) == Some(false));
    assert!(rt; fact_by::<AfEncoding>(&plain, &Member(1)).is_none());
    Ok(())
}

/// The literals by an encoding: 9 isn't live.
#[test]
fn sets_by_the_trait(rt: HostRuntime) -> Result<(), Fail> {
    let values = [is!(Member(2)), is!(Member(9)), not!(Live(9)), is!(Live(2))];
    assert!(rt; AfEncoding::decode(rt.alloc(), &values)?.as_slice() == [2].as_slice());
    Ok(())
}

#[test]
fn nothing_is_missing(rt: HostRuntime) -> Result<(), Fail> {
    let plain = AfPlain::of_lists(rt.alloc(), &[1], &[(1, 1)])?;
    assert!(rt; AfEncoding::missing(rt.alloc(), &plain, &[is!(Member(1))])?.is_none());
    assert!(rt; AfEncoding::missing(rt.alloc(), &plain, &[])?.is_none());
    Ok(())
}
