//! Frameworks in clauses, compared with what was worked out by hand from the table of axioms.

use aba_encoding::{decode, missing, needed};
use aba_facts::fact;
use aba_format::read_aba;
use aba_notions::AbaPlain;
use lists::{Items, Memory};
use meaning_atoms::Atom::{
    Ask, Asm, Attack, BGap, Body, Cf, Con, ConGap, Der, Gap, HGap, Head, Hit, Live, Member, Miss,
    Sup,
};
use meaning_atoms::Closure::{Own, Rest};
use meaning_atoms::{Atom, AtomLit, AxiomName, END, push_axiom};
use std::alloc::Global;
use std::test::Fail;

/// 1 and 2 are assumptions with the contraries 3 and 4; each derives the contrary of the other.
const CROSSED: &str = "p aba 4\na 1\na 2\nc 1 3\nc 2 4\nr 3 2\nr 4 1\n";

/// The same, but the contraries derive one another.
const CIRCULAR: &str = "p aba 4\na 1\na 2\nc 1 3\nc 2 4\nr 3 4\nr 4 3\n";

/// The framework of a text that is no longer than a text may be.
fn framework_of(alloc: Global, text: &str) -> Option<AbaPlain> {
    if text.len() > 268_435_456 {
        return None;
    }
    read_aba(alloc, text.as_bytes()).ok()
}

/// Whether this is the text of a name.
fn is_text(alloc: Global, name: &AxiomName, text: &str) -> bool {
    let mut shown = String::new(alloc);
    push_axiom(&mut shown, name).is_ok() && shown.as_str() == text
}

/// Whether the names are so many, and these among them.
fn have(alloc: Global, names: &[AxiomName], count: usize, expected: &[&str]) -> bool {
    names.len() == count
        && expected
            .iter()
            .all(|text| names.iter().any(|name| is_text(alloc, name, text)))
}

/// The axioms that the framework of the text needs.
fn needed_by(alloc: Global, text: &str) -> Option<Items<AxiomName>> {
    let framework = framework_of(alloc, text)?;
    needed(alloc, &framework).ok()
}

/// All that the first framework needs.
const CROSSED_AXIOMS: &[&str] = &[
    "B4 1",
    "B4 2",
    "B16 1",
    "B16 2",
    "B16 3",
    "B2 1",
    "B3 1",
    "B14 1",
    "B15 1",
    "B9 3 1 3",
    "B12 1 3",
    "B13 1 3",
    "B18 1 1 1 3",
    "B18 2 1 1 3",
    "B19 1 1 4",
    "B19 2 1 4",
    "B2 2",
    "B3 2",
    "B14 2",
    "B15 2",
    "B9 3 2 4",
    "B12 2 4",
    "B13 2 4",
    "B18 1 2 1 4",
    "B18 2 2 1 4",
    "B19 1 2 5",
    "B19 2 2 5",
    "B5 1 1 3",
    "B5 2 1 3",
    "B6 1 1 2",
    "B6 2 1 2",
    "B7 1 1 1 2",
    "B7 2 1 1 2",
    "B8 1 1 3",
    "B8 2 1 3",
    "B5 1 2 4",
    "B5 2 2 4",
    "B6 1 2 1",
    "B6 2 2 1",
    "B7 1 2 1 1",
    "B7 2 2 1 1",
    "B8 1 2 2",
    "B8 2 2 2",
    "B1 1",
    "B9 1 1",
    "B9 2 1",
    "B11 1 1 1",
    "B11 2 1 1",
    "B1 2",
    "B9 1 2",
    "B9 2 2",
    "B11 1 2 1",
    "B11 2 2 1",
    "B1 3",
    "B9 1 3",
    "B9 2 3",
    "B10 1 3 1 1",
    "B10 2 3 1 1",
    "B11 1 3 2",
    "B11 2 3 2",
    "B1 4",
    "B9 1 4",
    "B9 2 4",
    "B10 1 4 1 2",
    "B10 2 4 1 2",
    "B11 1 4 3",
    "B11 2 4 3",
];

/// Some of what the second framework needs.
const CIRCULAR_AXIOMS: &[&str] = &[
    "B5 1 1 3",
    "B6 2 1 4",
    "B7 1 1 1 4",
    "B8 2 1 5",
    "B5 2 2 4",
    "B6 1 2 3",
    "B7 2 2 1 3",
    "B8 1 2 4",
    "B10 1 3 1 1",
    "B11 2 3 2",
    "B10 2 4 1 2",
    "B11 1 4 3",
];

/// Texts, how many axioms their frameworks need, and some of these: five of all, six of each assumption, five of each
/// contrary, five of each atom, six of each rule, and four of each atom of a body.
const NEEDED: &[(&str, usize, &[&str])] = &[
    (CROSSED, 67, CROSSED_AXIOMS),
    (CIRCULAR, 67, CIRCULAR_AXIOMS),
    ("p aba 0\n", 5, &["B4 1", "B4 2", "B16 3"]),
    (
        "p aba 3\na 1\nr 3\nr 3 1 2\n",
        46,
        &[
            "B3 1",
            "B19 1 1 1",
            "B19 2 1 1",
            "B8 1 1 1",
            "B8 2 2 3",
            "B7 1 2 1 1",
            "B7 1 2 2 2",
            "B10 1 3 1 1",
            "B10 2 3 2 2",
            "B11 1 3 3",
        ],
    ),
    (
        "p aba 4\na 1\nc 1 4\nc 1 2\nc 1 4\n",
        41,
        &[
            "B9 3 1 2",
            "B12 1 4",
            "B13 1 2",
            "B18 1 1 1 2",
            "B18 2 1 3 4",
            "B19 1 1 5",
        ],
    ),
];

#[test]
fn needed_axioms(rt: HostRuntime) {
    for &(text, count, expected) in NEEDED {
        let holds = match needed_by(rt.alloc(), text) {
            Some(names) => have(rt.alloc(), names.as_slice(), count, expected),
            None => false,
        };
        assert!(rt; holds, "of {text}");
    }
}

/// Whether the literals are read as the set of these numbers.
fn is_read_as(alloc: Global, values: &[AtomLit], set: &[u32]) -> Result<bool, Memory> {
    let read = decode(alloc, values)?;
    Ok(read.as_slice() == set)
}

/// A member counts where it is said to be an assumption, whatever the order and the other literals.
const VALUES: &[AtomLit] = &[
    is!(Member(2)),
    is!(Der(Own, 4)),
    is!(Asm(1)),
    is!(Member(3)),
    not!(Asm(3)),
    is!(Live(4)),
    is!(Member(4)),
    is!(Asm(2)),
    not!(Member(1)),
    is!(Member(2)),
];

#[test]
fn sets(rt: HostRuntime) -> Result<(), Fail> {
    assert!(rt; is_read_as(rt.alloc(), VALUES, &[2])?);
    assert!(rt; is_read_as(rt.alloc(), &[], &[])?);
    Ok(())
}

/// Atoms, and their values in the first framework.
const FACTS: &[(Atom, Option<bool>)] = &[
    (Asm(1), Some(true)),
    (Asm(3), Some(false)),
    (Con(1, 3), Some(true)),
    (Con(1, 4), Some(false)),
    (Con(3, 0), Some(false)),
    (Con(1, 0), Some(false)),
    (ConGap(1, 1, 3), Some(true)),
    (ConGap(1, 1, 4), Some(false)),
    (ConGap(1, 3, 3), Some(true)),
    (ConGap(1, 4, END), Some(true)),
    (ConGap(3, 1, END), Some(false)),
    (Head(1, 3), Some(true)),
    (Head(2, 3), Some(false)),
    (Head(3, 3), Some(false)),
    (HGap(3, 1, 1), Some(true)),
    (HGap(3, 1, 2), Some(false)),
    (HGap(3, 2, END), Some(true)),
    (HGap(4, 1, 2), Some(true)),
    (HGap(4, 1, 3), Some(false)),
    (HGap(1, 1, END), Some(true)),
    (Body(1, 2), Some(true)),
    (Body(1, 1), Some(false)),
    (Body(3, 1), Some(false)),
    (BGap(1, 1, 2), Some(true)),
    (BGap(1, 1, 3), Some(false)),
    (BGap(1, 3, END), Some(true)),
    (BGap(3, 1, 1), Some(false)),
    (Member(1), None),
    (Der(Own, 3), None),
    (Miss(Rest, 1, 1), None),
    (Sup(Own, 3, 1), None),
    (Hit(Own, 1, 1), None),
    (Cf, None),
    (Ask(1), None),
    (Live(1), None),
    (Attack(1, 2), None),
    (Gap(1, 1, 2), None),
];

#[test]
fn facts(rt: HostRuntime) {
    let Some(framework) = framework_of(rt.alloc(), CROSSED) else {
        assert!(rt; false, "not read");
        return;
    };
    for (number, (atom, value)) in FACTS.iter().enumerate() {
        assert!(rt; fact(&framework, atom) == *value, "row {number}");
    }
}

/// The literals, and those that 1 is an assumption and 2 too.
fn with_assumptions(alloc: Global, values: &[AtomLit]) -> Result<Vec<AtomLit>, Memory> {
    let mut all = Vec::from_slice(alloc, values)?;
    all.extend_from_slice(&[is!(Asm(1)), is!(Asm(2))])?;
    Ok(all)
}

/// What is missing under these literals, where a framework is read.
fn missing_of(alloc: Global, text: &str, values: &[AtomLit]) -> Option<Option<AxiomName>> {
    let framework = framework_of(alloc, text)?;
    missing(alloc, &framework, values).ok()
}

/// A framework, the literals beside those that 1 is an assumption and 2 too, and what is missing.
const MISSING: &[(&str, &[AtomLit], &str)] = &[
    // The set of 1 derives 4, and doesn't attack 1 alone.
    (
        CROSSED,
        &[
            is!(Member(1)),
            is!(Der(Own, 1)),
            is!(Der(Own, 4)),
            is!(Der(Rest, 4)),
            is!(Der(Rest, 1)),
        ],
        "",
    ),
    // It doesn't derive 3, which a rule would only give by 2.
    (
        CROSSED,
        &[is!(Member(1)), is!(Der(Own, 3)), is!(Der(Rest, 3))],
        "B17 1 3 1 3 1 1 0",
    ),
    // Nor does what it doesn't attack.
    (
        CROSSED,
        &[is!(Member(1)), is!(Der(Own, 4)), is!(Der(Rest, 3))],
        "B17 2 3 1 3 1 1 0",
    ),
    // 3 and 4 rest on one another.
    (
        CIRCULAR,
        &[is!(Member(1)), is!(Der(Own, 4)), is!(Der(Own, 3))],
        "B17 1 3 2 3 4 1 1 4 1 2 3",
    ),
    (
        CIRCULAR,
        &[is!(Der(Rest, 4)), is!(Der(Rest, 3)), is!(Der(Rest, 2))],
        "B17 2 3 2 3 4 1 1 4 1 2 3",
    ),
    (CIRCULAR, &[is!(Der(Own, 4))], "B17 1 4 1 4 1 2 0"),
    // 1 is no member, and no rule heads it.
    (
        CIRCULAR,
        &[is!(Der(Own, 1)), is!(Der(Rest, 3))],
        "B17 1 1 1 1 0",
    ),
    // Numbers that aren't atoms of the framework are passed over.
    (CIRCULAR, &[is!(Der(Own, 5)), is!(Der(Rest, 0))], ""),
    (CIRCULAR, &[not!(Der(Own, 4))], ""),
];

#[test]
fn loops(rt: HostRuntime) -> Result<(), Fail> {
    for (number, &(text, values, expected)) in MISSING.iter().enumerate() {
        let all = with_assumptions(rt.alloc(), values)?;
        let right = match missing_of(rt.alloc(), text, &all) {
            Some(Some(name)) => is_text(rt.alloc(), &name, expected),
            Some(None) => expected.is_empty(),
            None => false,
        };
        assert!(rt; right, "row {number}");
    }
    Ok(())
}
