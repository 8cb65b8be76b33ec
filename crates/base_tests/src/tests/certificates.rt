//! Certificates: read and written, their laws, what no run asks of the check, orders of sets, and the table of atoms.

use atom_table::AtomTable;
use certificate_check::check;
use certificate_claims::Cause::{self, AnswerShape};
use certificate_claims::Verdict::{self, Accepted, Rejected};
use certificate_claims::{Certificate, none_within, sets_rise};
use certificate_text::{one_reading, read_certificate, reading_is_exact, write_certificate};
use edit_rules::Framework;
use framework_text::read_framework;
use iccma_tasks::{Answer, Problem, Query, Semantics, Task};
use lists::{Bytes, Items, Memory};
use meaning_atoms::Atom;
use set_lists::NumSet;
use std::alloc::Global;
use std::test::Fail;

// That in `p af 4; 1 2; 2 1; 1 3; 2 3; 3 4` every preferred set has 4: each admissible set lies in 1 4 or in 2 4.
const COVER: &str = "cert 1\nw 1 4\nw 2 4\nr\na A3 1 3\na A5 1 1 2\na A6 1 3\na A2 2 3\na A14 1\n\
    d -Ad -Member:3 -Attack:1:3 -Attack:2:3 -Gap:1:1:2 -Gap:1:3:1000001 0 5 1 3 2 4\ns 1\ns 2\na A2 1 2\n\
    d -Ad -Ask:1 -Ask:2 -Attack:1:2 -Attack:1:3 -Attack:2:3 -Gap:1:1:2 -Gap:1:3:1000001 0 5 6 7 8 9\nend\n";

// The clause of a loop of two rules, and literals of the other kind of framework.
const LOOP: &str =
    "cert 1\nr\na B17 1 3 2 3 4 1 1 4 1 2 3\nd -Der:1:3 Asm:3 -HGap:3:2:1000001 Body:1:4 0 1\nend\n";

/// Texts, and what is written of the certificate that is read.
const TEXTS: &[(&str, &str)] = &[
    (COVER, COVER),
    (" cert\t1\r\n# c\n\nw 01\nend\n", "cert 1\nw 1\nend\n"),
    ("cert 1\nr\nr\nend", "cert 1\nr\nr\nend\n"),
    (
        "cert 1\nr\nd Ask:4294967295 0 007\nend",
        "cert 1\nr\nd Ask:4294967295 0 7\nend\n",
    ),
    (LOOP, LOOP),
    ("cert 1\nr\na B1 2\nend", "cert 1\nr\na B1 2\nend\n"),
];

/// The certificate of a short text.
fn certificate_of(alloc: Global, text: &str) -> Option<Certificate> {
    let bytes = text.as_bytes();
    if bytes.len() > 1000 {
        return None;
    }
    read_certificate(alloc, bytes).ok()
}

/// What the text reads as, written again.
fn written_again(alloc: Global, text: &str) -> Option<Bytes> {
    let certificate = certificate_of(alloc, text)?;
    write_certificate(alloc, &certificate).ok()
}

#[test]
fn texts(rt: HostRuntime) {
    one_reading();
    reading_is_exact();
    for &(text, expected) in TEXTS {
        let holds = match written_again(rt.alloc(), text) {
            Some(bytes) => bytes.as_slice() == expected.as_bytes(),
            None => false,
        };
        assert!(rt; holds);
    }
}

/// The answer 1 2.
fn answer_of(alloc: Global) -> Result<Answer, Memory> {
    let mut sets = Items::new(alloc);
    sets.push(NumSet::from_slice(alloc, &[1, 2])?)?;
    Ok(Answer::Sets(sets))
}

/// What the check tells of an empty certificate for the answer 1 2, by a query without a number.
fn verdict(alloc: Global, framework: &Framework, semantics: Semantics) -> Option<Verdict> {
    let task = Task {
        problem: Problem::SomeExtension,
        semantics,
    };
    let query = Query::new(task, None)?;
    let answer = answer_of(alloc).ok()?;
    let certificate = certificate_of(alloc, "cert 1\nend\n")?;
    check(alloc, framework, &query, &answer, &certificate).ok()
}

/// The contraries of the assumptions 1 and 2 follow from each other alone.
fn loop_framework(alloc: Global) -> Option<Framework> {
    let bytes = "p aba 4\na 1\na 2\nc 1 3\nc 2 4\nr 3 4\nr 4 3\n".as_bytes();
    if bytes.len() > 1000 {
        return None;
    }
    read_framework(alloc, bytes).ok()
}

/// Frameworks with rules have no task by ranges, which the program tells before it checks.
#[test]
fn verdicts(rt: HostRuntime) {
    let Some(framework) = loop_framework(rt.alloc()) else {
        assert!(rt; false, "not read");
        return;
    };
    assert!(rt; verdict(rt.alloc(), &framework, Semantics::Complete) == Some(Accepted));
    let found = verdict(rt.alloc(), &framework, Semantics::SemiStable);
    assert!(rt; found == Some(Rejected(AnswerShape, 0, 0)));
}

fn sets_of(alloc: Global, lists: &[&[u32]]) -> Result<Vec<NumSet>, Memory> {
    let mut sets = Vec::new(alloc);
    for list in lists {
        sets.push(NumSet::from_slice(alloc, list)?)?;
    }
    Ok(sets)
}

/// Lists of sets, whether each rises, and whether none of its sets is in another.
const ORDERS: &[(&[&[u32]], bool, bool)] = &[
    (&[], true, true),
    (&[&[1, 3], &[2]], true, true),
    (&[&[1], &[1, 2], &[3]], true, false),
    (&[&[2], &[1, 3]], false, true),
    (&[&[1], &[1]], false, true),
];

#[test]
fn orders(rt: HostRuntime) -> Result<(), Fail> {
    for &(lists, rises, apart) in ORDERS {
        let sets = sets_of(rt.alloc(), lists)?;
        assert!(rt; sets_rise(&sets) == rises && none_within(&sets) == apart);
    }
    assert!(rt; Cause::OpenLiteral.name() == "OpenLiteral");
    Ok(())
}

/// Whether atoms get their variables in turn in an empty table, and an atom the same once more.
fn come_in_turn(table: &mut AtomTable) -> Result<bool, Memory> {
    let first = table.var_of(&Atom::Attack(1, 2))?;
    let second = table.var_of(&Atom::Ad)?;
    let again = table.var_of(&Atom::Attack(1, 2))?;
    let third = table.var_of(&Atom::Attack(2, 1))?;
    Ok(first == 0 && second == 1 && again == 0 && third == 2)
}

#[test]
fn variables_in_turn(rt: HostRuntime) -> Result<(), Fail> {
    let mut table = AtomTable::new(rt.alloc());
    assert!(rt; table.find(&Atom::Ad) == None);
    assert!(rt; come_in_turn(&mut table)?);
    assert!(rt; table.find(&Atom::Ad) == Some(1) && table.len() == 3);
    assert!(rt; table.atom_at(2) == Atom::Attack(2, 1));
    Ok(())
}
