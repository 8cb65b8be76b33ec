//! The reader of frameworks with rules, and what it refuses where the program calls the other reader; the writer.

use aba_format::{one_reading, read_aba, write_aba};
use aba_notions::AbaPlain;
use af_format::LineCause::{BadHeader, NoHeader, TooManyLines, WrongKind};
use af_format::{LineCause, LineFault, ReadFault};
use lists::Bytes;
use std::alloc::Global;
use std::test::Fail;

/// A rule: its number, its head and its body.
pub(crate) type Rule<'a> = (u32, u32, &'a [u32]);

/// A framework: its number of atoms, its assumptions, pairs of one and a contrary of it, its rules, and the next rule's
/// number.
pub(crate) type Shown<'a> = (u32, &'a [u32], &'a [(u32, u32)], &'a [Rule<'a>], u32);

/// The framework of a text that is no longer than a text may be.
pub(crate) fn framework_of(alloc: Global, text: &str) -> Option<AbaPlain> {
    if text.len() > 268_435_456 {
        return None;
    }
    read_aba(alloc, text.as_bytes()).ok()
}

/// Whether a body, as pairs of a rule's index and an atom, has these atoms.
fn has_atoms(body: &[(u32, u32)], atoms: &[u32]) -> bool {
    body.len() == atoms.len() && body.iter().zip(atoms).all(|(pair, atom)| pair.1 == *atom)
}

/// Whether the framework's rule of this index is the one that is shown.
fn has_rule(framework: &AbaPlain, index: u32, rule: &Rule<'_>) -> bool {
    let at = index as usize;
    let (Some(number), Some(head)) = (
        framework.rule_numbers().get(at),
        framework.rule_heads().get(at),
    ) else {
        return false;
    };
    (*number, *head) == (rule.0, rule.1) && has_atoms(framework.body_of(index), rule.2)
}

/// Whether a framework is the one that is shown.
pub(crate) fn is_shown(framework: &AbaPlain, shown: &Shown<'_>) -> bool {
    framework.atoms() == shown.0
        && framework.assumptions().as_slice() == shown.1
        && framework.contraries() == shown.2
        && framework.rule_numbers().len() == shown.3.len()
        && (0..1_000_000u32)
            .zip(shown.3)
            .all(|(index, rule)| has_rule(framework, index, rule))
        && framework.next() == shown.4
}

/// Texts, and the framework of each.
const FRAMEWORKS: &[(&str, Shown<'static>)] = &[
    (
        "p aba 4\na 1\na 2\nc 1 3\nc 2 4\nr 3 2\nr 4 1\n",
        (
            4,
            &[1, 2],
            &[(1, 3), (2, 4)],
            &[(1, 3, &[2]), (2, 4, &[1])],
            3,
        ),
    ),
    (
        "p aba 4\na 1\na 2\nc 1 3\nc 2 4\nr 3 4\nr 4 3",
        (
            4,
            &[1, 2],
            &[(1, 3), (2, 4)],
            &[(1, 3, &[4]), (2, 4, &[3])],
            3,
        ),
    ),
    ("p aba 3\na 1\nc 1 2\nc 1 2\n", (3, &[1], &[(1, 2)], &[], 1)),
    (
        "p aba 2\na 1\nc 1 2\nr 2\n",
        (2, &[1], &[(1, 2)], &[(1, 2, &[])], 2),
    ),
    (
        "p aba 2\na 1\nr 2 1\nr 2 2\n",
        (2, &[1], &[], &[(1, 2, &[1]), (2, 2, &[2])], 3),
    ),
    ("p aba 0", (0, &[], &[], &[], 1)),
    ("p aba 5\n", (5, &[], &[], &[], 1)),
    ("p aba 2\na 1\na 1\na 2\na 1", (2, &[1, 2], &[], &[], 1)),
    (
        "p aba 2\nr 2 1\nr 2 1\nc 1 1\na 1",
        (2, &[1], &[(1, 1)], &[(1, 2, &[1]), (2, 2, &[1])], 3),
    ),
    (
        "p aba 4\nr 4 3 1 3 2 1 3\nr 4 4 4",
        (4, &[], &[], &[(1, 4, &[1, 2, 3]), (2, 4, &[4])], 3),
    ),
    (
        "p aba 4\nc 1 4\na 1\na 2\nc 1 2\nc 1 4\nc 1 1",
        (4, &[1, 2], &[(1, 1), (1, 2), (1, 4)], &[], 1),
    ),
    (
        "p aba 3\nc 2 1\nc 1 2\na 2\na 1",
        (3, &[1, 2], &[(1, 2), (2, 1)], &[], 1),
    ),
    (
        "p aba 3\na 1\nc 1 2\nc 1 3",
        (3, &[1], &[(1, 2), (1, 3)], &[], 1),
    ),
    (
        "p aba 3\nc 2 3\nc 1 3\nc 2 1\na 2\nc 2 3\nc 2 2\na 1\na 3\nc 1 3",
        (3, &[1, 2, 3], &[(1, 3), (2, 1), (2, 2), (2, 3)], &[], 1),
    ),
    (
        "p aba 3\nr 2 3\n# r 3 2\n\nr 1\nr 3 1 2",
        (
            3,
            &[],
            &[],
            &[(1, 2, &[3]), (2, 1, &[]), (3, 3, &[1, 2])],
            4,
        ),
    ),
    (
        "# x\n\t\r\n p\taba  1 \r\n a 1\r\n#1\n",
        (1, &[1], &[], &[], 1),
    ),
    (
        "p aba 0002\na 0001\nc 01 00000000000000002\n",
        (2, &[1], &[(1, 2)], &[], 1),
    ),
    (
        "p aba 1000000\na 1000000\nc 1000000 1\nr 1 1000000\n",
        (
            1000000,
            &[1000000],
            &[(1000000, 1)],
            &[(1, 1, &[1000000])],
            2,
        ),
    ),
];

#[test]
fn frameworks(rt: HostRuntime) {
    for (text, shown) in FRAMEWORKS {
        let holds = match framework_of(rt.alloc(), text) {
            Some(framework) => is_shown(&framework, shown),
            None => false,
        };
        assert!(rt; holds, "at {text}");
    }
}

/// Whether a text is short enough, and this fault is told of it.
fn is_refused(alloc: Global, text: &str, line: usize, cause: LineCause) -> bool {
    if text.len() > 268_435_456 {
        return false;
    }
    match read_aba(alloc, text.as_bytes()) {
        Err(ReadFault::Line(fault)) => fault == LineFault { line, cause },
        _ => false,
    }
}

/// Texts that the program gives to the other reader, and the line and the cause of the fault of each.
const OTHER_KIND: &[(&str, usize, LineCause)] = &[
    ("", 1, NoHeader),
    ("\n#\n", 3, NoHeader),
    ("a 1\np aba 1", 1, NoHeader),
    ("# x\nP aba 1", 2, NoHeader),
    ("p af 1", 1, WrongKind),
    ("#\np af", 2, WrongKind),
    ("p af x 1 2", 1, WrongKind),
    ("p", 1, BadHeader),
    ("p abaf 1", 1, BadHeader),
    ("p af 1000001 x\na", 1, WrongKind),
];

#[test]
fn other_kind(rt: HostRuntime) {
    for &(text, line, cause) in OTHER_KIND {
        assert!(rt; is_refused(rt.alloc(), text, line, cause), "at {text}");
    }
}

/// Whether one assumption with one contrary is read.
fn is_opposed_once(alloc: Global, text: &str) -> bool {
    match framework_of(alloc, text) {
        Some(framework) => framework.contraries() == [(1, 2)].as_slice(),
        None => false,
    }
}

#[test]
fn too_many_contrary_lines(rt: HostRuntime) -> Result<(), Fail> {
    let mut text = String::from_str(rt.alloc(), "p aba 2\na 1\n")?;
    text.push_str("c 1 2\n".repeat(rt.alloc(), 10_000_000)?.as_str())?;
    assert!(rt; is_opposed_once(rt.alloc(), text.as_str()));
    text.push_str("c 1 2\n")?;
    assert!(rt; is_refused(rt.alloc(), text.as_str(), 10_000_003, TooManyLines));
    Ok(())
}

/// The text that is written of what is read of another.
fn written_again(alloc: Global, text: &str) -> Option<Bytes> {
    let framework = framework_of(alloc, text)?;
    if !framework.is_solid() {
        return None;
    }
    write_aba(alloc, &framework).ok()
}

#[test]
fn written(rt: HostRuntime) {
    one_reading();
    let text = "p aba 6\nr 6 2 1 2\nc 5 6\n# x\na 5\nr 4\na 2\n\na 1\nc 1 1\nc 5 3\nr 6 1 2";
    let expected = b"p aba 6\na 1\na 2\na 5\nc 1 1\nc 5 3\nc 5 6\nr 6 1 2\nr 4\nr 6 1 2\n";
    let holds = match written_again(rt.alloc(), text) {
        Some(bytes) => bytes.as_slice() == expected.as_slice(),
        None => false,
    };
    assert!(rt; holds);
}
