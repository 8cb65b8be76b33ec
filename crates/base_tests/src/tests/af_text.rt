//! The reader of abstract frameworks where the program doesn't call it, the writer, and the laws of both.

use af_format::LineCause::{OutOfRange, TooManyLines, WrongKind};
use af_format::{
    LineCause, LineFault, ReadFault, one_reading, read_af, read_back, readable_or_faulty, write_af,
};
use dung_notions::AfPlain;
use lists::Bytes;
use std::alloc::Global;
use std::test::Fail;

/// The framework of a text that is no longer than a text may be.
fn framework_of(alloc: Global, text: &str) -> Option<AfPlain> {
    if text.len() > 268_435_456 {
        return None;
    }
    read_af(alloc, text.as_bytes()).ok()
}

/// Whether a text is short enough, and this fault is told of it.
fn is_refused(alloc: Global, text: &str, line: usize, cause: LineCause) -> bool {
    if text.len() > 268_435_456 {
        return false;
    }
    match read_af(alloc, text.as_bytes()) {
        Err(ReadFault::Line(fault)) => fault == LineFault { line, cause },
        _ => false,
    }
}

/// Texts of the other kind, which the program gives to the other reader, and the line of the fault of each.
const OTHER_KIND: &[(&str, usize)] = &[
    ("p aba 1", 1),
    ("#\np aba", 2),
    ("p aba x 1 2", 1),
    ("p aba 1000001", 1),
];

#[test]
fn other_kind(rt: HostRuntime) {
    for &(text, line) in OTHER_KIND {
        assert!(rt; is_refused(rt.alloc(), text, line, WrongKind), "at {text}");
    }
}

/// The text that is written of what is read of another.
fn written_again(alloc: Global, text: &str) -> Option<Bytes> {
    let framework = framework_of(alloc, text)?;
    if !framework.is_solid() {
        return None;
    }
    write_af(alloc, &framework).ok()
}

#[test]
fn written(rt: HostRuntime) {
    let holds = match written_again(rt.alloc(), "p af 3\n2 3\n# x\n2 1\n1 2\n2 1") {
        Some(text) => text.as_slice() == b"p af 3\n1 2\n2 1\n2 3\n".as_slice(),
        None => false,
    };
    assert!(rt; holds);
}

/// Whether one argument that attacks itself is read.
fn is_loop(alloc: Global, text: &str) -> bool {
    match framework_of(alloc, text) {
        Some(framework) => framework.live().len() == 1 && framework.attack_count() == 1,
        None => false,
    }
}

#[test]
fn too_many_lines(rt: HostRuntime) -> Result<(), Fail> {
    let mut text = String::from_str(rt.alloc(), "p af 1\n")?;
    text.push_str("1 1\n".repeat(rt.alloc(), 10_000_000)?.as_str())?;
    assert!(rt; is_loop(rt.alloc(), text.as_str()));
    text.push_str("1 1\n")?;
    assert!(rt; is_refused(rt.alloc(), text.as_str(), 10_000_002, TooManyLines));
    Ok(())
}

/// The framework that is read from the text of a small solid one.
fn read_again(alloc: Global, text: &str) -> Option<AfPlain> {
    let framework = framework_of(alloc, text)?;
    if !framework.is_solid() || framework.attack_count() > 2 {
        return None;
    }
    read_back(alloc, &framework).ok()
}

/// Whether a framework has three arguments, of which the first attacks itself and the second the third.
fn is_small(framework: &AfPlain) -> bool {
    framework.live() == [1, 2, 3].as_slice()
        && framework.attack_count() == 2
        && framework.targets_of(1) == [(1, 1)].as_slice()
        && framework.targets_of(2) == [(2, 3)].as_slice()
}

#[test]
fn laws(rt: HostRuntime) {
    one_reading();
    assert!(rt; readable_or_faulty(b"p af 2\n1 2\n").is_ok());
    let fault = LineFault {
        line: 3,
        cause: OutOfRange,
    };
    assert!(rt; readable_or_faulty(b"p af 2\n#\n1 3\n1 x") == Err(fault));
    let holds = match read_again(rt.alloc(), "p af 3\n2 3\n1 1") {
        Some(same) => is_small(&same),
        None => false,
    };
    assert!(rt; holds);
}
