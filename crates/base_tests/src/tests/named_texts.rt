//! The readers of texts with names, and the writer.

use apx_tgf::NameCause::{BadLine, TooManyArguments, TooManyLines, UnknownName};
use apx_tgf::{NameCause, NameFault, NameFormat, NamedAf, ReadFault, read_named, write_named};
use std::alloc::Global;
use std::test::Fail;

/// What a text, which is no longer than a text may be, gives.
fn read<'a>(
    alloc: Global,
    format: NameFormat,
    text: &'a str,
) -> Option<Result<NamedAf<'a>, ReadFault>> {
    if text.len() > 268_435_456 {
        return None;
    }
    Some(read_named(alloc, format, text.as_bytes()))
}

/// Whether this is written of the framework that is read.
fn is_written(alloc: Global, format: NameFormat, text: &str, written: &str) -> bool {
    if text.len() > 268_435_456 {
        return false;
    }
    match read_named(alloc, format, text.as_bytes()) {
        Ok(named) => match write_named(alloc, &named.names, &named.framework) {
            Ok(found) => found.as_slice() == written.as_bytes(),
            Err(_) => false,
        },
        Err(_) => false,
    }
}

/// Whether this fault is told.
fn is_refused(
    alloc: Global,
    format: NameFormat,
    text: &str,
    line: usize,
    cause: NameCause,
) -> bool {
    match read(alloc, format, text) {
        Some(Err(ReadFault::Line(fault))) => fault == NameFault { line, cause },
        _ => false,
    }
}

/// APX texts, and what is written of each.
const APX_TEXTS: &[(&str, &str)] = &[
    ("arg(a). arg(b).\natt(a,b).", "# 1 a\n# 2 b\np af 2\n1 2\n"),
    ("", "p af 0\n"),
    (
        "att(b,a).\narg(a).arg(b).arg(a).att(b , a) .\n",
        "# 1 a\n# 2 b\np af 2\n2 1\n",
    ),
    (
        " % arg(a\n\t\r\narg( arg ) .att( arg,arg\t)\r.\n%",
        "# 1 arg\np af 1\n1 1\n",
    ),
    (
        "arg(_1).\narg(1).\narg(A_9z).",
        "# 1 _1\n# 2 1\n# 3 A_9z\np af 3\n",
    ),
];

/// APX texts with a fault.
const APX_FAULTS: &[(&str, usize, NameCause)] = &[
    ("arg(a).\natt(a,c).", 2, UnknownName),
    ("att(a,c). arg(a).\natt(d,a).", 1, UnknownName),
    ("att(c,a).\narg(a).\nargs(b).", 3, BadLine),
    ("arg(a)", 1, BadLine),
    ("ar g(a).", 1, BadLine),
    ("arg(a b).", 1, BadLine),
    ("arg().", 1, BadLine),
    ("Arg(a).", 1, BadLine),
    ("arg(a-b).", 1, BadLine),
    ("arg(é).", 1, BadLine),
    ("arg(a).\n\n#", 3, BadLine),
    ("arg(a). % b", 1, BadLine),
    ("att(a).", 1, BadLine),
    ("att(a,b,c).", 1, BadLine),
    ("arg(a);", 1, BadLine),
];

#[test]
fn apx_texts(rt: HostRuntime) {
    for &(text, written) in APX_TEXTS {
        assert!(rt;
            is_written(rt.alloc(), NameFormat::Apx, text, written),
            "at {text}"
        );
    }
    for &(text, line, cause) in APX_FAULTS {
        assert!(rt;
            is_refused(rt.alloc(), NameFormat::Apx, text, line, cause),
            "at {text}"
        );
    }
}

/// TGF texts, and what is written of each.
const TGF_TEXTS: &[(&str, &str)] = &[
    ("a\nb\n#\na b", "# 1 a\n# 2 b\np af 2\n1 2\n"),
    (
        "a label # x\n\n b\n # \n b a text\nb a\n",
        "# 1 a\n# 2 b\np af 2\n2 1\n",
    ),
    ("a\na", "# 1 a\np af 1\n"),
    ("#", "p af 0\n"),
    (
        "a1\na2\na4\na01\na5\n#\na01 a1\na4 a5\na2 a2",
        "# 1 a1\n# 2 a2\n# 3 a4\n# 4 a01\n# 5 a5\np af 5\n2 2\n3 5\n4 1\n",
    ),
    (
        "b\na09\na10\na11\na9\n#\na9 a09\na11 a10",
        "# 1 b\n# 2 a09\n# 3 a10\n# 4 a11\n# 5 a9\np af 5\n4 3\n5 2\n",
    ),
    (
        "x98\nx99\nx100\n9\n10\nx101\n#\nx100 x99\n10 9\nx101 x98",
        "# 1 x98\n# 2 x99\n# 3 x100\n# 4 9\n# 5 10\n# 6 x101\np af 6\n3 2\n5 4\n6 1\n",
    ),
];

/// TGF texts with a fault.
const TGF_FAULTS: &[(&str, usize, NameCause)] = &[
    ("a\n#\na c", 3, UnknownName),
    ("a\n#\na c\n!", 4, BadLine),
    ("a\n#\n#", 3, BadLine),
    ("a\n#\na", 3, BadLine),
    ("a\n#\na #", 3, BadLine),
    ("# x", 1, BadLine),
    ("a-b", 1, BadLine),
    ("a1\na2\n#\na1 a3", 4, UnknownName),
    ("a1\na2\n#\na1 a2\na01 a2", 5, UnknownName),
    ("a1\na2\n#\na0 a2", 4, UnknownName),
    ("a1\na2\n#\na1 a", 4, UnknownName),
];

#[test]
fn tgf_texts(rt: HostRuntime) {
    for &(text, written) in TGF_TEXTS {
        assert!(rt;
            is_written(rt.alloc(), NameFormat::Tgf, text, written),
            "at {text}"
        );
    }
    for &(text, line, cause) in TGF_FAULTS {
        assert!(rt;
            is_refused(rt.alloc(), NameFormat::Tgf, text, line, cause),
            "at {text}"
        );
    }
}

/// Whether the framework that is read has so many arguments.
fn has_names(alloc: Global, text: &str, count: usize) -> bool {
    match read(alloc, NameFormat::Apx, text) {
        Some(Ok(named)) => named.names.len() == count,
        _ => false,
    }
}

#[test]
fn too_many(rt: HostRuntime) -> Result<(), Fail> {
    let mut text = String::from_str(rt.alloc(), "")?;
    for number in 1..1_000_001 {
        text.push_str(format!(in rt.alloc(); "arg(n{number}).\n")?.as_str())?;
    }
    text.push_str("arg(n1).\n")?;
    assert!(rt; has_names(rt.alloc(), text.as_str(), 1_000_000));
    text.push_str("arg(n1). arg(b).\n")?;
    assert!(rt;
        is_refused(
            rt.alloc(),
            NameFormat::Apx,
            text.as_str(),
            1_000_002,
            TooManyArguments
        )
    );
    Ok(())
}

#[test]
fn too_many_attacks(rt: HostRuntime) -> Result<(), Fail> {
    let mut text = String::from_str(rt.alloc(), "arg(a).\n")?;
    text.push_str("att(a,a).\n".repeat(rt.alloc(), 10_000_000)?.as_str())?;
    assert!(rt; has_names(rt.alloc(), text.as_str(), 1));
    text.push_str("att(a,a).\n")?;
    assert!(rt;
        is_refused(
            rt.alloc(),
            NameFormat::Apx,
            text.as_str(),
            10_000_002,
            TooManyLines
        )
    );
    Ok(())
}

#[test]
fn a_long_name(rt: HostRuntime) -> Result<(), Fail> {
    let name = "n".repeat(rt.alloc(), 1_000_000)?;
    let name = name.as_str();
    let apx = format!(in rt.alloc(); "arg({name}). att({name},{name}).")?;
    let tgf = format!(in rt.alloc(); "{name}\n#\n{name} {name}")?;
    let written = format!(in rt.alloc(); "# 1 {name}\np af 1\n1 1\n")?;
    assert!(rt; is_written(rt.alloc(), NameFormat::Apx, apx.as_str(), written.as_str()));
    assert!(rt; is_written(rt.alloc(), NameFormat::Tgf, tgf.as_str(), written.as_str()));
    Ok(())
}
