//! Cuts and numbers, compared with values that were worked out by hand.

use num_text::{Line, decimal, fields, is_skipped, lines, next_kept};

/// A line's number, where it begins and ends, and of each field where it begins and ends in the line, and its text.
type Cut = (usize, [usize; 2], &'static [(usize, usize, &'static str)]);

/// Texts, and their lines.
const CUTS: &[(&str, &[Cut])] = &[
    ("", &[]),
    ("\n", &[(1, [0, 0], &[])]),
    ("\n\n", &[(1, [0, 0], &[]), (2, [1, 1], &[])]),
    ("a", &[(1, [0, 1], &[(0, 1, "a")])]),
    ("a\n", &[(1, [0, 1], &[(0, 1, "a")])]),
    (
        "a\nbc",
        &[(1, [0, 1], &[(0, 1, "a")]), (2, [2, 4], &[(0, 2, "bc")])],
    ),
    (
        "a\n\nb\n",
        &[
            (1, [0, 1], &[(0, 1, "a")]),
            (2, [2, 2], &[]),
            (3, [3, 4], &[(0, 1, "b")]),
        ],
    ),
    (
        "1 2\r\n3 4\r\n",
        &[
            (1, [0, 4], &[(0, 1, "1"), (2, 3, "2")]),
            (2, [5, 9], &[(0, 1, "3"), (2, 3, "4")]),
        ],
    ),
    (
        "a\tbc  d",
        &[(1, [0, 7], &[(0, 1, "a"), (2, 4, "bc"), (6, 7, "d")])],
    ),
    (
        " \t\r\n x \n",
        &[(1, [0, 3], &[]), (2, [4, 7], &[(1, 2, "x")])],
    ),
    (
        "p af 12\n7 1\n",
        &[
            (1, [0, 7], &[(0, 1, "p"), (2, 4, "af"), (5, 7, "12")]),
            (2, [8, 11], &[(0, 1, "7"), (2, 3, "1")]),
        ],
    ),
];

/// Whether a line of a text is cut so.
fn is_cut(text: &str, line: &Line<'_>, cut: &Cut) -> bool {
    let &(number, [start, end], parts) = cut;
    let mut left = fields(line);
    line.number == number
        && line.span.start == start
        && line.span.end == end
        && text.as_bytes().get(start..end) == Some(line.text)
        && parts.iter().all(|&(from, to, text)| {
            left.next().is_some_and(|field| {
                field.span.start == from && field.span.end == to && field.text == text.as_bytes()
            })
        })
        && left.next().is_none()
}

/// Whether a text is cut into these lines.
fn are_cut(text: &str, cuts: &[Cut]) -> bool {
    let mut left = lines(text.as_bytes());
    for cut in cuts {
        match left.next() {
            Some(line) if is_cut(text, &line, cut) => {}
            _ => return false,
        }
    }
    left.next().is_none()
}

#[test]
fn cuts(rt: HostRuntime) {
    for (text, cuts) in CUTS {
        assert!(rt; are_cut(text, cuts), "at {text}");
    }
}

#[test]
fn skips(rt: HostRuntime) {
    let mut left = lines("# 1 2\n \t\r\n 1 #\n#\n\n2\n #2".as_bytes());
    assert!(rt; next_kept(&mut left).is_some_and(|line| line.number == 3));
    assert!(rt; left.next().is_some_and(|line| is_skipped(&line)));
    assert!(rt; next_kept(&mut left).is_some_and(|line| line.number == 6));
    assert!(rt; next_kept(&mut left).is_none());
}

/// Texts, and the number that each is.
const DECIMALS: &[(&str, Option<u32>)] = &[
    ("0", Some(0)),
    ("7", Some(7)),
    ("42", Some(42)),
    ("007", Some(7)),
    ("00000000000000000001", Some(1)),
    ("4294967295", Some(4_294_967_295)),
    ("4294967296", None),
    ("4294967300", None),
    ("12345678901", None),
    ("", None),
    ("x", None),
    ("1x", None),
    ("x1", None),
    ("-1", None),
    ("+1", None),
    (" 1", None),
    ("1/", None),
    ("1:", None),
];

#[test]
fn decimals(rt: HostRuntime) {
    for &(text, expected) in DECIMALS {
        assert!(rt; decimal(text.as_bytes()) == expected, "at {text}");
    }
}

/// The fields of a line, and the number that each is.
const NUMBERS: &[(&str, Option<u32>)] = &[
    ("12", Some(12)),
    ("007", Some(7)),
    ("1234567890", Some(1_234_567_890)),
    ("4294967296", None),
    ("1x", None),
    ("999999999", Some(999_999_999)),
    ("000000000001", Some(1)),
];

#[test]
fn fields_with_numbers(rt: HostRuntime) {
    let text = " 12\t007  1234567890 4294967296 1x 999999999\r000000000001\n";
    let Some(line) = lines(text.as_bytes()).next() else {
        assert!(rt; false, "no line");
        return;
    };
    let mut parts = fields(&line);
    for &(expected, number) in NUMBERS {
        let found = parts.next_number();
        assert!(rt;
            found.is_some_and(|field| field.text == expected.as_bytes() && field.number == number),
            "at {expected}"
        );
    }
    assert!(rt; parts.next_number().is_none());
}
