//! Refutations as text: what a CNF's text and an LRAT text read as, each fault alone and beside others, and verdicts.

use lrat_text::CnfCause::{BadHeader, BadNumber, ClauseCount, NoHeader, OutOfRange};
use lrat_text::Verdict::{NoEmptyClause, RejectedStep, Verified};
use lrat_text::{
    Cnf, CnfCause, CnfFault, LratCause, LratFault, Verdict, check_lrat, one_reading, one_verdict,
    read_cnf, verified_is_unsatisfiable,
};
use std::alloc::Global;

/// What a short text reads as.
fn read(alloc: Global, text: &str) -> Result<Cnf, CnfFault> {
    let bytes = text.as_bytes();
    if bytes.len() > 1000 {
        return Err(CnfFault::Memory);
    }
    read_cnf(alloc, bytes)
}

/// What is told of two short texts; want of memory stands for a first one that is no CNF.
fn told(alloc: Global, cnf: &str, lrat: &str) -> Result<Verdict, LratFault> {
    let bytes = lrat.as_bytes();
    if bytes.len() > 1000 {
        return Err(LratFault::Memory);
    }
    match read(alloc, cnf) {
        Ok(cnf) => check_lrat(alloc, cnf, bytes),
        Err(_) => Err(LratFault::Memory),
    }
}

/// Texts, and the numbers of variables and of clauses.
const FORMULAS: &[(&str, u32, usize)] = &[
    ("p cnf 0 0", 0, 0),
    ("p cnf 1 2\n1 0\n-1 0\n", 1, 2),
    ("c x\n\n\tp  cnf 2 1\r\nc y\n1\n-2\n c 7\n0", 2, 1),
    ("p cnf 2 3\n1 0 2 0 0", 2, 3),
    ("p cnf 2147483647 0", 2_147_483_647, 0),
    ("p cnf 2147483647 1\n-2147483647 0", 2_147_483_647, 1),
    ("p cnf 007 02\n-007 00 7 7 -7 -0\n", 7, 2),
];

#[test]
fn formulas(rt: HostRuntime) {
    for &(text, vars, count) in FORMULAS {
        let holds = match read(rt.alloc(), text) {
            Ok(cnf) => cnf.vars() == vars && cnf.len() == count,
            Err(_) => false,
        };
        assert!(rt; holds, "at {text}");
    }
}

/// Texts that are no CNF, and the line and the cause of the first fault.
const NO_FORMULAS: &[(&str, usize, CnfCause)] = &[
    ("", 1, NoHeader),
    ("c\n\n", 3, NoHeader),
    ("1 0\np cnf 1 1", 1, NoHeader),
    ("pcnf 1 1", 1, NoHeader),
    ("p", 1, BadHeader),
    ("p cnf 1", 1, BadHeader),
    ("p cnf 1 1 1", 1, BadHeader),
    ("p dnf 1 1", 1, BadHeader),
    ("p cnf -1 0", 1, BadHeader),
    ("c\np cnf 1 x", 2, BadHeader),
    ("p cnf 2147483648 0", 1, BadHeader),
    ("p cnf 0 2147483648", 1, BadHeader),
    ("p cnf 18446744073709551616 0", 1, BadHeader),
    ("p cnf 1 1\n1 x 0", 2, BadNumber),
    ("p cnf 1 1\n--1 0", 2, BadNumber),
    ("p cnf 1 1\n+1 0", 2, BadNumber),
    ("p cnf 1 1\n- 1 0", 2, BadNumber),
    ("p cnf 1 1\n1 0\n%\n0\n", 3, BadNumber),
    ("p cnf 1 1\np cnf 1 1", 2, BadNumber),
    ("p cnf 1 1\n4294967296 0", 2, BadNumber),
    ("p cnf 1 1\n18446744073709551617 0", 2, BadNumber),
    ("p cnf 1 1\n2 0", 2, OutOfRange),
    ("p cnf 1 2\n1 0\n-2 0\n", 3, OutOfRange),
    ("p cnf 1 1\n4294967295 0", 2, OutOfRange),
    ("p cnf 2147483647 1\n2147483648 0", 2, OutOfRange),
    ("p cnf 1 1", 2, ClauseCount),
    ("p cnf 1 1\n1", 3, ClauseCount),
    ("p cnf 1 1\n1 0 1", 3, ClauseCount),
    ("p cnf 1 1\n1 0\n1 0\n", 4, ClauseCount),
    ("p cnf 1 0\n0", 3, ClauseCount),
    ("p cnf 1 1\n2 x 0", 2, BadNumber),
    ("p cnf 1 1\n2 0\nx 0", 2, OutOfRange),
    ("p cnf 1 2\n1 0 2", 2, OutOfRange),
    ("p cnf 1 2\n1 0 x", 2, BadNumber),
];

#[test]
fn no_formulas(rt: HostRuntime) {
    for &(text, line, cause) in NO_FORMULAS {
        let holds = match read(rt.alloc(), text) {
            Ok(_) => false,
            Err(fault) => fault == CnfFault::At { line, cause },
        };
        assert!(rt; holds, "at {text}");
    }
}

// A variable and its negation.
const CLASH: &str = "p cnf 1 2\n1 0\n-1 0\n";

// The same, where the header tells so many variables that only those that occur get room.
const WIDE_CLASH: &str = "p cnf 2147483647 2\n1 0\n-1 0\n";

/// Refutations of the clash, and what is told of each.
const VERDICTS: &[(&str, Verdict)] = &[
    ("3 0 1 2 0", Verified),
    ("3 0 02 01 0", Verified),
    ("2 d 1 0\n3 0 1 2 0", Verified),
    ("3 0 1 2 9 0", Verified),
    ("3 1 0 1 0\n4 0 3 2 0", Verified),
    ("3 1 0 1 0\n3 d 1 2 3 0\n4 0 3 2 0", Verified),
    ("9 1 0 1 0\n4000000000 0 9 2 0", Verified),
    ("4294967295 0 1 2 0", Verified),
    ("3 0 1 2 0\n4 0 1 0", Verified),
    ("c x\r\n\n\t3 1 1 0  1 0\n4 d\n5 0 3 2 0\n", Verified),
    ("3 0 1 0", RejectedStep(3)),
    ("3 0 0", RejectedStep(3)),
    ("3 0 3 0", RejectedStep(3)),
    ("3 0 9 1 2 0", RejectedStep(3)),
    ("3 0 4294967295 1 2 0", RejectedStep(3)),
    ("3 1 -1 0 1 0", RejectedStep(3)),
    ("5 1 0 1 0\n6 0 3 2 0", RejectedStep(6)),
    ("3 0 1 0\n4 0 1 2 0", RejectedStep(3)),
    ("3 -1 0 2 0\n4 1 0 2 0\n5 0 1 2 0", RejectedStep(4)),
    ("", NoEmptyClause),
    ("c\n\n2 d 0", NoEmptyClause),
    ("3 1 0 1 0", NoEmptyClause),
];

// Whether the check of a text with a formula tells this.
fn comes_to(alloc: Global, cnf: &str, lrat: &str, verdict: Verdict) -> bool {
    match told(alloc, cnf, lrat) {
        Ok(found) => found == verdict,
        Err(_) => false,
    }
}

#[test]
fn verdicts(rt: HostRuntime) {
    one_reading();
    one_verdict();
    verified_is_unsatisfiable();
    for &(text, verdict) in VERDICTS {
        assert!(rt; comes_to(rt.alloc(), CLASH, text, verdict), "at {text}");
        assert!(rt;
            comes_to(rt.alloc(), WIDE_CLASH, text, verdict),
            "at {text}, wide"
        );
    }
}

/// Texts that are no refutation of the clash, and the line and the cause of the first fault.
const NO_REFUTATIONS: &[(&str, usize, LratCause)] = &[
    ("3 0 1", 1, LratCause::BadLine),
    ("3 0", 1, LratCause::BadLine),
    ("x", 1, LratCause::BadLine),
    ("3 1 2 0", 1, LratCause::BadLine),
    ("3 0 1 0 2 0", 1, LratCause::BadLine),
    ("0 0 0", 1, LratCause::BadLine),
    ("3 0 1 2 0\n4 0 1 2", 2, LratCause::BadLine),
    ("x 0 1 0", 1, LratCause::BadNumber),
    ("-3 0 1 0", 1, LratCause::BadNumber),
    ("3 x 0 1 0", 1, LratCause::BadNumber),
    ("3 4294967296 0 1 0", 1, LratCause::BadNumber),
    ("c\n3 0 -1 0", 2, LratCause::BadNumber),
    ("4294967296 0 1 2 0", 1, LratCause::BadNumber),
    ("18446744073709551619 0 1 2 0", 1, LratCause::BadNumber),
    ("3 0 4294967297 2 0", 1, LratCause::BadNumber),
    ("3 0 18446744073709551617 2 0", 1, LratCause::BadNumber),
    ("3 2 0 1 0", 1, LratCause::OutOfRange),
    ("3 1 0 1 0\n4 -2 0 1 0", 2, LratCause::OutOfRange),
    ("3 00 0 1 0", 1, LratCause::OutOfRange),
    ("3 -0 0 1 0", 1, LratCause::OutOfRange),
    ("3 4294967295 0 1 0", 1, LratCause::OutOfRange),
    ("2 0 1 2 0", 1, LratCause::IdOrder),
    ("0 1 0", 1, LratCause::IdOrder),
    ("3 1 0 1 0\n3 0 1 2 0", 2, LratCause::IdOrder),
    ("5 1 0 1 0\n4 0 1 2 0", 2, LratCause::IdOrder),
    ("x 2 0 1", 1, LratCause::BadLine),
    ("x 2 0 1 0", 1, LratCause::BadNumber),
    ("2 2 0 x 0", 1, LratCause::BadNumber),
    ("2 2 0 1 0", 1, LratCause::OutOfRange),
    ("2 0 1 2 0\nx", 1, LratCause::IdOrder),
    ("3 0 1 0\nx", 2, LratCause::BadLine),
];

#[test]
fn no_refutations(rt: HostRuntime) {
    for &(text, line, cause) in NO_REFUTATIONS {
        let holds = match told(rt.alloc(), CLASH, text) {
            Ok(_) => false,
            Err(fault) => fault == LratFault::At { line, cause },
        };
        assert!(rt; holds, "at {text}");
    }
}

/// The header's numbers take no memory: here they are the largest, and a variable is the last.
#[test]
fn wide_header(rt: HostRuntime) {
    let wide = "p cnf 2147483647 3\n2147483647 0\n-2147483647 1 0 -1 0";
    let found = told(
        rt.alloc(),
        wide,
        "4 1000000000 -1 0 3 0\n5 2147483646 1 0 1 2 0\n6 0 1 2 3 0",
    );
    assert!(rt; found == Ok(Verified));
}

#[test]
fn names_of_causes(rt: HostRuntime) {
    assert!(rt; NoHeader.name() == "NoHeader" && BadHeader.name() == "BadHeader");
    assert!(rt; BadNumber.name() == "BadNumber" && OutOfRange.name() == "OutOfRange");
    assert!(rt; ClauseCount.name() == "ClauseCount");
    assert!(rt;
        LratCause::BadLine.name() == "BadLine" && LratCause::BadNumber.name() == "BadNumber"
    );
    assert!(rt;
        LratCause::OutOfRange.name() == "OutOfRange" && LratCause::IdOrder.name() == "IdOrder"
    );
}
