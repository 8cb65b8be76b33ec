//! Refutations of accepted certificates as CNFs and LRAT lines.

use certificate_check::check;
use certificate_claims::Certificate;
use certificate_claims::Verdict::Accepted;
use certificate_text::read_certificate;
use edit_rules::Framework;
use framework_text::read_framework;
use iccma_tasks::{Answer, Problem, Query, Semantics, Task};
use lrat_text::Verdict::Verified;
use lrat_text::{check_lrat, read_cnf};
use refutation_logs::{Exported, export_refutation};
use std::alloc::Global;

/// A framework, the task and the number of a query, whether its answer is YES, a certificate, and how many variables,
/// clauses and lines the texts of its first refutation have.
struct Case {
    framework: &'static str,
    task: Task,
    number: u32,
    answer: bool,
    certificate: &'static str,
    numbers: (usize, usize, usize),
}

// Every preferred set has 4. The variables are Ad, Attack:1:3, Member:3, Tail:1:1, Gap:1:1:2, Member:2, Tail:1:3,
// Gap:1:3:1000001, Cf, Attack:2:3, Ask:1, Ask:2, Member:1 and Attack:1:2.
const COVERED: Case = Case {
    framework: "p af 4\n1 2\n2 1\n1 3\n2 3\n3 4\n",
    task: Task {
        problem: Problem::Sceptical,
        semantics: Semantics::Preferred,
    },
    number: 4,
    answer: true,
    certificate: "cert 1\nw 1 4\nw 2 4\nr\na A3 1 3\na A5 1 1 2\na A6 1 3\na A2 2 3\na A14 1\n\
        d -Ad -Member:3 -Attack:1:3 -Attack:2:3 -Gap:1:1:2 -Gap:1:3:1000001 0 5 1 3 2 4\ns 1\ns 2\na A2 1 2\n\
        d -Ad -Ask:1 -Ask:2 -Attack:1:2 -Attack:1:3 -Attack:2:3 -Gap:1:1:2 -Gap:1:3:1000001 0 5 6 7 8 9\nend\n",
    numbers: (14, 16, 3),
};

const COVERED_CNF: &str =
    "p cnf 14 16\n-1 -2 -3 4 0\n-4 -5 6 7 0\n-7 -8 0\n-3 -6 -9 -10 0\n-1 9 0\n3 6 -11 0\n\
    3 -12 13 0\n-6 -9 -13 -14 0\n1 0\n2 0\n5 0\n8 0\n10 0\n11 0\n12 0\n14 0\n";

const COVERED_LRAT: &str = "17 -1 -2 -3 -5 -8 -10 0 5 1 3 2 4 0\n\
    18 -1 -2 -5 -8 -10 -11 -12 -14 0 5 17 6 7 8 0\n19 0 9 10 11 12 13 14 15 16 18 0\n";

// No stable set derives 3, by a loop of two rules.
const LOOP: Case = Case {
    framework: "p aba 4\na 1\na 2\nc 1 3\nc 2 4\nr 3 4\nr 4 3\n",
    task: Task {
        problem: Problem::Credulous,
        semantics: Semantics::Stable,
    },
    number: 3,
    answer: false,
    certificate: "cert 1\nr\na B17 1 3 2 3 4 1 1 4 1 2 3\na B1 3\na B1 4\na B16 1\na B16 2\na B16 3\n\
        d -St -Der:1:3 Asm:3 Asm:4 -HGap:3:2:1000001 -Body:1:4 -HGap:4:1:2 -HGap:4:3:1000001 -Body:2:3 0 \
        6 5 4 2 3 1\nend\n",
    numbers: (14, 15, 2),
};

/// The framework of a short text.
fn framework_of(alloc: Global, text: &str) -> Option<Framework> {
    let bytes = text.as_bytes();
    if bytes.len() > 1000 {
        return None;
    }
    read_framework(alloc, bytes).ok()
}

/// The certificate of a short text.
fn certificate_of(alloc: Global, text: &str) -> Option<Certificate> {
    let bytes = text.as_bytes();
    if bytes.len() > 1000 {
        return None;
    }
    read_certificate(alloc, bytes).ok()
}

/// The first refutation as texts, where the certificate is accepted and has one.
fn first_exported(
    alloc: Global,
    framework: &Framework,
    query: &Query,
    answer: &Answer,
    certificate: &Certificate,
) -> Option<Exported> {
    if certificate.refutations.is_empty() {
        return None;
    }
    match check(alloc, framework, query, answer, certificate) {
        Ok(Accepted) => export_refutation(alloc, framework, query, answer, certificate, 0).ok(),
        _ => None,
    }
}

/// The texts of a case.
fn exported(alloc: Global, case: &Case) -> Option<Exported> {
    let framework = framework_of(alloc, case.framework)?;
    let certificate = certificate_of(alloc, case.certificate)?;
    let query = Query::new(case.task, Some(case.number))?;
    let answer = if case.answer {
        Answer::Yes(None)
    } else {
        Answer::No(None)
    };
    first_exported(alloc, &framework, &query, &answer, &certificate)
}

/// Whether short texts are read and verified.
fn is_verified(alloc: Global, texts: &Exported) -> bool {
    let (cnf, lrat) = (texts.written.cnf.as_slice(), texts.written.lrat.as_slice());
    if cnf.len() > 1000 || lrat.len() > 1000 {
        return false;
    }
    match read_cnf(alloc, cnf) {
        Ok(cnf) => check_lrat(alloc, cnf, lrat) == Ok(Verified),
        Err(_) => false,
    }
}

/// Whether the numbers of texts are those of their case, and they are verified.
fn holds(alloc: Global, case: &Case, texts: &Exported) -> bool {
    let numbers = (texts.vars, texts.written.clauses, texts.written.lines);
    numbers == case.numbers && is_verified(alloc, texts)
}

/// Whether a case with a side clause gives these texts.
fn covered(alloc: Global) -> bool {
    let Some(texts) = exported(alloc, &COVERED) else {
        return false;
    };
    let same = texts.written.cnf.as_slice() == COVERED_CNF.as_bytes()
        && texts.written.lrat.as_slice() == COVERED_LRAT.as_bytes();
    same && holds(alloc, &COVERED, &texts)
}

/// Whether a case with rules gives as many variables, clauses and lines.
fn looped(alloc: Global) -> bool {
    match exported(alloc, &LOOP) {
        Some(texts) => holds(alloc, &LOOP, &texts),
        None => false,
    }
}

#[test]
fn exports(rt: HostRuntime) {
    let (covered, looped) = (covered(rt.alloc()), looped(rt.alloc()));
    assert!(rt; covered);
    assert!(rt; looped);
}
