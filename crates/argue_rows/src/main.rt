//! Runs the program over files in memory, as `rows.txt` lists it, and prints each row that ends otherwise than it says.
//! A row is data, so that a further one costs no proof.
#![tactic(auto)]

mod given;
mod outcome;
mod sweep;

use given::Given;
use outcome::{run, with_ends, words_of};
use std::alloc::{AllocError, Global};
use std::sync::Wait;
use std::thread::Threads;
use std::{fs, io};

/// How what is asked ends.
fn ended<R: Threads + Wait + Sync>(
    rt: &R,
    alloc: Global,
    given: &Given<'_>,
    asked: &str,
) -> Result<String, AllocError> {
    let certificate = given.certificate(alloc)?;
    if asked == "prefixes" {
        return sweep::prefixes(rt, alloc, given, certificate.as_bytes());
    }
    if asked == "bytes" {
        return sweep::bytes(rt, alloc, given, certificate.as_bytes());
    }
    match asked.split_once(": ") {
        Some((query, answer)) => {
            let words = words_of(alloc, query)?;
            let answer = with_ends(alloc, answer)?;
            run(
                rt,
                alloc,
                words.as_str(),
                given,
                answer.as_str(),
                certificate.as_bytes(),
            )
        }
        None => run(
            rt,
            alloc,
            asked,
            given,
            given.answer,
            certificate.as_bytes(),
        ),
    }
}

/// Whether a run ends as a row says; of two endings that it names either is right.
fn is_expected(found: &str, expected: &str) -> bool {
    match expected.split_once(" | ") {
        Some((one, other)) => found == one || found == other,
        None => found == expected,
    }
}

fn main(rt: HostRuntime) -> io::Result<()> {
    let alloc = rt.alloc();
    let list = fs::read_to_string(&rt, "rows.txt")?;
    let mut given = Given::new();
    let mut rows = 0u64;
    for line in list.as_str().lines() {
        if given.takes(line) {
            continue;
        }
        let (asked, expected) = line.split_once(" => ").unwrap_or((line, ""));
        let found = ended(&rt, alloc, &given, asked)?;
        let expected = given.whole(alloc, expected)?;
        if !is_expected(found.as_str(), expected.as_str()) {
            println!(rt; "{line}: {found}")?;
        }
        given.end_row();
        rows = rows.saturating_add(1);
    }
    println!(rt; "{rows} rows")
}
