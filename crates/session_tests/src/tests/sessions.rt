//! Sessions of a script: what they are told, whichever of them takes its turn first.

use argue_outside::NoPace;
use bench_runs::run_script;
use dung_notions::AfPlain;
use edit_rules::Framework;
use lists::{Bytes, Memory};
use script_text::{Script, read_script};
use session_replies::transcript_text;
use std::alloc::{AllocError, Global};
use std::mem::forget;
use std::sync::Wait;
use std::test::Fail;
use std::thread::Threads;

/// 1 and 2, of which neither attacks.
fn framework(alloc: Global) -> Result<Framework, Memory> {
    let plain = AfPlain::of_lists(alloc, &[1, 2], &[])?;
    Ok(Framework::Af(plain))
}

/// The transcript of a script, with 1,000 units for each query. What the run keeps is left to the end of the tests.
fn transcript<R: Threads + Wait + Sync>(
    rt: &R,
    alloc: Global,
    script: &Script,
) -> Result<Bytes, Memory> {
    let opening = framework(alloc)?;
    let told = run_script(rt, alloc, opening, script, 1_000, &NoPace)?;
    let text = transcript_text(alloc, &told.replies, &told.history.entries);
    forget(told);
    text
}

/// The same of a script's text.
fn transcript_of<R: Threads + Wait + Sync>(
    rt: &R,
    alloc: Global,
    script: &str,
) -> Result<Bytes, Fail> {
    let script = read_script(alloc, script.as_bytes(), 1)?;
    Ok(transcript(rt, alloc, &script)?)
}

/// Whether that transcript is one of two texts.
fn is_either<R: Threads + Wait + Sync>(
    rt: &R,
    alloc: Global,
    script: &str,
    texts: (&str, &str),
) -> Result<bool, Fail> {
    let told = transcript_of(rt, alloc, script)?;
    Ok(told.as_slice() == texts.0.as_bytes() || told.as_slice() == texts.1.as_bytes())
}

/// Two sessions add the same attack: one of them is told that it is there, behind the other's entry.
#[test]
fn two_of_one_edit(rt: HostRuntime) -> Result<(), Fail> {
    let script = "1 att 1 2\n2 att 1 2\n";
    let first = "session 1\nat 1\nOK\nsession 2\nat 1\nREFUSED AttackIsThere\nhistory\n1 att 1 2\n";
    let second =
        "session 1\nat 1\nREFUSED AttackIsThere\nsession 2\nat 1\nOK\nhistory\n2 att 1 2\n";
    assert!(rt; is_either(&rt, rt.alloc(), script, (first, second))?);
    Ok(())
}

/// The transcript where eight sessions add the same attack, and one of them comes first.
fn first_of_eight(alloc: Global, first: u32) -> Result<String, AllocError> {
    let mut text = String::new(alloc);
    for session in 1..9u32 {
        let told = if session == first {
            "OK"
        } else {
            "REFUSED AttackIsThere"
        };
        write!(text, "session {session}\nat 1\n{told}\n")?;
    }
    write!(text, "history\n{first} att 1 2\n")?;
    Ok(text)
}

/// Which of eight sessions came first, by the transcript.
fn winner(alloc: Global, told: &[u8]) -> Result<Option<u32>, AllocError> {
    for first in 1..9u32 {
        let wanted = first_of_eight(alloc, first)?;
        if told == wanted.as_bytes() {
            return Ok(Some(first));
        }
    }
    Ok(None)
}

/// Eight sessions add the same attack: all but one are told that it is there.
#[test]
fn eight_of_one_edit(rt: HostRuntime) -> Result<(), Fail> {
    let alloc = rt.alloc();
    let script =
        "1 att 1 2\n2 att 1 2\n3 att 1 2\n4 att 1 2\n5 att 1 2\n6 att 1 2\n7 att 1 2\n8 att 1 2\n";
    let told = transcript_of(&rt, alloc, script)?;
    assert!(rt; winner(alloc, told.as_slice())?.is_some());
    Ok(())
}

/// One session edits while another asks: the answer is of the framework at its front.
#[test]
fn one_asks_meanwhile(rt: HostRuntime) -> Result<(), Fail> {
    let script = "1 att 1 2\n1 ask SE-GR\n2 ask SE-GR\n";
    let before = "session 1\nat 1\nOK\nat 1\nw 1\nsession 2\nat 0\nw 1 2\nhistory\n1 att 1 2\n";
    let behind = "session 1\nat 1\nOK\nat 1\nw 1\nsession 2\nat 1\nw 1\nhistory\n1 att 1 2\n";
    assert!(rt; is_either(&rt, rt.alloc(), script, (before, behind))?);
    Ok(())
}
